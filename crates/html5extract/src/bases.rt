//! Where the links of a page lead from.
ghost use Rattle.std.specs.Prelude.{◌≡◌, false, IfOk, None, OnErr, OnOk, Some, option_map, string_bytes};
ghost use Rattle.html5ever_interface.specs.Token.{tag_of};
ghost use Rattle.html5extract.specs.Bases.{base_href, bases_after, bases_asked, frozen_base, bases_by_word, is_refused_base, leads_to, named_by, no_bases, page_bases, shown_or, url_at, with_named};
ghost use Rattle.html5programs.specs.Words.{asked_by};
ghost use Rattle.url.specs.Parser.{IsOutOfRoom};

use crate::links::value_of;
use html5ever_interface::interface::token::Tag;
use html5programs::Words;
use html5sinks::tags::is_start_of;
use std::alloc::{AllocError, Allocator, Global};
use thiserror::Error;
use url::{ParseError, Url};

/// Why a word is no URL that pages are at.
#[derive(Clone, Copy, Debug, Error)]
pub enum BaseError {
    #[error("out of memory")]
    Memory,
    #[error("not an absolute URL: {0}")]
    NoUrl(ParseError),
}

/// The URL that a page is at, and the one that it names for its links.
#[derive(Drop)]
pub struct Bases {
    /// The URL of the page, where links are resolved.
    pub fallback: Option<Url>,
    /// That of the first `<base href>` so far.
    pub found: Option<Url>,
}

// Whether URLs of this scheme are no base.
fn is_refused_base(scheme: &str) -> bool
    ensures { result ≡ is_refused_base scheme.now }
{
    matches!(scheme, "data" | "javascript")
}

// Whether the parser had no room for a URL, so that its text may be one.
fn is_out_of_room(error: ParseError) -> bool
    ensures { result ≡ false → ¬ (IsOutOfRoom error) }
{
    matches!(error, ParseError::OutOfMemory | ParseError::Overflow)
}

// The URL that an address is from a base, if it is one.
#[tactic(auto, unfolding(crate::specs::Bases::leads_to))]
fn leads_to(base: &Url, address: &str) -> Result<Option<Url>, AllocError>
    ensures { IfOk result (λ url. url ≡ leads_to (Some base.now) address.now) }
{
    match base.join(address) {
        Ok(url) => Ok(Some(url)),
        Err(error) if is_out_of_room(error) => Err(AllocError),
        Err(_) => Ok(None),
    }
}

// The URL that a word is by itself.
#[tactic(auto, unfolding(crate::specs::Bases::leads_to))]
fn url_of_word(alloc: Global, word: &str) -> Result<Url, ParseError>
    ensures { IfOk result (λ url. leads_to None word.now ≡ Some url) }
{
    Url::parse(alloc, word)
}

// What an `href` is by the fallback base URL, or else that itself.
fn frozen_base(fallback: &Url, href: &str) -> Result<Url, AllocError>
    ensures { IfOk result (λ url. url ≡ frozen_base fallback.now href.now) }
{
    match leads_to(fallback, href)? {
        Some(url) if !is_refused_base(url.scheme()) => Ok(url),
        _ => fallback.clone(),
    }
}

// The `href` of a `<base>`.
fn base_href<A: Allocator>(tag: &Tag<A>) -> Option<&String<A>>
    ensures { option_map (λ href. string_bytes href.now) result ≡ base_href (tag_of tag.now) }
{
    if is_start_of(tag, "base") {
        return value_of(&tag.attrs, "href");
    }
    None
}

/// A resolved address, or else the unchanged address.
pub fn shown<'a>(url: &'a Option<Url>, address: &'a str) -> &'a str
    ensures { result.now ≡ shown_or address.now url.now }
{
    match url {
        Some(url) => url.as_str(),
        None => address,
    }
}

impl Bases {
    /// Where a page begins.
    pub fn at_page(self) -> Bases
        ensures { result ≡ page_bases self }
    {
        Bases {
            fallback: self.fallback,
            found: None,
        }
    }

    /// Where a page begins, as a copy.
    pub fn for_page(&self) -> Result<Bases, AllocError>
        ensures { IfOk result (λ bases. bases ≡ page_bases self.now) }
    {
        let fallback = match &self.fallback {
            Some(url) => Some(url.clone()?),
            None => None,
        };
        Ok(Bases {
            fallback,
            found: None,
        })
    }

    /// The URL that a tag names for the links of the page, when none was named before it: the first `<base>` with an
    /// `href` counts, where the page has a URL.
    pub fn named_by<A: Allocator>(&self, tag: &Tag<A>) -> Result<Option<Url>, AllocError>
        ensures { IfOk result (λ url. url ≡ named_by self.now (tag_of tag.now)) }
    {
        if self.found.is_some() {
            return Ok(None);
        }
        let Some(fallback) = &self.fallback else {
            return Ok(None);
        };
        let Some(href) = base_href(tag) else {
            return Ok(None);
        };
        Ok(Some(frozen_base(fallback, href.as_str())?))
    }

    /// From the URL that was named, if one was.
    pub fn found_at(&mut self, named: Option<Url>)
        ensures { self.new ≡ with_named self.old named }
    {
        if let Some(url) = named {
            self.found = Some(url);
        }
    }

    /// Takes note of a tag.
    pub fn take_tag<A: Allocator>(&mut self, tag: &Tag<A>) -> Result<(), AllocError>
        ensures ok { OnOk result (self.new ≡ bases_after self.old (tag_of tag.now)) }
        ensures err { OnErr result (self.new ≡ self.old) }
    {
        let named = self.named_by(tag)?;
        self.found_at(named);
        Ok(())
    }

    /// The URL that an address leads to, if it is one. Without a base none is parsed.
    pub fn url_of(&self, address: &str) -> Result<Option<Url>, AllocError>
        ensures { IfOk result (λ url. url ≡ url_at self.now address.now) }
    {
        match (&self.found, &self.fallback) {
            (Some(base), _) | (None, Some(base)) => leads_to(base, address),
            (None, None) => Ok(None),
        }
    }
}

// No base: links are printed as they are written.
fn no_bases() -> Bases
    ensures { result ≡ no_bases }
{
    Bases {
        fallback: None,
        found: None,
    }
}

/// At the URL that a word is, or at none if there is no word.
pub fn bases_at(alloc: Global, word: Option<&str>) -> Result<Bases, BaseError>
    ensures { IfOk result (λ bases. bases_by_word (option_map (λ word. word.now) word.entry) ≡ Some bases) }
{
    let Some(word) = word else {
        return Ok(no_bases());
    };
    match url_of_word(alloc, word) {
        Ok(url) => Ok(Bases {
            fallback: Some(url),
            found: None,
        }),
        Err(ParseError::OutOfMemory) => Err(BaseError::Memory),
        Err(fault) => Err(BaseError::NoUrl(fault)),
    }
}

/// The URL that words say pages are at, or none.
pub fn bases_asked(alloc: Global, words: &Words<'_>) -> Result<Bases, BaseError>
    ensures { IfOk result (λ bases. bases_asked (asked_by words.now) ≡ Some bases) }
{
    bases_at(alloc, words.value("--base"))
}
