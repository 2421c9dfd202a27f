//! Pages as they are written token by token.
ghost use Rattle.std.specs.Prelude.{◌≡◌, ◌++◌, encode_utf8_all, map, string_bytes, OnErr, OnOk};
ghost use Rattle.html5ever_interface.specs.Token.{tag_of, told_by};
ghost use Rattle.html5serialize.specs.Page.{page_text, place_after, place_of, raw_text_by, text_at};
ghost use Rattle.html5serialize.specs.Scripting.{reply_by};
ghost use Rattle.html5serialize.specs.declared.page_writer.Place.TheVariants as place;

use crate::escaping::{Escapes, push_text_by};
use crate::raw_texts::push_as_it_is;
use crate::scripting::reply_by;
use crate::tags::push_tag_by;
use crate::tokens::push_token;
use html5ever_interface::interface::token::{Tag, Token, TokenSinkResult};
use html5ever_interface::states::RawKind;
use std::alloc::{AllocError, Allocator};
use std::marker::Model;

/// Where the next token of a page stands.
#[derive(Clone, Copy, Debug, PartialEq, Eq)]
pub enum Place {
    /// Between tags, where references and markup are read.
    Data,
    /// In raw text of this kind, up to its end tag.
    RawText(RawKind),
    /// In plain text, up to the end of the page.
    PlainText,
}

/// How a page is written. `PageOptions::default()` is without scripting, and escapes by number.
#[derive(Clone, Copy, Debug, PartialEq, Eq)]
pub struct PageOptions {
    /// Whether the page is read where scripting is enabled, as that was which told its tokens.
    pub scripting: bool,
    /// How the characters of its texts and of the values of its tags are escaped.
    pub escapes: Escapes,
}

impl Default for PageOptions {
    ghost use Rattle.std.specs.Prelude.{◌≡◌};
    ghost use Rattle.html5serialize.specs.Page.{default_options};

    ghost is_default = { λ options. options ≡ default_options };

    fn default() -> PageOptions {
        PageOptions {
            scripting: false,
            escapes: Escapes::Numbers,
        }
    }
}

/// Writes the tokens of a page one after another, each as it is to be read where it stands: in a `script`
/// as it is, in a `textarea` escaped, after `plaintext` as it is. A `noscript` has markup, and where scripting
/// is enabled raw text.
///
/// ```
/// let mut page = PageWriter::new(PageOptions::default());
/// let mut out = String::new(alloc);
/// for (token, _) in tokens.entries() {
///     page.push(&mut out, token)?;
/// }
/// ```
#[derive(Clone, Copy, Debug, PartialEq, Eq)]
pub struct PageWriter {
    place: Place,
    options: PageOptions,
}

impl Model for PageWriter {
    ghost use Rattle.html5serialize.specs.Page.{PageOf};

    ghost Value = { PageOf };

    ghost view = { λ writer. record { place = writer.place; options = writer.options } };

    ghost inverse = { λ page. record { place = page.place; options = page.options } };
}

impl PageWriter {
    /// A writer of a page from its beginning on.
    pub fn new(options: PageOptions) -> PageWriter
        ensures place { result.place ≡ place.Data }
        ensures options { result.options ≡ options }
    {
        PageWriter {
            place: Place::Data,
            options,
        }
    }

    /// Where the next token stands.
    pub fn place(&self) -> Place
        ensures { result ≡ self.now.place }
    {
        self.place
    }

    /// How the page is written.
    pub fn options(&self) -> PageOptions
        ensures { result ≡ self.now.options }
    {
        self.options
    }

    /// Appends the next token of the page, whether it can be written or not. On Err a part of it may stand in
    /// `out`, and the place is still that before it.
    pub fn push<A: Allocator>(
        &mut self,
        out: &mut String<A>,
        token: &Token<A>,
    ) -> Result<(), AllocError>
        ensures written { OnOk result (string_bytes out.new
            ≡ string_bytes out.old ++ encode_utf8_all (text_at self.old.options.escapes self.old.place (told_by token.now))) }
        ensures place { OnOk result (self.new.place ≡ place_after self.old.options.scripting self.old.place (told_by token.now)) }
        ensures options { self.new.options ≡ self.old.options }
        ensures unchanged { OnErr result (self.new ≡ self.old) }
    {
        push_at(self.options.escapes, self.place, out, token)?;
        self.place = place_after(self.options.scripting, self.place, token);
        Ok(())
    }
}

/// Appends a page of these tokens, from its beginning on. On Err a part of it may stand there.
#[tactic(auto, unfolding(crate::specs::Page::page_text_from))]
pub fn push_page<A: Allocator>(
    out: &mut String<A>,
    tokens: &[Token<A>],
    options: PageOptions,
) -> Result<(), AllocError>
    ensures { OnOk result (string_bytes out.new
        ≡ string_bytes out.old ++ encode_utf8_all (page_text options (map told_by tokens.now))) }
{
    let mut page = PageWriter::new(options);
    for token in tokens {
        page.push(out, token)?;
    }
    Ok(())
}

// Appends a text as raw text of this kind.
fn push_raw_text_by<A: Allocator>(
    out: &mut String<A>,
    escapes: Escapes,
    kind: RawKind,
    text: &str,
) -> Result<(), AllocError>
    ensures { OnOk result (string_bytes out.new
        ≡ string_bytes out.old ++ encode_utf8_all (raw_text_by escapes kind text.now)) }
{
    match kind {
        RawKind::Rcdata => push_text_by(out, escapes, text),
        RawKind::Rawtext | RawKind::ScriptData | RawKind::ScriptDataEscaped(_) => {
            push_as_it_is(out, text)
        }
    }
}

// Appends a token as it is to be read there.
#[tactic(auto, unfolding(crate::specs::Page::text_at))]
fn push_at<A: Allocator>(
    escapes: Escapes,
    place: Place,
    out: &mut String<A>,
    token: &Token<A>,
) -> Result<(), AllocError>
    ensures { OnOk result (string_bytes out.new
        ≡ string_bytes out.old ++ encode_utf8_all (text_at escapes place (told_by token.now))) }
{
    match (place, token) {
        (Place::Data, Token::CharacterTokens(text)) => push_text_by(out, escapes, text),
        (Place::RawText(kind), Token::CharacterTokens(text)) => {
            push_raw_text_by(out, escapes, kind, text)
        }
        (Place::PlainText, Token::CharacterTokens(text)) => push_as_it_is(out, text),
        (_, Token::TagToken(tag)) => push_tag_by(out, escapes, tag),
        _ => push_token(out, token),
    }
}

// The place after a tag, if it is not plain text.
fn place_after_tag<A: Allocator>(scripting: bool, tag: &Tag<A>) -> Place
    ensures { result ≡ place_of (reply_by scripting (tag_of tag.now)) }
{
    match reply_by(scripting, tag) {
        TokenSinkResult::RawData(kind) => Place::RawText(kind),
        TokenSinkResult::Plaintext => Place::PlainText,
        _ => Place::Data,
    }
}

// The place after a token.
#[tactic(auto, unfolding(crate::specs::Page::place_after))]
fn place_after<A: Allocator>(scripting: bool, place: Place, token: &Token<A>) -> Place
    ensures { result ≡ place_after scripting place (told_by token.now) }
{
    match (place, token) {
        (Place::PlainText, _) => Place::PlainText,
        (_, Token::TagToken(tag)) => place_after_tag(scripting, tag),
        _ => place,
    }
}
