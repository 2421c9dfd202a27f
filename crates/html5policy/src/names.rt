//! Names of which no policy decides.
ghost use Rattle.std.specs.Prelude.{◌≡◌, map, string_bytes};
ghost use Rattle.std.specs.List.{list_all};
ghost use Rattle.html5policy.specs.Names.{acts_on_page, always_hides, has_place, is_address, is_address_now, is_address_of_old, is_address_somewhere, is_never_kept, is_one_of, is_rel_byte, is_rel_word, is_scheme, is_scheme_byte, runs_address};

use html5tree::kinds::Kind;
use html5tree::names::ElementName;
use std::alloc::Allocator;

/// Whether a name is one of these.
#[tactic(auto, unfolding(crate::specs::Names::is_one_of))]
pub fn is_one_of<A: Allocator>(names: &[String<A>], name: &str) -> bool
    ensures { result ≡ is_one_of (map string_bytes names.now) name.now }
{
    for other in names {
        if other.as_str() == name {
            return true;
        }
    }
    false
}

/// Whether a name is one of these, where it may be the one at a place that was guessed.
#[tactic(auto, unfolding(crate::specs::Names::is_one_of))]
pub fn is_one_of_by_guess<A: Allocator>(names: &[String<A>], guess: usize, name: &str) -> bool
    ensures { result ≡ is_one_of (map string_bytes names.now) name.now }
{
    if guess < names.len() && names[guess].as_str() == name {
        return true;
    }
    is_one_of(names, name)
}

/// Whether an element of this name is dropped with its content, by each policy.
#[tactic(auto, unfolding(crate::specs::Names::always_hides))]
pub fn always_hides(name: &str) -> bool
    ensures { result ≡ always_hides name.now }
{
    // Most names have another length.
    match name.len() {
        3 => matches!(name, "svg" | "xmp"),
        4 => name == "math",
        5 => matches!(name, "style" | "title"),
        6 => matches!(name, "iframe" | "script"),
        7 => name == "noembed",
        8 => matches!(name, "noframes" | "noscript" | "template" | "textarea"),
        9 => name == "plaintext",
        _ => false,
    }
}

/// Whether no policy keeps an element of this name, since it acts on more than the place where it stands.
#[tactic(auto, unfolding(crate::specs::Names::acts_on_page))]
pub fn acts_on_page(name: &str) -> bool
    ensures { result ≡ acts_on_page name.now }
{
    matches!(
        name,
        "applet"
            | "base"
            | "body"
            | "embed"
            | "frame"
            | "frameset"
            | "head"
            | "html"
            | "image"
            | "link"
            | "meta"
            | "object"
            | "param"
    )
}

/// Whether tree construction is defined for an element of this name.
#[tactic(auto, unfolding(crate::specs::Names::has_place))]
pub fn has_place(name: &str) -> bool
    ensures { result ≡ has_place name.now }
{
    match ElementName::find(name) {
        Some(name) => !matches!(name.kind(), Kind::Unknown),
        None => false,
    }
}

/// Whether it is of each of these names.
pub fn have_places<A: Allocator>(names: &[String<A>]) -> bool
    ensures { result ≡ list_all has_place (map string_bytes names.now) }
{
    for name in names {
        if !has_place(name.as_str()) {
            return false;
        }
    }
    true
}

/// Whether no policy keeps an attribute of this name: it runs scripts, holds no single address, or changes
/// what addresses are relative to.
#[tactic(auto, unfolding(crate::specs::Names::is_never_kept))]
pub fn is_never_kept(name: &str) -> bool
    ensures { result ≡ is_never_kept name.now }
{
    name.starts_with("on")
        || matches!(
            name,
            "archive"
                | "attributionsrc"
                | "imagesrcset"
                | "ping"
                | "srcdoc"
                | "srcset"
                | "style"
                | "values"
                | "xml:base"
        )
}

// Attributes of the standard that hold an address.
#[tactic(auto, unfolding(crate::specs::Names::is_address_now))]
fn is_address_now(name: &str) -> bool
    ensures { result ≡ is_address_now name.now }
{
    matches!(
        name,
        "action"
            | "cite"
            | "data"
            | "formaction"
            | "href"
            | "itemid"
            | "poster"
            | "src"
            | "xlink:href"
    )
}

// And older ones.
#[tactic(auto, unfolding(crate::specs::Names::is_address_of_old))]
fn is_address_of_old(name: &str) -> bool
    ensures { result ≡ is_address_of_old name.now }
{
    matches!(
        name,
        "background"
            | "classid"
            | "codebase"
            | "dynsrc"
            | "icon"
            | "longdesc"
            | "lowsrc"
            | "manifest"
            | "profile"
            | "usemap"
    )
}

// And those that hold one in some elements, or in another namespace.
#[tactic(auto, unfolding(crate::specs::Names::is_address_somewhere))]
fn is_address_somewhere(name: &str) -> bool
    ensures { result ≡ is_address_somewhere name.now }
{
    matches!(name, "by" | "code" | "content" | "from" | "to")
}

/// Whether the value of an attribute of this name is an address.
#[tactic(auto, unfolding(crate::specs::Names::is_address))]
pub fn is_address(name: &str) -> bool
    ensures { result ≡ is_address name.now }
{
    is_address_now(name) || is_address_of_old(name) || is_address_somewhere(name)
}

// Whether a byte can stand in a word of `rel`.
fn is_rel_byte(byte: u8) -> bool
    ensures { result ≡ is_rel_byte byte }
{
    byte.is_ascii_lowercase() || byte.is_ascii_uppercase() || byte.is_ascii_digit() || byte == b'-'
}

// Whether each byte can.
fn has_rel_bytes(bytes: &[u8]) -> bool
    ensures { result ≡ list_all is_rel_byte bytes.now }
{
    bytes.iter().all(|byte| is_rel_byte(*byte))
}

/// Whether a text is a word of `rel`: letters and digits of ASCII, and hyphens.
#[tactic(auto, unfolding(crate::specs::Names::is_rel_word))]
pub fn is_rel_word(word: &str) -> bool
    ensures { result ≡ is_rel_word word.now }
{
    match word.as_bytes().split_first() {
        Some((first, others)) => is_rel_byte(*first) && has_rel_bytes(others),
        None => false,
    }
}

// Whether a byte can stand in a scheme.
fn is_scheme_byte(byte: u8) -> bool
    ensures { result ≡ is_scheme_byte byte }
{
    byte.is_ascii_lowercase() || byte.is_ascii_digit() || matches!(byte, b'+' | b'-' | b'.')
}

// Whether each byte can.
fn has_scheme_bytes(bytes: &[u8]) -> bool
    ensures { result ≡ list_all is_scheme_byte bytes.now }
{
    bytes.iter().all(|byte| is_scheme_byte(*byte))
}

/// Whether a text is a scheme, in small letters and without its colon.
#[tactic(auto, unfolding(crate::specs::Names::is_scheme))]
pub fn is_scheme(scheme: &str) -> bool
    ensures { result ≡ is_scheme scheme.now }
{
    match scheme.as_bytes().split_first() {
        Some((letter, others)) => letter.is_ascii_lowercase() && has_scheme_bytes(others),
        None => false,
    }
}

/// Whether an address of this scheme runs its content, or names what a page made itself.
#[tactic(auto, unfolding(crate::specs::Names::runs_address))]
pub fn runs_address(scheme: &str) -> bool
    ensures { result ≡ runs_address scheme.now }
{
    matches!(
        scheme,
        "javascript" | "vbscript" | "data" | "blob" | "filesystem" | "view-source"
    )
}
