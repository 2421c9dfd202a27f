//! Hints: the encoding that a tag names.
ghost use Rattle.std.specs.Prelude.{◌≡◌, ◌<◌, ◌==◌, length, map, option_map, IfSome};
ghost use Rattle.std.specs.List.{position};
ghost use Rattle.std.specs.Str.{str_eq_ignore_ascii_case};
ghost use Rattle.markup5ever.specs.Names.{attribute_of};
ghost use Rattle.html5ever_interface.specs.Token.{tag_of};
ghost use Rattle.html5encodings.specs.Encodings.{encoding_of, without_leading};
ghost use Rattle.html5sniffing.specs.Meta.{after_charset_equals, after_equals, after_first_charset_equals, begins_with_charset, encoding_by_pragma, encoding_in, encoding_named, is_separator, label_at, label_in, meant_by, meta_encoding, says_content_type, up_to_quote, up_to_separator, value_of};

use html5encodings::{Encoding, SingleByte};
use html5ever_interface::interface::token::Tag;
use html5sinks::tags::is_start_of;
use markup5ever::interface::Attribute;
use std::alloc::Allocator;

const CHARSET_LEN: usize = 7;

// Whether two texts are one in any ASCII case.
fn is_one_word(bytes: &[u8], word: &[u8]) -> bool
    ensures { result ≡ str_eq_ignore_ascii_case bytes.now word.now }
{
    bytes.eq_ignore_ascii_case(word)
}

// The bytes without leading ASCII white space.
fn trimmed(bytes: &[u8]) -> &[u8]
    ensures { result.now ≡ without_leading bytes.now }
{
    bytes.trim_ascii_start()
}

// Whether the word `charset` is at the front.
fn begins_with_charset(bytes: &[u8]) -> bool
    ensures { result ≡ begins_with_charset bytes.now }
{
    let front = CHARSET_LEN.min(bytes.len());
    is_one_word(&bytes[..front], b"charset")
}

// The bytes after an equals sign at the front.
fn after_equals(bytes: &[u8]) -> Option<&[u8]>
    ensures { option_map (λ rest. rest.now) result ≡ after_equals bytes.now }
{
    let [first, rest @ ..] = bytes else {
        return None;
    };
    if *first == b'=' {
        Some(trimmed(rest))
    } else {
        None
    }
}

// The bytes after the word `charset` and an equals sign at the front.
fn after_charset_equals(bytes: &[u8]) -> Option<&[u8]>
    ensures { option_map (λ rest. rest.now) result ≡ after_charset_equals bytes.now }
{
    if !begins_with_charset(bytes) {
        return None;
    }
    let front = CHARSET_LEN.min(bytes.len());
    after_equals(trimmed(&bytes[front..]))
}

// The same at the first place where they are.
#[tactic(auto, unfolding(crate::specs::Meta::after_first_charset_equals))]
fn after_first_charset_equals(mut bytes: &[u8]) -> Option<&[u8]>
    ensures { option_map (λ rest. rest.now) result ≡ after_first_charset_equals bytes.entry.now }
{
    while let [_, rest @ ..] = bytes {
        if let Some(after) = after_charset_equals(bytes) {
            return Some(after);
        }
        bytes = rest;
    }
    None
}

// The place of the first quote.
fn quote_in(quote: u8, bytes: &[u8]) -> Option<usize>
    ensures place { result ≡ position (λ byte. byte == quote) bytes.now }
    ensures within { IfSome result (λ place. place < length bytes.now) }
{
    bytes.iter().position(|byte| *byte == quote)
}

/// The bytes up to the first one that is this quote.
pub(crate) fn up_to_quote(quote: u8, bytes: &[u8]) -> Option<&[u8]>
    ensures { option_map (λ label. label.now) result ≡ up_to_quote quote bytes.now }
{
    match quote_in(quote, bytes) {
        Some(len) => Some(&bytes[..len]),
        None => None,
    }
}

fn is_separator(byte: u8) -> bool
    ensures { result ≡ is_separator byte }
{
    byte.is_ascii_whitespace() || byte == b';'
}

// The place of the first white space or semicolon.
fn separator_in(bytes: &[u8]) -> Option<usize>
    ensures place { result ≡ position is_separator bytes.now }
    ensures within { IfSome result (λ place. place < length bytes.now) }
{
    bytes.iter().position(|byte| is_separator(*byte))
}

// The bytes up to the first white space or semicolon, or all.
fn up_to_separator(bytes: &[u8]) -> &[u8]
    ensures { result.now ≡ up_to_separator bytes.now }
{
    match separator_in(bytes) {
        Some(len) => &bytes[..len],
        None => bytes,
    }
}

// A label at the front.
fn label_at(bytes: &[u8]) -> Option<&[u8]>
    ensures { option_map (λ label. label.now) result ≡ label_at bytes.now }
{
    let [first, rest @ ..] = bytes else {
        return None;
    };
    if matches!(*first, b'"' | b'\'') {
        up_to_quote(*first, rest)
    } else {
        Some(up_to_separator(bytes))
    }
}

// The label that the content of a meta element has.
fn label_in(content: &[u8]) -> Option<&[u8]>
    ensures { option_map (λ label. label.now) result ≡ label_in content.now }
{
    label_at(after_first_charset_equals(content)?)
}

/// The encoding that the bytes of a label name. A label that is not text names none.
pub fn encoding_of(label: &[u8]) -> Option<Encoding>
    ensures { result ≡ encoding_of label.now }
{
    match str::from_utf8(label) {
        Ok(text) => Encoding::for_label(text),
        Err(_) => None,
    }
}

// The encoding that the content of a meta element names.
fn encoding_in(content: &[u8]) -> Option<Encoding>
    ensures { result ≡ encoding_in content.now }
{
    encoding_of(label_in(content)?)
}

// The value of the first attribute of this name.
#[tactic(auto, unfolding(crate::specs::Meta::value_of))]
fn value_of<'t, A: Allocator>(attributes: &'t [Attribute<A>], name: &str) -> Option<&'t str>
    ensures { option_map (λ value. value.now) result
        ≡ value_of name.now (map attribute_of attributes.now) }
{
    for attribute in attributes {
        if attribute.name.local.0.as_str() == name {
            return Some(attribute.value.as_str());
        }
    }
    None
}

// Whether `content` has the type of the page.
fn says_content_type<A: Allocator>(attributes: &[Attribute<A>]) -> bool
    ensures { result ≡ says_content_type (map attribute_of attributes.now) }
{
    match value_of(attributes, "http-equiv") {
        Some(value) => is_one_word(value.as_bytes(), b"content-type"),
        None => false,
    }
}

// The encoding of `content` where it has the type of the page.
fn encoding_by_pragma<A: Allocator>(attributes: &[Attribute<A>]) -> Option<Encoding>
    ensures { result ≡ encoding_by_pragma (map attribute_of attributes.now) }
{
    if !says_content_type(attributes) {
        return None;
    }
    encoding_in(value_of(attributes, "content")?.as_bytes())
}

// The encoding that the attributes of a meta element name.
fn encoding_named<A: Allocator>(attributes: &[Attribute<A>]) -> Option<Encoding>
    ensures { result ≡ encoding_named (map attribute_of attributes.now) }
{
    match value_of(attributes, "charset") {
        Some(label) => Encoding::for_label(label),
        None => encoding_by_pragma(attributes),
    }
}

// Which encoding a hint means.
fn meant_by(hint: Encoding) -> Encoding
    ensures { result ≡ meant_by hint }
{
    match hint {
        Encoding::Utf16Be | Encoding::Utf16Le => Encoding::Utf8,
        Encoding::XUserDefined => Encoding::SingleByte(SingleByte::Windows1252),
        other => other,
    }
}

/// The encoding that a tag is a hint of: a start tag named `meta`, by its `charset`, or without one by its
/// `content` where its `http-equiv` is `content-type`.
pub fn meta_encoding<A: Allocator>(tag: &Tag<A>) -> Option<Encoding>
    ensures { result ≡ meta_encoding (tag_of tag.now) }
{
    if !is_start_of(tag, "meta") {
        return None;
    }
    Some(meant_by(encoding_named(&tag.attrs)?))
}
