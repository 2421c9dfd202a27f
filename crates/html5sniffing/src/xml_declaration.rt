//! The encoding that an XML declaration at the front of a page names.
ghost use Rattle.std.specs.Prelude.{◌≡◌, ◌<◌, length, option_map, IfSome, Some};
ghost use Rattle.std.specs.List.{list_all, position};
ghost use Rattle.html5sniffing.specs.XmlDeclaration.{after_encoding, after_front, declaration, declared_as, declared_label, from_visible, is_visible, label_after_equals, quoted_label, utf16_declared, visible_label, xml_encoding};

use crate::meta::{encoding_of, up_to_quote};
use html5encodings::Encoding;

// `<?x` in UTF-16.
const LITTLE_ENDIAN: [u8; 6] = [0x3C, 0, 0x3F, 0, 0x78, 0];

const BIG_ENDIAN: [u8; 6] = [0, 0x3C, 0, 0x3F, 0, 0x78];

/// The encoding of bytes that begin with `<?x` in UTF-16.
#[tactic(auto, unfolding(crate::specs::XmlDeclaration::utf16_declared))]
pub(crate) fn utf16_declared(bytes: &[u8]) -> Option<Encoding>
    ensures { result ≡ utf16_declared bytes.now }
{
    if bytes.starts_with(&LITTLE_ENDIAN) {
        Some(Encoding::Utf16Le)
    } else if bytes.starts_with(&BIG_ENDIAN) {
        Some(Encoding::Utf16Be)
    } else {
        None
    }
}

// The bytes after these at the front.
fn after_front<'t>(front: &[u8], bytes: &'t [u8]) -> Option<&'t [u8]>
    ensures { option_map (λ rest. rest.now) result ≡ after_front front.now bytes.now }
{
    if bytes.starts_with(front) {
        Some(&bytes[front.len()..])
    } else {
        None
    }
}

// The declaration: from `<?xml` at the front up to the first `>`.
fn declaration(bytes: &[u8]) -> Option<&[u8]>
    ensures { option_map (λ text. text.now) result ≡ declaration bytes.now }
{
    up_to_quote(b'>', after_front(b"<?xml", bytes)?)
}

// The bytes after the first `encoding`.
#[tactic(auto, unfolding(crate::specs::XmlDeclaration::after_encoding))]
fn after_encoding(mut bytes: &[u8]) -> Option<&[u8]>
    ensures { option_map (λ rest. rest.now) result ≡ after_encoding bytes.entry.now }
{
    while let [_, rest @ ..] = bytes {
        if let Some(after) = after_front(b"encoding", bytes) {
            return Some(after);
        }
        bytes = rest;
    }
    None
}

// Whether a byte is neither ASCII white space nor a control.
fn is_visible(byte: u8) -> bool
    ensures { result ≡ is_visible byte }
{
    byte > 0x20
}

// The place of the first visible byte.
fn visible_in(bytes: &[u8]) -> Option<usize>
    ensures place { result ≡ position is_visible bytes.now }
    ensures within { IfSome result (λ place. place < length bytes.now) }
{
    bytes.iter().position(|byte| is_visible(*byte))
}

// The bytes from the first visible one on.
fn from_visible(bytes: &[u8]) -> &[u8]
    ensures { result.now ≡ from_visible bytes.now }
{
    match visible_in(bytes) {
        Some(place) => &bytes[place..],
        None => &bytes[bytes.len()..],
    }
}

fn are_visible(bytes: &[u8]) -> bool
    ensures { result ≡ list_all is_visible bytes.now }
{
    bytes.iter().all(|byte| is_visible(*byte))
}

// A label, if each byte of it is visible.
fn visible_label(label: &[u8]) -> Option<&[u8]>
    ensures { option_map (λ label. label.now) result ≡ visible_label (Some label.now) }
{
    if are_visible(label) {
        Some(label)
    } else {
        None
    }
}

// A label in quotes at the front.
fn quoted_label(bytes: &[u8]) -> Option<&[u8]>
    ensures { option_map (λ label. label.now) result ≡ quoted_label bytes.now }
{
    let [first, rest @ ..] = bytes else {
        return None;
    };
    if !matches!(*first, b'"' | b'\'') {
        return None;
    }
    visible_label(up_to_quote(*first, rest)?)
}

// A label in quotes after an equals sign at the front.
fn label_after_equals(bytes: &[u8]) -> Option<&[u8]>
    ensures { option_map (λ label. label.now) result ≡ label_after_equals bytes.now }
{
    let [first, rest @ ..] = bytes else {
        return None;
    };
    if *first != b'=' {
        return None;
    }
    quoted_label(from_visible(rest))
}

// The label that the declaration names.
fn declared_label(bytes: &[u8]) -> Option<&[u8]>
    ensures { option_map (λ label. label.now) result ≡ declared_label bytes.now }
{
    let rest = after_encoding(declaration(bytes)?)?;
    label_after_equals(from_visible(rest))
}

// What a named encoding means.
fn declared_as(named: Encoding) -> Encoding
    ensures { result ≡ declared_as named }
{
    match named {
        Encoding::Utf16Be | Encoding::Utf16Le => Encoding::Utf8,
        other => other,
    }
}

/// The encoding that the XML declaration at the front names.
pub(crate) fn xml_encoding(bytes: &[u8]) -> Option<Encoding>
    ensures { result ≡ xml_encoding bytes.now }
{
    let named = encoding_of(declared_label(bytes)?)?;
    Some(declared_as(named))
}
