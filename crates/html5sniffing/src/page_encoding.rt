//! The encoding of a page, by its front.
ghost use Rattle.std.specs.Prelude.{◌≡◌, ◌≤◌, ◌==◌, ◌&&◌, is_none, length, take, IfOk};
ghost use Rattle.html5sniffing.specs.PageEncoding.{default_of, encoding_by, encoding_of_page, front_of, hint_by, hint_in, hint_of_text, hinted, is_utf8_front, looks_further, marked};

use crate::front::{FRONT_LEN, LONG_FRONT_LEN};
use crate::meta::meta_encoding;
use crate::plain::{are_plain, plain_len};
use crate::xml_declaration::{utf16_declared, xml_encoding};
use devices::ReadSource;
use html5encodings::{Encoding, SingleByte, decode_all};
use html5ever_interface::interface::token::{SinkFault, Tag};
use html5sinks::tags::TagHandler;
use html5stream::read_tags;
use markup5ever::data::NamedReferences;
use std::alloc::{AllocError, Allocator};

// Keeps the first hint.
#[derive(Drop)]
struct Hints {
    hint: Option<Encoding>,
}

impl<A: Allocator> TagHandler<Tag<A>> for Hints {
    ghost use Rattle.std.specs.Prelude.{Option};
    ghost use Rattle.html5encodings.specs.declared.encoding.Encoding.{Encoding};
    ghost use Rattle.html5sniffing.specs.PageEncoding.{hint_step};

    ghost State = { Option Encoding };

    ghost state = { λ h. h.hint };

    ghost step = { hint_step };

    fn take_tag(&mut self, tag: Tag<A>, _line_number: u64) -> Result<(), SinkFault> {
        if self.hint.is_none() {
            self.hint = meta_encoding(&tag);
        }
        Ok(())
    }
}

// The first hint of a text's reading.
fn hint_of_text<A: Allocator + Copy>(
    alloc: A,
    references: &NamedReferences<A>,
    text: &str,
) -> Result<Option<Encoding>, AllocError>
    ensures { IfOk result (λ hint. hint ≡ hint_of_text references.now text.now) }
{
    let mut source = ReadSource::new(text.as_bytes());
    let (hints, read) = read_tags(alloc, &mut source, Hints { hint: None }, references);
    match read {
        Ok(()) => Ok(hints.hint),
        Err(_) => Err(AllocError),
    }
}

// The first hint by a tag of the front of a page, by the tentative encoding.
fn hint_by<A: Allocator + Copy>(
    alloc: A,
    tentative: Encoding,
    references: &NamedReferences<A>,
    front: &[u8],
) -> Result<Option<Encoding>, AllocError>
    ensures { IfOk result (λ hint. hint ≡ hint_by tentative references.now front.now) }
{
    if matches!(tentative, Encoding::Utf16Be | Encoding::Utf16Le) {
        return Ok(None);
    }
    let text = decode_all(alloc, tentative, &[front])?;
    hint_of_text(alloc, references, text.as_str())
}

// The hint in the front of a page.
fn hint_in<A: Allocator + Copy>(
    alloc: A,
    tentative: Encoding,
    references: &NamedReferences<A>,
    front: &[u8],
) -> Result<Option<Encoding>, AllocError>
    ensures { IfOk result (λ hint. hint ≡ hint_in tentative references.now front.now) }
{
    if let Some(encoding) = utf16_declared(front) {
        return Ok(Some(encoding));
    }
    let hint = hint_by(alloc, tentative, references, front)?;
    Ok(hint.or(xml_encoding(front)))
}

// Whether the bytes that a page's front ends with, which are no character, may be one that is cut by 1,024 bytes.
fn is_cut(front: &[u8], error_len: Option<usize>) -> bool
    ensures { result ≡ (length front.now == 1024 && is_none error_len) }
{
    front.len() == FRONT_LEN && error_len.is_none()
}

// Whether the front of a page is UTF-8.
fn is_utf8_front(front: &[u8]) -> bool
    ensures { result ≡ is_utf8_front front.now }
{
    match str::from_utf8(front) {
        Ok(_) => true,
        Err(error) => is_cut(front, error.error_len()),
    }
}

// The encoding of a page without a declared one.
fn default_of(fallback: Option<Encoding>, front: &[u8]) -> Encoding
    ensures { result ≡ default_of fallback front.now }
{
    match fallback {
        Some(encoding) => encoding,
        None if is_utf8_front(front) => Encoding::Utf8,
        None => Encoding::SingleByte(SingleByte::Windows1252),
    }
}

// The encoding that a byte order mark names.
fn marked(front: &[u8]) -> Option<Encoding>
    ensures { result ≡ marked front.now }
{
    match Encoding::for_bom(front) {
        Some((encoding, _)) => Some(encoding),
        None => None,
    }
}

// The encoding of a page by the hint in it, or else the default.
fn hinted<A: Allocator + Copy>(
    alloc: A,
    references: &NamedReferences<A>,
    front: &[u8],
    fallback: Option<Encoding>,
) -> Result<Encoding, AllocError>
    ensures { IfOk result (λ encoding. encoding ≡ hinted references.now fallback front.now) }
{
    let tentative = default_of(fallback, front);
    let hint = hint_in(alloc, tentative, references, front)?;
    Ok(hint.unwrap_or(tentative))
}

/// The encoding of a page, by the first bytes of it, as many as `FRONT_LEN` or all. It goes by a byte order mark;
/// else by the declared one, as by a header of the transport; else by a hint in it. That is an XML declaration
/// in UTF-16, a `meta` or an XML declaration, in this order. Else it is the fallback; else UTF-8 where these
/// bytes are UTF-8, and windows-1252.
pub fn sniff<A: Allocator + Copy>(
    alloc: A,
    references: &NamedReferences<A>,
    front: &[u8],
    said: Option<Encoding>,
    fallback: Option<Encoding>,
) -> Result<Encoding, AllocError>
    ensures { IfOk result (λ encoding.
        encoding ≡ encoding_of_page references.now said fallback front.now) }
{
    match marked(front).or(said) {
        Some(encoding) => Ok(encoding),
        None => hinted(alloc, references, front, fallback),
    }
}

/// Whether more of a page is looked at than these first bytes.
pub(crate) fn looks_further<A: Allocator + Copy>(
    alloc: A,
    references: &NamedReferences<A>,
    first: &[u8],
    said: Option<Encoding>,
    fallback: Option<Encoding>,
) -> Result<bool, AllocError>
    ensures { IfOk result (λ further. further ≡ looks_further references.now said fallback first.now) }
{
    if marked(first).or(said).is_some() || !are_plain(first) {
        return Ok(false);
    }
    let hint = hint_in(alloc, default_of(fallback, first), references, first)?;
    Ok(hint.is_none())
}

/// The first bytes of a page, `FRONT_LEN` or all.
pub(crate) fn first_of(bytes: &[u8]) -> &[u8]
    ensures { result.now ≡ take 1024 bytes.now }
{
    &bytes[..FRONT_LEN.min(bytes.len())]
}

// The front of a page.
fn front_of<A: Allocator + Copy>(
    alloc: A,
    references: &NamedReferences<A>,
    bytes: &[u8],
    said: Option<Encoding>,
    fallback: Option<Encoding>,
) -> Result<usize, AllocError>
    ensures front { IfOk result (λ len. take len bytes.now ≡ front_of references.now said fallback bytes.now) }
    ensures within { IfOk result (λ len. len ≤ length bytes.now) }
{
    let first = first_of(bytes);
    if looks_further(alloc, references, first, said, fallback)? {
        Ok(plain_len(bytes).min(LONG_FRONT_LEN))
    } else {
        Ok(first.len())
    }
}

/// The encoding of a page with these bytes, as `sniff` says it of its front.
pub fn encoding_by<A: Allocator + Copy>(
    alloc: A,
    references: &NamedReferences<A>,
    bytes: &[u8],
    said: Option<Encoding>,
    fallback: Option<Encoding>,
) -> Result<Encoding, AllocError>
    ensures { IfOk result (λ encoding. encoding ≡ encoding_by references.now said fallback bytes.now) }
{
    let len = front_of(alloc, references, bytes, said, fallback)?;
    sniff(alloc, references, &bytes[..len], said, fallback)
}
