//! The parts of printed lines: texts in quotes, marks, attributes, pause lines.
ghost use Rattle.std.specs.Prelude.{◌≡◌, ◌≢◌, ◌+◌, ◌<◌, ◌≤◌, ◌++◌, true, false, length, slice_index, map, option_map, string_bytes, OnOk, OnErr, codes};
ghost use Rattle.std.specs.Fmt.{digit_glyph};
ghost use Rattle.markup5ever.specs.Lists.{BeginsWith};
ghost use Rattle.token_printer.specs.Printed.{needs_escape, NeedsEscape, IsPlainWithin, escape, quoted_byte, quoted_bytes, quoted, mark_where, open_attribute, open_attributes, printed_option, tag_marks, pause_line};
ghost use Rattle.html5ever_interface.specs.Token.{tag_of, reply_of};
ghost use Rattle.html5ever_interface.specs.Token.Reply.{SwitchEncoding};
ghost use Rattle.markup5ever.specs.Names.{attribute_of};

use html5ever_interface::interface::token::{Tag, TokenSinkResult};
use markup5ever::blocks::{BLOCK, Sought, first_from, lowest_bit};
use markup5ever::interface::Attribute;
use std::alloc::{AllocError, Allocator};
use std::simd::prelude::*;

// The lower-case hexadecimal digit of a number below 16.
fn hex_digit(value: u8) -> u8
    requires { value < 16 }
    ensures { result ≡ digit_glyph false value }
{
    if value < 10 {
        b'0' + value
    } else {
        b'a' + (value - 10)
    }
}

// How many bytes are looked at in one step at a text's end.
const HALF: usize = 8;

#[inline(always)]
#[tactic(auto, unfolding(crate::specs::Printed::needs_escape))]
fn needs_escape(byte: u8) -> bool
    ensures { result ≡ needs_escape byte }
{
    (byte < 0x20) | (byte == b'"') | (byte == b'\\') | (byte == 0x7F)
}

// The same, of a byte that is looked at alone. Most are letters, which one test tells.
#[inline(always)]
#[tactic(auto, unfolding(crate::specs::Printed::needs_escape))]
fn is_escaped(byte: u8) -> bool
    ensures { result ≡ needs_escape byte }
{
    !matches!(byte, b'a'..=b'z') && needs_escape(byte)
}

// Whether one of the next half of a block needs an escape. It looks at each byte, so that the compiler makes it one step
// over all.
#[inline(always)]
fn has_end(bytes: &[u8], from: usize) -> bool
    requires { from + HALF ≤ length bytes.now }
    ensures { result ≡ false → IsPlainWithin bytes.now from (from + HALF) }
{
    let mut found = false;
    for k in 0..HALF {
        found |= needs_escape(bytes[from + k]);
    }
    found
}

// Whether none of the next half of a block needs an escape, or fewer bytes are left.
#[inline(always)]
fn has_plain_half(bytes: &[u8], from: usize) -> bool
    requires { from ≤ length bytes.now }
    ensures { result ≡ true → from + HALF ≤ length bytes.now
        → IsPlainWithin bytes.now from (from + HALF) }
{
    if bytes.len() - from < HALF {
        return true;
    }
    !has_end(bytes, from)
}

// Whether it is seen in two steps that none of the bytes that are left needs an escape: the next half of a block, and
// the last one.
#[inline(always)]
fn has_plain_end(bytes: &[u8], from: usize) -> bool
    requires { from ≤ length bytes.now }
    ensures { result ≡ true → IsPlainWithin bytes.now from (length bytes.now) }
{
    let len = bytes.len();
    if from == len || len < HALF || BLOCK <= len - from {
        return false;
    }
    if !has_plain_half(bytes, from) {
        return false;
    }
    !has_end(bytes, len - HALF)
}

// The bytes that need an escape.
struct Escaped {}

impl Sought for Escaped {
    ghost is_sought = { λ _. NeedsEscape };

    #[inline(always)]
    fn first_in_block(&self, bytes: &[u8], at: usize) -> usize {
        let block = u8x16::from_slice(&bytes[at..]);
        let controls = block.simd_lt(u8x16::splat(0x20)) | block.simd_eq(u8x16::splat(0x7F));
        let marks = block.simd_eq(u8x16::splat(b'"')) | block.simd_eq(u8x16::splat(b'\\'));
        lowest_bit((controls | marks).to_bitmask())
    }

    #[inline(always)]
    fn first_in_rest(&self, bytes: &[u8], from: usize) -> usize {
        if has_plain_end(bytes, from) {
            return bytes.len();
        }
        for at in from..bytes.len() {
            if is_escaped(bytes[at]) {
                return at;
            }
        }
        bytes.len()
    }
}

// Appends the quoted form of a byte that may not stand there as it is, except for a line feed.
#[tactic(auto, using(std::proofs::lemmas::Fmt::hex_one_digit, std::proofs::lemmas::Fmt::hex_two_digits), unfolding(crate::specs::Printed::escape))]
fn push_rare_escape<A: Allocator>(output: &mut Vec<u8, A>, byte: u8) -> Result<(), AllocError>
    requires { byte ≢ 10 }
    ensures ok { OnOk result (output.new.items ≡ output.old.items ++ escape byte) }
    ensures err { OnErr result (BeginsWith output.new.items output.old.items) }
{
    match byte {
        b'\\' => output.extend_from_slice(b"\\\\"),
        b'"' => output.extend_from_slice(b"\\\""),
        _ if byte < 16 => output.extend_from_slice(&[b'\\', b'u', b'{', hex_digit(byte), b'}']),
        _ => {
            let (high, low) = (hex_digit(byte / 16), hex_digit(byte % 16));
            output.extend_from_slice(&[b'\\', b'u', b'{', high, low, b'}'])
        }
    }
}

// Appends the quoted form of a byte that may not stand there as it is. Most are line feeds.
#[inline(always)]
#[tactic(auto, unfolding(crate::specs::Printed::escape))]
fn push_escape<A: Allocator>(output: &mut Vec<u8, A>, byte: u8) -> Result<(), AllocError>
    ensures ok { OnOk result (output.new.items ≡ output.old.items ++ escape byte) }
    ensures err { OnErr result (BeginsWith output.new.items output.old.items) }
{
    if byte == b'\n' {
        return output.extend_from_slice(b"\\n");
    }
    push_rare_escape(output, byte)
}

// Appends the quoted form of a byte.
#[inline(always)]
#[tactic(auto, unfolding(crate::specs::Printed::quoted_byte))]
fn push_quoted_byte<A: Allocator>(output: &mut Vec<u8, A>, byte: u8) -> Result<(), AllocError>
    ensures ok { OnOk result (output.new.items ≡ output.old.items ++ quoted_byte byte) }
    ensures err { OnErr result (BeginsWith output.new.items output.old.items) }
{
    if is_escaped(byte) {
        return push_escape(output, byte);
    }
    output.push(byte)?;
    Ok(())
}

// Appends the quoted form of a text: runs of bytes that stand as they are go at once.
fn push_quoted_runs<A: Allocator>(output: &mut Vec<u8, A>, text: &[u8]) -> Result<(), AllocError>
    ensures ok { OnOk result (output.new.items ≡ output.old.items ++ quoted_bytes text.now) }
    ensures err { OnErr result (BeginsWith output.new.items output.old.items) }
{
    let mut start = 0;
    loop {
        let end = first_from(&Escaped {}, text, start);
        output.extend_from_slice(&text[start..end])?;
        if end == text.len() {
            return Ok(());
        }
        push_escape(output, text[end])?;
        start = end + 1;
    }
}

// Appends the quoted form of a short text, byte after byte.
#[inline(always)]
fn push_quoted_short<A: Allocator>(output: &mut Vec<u8, A>, text: &[u8]) -> Result<(), AllocError>
    ensures ok { OnOk result (output.new.items ≡ output.old.items ++ quoted_bytes text.now) }
    ensures err { OnErr result (BeginsWith output.new.items output.old.items) }
{
    for &byte in text {
        push_quoted_byte(output, byte)?;
    }
    Ok(())
}

/// Appends the quoted form of a text, straight to the output.
#[inline(always)]
pub fn push_quoted_bytes<A: Allocator>(
    output: &mut Vec<u8, A>,
    text: &[u8],
) -> Result<(), AllocError>
    ensures ok { OnOk result (output.new.items ≡ output.old.items ++ quoted_bytes text.now) }
    ensures err { OnErr result (BeginsWith output.new.items output.old.items) }
{
    if text.len() < HALF {
        return push_quoted_short(output, text);
    }
    push_quoted_runs(output, text)
}

#[tactic(auto, unfolding(crate::specs::Printed::quoted))]
pub fn push_quoted<A: Allocator>(output: &mut Vec<u8, A>, text: &[u8]) -> Result<(), AllocError>
    ensures ok { OnOk result (output.new.items ≡ output.old.items ++ quoted text.now) }
    ensures err { OnErr result (BeginsWith output.new.items output.old.items) }
{
    output.extend_from_slice(b"\"")?;
    push_quoted_bytes(output, text)?;
    output.extend_from_slice(b"\"")
}

/// Appends a mark, if it is set.
#[tactic(auto, unfolding(crate::specs::Printed::mark_where))]
pub fn push_mark<A: Allocator>(
    output: &mut Vec<u8, A>,
    is_set: bool,
    mark: &str,
) -> Result<(), AllocError>
    ensures ok { OnOk result (output.new.items ≡ output.old.items ++ mark_where is_set mark.now) }
    ensures err { OnErr result (BeginsWith output.new.items output.old.items) }
{
    if is_set {
        output.extend_from_slice(mark.as_bytes())?;
    }
    Ok(())
}

// Closes the quote that is open, and appends an attribute except for its last quote.
#[tactic(auto, unfolding(crate::specs::Printed::open_attribute))]
fn push_attribute<A: Allocator>(
    output: &mut Vec<u8, A>,
    attribute: &Attribute<A>,
) -> Result<(), AllocError>
    ensures ok { OnOk result
        (output.new.items ≡ output.old.items ++ open_attribute (attribute_of attribute.now)) }
    ensures err { OnErr result (BeginsWith output.new.items output.old.items) }
{
    output.extend_from_slice(b"\" \"")?;
    push_quoted_bytes(output, attribute.name.local.0.as_bytes())?;
    output.extend_from_slice(b"\"=\"")?;
    push_quoted_bytes(output, attribute.value.as_bytes())
}

/// Appends attributes where a quote is open. After them one is open, too.
pub fn push_attributes<A: Allocator>(
    output: &mut Vec<u8, A>,
    attributes: &[Attribute<A>],
) -> Result<(), AllocError>
    ensures ok { OnOk result
        (output.new.items ≡ output.old.items ++ open_attributes (map attribute_of attributes.now)) }
    ensures err { OnErr result (BeginsWith output.new.items output.old.items) }
{
    for attribute in attributes {
        push_attribute(output, attribute)?;
    }
    Ok(())
}

// Closes a quote, and appends the marks of a tag and the end of its line.
#[inline(never)]
#[tactic(auto, unfolding(crate::specs::Printed::tag_marks, crate::specs::Printed::mark_where))]
fn push_marked_end<A: Allocator>(output: &mut Vec<u8, A>, tag: &Tag<A>) -> Result<(), AllocError>
    ensures ok { OnOk result
        (output.new.items ≡ output.old.items ++ (codes "\"" ++ tag_marks (tag_of tag.now) ++ codes "\n")) }
    ensures err { OnErr result (BeginsWith output.new.items output.old.items) }
{
    output.extend_from_slice(b"\"")?;
    push_mark(output, tag.self_closing, " self-closing")?;
    push_mark(output, tag.had_duplicate_attributes, " duplicates")?;
    output.extend_from_slice(b"\n")
}

/// Closes a quote, and appends the rest of the line of a tag after its attributes. Few tags have marks.
#[inline(always)]
#[tactic(auto, unfolding(crate::specs::Printed::tag_marks, crate::specs::Printed::mark_where))]
pub fn push_tag_end<A: Allocator>(output: &mut Vec<u8, A>, tag: &Tag<A>) -> Result<(), AllocError>
    ensures ok { OnOk result
        (output.new.items ≡ output.old.items ++ (codes "\"" ++ tag_marks (tag_of tag.now) ++ codes "\n")) }
    ensures err { OnErr result (BeginsWith output.new.items output.old.items) }
{
    if tag.self_closing || tag.had_duplicate_attributes {
        return push_marked_end(output, tag);
    }
    output.extend_from_slice(b"\"\n")
}

// Appends the line of a pause at which the encoding is switched.
#[tactic(auto, unfolding(crate::specs::Printed::pause_line))]
fn push_encoding_pause<A: Allocator>(
    output: &mut Vec<u8, A>,
    charset: &[u8],
) -> Result<(), AllocError>
    ensures ok { OnOk result
        (output.new.items ≡ output.old.items ++ pause_line (SwitchEncoding charset.now)) }
    ensures err { OnErr result (BeginsWith output.new.items output.old.items) }
{
    output.extend_from_slice(b"pause encoding ")?;
    push_quoted(output, charset)?;
    output.extend_from_slice(b"\n")
}

/// Appends the pause line, where the reply pauses.
#[tactic(auto, unfolding(crate::specs::Printed::pause_line))]
pub fn push_pause<A: Allocator>(
    output: &mut Vec<u8, A>,
    reply: &TokenSinkResult<(), String<A>>,
) -> Result<(), AllocError>
    ensures ok { OnOk result
        (output.new.items ≡ output.old.items ++ pause_line (reply_of string_bytes reply.now)) }
    ensures err { OnErr result (BeginsWith output.new.items output.old.items) }
{
    match reply {
        TokenSinkResult::Script(()) => output.extend_from_slice(b"pause script\n"),
        TokenSinkResult::EncodingIndicator(charset) => {
            push_encoding_pause(output, charset.as_bytes())
        }
        _ => Ok(()),
    }
}

/// Appends a part of a DOCTYPE, which it may lack.
pub fn push_option<A: Allocator>(
    output: &mut Vec<u8, A>,
    text: &Option<String<A>>,
) -> Result<(), AllocError>
    ensures ok { OnOk result
        (output.new.items ≡ output.old.items ++ printed_option (option_map string_bytes text.now)) }
    ensures err { OnErr result (BeginsWith output.new.items output.old.items) }
{
    match text {
        None => output.extend_from_slice(b" -"),
        Some(text) => {
            output.extend_from_slice(b" ")?;
            push_quoted(output, text.as_bytes())
        }
    }
}
