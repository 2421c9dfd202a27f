//! The gb18030 decoder, which is GBK's too.
ghost use Rattle.std.specs.Prelude.{◌≡◌, ◌+◌, ◌-◌, ◌*◌, IfOk, OnOk};
ghost use Rattle.html5encodings.specs.Gb18030.{after_first, alone, four_pointer, handled, last_range, ranges_code_point, returns_error, two_code_point};
ghost use Rattle.html5encodings.specs.IndexGb18030Ranges.{index_gb18030_ranges};
ghost use Rattle.html5encodings.specs.Steps.{Adds};

use crate::index_gb18030_ranges::GB18030_RANGES;
use crate::pointers::in_gb18030;
use crate::steps::{append_or_error, append_or_restored};
use std::alloc::{AllocError, Allocator};

/// The bytes of a character that are not all there.
#[derive(Clone, Copy)]
pub enum Lead {
    First(u8),
    Second(u8, u8),
    Third(u8, u8, u8),
}

// Appends what a byte gives after a lead or none, and gives the lead that it leaves.
#[inline(always)]
pub(crate) fn append_byte<A: Allocator>(
    lead: Option<Lead>,
    byte: u8,
    text: &mut String<A>,
) -> Result<Option<Lead>, AllocError>
    ensures text { OnOk result (Adds text.old text.new (handled lead byte).0) }
    ensures lead { IfOk result (λ left. left ≡ (handled lead byte).1) }
{
    match lead {
        None => append_alone(byte, text),
        Some(Lead::First(first)) => append_after_first(first, byte, text),
        Some(Lead::Second(first, second)) => {
            if byte >= 0x81 && byte <= 0xFE {
                return Ok(Some(Lead::Third(first, second, byte)));
            }
            text.push('\u{FFFD}')?;
            text.push(second as char)?;
            append_alone(byte, text)
        }
        Some(Lead::Third(first, second, third)) => {
            if byte >= 0x30 && byte <= 0x39 {
                let pointer = four_pointer(first, second, third, byte);
                append_or_error(ranges_character(pointer), text)?;
                return Ok(None);
            }
            text.push('\u{FFFD}')?;
            text.push(second as char)?;
            append_after_first(third, byte, text)
        }
    }
}

// Appends what a byte gives after none.
fn append_alone<A: Allocator>(byte: u8, text: &mut String<A>) -> Result<Option<Lead>, AllocError>
    ensures text { OnOk result (Adds text.old text.new (alone byte).0) }
    ensures lead { IfOk result (λ left. left ≡ (alone byte).1) }
{
    match byte {
        0..=0x7F => text.push(byte as char)?,
        0x80 => text.push('\u{20AC}')?,
        0x81..=0xFE => return Ok(Some(Lead::First(byte))),
        _ => text.push('\u{FFFD}')?,
    }
    Ok(None)
}

// Appends what a byte gives after one.
fn append_after_first<A: Allocator>(
    first: u8,
    byte: u8,
    text: &mut String<A>,
) -> Result<Option<Lead>, AllocError>
    ensures text { OnOk result (Adds text.old text.new (after_first first byte).0) }
    ensures lead { IfOk result (λ left. left ≡ (after_first first byte).1) }
{
    if byte >= 0x30 && byte <= 0x39 {
        return Ok(Some(Lead::Second(first, byte)));
    }
    append_or_restored(two_character(first, byte), byte, text)?;
    Ok(None)
}

// The character of two bytes.
fn two_character(first: u8, byte: u8) -> Option<char>
    ensures { result ≡ two_code_point first byte }
{
    let offset = if byte < 0x7F { 0x40 } else { 0x41 };
    if (0x40..=0x7E).contains(&byte) || (0x80..=0xFE).contains(&byte) {
        in_gb18030((first as usize).saturating_sub(0x81) * 190 + (byte as usize - offset))
    } else {
        None
    }
}

// The pointer of four bytes.
fn four_pointer(first: u8, second: u8, third: u8, byte: u8) -> u32
    ensures { result ≡ four_pointer first second third byte }
{
    (first as u32).saturating_sub(0x81) * 12600
        + (second as u32).saturating_sub(0x30) * 1260
        + (third as u32).saturating_sub(0x81) * 10
        + (byte as u32).saturating_sub(0x30)
}

// The character of a pointer of four bytes.
fn ranges_character(pointer: u32) -> Option<char>
    ensures { result ≡ ranges_code_point pointer }
{
    if pointer > 39419 && pointer < 189000 || pointer > 1237575 {
        None
    } else if pointer == 7457 {
        Some('\u{E7C7}')
    } else {
        let range = range_of(pointer);
        char::from_u32(range.1.saturating_add(pointer.saturating_sub(range.0)))
    }
}

fn range_of(pointer: u32) -> (u32, u32)
    ensures { result ≡ last_range index_gb18030_ranges pointer (0, 0x80) }
{
    last_range(&GB18030_RANGES, pointer)
}

// The last range whose pointer is not above this one.
fn last_range(ranges: &[(u32, u32)], pointer: u32) -> (u32, u32)
    ensures { result ≡ last_range ranges.now pointer (0, 0x80) }
{
    let mut found = (0, 0x80);
    for range in ranges {
        if pointer < range.0 {
            return found;
        }
        found = *range;
    }
    found
}

// Whether a byte is an error after a lead or none.
pub(crate) fn returns_error(lead: Option<Lead>, byte: u8) -> bool
    ensures { result ≡ returns_error lead byte }
{
    match lead {
        None => byte == 0xFF,
        Some(Lead::First(first)) => {
            !(byte >= 0x30 && byte <= 0x39) && two_character(first, byte).is_none()
        }
        Some(Lead::Second(_, _)) => !(byte >= 0x81 && byte <= 0xFE),
        Some(Lead::Third(first, second, third)) => {
            if byte >= 0x30 && byte <= 0x39 {
                ranges_character(four_pointer(first, second, third, byte)).is_none()
            } else {
                true
            }
        }
    }
}
