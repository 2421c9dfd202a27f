//! The EUC-JP decoder.
ghost use Rattle.std.specs.Prelude.{◌≡◌, IfOk, OnOk};
ghost use Rattle.html5encodings.specs.EucJp.{after_first, alone, code_point_of, handled, is_error_after_first, returns_error};
ghost use Rattle.html5encodings.specs.IndexJis0208.{index_jis0208};
ghost use Rattle.html5encodings.specs.IndexJis0212.{index_jis0212};
ghost use Rattle.html5encodings.specs.Steps.{Adds};

use crate::pointers::{in_jis0208, in_jis0212};
use crate::shift_jis::half_width;
use crate::steps::append_or_restored;
use std::alloc::{AllocError, Allocator};

/// A lead, and whether the next byte completes it to a character of JIS X 0212.
#[derive(Clone, Copy)]
pub enum Lead {
    First(u8),
    Jis0212(u8),
}

// Appends what a byte gives after a lead or none, and gives the lead that it leaves.
#[inline(always)]
pub(crate) fn append_byte<A: Allocator>(
    lead: Option<Lead>,
    byte: u8,
    text: &mut String<A>,
) -> Result<Option<Lead>, AllocError>
    ensures text { OnOk result (Adds text.old text.new (handled lead byte).0) }
    ensures lead { IfOk result (λ left. left ≡ (handled lead byte).1) }
{
    match lead {
        None => append_alone(byte, text),
        Some(Lead::First(lead)) => append_after_first(lead, byte, text),
        Some(Lead::Jis0212(lead)) => {
            append_or_restored(jis0212_character(lead, byte), byte, text)?;
            Ok(None)
        }
    }
}

// Appends what a byte gives after no lead.
fn append_alone<A: Allocator>(byte: u8, text: &mut String<A>) -> Result<Option<Lead>, AllocError>
    ensures text { OnOk result (Adds text.old text.new (alone byte).0) }
    ensures lead { IfOk result (λ left. left ≡ (alone byte).1) }
{
    match byte {
        0..=0x7F => text.push(byte as char)?,
        0x8E | 0x8F | 0xA1..=0xFE => return Ok(Some(Lead::First(byte))),
        _ => text.push('\u{FFFD}')?,
    }
    Ok(None)
}

// Appends what a byte gives after a lead.
fn append_after_first<A: Allocator>(
    lead: u8,
    byte: u8,
    text: &mut String<A>,
) -> Result<Option<Lead>, AllocError>
    ensures text { OnOk result (Adds text.old text.new (after_first lead byte).0) }
    ensures lead { IfOk result (λ left. left ≡ (after_first lead byte).1) }
{
    if lead == 0x8E && byte >= 0xA1 && byte <= 0xDF {
        text.push(half_width(byte))?;
        return Ok(None);
    }
    if lead == 0x8F && byte >= 0xA1 && byte <= 0xFE {
        return Ok(Some(Lead::Jis0212(byte)));
    }
    append_or_restored(jis0208_character(lead, byte), byte, text)?;
    Ok(None)
}

// The character of a lead and a byte in JIS X 0208.
fn jis0208_character(lead: u8, byte: u8) -> Option<char>
    ensures { result ≡ code_point_of index_jis0208 lead byte }
{
    if lead >= 0xA1 && lead <= 0xFE && byte >= 0xA1 && byte <= 0xFE {
        in_jis0208((lead as usize - 0xA1) * 94 + (byte as usize - 0xA1))
    } else {
        None
    }
}

// The character of a lead and a byte in JIS X 0212.
fn jis0212_character(lead: u8, byte: u8) -> Option<char>
    ensures { result ≡ code_point_of index_jis0212 lead byte }
{
    if lead >= 0xA1 && lead <= 0xFE && byte >= 0xA1 && byte <= 0xFE {
        in_jis0212((lead as usize - 0xA1) * 94 + (byte as usize - 0xA1))
    } else {
        None
    }
}

// Whether a byte is an error after a lead or none.
pub(crate) fn returns_error(lead: Option<Lead>, byte: u8) -> bool
    ensures { result ≡ returns_error lead byte }
{
    match lead {
        None => !matches!(byte, 0..=0x7F | 0x8E | 0x8F | 0xA1..=0xFE),
        Some(Lead::First(lead)) => is_error_after_first(lead, byte),
        Some(Lead::Jis0212(lead)) => jis0212_character(lead, byte).is_none(),
    }
}

// Whether a byte is an error after a lead.
fn is_error_after_first(lead: u8, byte: u8) -> bool
    ensures { result ≡ is_error_after_first lead byte }
{
    if lead == 0x8E && byte >= 0xA1 && byte <= 0xDF {
        return false;
    }
    if lead == 0x8F && byte >= 0xA1 && byte <= 0xFE {
        return false;
    }
    jis0208_character(lead, byte).is_none()
}
