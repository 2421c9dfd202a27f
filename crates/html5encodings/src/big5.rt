//! The Big5 decoder.
ghost use Rattle.std.specs.Prelude.{◌≡◌, ◌∷◌, [], IfOk, OnOk};
ghost use Rattle.html5encodings.specs.Big5.{handled, pointed, pointer_of, points_nowhere, returns_error};
ghost use Rattle.html5encodings.specs.Steps.{Adds};

use crate::pointers::in_big5;
use crate::steps::append_or_restored;
use std::alloc::{AllocError, Allocator};

// Appends what a byte gives after a lead or none, and gives the lead that it leaves.
#[inline(always)]
pub(crate) fn append_byte<A: Allocator>(
    lead: Option<u8>,
    byte: u8,
    text: &mut String<A>,
) -> Result<Option<u8>, AllocError>
    ensures text { OnOk result (Adds text.old text.new (handled lead byte).0) }
    ensures lead { IfOk result (λ left. left ≡ (handled lead byte).1) }
{
    match lead {
        Some(lead) => append_pointed(pointer_of(lead, byte), byte, text)?,
        None => match byte {
            0..=0x7F => text.push(byte as char)?,
            0x81..=0xFE => return Ok(Some(byte)),
            _ => text.push('\u{FFFD}')?,
        },
    }
    Ok(None)
}

// The pointer of a lead and a byte, where the byte may stand there.
fn pointer_of(lead: u8, byte: u8) -> Option<usize>
    ensures { result ≡ pointer_of lead byte }
{
    let offset = if byte < 0x7F { 0x40 } else { 0x62 };
    if (0x40..=0x7E).contains(&byte) || (0xA1..=0xFE).contains(&byte) {
        Some((lead as usize).saturating_sub(0x81) * 157 + (byte as usize - offset))
    } else {
        None
    }
}

// Appends what a pointer gives: one character, or two for four of them.
fn append_pointed<A: Allocator>(
    pointer: Option<usize>,
    byte: u8,
    text: &mut String<A>,
) -> Result<(), AllocError>
    ensures { OnOk result (Adds text.old text.new (pointed pointer byte)) }
{
    match pointer {
        None => append_or_restored(None, byte, text),
        Some(1133) => append_two('\u{CA}', '\u{304}', text),
        Some(1135) => append_two('\u{CA}', '\u{30C}', text),
        Some(1164) => append_two('\u{EA}', '\u{304}', text),
        Some(1166) => append_two('\u{EA}', '\u{30C}', text),
        Some(pointer) => append_or_restored(in_big5(pointer), byte, text),
    }
}

// Appends two characters.
fn append_two<A: Allocator>(
    first: char,
    second: char,
    text: &mut String<A>,
) -> Result<(), AllocError>
    ensures { OnOk result (Adds text.old text.new (first ∷ second ∷ [])) }
{
    text.push(first)?;
    text.push(second)
}

// Whether a byte is an error after a lead or none.
pub(crate) fn returns_error(lead: Option<u8>, byte: u8) -> bool
    ensures { result ≡ returns_error lead byte }
{
    match lead {
        Some(lead) => points_nowhere(pointer_of(lead, byte)),
        None => !matches!(byte, 0..=0x7F | 0x81..=0xFE),
    }
}

// Whether a pointer gives nothing.
fn points_nowhere(pointer: Option<usize>) -> bool
    ensures { result ≡ points_nowhere pointer }
{
    match pointer {
        None => true,
        Some(1133 | 1135 | 1164 | 1166) => false,
        Some(pointer) => in_big5(pointer).is_none(),
    }
}
