//! The Shift_JIS decoder.
ghost use Rattle.std.specs.Prelude.{◌≡◌, ◌+◌, ◌-◌, ◌≤◌, IfOk, OnOk};
ghost use Rattle.html5encodings.specs.ShiftJis.{code_point_of, handled, pointer_of, returns_error};
ghost use Rattle.html5encodings.specs.Steps.{Adds};

use crate::pointers::in_jis0208;
use crate::steps::append_or_restored;
use std::alloc::{AllocError, Allocator};

// Appends what a byte gives after a lead or none, and gives the lead that it leaves.
#[inline(always)]
pub(crate) fn append_byte<A: Allocator>(
    lead: Option<u8>,
    byte: u8,
    text: &mut String<A>,
) -> Result<Option<u8>, AllocError>
    ensures text { OnOk result (Adds text.old text.new (handled lead byte).0) }
    ensures lead { IfOk result (λ left. left ≡ (handled lead byte).1) }
{
    match lead {
        Some(lead) => append_or_restored(character_of(pointer_of(lead, byte)), byte, text)?,
        None => match byte {
            0..=0x80 => text.push(byte as char)?,
            0xA1..=0xDF => text.push(half_width(byte))?,
            0x81..=0x9F | 0xE0..=0xFC => return Ok(Some(byte)),
            _ => text.push('\u{FFFD}')?,
        },
    }
    Ok(None)
}

// The pointer of a lead and a byte, where the byte may stand there.
fn pointer_of(lead: u8, byte: u8) -> Option<usize>
    ensures { result ≡ pointer_of lead byte }
{
    let lead_offset = if lead < 0xA0 { 0x81 } else { 0xC1 };
    let offset = if byte < 0x7F { 0x40 } else { 0x41 };
    if (0x40..=0x7E).contains(&byte) || (0x80..=0xFC).contains(&byte) {
        Some((lead as usize).saturating_sub(lead_offset) * 188 + (byte as usize - offset))
    } else {
        None
    }
}

// The character of a pointer.
fn character_of(pointer: Option<usize>) -> Option<char>
    ensures { result ≡ code_point_of pointer }
{
    match pointer {
        None => None,
        Some(pointer) => {
            if 8836 <= pointer && pointer <= 10715 {
                char::from_u32(0xE000 + (pointer - 8836) as u32)
            } else {
                in_jis0208(pointer)
            }
        }
    }
}

// The half-width character of a byte.
pub(crate) fn half_width(byte: u8) -> char
    requires from { 0xA1 ≤ byte }
    requires to { byte ≤ 0xDF }
    ensures { result ≡ 0xFF61 + (byte - 0xA1) }
{
    unsafe { char::from_u32_unchecked(0xFF61 + (byte as u32 - 0xA1)) }
}

// Whether a byte is an error after a lead or none.
pub(crate) fn returns_error(lead: Option<u8>, byte: u8) -> bool
    ensures { result ≡ returns_error lead byte }
{
    match lead {
        Some(lead) => character_of(pointer_of(lead, byte)).is_none(),
        None => !matches!(byte, 0..=0x9F | 0xA1..=0xFC),
    }
}
