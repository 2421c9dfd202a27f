//! The EUC-KR decoder.
ghost use Rattle.std.specs.Prelude.{◌≡◌, IfOk, OnOk};
ghost use Rattle.html5encodings.specs.EucKr.{code_point_of, handled, returns_error};
ghost use Rattle.html5encodings.specs.Steps.{Adds};

use crate::pointers::in_euc_kr;
use crate::steps::append_or_restored;
use std::alloc::{AllocError, Allocator};

// Appends what a byte gives after a lead or none, and gives the lead that it leaves.
#[inline(always)]
pub(crate) fn append_byte<A: Allocator>(
    lead: Option<u8>,
    byte: u8,
    text: &mut String<A>,
) -> Result<Option<u8>, AllocError>
    ensures text { OnOk result (Adds text.old text.new (handled lead byte).0) }
    ensures lead { IfOk result (λ left. left ≡ (handled lead byte).1) }
{
    match lead {
        Some(lead) => append_or_restored(character_of(lead, byte), byte, text)?,
        None => match byte {
            0..=0x7F => text.push(byte as char)?,
            0x81..=0xFE => return Ok(Some(byte)),
            _ => text.push('\u{FFFD}')?,
        },
    }
    Ok(None)
}

// The character of a lead and a byte.
fn character_of(lead: u8, byte: u8) -> Option<char>
    ensures { result ≡ code_point_of lead byte }
{
    if (0x41..=0xFE).contains(&byte) {
        in_euc_kr((lead as usize).saturating_sub(0x81) * 190 + (byte as usize - 0x41))
    } else {
        None
    }
}

// Whether a byte is an error after a lead or none.
pub(crate) fn returns_error(lead: Option<u8>, byte: u8) -> bool
    ensures { result ≡ returns_error lead byte }
{
    match lead {
        Some(lead) => character_of(lead, byte).is_none(),
        None => !matches!(byte, 0..=0x7F | 0x81..=0xFE),
    }
}
