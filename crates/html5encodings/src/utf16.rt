//! The decoders of UTF-16.
ghost use Rattle.std.specs.Prelude.{◌≡◌, ◌≤◌, ◌+◌, ◌*◌, ◌-◌, IfOk, IfSome, OnOk};
ghost use Rattle.html5encodings.specs.Utf16.{IsLeadSurrogate, alone, code_unit, handled, handled_unit, is_begun, is_unit_error, returns_error};
ghost use Rattle.html5encodings.specs.Steps.{Adds};

use std::alloc::{AllocError, Allocator};

/// Where the decoder stands: a byte that the next one completes to a code unit, and a lead surrogate that
/// the next code unit completes.
#[derive(Clone, Copy)]
pub struct SharedUtf16 {
    pub big_endian: bool,
    pub lead_byte: Option<u8>,
    pub lead_surrogate: Option<u16>,
}

// Appends what a byte gives.
#[inline(always)]
pub(crate) fn append_byte<A: Allocator>(
    before: SharedUtf16,
    byte: u8,
    text: &mut String<A>,
) -> Result<SharedUtf16, AllocError>
    requires { IfSome before.lead_surrogate IsLeadSurrogate }
    ensures text { OnOk result (Adds text.old text.new (handled before byte).0) }
    ensures left { IfOk result (λ left. left ≡ (handled before byte).1) }
    ensures surrogate { IfOk result (λ left. IfSome left.lead_surrogate IsLeadSurrogate) }
{
    match before.lead_byte {
        None => Ok(SharedUtf16 {
            big_endian: before.big_endian,
            lead_byte: Some(byte),
            lead_surrogate: before.lead_surrogate,
        }),
        Some(lead) => {
            let unit = code_unit(before.big_endian, lead, byte);
            let left = append_unit(before.lead_surrogate, unit, text)?;
            Ok(SharedUtf16 {
                big_endian: before.big_endian,
                lead_byte: None,
                lead_surrogate: left,
            })
        }
    }
}

// Whether something is begun.
pub(crate) fn is_begun(before: SharedUtf16) -> bool
    ensures { result ≡ is_begun before }
{
    before.lead_byte.is_some() || before.lead_surrogate.is_some()
}

// The code unit of two bytes.
fn code_unit(big_endian: bool, first: u8, second: u8) -> u16
    ensures { result ≡ code_unit big_endian first second }
{
    if big_endian {
        first as u16 * 256 + second as u16
    } else {
        second as u16 * 256 + first as u16
    }
}

// Appends what a code unit gives after a lead surrogate or none.
fn append_unit<A: Allocator>(
    lead: Option<u16>,
    unit: u16,
    text: &mut String<A>,
) -> Result<Option<u16>, AllocError>
    requires { IfSome lead IsLeadSurrogate }
    ensures text { OnOk result (Adds text.old text.new (handled_unit lead unit).0) }
    ensures left { IfOk result (λ left. left ≡ (handled_unit lead unit).1) }
    ensures surrogate { IfOk result (λ left. IfSome left IsLeadSurrogate) }
{
    match lead {
        None => append_alone(unit, text),
        Some(lead) => {
            if (0xDC00..=0xDFFF).contains(&unit) {
                text.push(pair(lead, unit))?;
                return Ok(None);
            }
            text.push('\u{FFFD}')?;
            append_alone(unit, text)
        }
    }
}

// Appends what a code unit gives after no lead surrogate.
fn append_alone<A: Allocator>(unit: u16, text: &mut String<A>) -> Result<Option<u16>, AllocError>
    ensures text { OnOk result (Adds text.old text.new (alone unit).0) }
    ensures left { IfOk result (λ left. left ≡ (alone unit).1) }
    ensures surrogate { IfOk result (λ left. IfSome left IsLeadSurrogate) }
{
    match unit {
        0xD800..=0xDBFF => return Ok(Some(unit)),
        0xDC00..=0xDFFF => text.push('\u{FFFD}')?,
        _ => text.push(unsafe { char::from_u32_unchecked(unit as u32) })?,
    }
    Ok(None)
}

// The character of a lead and a trail surrogate.
fn pair(lead: u16, trail: u16) -> char
    requires lead { IsLeadSurrogate lead }
    requires from { 0xDC00 ≤ trail }
    requires to { trail ≤ 0xDFFF }
    ensures { result ≡ 0x10000 + (lead - 0xD800) * 0x400 + (trail - 0xDC00) }
{
    let high = (lead as u32 - 0xD800) * 0x400;
    unsafe { char::from_u32_unchecked(0x10000 + high + (trail as u32 - 0xDC00)) }
}

// Whether a byte is an error.
pub(crate) fn returns_error(before: SharedUtf16, byte: u8) -> bool
    ensures { result ≡ returns_error before byte }
{
    match before.lead_byte {
        None => false,
        Some(lead) => is_unit_error(
            before.lead_surrogate,
            code_unit(before.big_endian, lead, byte),
        ),
    }
}

// Whether a code unit is an error after a lead surrogate or none.
fn is_unit_error(lead: Option<u16>, unit: u16) -> bool
    ensures { result ≡ is_unit_error lead unit }
{
    match lead {
        None => (0xDC00..=0xDFFF).contains(&unit),
        Some(_) => !(0xDC00..=0xDFFF).contains(&unit),
    }
}
