//! The UTF-8 decoder.
ghost use Rattle.std.specs.Prelude.{◌≡◌, ◌≤◌, ◌<◌, ◌+◌, ◌*◌, ◌-◌, IfOk, IfSome, OnOk};
ghost use Rattle.html5encodings.specs.Utf8.{IsPartial, alone, handled, joined, of_four, of_three, of_two, returns_error};
ghost use Rattle.html5encodings.specs.Steps.{Adds};

use std::alloc::{AllocError, Allocator};

/// A part of a character: what is known of its code point, how many bytes it needs, and the bounds of
/// the next one.
#[derive(Clone, Copy)]
pub struct Partial {
    pub code_point: u32,
    pub needed: u8,
    pub lower: u8,
    pub upper: u8,
}

// Appends what a byte gives after a part of a character or none, and gives the part that it leaves.
pub(crate) fn append_byte<A: Allocator>(
    part: Option<Partial>,
    byte: u8,
    text: &mut String<A>,
) -> Result<Option<Partial>, AllocError>
    requires { IfSome part IsPartial }
    ensures text { OnOk result (Adds text.old text.new (handled part byte).0) }
    ensures part { IfOk result (λ left. left ≡ (handled part byte).1) }
    ensures partial { IfOk result (λ left. IfSome left IsPartial) }
{
    match part {
        None => append_alone(byte, text),
        Some(partial) => {
            if partial.lower <= byte && byte <= partial.upper {
                if partial.needed == 1 {
                    text.push(completed(partial, byte))?;
                    Ok(None)
                } else {
                    Ok(Some(longer(partial, byte)))
                }
            } else {
                text.push('\u{FFFD}')?;
                append_alone(byte, text)
            }
        }
    }
}

// Appends what a byte gives when none is needed.
fn append_alone<A: Allocator>(byte: u8, text: &mut String<A>) -> Result<Option<Partial>, AllocError>
    ensures text { OnOk result (Adds text.old text.new (alone byte).0) }
    ensures part { IfOk result (λ left. left ≡ (alone byte).1) }
    ensures partial { IfOk result (λ left. IfSome left IsPartial) }
{
    if byte < 0x80 {
        text.push(byte as char)?;
        return Ok(None);
    }
    let begun = begun(byte);
    if let None = begun {
        text.push('\u{FFFD}')?;
    }
    Ok(begun)
}

// What a byte from 0x80 on begins, if anything.
fn begun(byte: u8) -> Option<Partial>
    requires { 0x80 ≤ byte }
    ensures value { result ≡ (alone byte).1 }
    ensures partial { IfSome result IsPartial }
{
    match byte {
        0xC2..=0xDF => Some(of_two(byte)),
        0xE0..=0xEF => Some(of_three(byte)),
        0xF0..=0xF4 => Some(of_four(byte)),
        _ => None,
    }
}

// What the first byte of two leaves.
fn of_two(byte: u8) -> Partial
    requires from { 0xC2 ≤ byte }
    requires to { byte ≤ 0xDF }
    ensures value { result ≡ of_two byte }
    ensures partial { IsPartial result }
{
    Partial {
        code_point: byte as u32 - 0xC0,
        needed: 1,
        lower: 0x80,
        upper: 0xBF,
    }
}

// What the first byte of three leaves: no character is written with more bytes than it needs, and none
// is a surrogate.
fn of_three(byte: u8) -> Partial
    requires from { 0xE0 ≤ byte }
    requires to { byte ≤ 0xEF }
    ensures value { result ≡ of_three byte }
    ensures partial { IsPartial result }
{
    Partial {
        code_point: byte as u32 - 0xE0,
        needed: 2,
        lower: if byte == 0xE0 { 0xA0 } else { 0x80 },
        upper: if byte == 0xED { 0x9F } else { 0xBF },
    }
}

// What the first byte of four leaves: no number is past U+10FFFF.
fn of_four(byte: u8) -> Partial
    requires from { 0xF0 ≤ byte }
    requires to { byte ≤ 0xF4 }
    ensures value { result ≡ of_four byte }
    ensures partial { IsPartial result }
{
    Partial {
        code_point: byte as u32 - 0xF0,
        needed: 3,
        lower: if byte == 0xF0 { 0x90 } else { 0x80 },
        upper: if byte == 0xF4 { 0x8F } else { 0xBF },
    }
}

// The code point with one more byte.
fn joined(partial: Partial, byte: u8) -> u32
    requires partial { IsPartial partial }
    requires lower { partial.lower ≤ byte }
    requires upper { byte ≤ partial.upper }
    ensures { result ≡ joined partial byte }
{
    partial.code_point * 64 + (byte as u32 - 0x80)
}

// What is left to come after one more byte that is not the last.
fn longer(partial: Partial, byte: u8) -> Partial
    requires partial { IsPartial partial }
    requires lower { partial.lower ≤ byte }
    requires upper { byte ≤ partial.upper }
    requires more { 1 < partial.needed }
    ensures value { result ≡ record { code_point = joined partial byte; needed = partial.needed - 1; lower = 0x80; upper = 0xBF } }
    ensures partial { IsPartial result }
{
    Partial {
        code_point: joined(partial, byte),
        needed: partial.needed - 1,
        lower: 0x80,
        upper: 0xBF,
    }
}

// The character that one more byte completes.
fn completed(partial: Partial, byte: u8) -> char
    requires partial { IsPartial partial }
    requires lower { partial.lower ≤ byte }
    requires upper { byte ≤ partial.upper }
    requires last { partial.needed ≡ 1 }
    ensures { result ≡ joined partial byte }
{
    unsafe { char::from_u32_unchecked(joined(partial, byte)) }
}

// Whether a byte is an error after a part of a character or none.
pub(crate) fn returns_error(part: Option<Partial>, byte: u8) -> bool
    ensures { result ≡ returns_error part byte }
{
    match part {
        None => !matches!(byte, 0..=0x7F | 0xC2..=0xF4),
        Some(partial) => !(partial.lower <= byte && byte <= partial.upper),
    }
}
