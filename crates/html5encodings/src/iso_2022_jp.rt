//! The ISO-2022-JP decoder.
ghost use Rattle.std.specs.Prelude.{◌≡◌, ◌+◌, ◌-◌, ◌≤◌, IfOk, OnOk, encode_utf8_all, false, true, if◌then◌else◌};
ghost use Rattle.html5encodings.specs.Iso2022Jp.{after_dollar, after_escape, after_lead, after_parenthesis, alone, ascii_code_point, at_end, at_end_after, both, escaped_to, handled, in_a_row, is_error_after, is_nothing, is_shown_error, katakana_code_point, not_escaped, pair_code_point, reads_plain, returns_error, roman_code_point, shown, standing};
ghost use Rattle.html5encodings.specs.Steps.{Adds};

use crate::pointers::in_jis0208;
use crate::steps::append_or_error;
use std::alloc::{AllocError, Allocator};

/// What escape sequences choose among: the output states of the decoder.
#[derive(Clone, Copy)]
pub enum Charset {
    Ascii,
    Roman,
    Katakana,
    Jis0208,
}

/// What is begun: nothing, a character of two bytes, or an escape sequence.
#[derive(Clone, Copy)]
pub enum Begun {
    Nothing,
    Lead(u8),
    Escape,
    EscapeDollar,
    EscapeParenthesis,
}

/// Where the decoder stands: its output state, what is begun, and whether an escape sequence ended with
/// nothing after it.
#[derive(Clone, Copy)]
pub struct Iso2022Jp {
    pub charset: Charset,
    pub begun: Begun,
    pub escaped: bool,
}

// Appends what a byte gives, and gives where it leaves the decoder.
pub(crate) fn append_byte<A: Allocator>(
    before: Iso2022Jp,
    byte: u8,
    text: &mut String<A>,
) -> Result<Iso2022Jp, AllocError>
    ensures text { OnOk result (Adds text.old text.new (handled before byte).0) }
    ensures left { IfOk result (λ left. left ≡ (handled before byte).1) }
{
    match before.begun {
        Begun::Nothing => append_alone(before.charset, before.escaped, byte, text),
        Begun::Lead(lead) => append_after_lead(before.charset, lead, byte, text),
        Begun::Escape => append_after_escape(before.charset, before.escaped, byte, text),
        Begun::EscapeDollar => append_after_dollar(before.charset, before.escaped, byte, text),
        Begun::EscapeParenthesis => append_after_parenthesis(
            before.charset,
            before.escaped,
            byte,
            text,
        ),
    }
}

// A byte when nothing is begun.
fn append_alone<A: Allocator>(
    charset: Charset,
    escaped: bool,
    byte: u8,
    text: &mut String<A>,
) -> Result<Iso2022Jp, AllocError>
    ensures text { OnOk result (Adds text.old text.new (alone charset escaped byte).0) }
    ensures left { IfOk result (λ left. left ≡ (alone charset escaped byte).1) }
{
    if byte == 0x1B {
        return Ok(Iso2022Jp {
            charset,
            begun: Begun::Escape,
            escaped,
        });
    }
    append_shown(charset, byte, text)
}

// A byte that is not an escape, when nothing is begun.
fn append_shown<A: Allocator>(
    charset: Charset,
    byte: u8,
    text: &mut String<A>,
) -> Result<Iso2022Jp, AllocError>
    ensures text { OnOk result (Adds text.old text.new (shown charset byte).0) }
    ensures left { IfOk result (λ left. left ≡ (shown charset byte).1) }
{
    match charset {
        Charset::Ascii => append_or_error(ascii_character(byte), text)?,
        Charset::Roman => append_or_error(roman_character(byte), text)?,
        Charset::Katakana => append_or_error(katakana_character(byte), text)?,
        Charset::Jis0208 => return append_lead(byte, text),
    }
    Ok(standing(charset))
}

// A byte in the lead byte state.
fn append_lead<A: Allocator>(byte: u8, text: &mut String<A>) -> Result<Iso2022Jp, AllocError>
    ensures text { OnOk result (Adds text.old text.new (shown Charset.Jis0208 byte).0) }
    ensures left { IfOk result (λ left. left ≡ (shown Charset.Jis0208 byte).1) }
{
    if byte >= 0x21 && byte <= 0x7E {
        return Ok(Iso2022Jp {
            charset: Charset::Jis0208,
            begun: Begun::Lead(byte),
            escaped: false,
        });
    }
    text.push('\u{FFFD}')?;
    Ok(standing(Charset::Jis0208))
}

fn ascii_character(byte: u8) -> Option<char>
    ensures { result ≡ ascii_code_point byte }
{
    match byte {
        0x0E | 0x0F => None,
        0..=0x7F => Some(byte as char),
        _ => None,
    }
}

fn roman_character(byte: u8) -> Option<char>
    ensures { result ≡ roman_code_point byte }
{
    match byte {
        0x5C => Some('\u{A5}'),
        0x7E => Some('\u{203E}'),
        _ => ascii_character(byte),
    }
}

fn katakana_character(byte: u8) -> Option<char>
    ensures { result ≡ katakana_code_point byte }
{
    if byte >= 0x21 && byte <= 0x5F {
        Some(katakana(byte))
    } else {
        None
    }
}

fn katakana(byte: u8) -> char
    requires from { 0x21 ≤ byte }
    requires to { byte ≤ 0x5F }
    ensures { result ≡ 0xFF61 + (byte - 0x21) }
{
    unsafe { char::from_u32_unchecked(0xFF61 + (byte as u32 - 0x21)) }
}

// An output state with nothing begun.
fn standing(charset: Charset) -> Iso2022Jp
    ensures { result ≡ standing charset }
{
    Iso2022Jp {
        charset,
        begun: Begun::Nothing,
        escaped: false,
    }
}

// A byte in the trail byte state.
fn append_after_lead<A: Allocator>(
    charset: Charset,
    lead: u8,
    byte: u8,
    text: &mut String<A>,
) -> Result<Iso2022Jp, AllocError>
    ensures text { OnOk result (Adds text.old text.new (after_lead charset lead byte).0) }
    ensures left { IfOk result (λ left. left ≡ (after_lead charset lead byte).1) }
{
    if byte == 0x1B {
        text.push('\u{FFFD}')?;
        return Ok(Iso2022Jp {
            charset,
            begun: Begun::Escape,
            escaped: false,
        });
    }
    if byte >= 0x21 && byte <= 0x7E {
        append_or_error(pair_character(lead, byte), text)?;
        return Ok(standing(charset));
    }
    text.push('\u{FFFD}')?;
    Ok(standing(charset))
}

fn pair_character(lead: u8, byte: u8) -> Option<char>
    requires { 0x21 ≤ byte }
    ensures { result ≡ pair_code_point lead byte }
{
    in_jis0208((lead as usize).saturating_sub(0x21) * 94 + (byte as usize - 0x21))
}

// A byte in the escape start state.
fn append_after_escape<A: Allocator>(
    charset: Charset,
    escaped: bool,
    byte: u8,
    text: &mut String<A>,
) -> Result<Iso2022Jp, AllocError>
    ensures text { OnOk result (Adds text.old text.new (after_escape charset escaped byte).0) }
    ensures left { IfOk result (λ left. left ≡ (after_escape charset escaped byte).1) }
{
    if byte == 0x24 {
        return Ok(Iso2022Jp {
            charset,
            begun: Begun::EscapeDollar,
            escaped,
        });
    }
    if byte == 0x28 {
        return Ok(Iso2022Jp {
            charset,
            begun: Begun::EscapeParenthesis,
            escaped,
        });
    }
    text.push('\u{FFFD}')?;
    append_alone(charset, false, byte, text)
}

// A byte in the escape state, after 0x24.
fn append_after_dollar<A: Allocator>(
    charset: Charset,
    escaped: bool,
    byte: u8,
    text: &mut String<A>,
) -> Result<Iso2022Jp, AllocError>
    ensures text { OnOk result (Adds text.old text.new (after_dollar charset escaped byte).0) }
    ensures left { IfOk result (λ left. left ≡ (after_dollar charset escaped byte).1) }
{
    if byte == 0x40 || byte == 0x42 {
        return append_escaped(Charset::Jis0208, escaped, text);
    }
    append_not_escaped(charset, 0x24, byte, text)
}

// A byte in the escape state, after 0x28.
fn append_after_parenthesis<A: Allocator>(
    charset: Charset,
    escaped: bool,
    byte: u8,
    text: &mut String<A>,
) -> Result<Iso2022Jp, AllocError>
    ensures text { OnOk result (Adds text.old text.new (after_parenthesis charset escaped byte).0) }
    ensures left { IfOk result (λ left. left ≡ (after_parenthesis charset escaped byte).1) }
{
    match byte {
        0x42 => append_escaped(Charset::Ascii, escaped, text),
        0x4A => append_escaped(Charset::Roman, escaped, text),
        0x49 => append_escaped(Charset::Katakana, escaped, text),
        _ => append_not_escaped(charset, 0x28, byte, text),
    }
}

// The end of an escape sequence.
fn append_escaped<A: Allocator>(
    charset: Charset,
    escaped: bool,
    text: &mut String<A>,
) -> Result<Iso2022Jp, AllocError>
    ensures text { OnOk result (Adds text.old text.new (escaped_to charset escaped).0) }
    ensures left { IfOk result (λ left. left ≡ (escaped_to charset escaped).1) }
{
    if escaped {
        text.push('\u{FFFD}')?;
    }
    Ok(Iso2022Jp {
        charset,
        begun: Begun::Nothing,
        escaped: true,
    })
}

// An error, after which both bytes after the escape are restored.
fn append_not_escaped<A: Allocator>(
    charset: Charset,
    first: u8,
    second: u8,
    text: &mut String<A>,
) -> Result<Iso2022Jp, AllocError>
    ensures text { OnOk result (Adds text.old text.new (not_escaped charset first second).0) }
    ensures left { IfOk result (λ left. left ≡ (not_escaped charset first second).1) }
{
    text.push('\u{FFFD}')?;
    append_both(charset, first, second, text)
}

// Two bytes, of which the first is no escape.
fn append_both<A: Allocator>(
    charset: Charset,
    first: u8,
    second: u8,
    text: &mut String<A>,
) -> Result<Iso2022Jp, AllocError>
    ensures text { OnOk result (Adds text.old text.new (both charset first second).0) }
    ensures left { IfOk result (λ left. left ≡ (both charset first second).1) }
{
    match charset {
        Charset::Jis0208 => append_after_lead(charset, first, second, text),
        Charset::Ascii => append_in_a_row(charset, first, second, text),
        Charset::Roman => append_in_a_row(charset, first, second, text),
        Charset::Katakana => append_in_a_row(charset, first, second, text),
    }
}

// Two bytes, of which the first leaves nothing.
fn append_in_a_row<A: Allocator>(
    charset: Charset,
    first: u8,
    second: u8,
    text: &mut String<A>,
) -> Result<Iso2022Jp, AllocError>
    ensures text { OnOk result (Adds text.old text.new (in_a_row charset first second).0) }
    ensures left { IfOk result (λ left. left ≡ (in_a_row charset first second).1) }
{
    append_shown(charset, first, text)?;
    append_alone(charset, false, second, text)
}

// Whether plain ASCII stands for itself, and leaves the decoder where it is.
pub(crate) fn reads_plain(before: Iso2022Jp) -> bool
    ensures { result ≡ reads_plain before.charset before.begun before.escaped }
{
    match before.charset {
        Charset::Ascii => match before.begun {
            Begun::Nothing => !before.escaped,
            Begun::Lead(_) => false,
            Begun::Escape => false,
            Begun::EscapeDollar => false,
            Begun::EscapeParenthesis => false,
        },
        Charset::Roman => false,
        Charset::Katakana => false,
        Charset::Jis0208 => false,
    }
}

// The text at the end.
pub(crate) fn at_end(before: Iso2022Jp) -> &'static str
    ensures { result.now ≡ encode_utf8_all (at_end before) }
{
    match before.begun {
        Begun::Nothing => "",
        Begun::Lead(_) => "\u{FFFD}",
        Begun::Escape => "\u{FFFD}",
        Begun::EscapeDollar => dollar_at_end(before.charset),
        Begun::EscapeParenthesis => parenthesis_at_end(before.charset),
    }
}

// The text at the end after an escape and 0x24.
fn dollar_at_end(charset: Charset) -> &'static str
    ensures { result.now ≡ encode_utf8_all (at_end_after Begun.EscapeDollar charset) }
{
    match charset {
        Charset::Ascii => "\u{FFFD}$",
        Charset::Roman => "\u{FFFD}$",
        Charset::Katakana => "\u{FFFD}\u{FF64}",
        Charset::Jis0208 => "\u{FFFD}\u{FFFD}",
    }
}

// The text at the end after an escape and 0x28.
fn parenthesis_at_end(charset: Charset) -> &'static str
    ensures { result.now ≡ encode_utf8_all (at_end_after Begun.EscapeParenthesis charset) }
{
    match charset {
        Charset::Ascii => "\u{FFFD}(",
        Charset::Roman => "\u{FFFD}(",
        Charset::Katakana => "\u{FFFD}\u{FF68}",
        Charset::Jis0208 => "\u{FFFD}\u{FFFD}",
    }
}

// Whether a byte is an error.
pub(crate) fn returns_error(before: Iso2022Jp, byte: u8) -> bool
    ensures { result ≡ returns_error before byte }
{
    match before.begun {
        Begun::Nothing => byte != 0x1B && is_shown_error(before.charset, byte),
        Begun::Lead(lead) => is_trail_error(lead, byte),
        Begun::Escape => !(byte == 0x24 || byte == 0x28),
        Begun::EscapeDollar => is_escape_error(byte == 0x40 || byte == 0x42, before.escaped),
        Begun::EscapeParenthesis => is_escape_error(
            byte == 0x42 || byte == 0x4A || byte == 0x49,
            before.escaped,
        ),
    }
}

// Whether a byte that is not an escape is an error, when nothing is begun.
fn is_shown_error(charset: Charset, byte: u8) -> bool
    ensures { result ≡ is_shown_error charset byte }
{
    match charset {
        Charset::Ascii => ascii_character(byte).is_none(),
        Charset::Roman => roman_character(byte).is_none(),
        Charset::Katakana => katakana_character(byte).is_none(),
        Charset::Jis0208 => !(byte >= 0x21 && byte <= 0x7E),
    }
}

// Whether a byte is an error in the trail byte state.
fn is_trail_error(lead: u8, byte: u8) -> bool
    ensures { result ≡ is_error_after (Begun.Lead lead) Charset.Ascii false byte }
{
    if byte >= 0x21 && byte <= 0x7E {
        pair_character(lead, byte).is_none()
    } else {
        true
    }
}

// Whether the last byte of an escape sequence is an error: none that ends it, or an end with nothing between it and
// the escape sequence before it.
fn is_escape_error(ends: bool, escaped: bool) -> bool
    ensures { result ≡ (if ends then escaped else true) }
{
    !ends || escaped
}

// Whether nothing is begun.
pub(crate) fn is_whole(before: Iso2022Jp) -> bool
    ensures { result ≡ is_nothing before.begun }
{
    match before.begun {
        Begun::Nothing => true,
        Begun::Lead(_) => false,
        Begun::Escape => false,
        Begun::EscapeDollar => false,
        Begun::EscapeParenthesis => false,
    }
}
