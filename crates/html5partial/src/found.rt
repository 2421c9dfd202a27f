//! What a reference comes to: its characters, the texts of its errors, and what the text after it
//! decides.
#![tactic(auto)]

ghost use Rattle.std.specs.Prelude.{◌≡◌, ◌≤◌, ◌∷◌, ◌++◌, true, All, Option, IfOk, OnOk, drop, flat_map, encode_utf8_all, string_bytes};
ghost use Rattle.std.specs.Str.{chars, IsAscii};
ghost use Rattle.html5ever_interface.specs.Message.{fixed_text, message_bytes};
ghost use Rattle.html5reading.specs.Characters.{number_sign, value_bytes};
ghost use Rattle.html5reading.specs.Reference.{invalid_number, without_digits, semicolon_len, unknown_name, is_ended, goes_on, first_or};
ghost use Rattle.html5partial.specs.CharRef.{more_of};

use crate::char_ref::Found;
use crate::current_tag::push_value;
use html5ever_interface::interface::message::{ErrorMessage, FixedMessage};
use std::alloc::{AllocError, Allocator};

/// The character after so much of the text.
pub fn afterwards(text: &str, len: usize) -> &str
    requires { IsAscii text.now }
    ensures { result.now ≡ drop len text.now }
{
    if len < text.len() { &text[len..] } else { "" }
}

// Whether a name without a semicolon is no reference in a value, before this character.
fn goes_on(next: Option<char>) -> bool
    ensures { result ≡ goes_on next }
{
    next.is_some_and(|c| c == '=' || c.is_ascii_alphanumeric())
}

/// Whether such a name is not a reference before this text and the character after it.
pub fn goes_on_with(text: &str, next: Option<char>) -> bool
    requires { IsAscii text.now }
    ensures { result ≡ goes_on (first_or text.now next) }
{
    match text.as_bytes().first() {
        Some(byte) => goes_on(Some(char::from(*byte))),
        None => goes_on(next),
    }
}

/// Whether a name ends with a semicolon.
pub fn is_ended(name: &str) -> bool
    ensures { result ≡ is_ended name.now }
{
    name.ends_with(';')
}

/// How many characters the semicolon of a number takes: none if it has no semicolon.
pub fn semicolon_len(next: Option<char>) -> usize
    ensures { result ≡ semicolon_len next }
{
    match next {
        Some(';') => 1,
        _ => 0,
    }
}

/// The error of a number without digits.
#[tactic(auto, unfolding(html5reading::specs::Reference::without_digits))]
pub fn without_digits(number: &str, next: Option<char>) -> FixedMessage
    ensures { fixed_text result ≡ without_digits number.now next }
{
    if number.is_empty() && next.is_none() {
        FixedMessage::EofAfterNumberSign
    } else {
        FixedMessage::NumberWithoutDigits
    }
}

/// The message for a number that no character should have.
pub fn invalid_number_message<A: Allocator>(
    alloc: A,
    low_bits: u32,
) -> Result<ErrorMessage<A>, AllocError>
    ensures { IfOk result (λ message. message_bytes message ≡ invalid_number true low_bits) }
{
    let text = format!(in alloc; "Invalid numeric character reference value 0x{low_bits:06X}")?;
    Ok(ErrorMessage::Named(text))
}

/// The message for letters and digits that no name begins.
#[tactic(auto, unfolding(html5reading::specs::Reference::unknown_name))]
pub fn unknown_name_message<A: Allocator>(
    alloc: A,
    exact_errors: bool,
    held: &str,
) -> Result<ErrorMessage<A>, AllocError>
    requires { IsAscii held.now }
    ensures { IfOk result (λ message. message_bytes message ≡ unknown_name exact_errors held.now) }
{
    if !exact_errors {
        return Ok(ErrorMessage::Fixed(FixedMessage::InvalidReference));
    }
    let text = format!(in alloc; "Invalid character reference &{held};")?;
    Ok(ErrorMessage::Named(text))
}

/// Appends a reference's characters, and ASCII after them, to a value.
pub fn push_found<A: Allocator>(
    value: &mut String<A>,
    found: &Found,
    rest: &str,
) -> Result<(), AllocError>
    requires { All (λ c. (number_sign ≤ c) × (c ≤ 0x7A)) rest.now }
    ensures { OnOk result (string_bytes value.new ≡ string_bytes value.old
        ++ flat_map value_bytes (found.now.first ∷ (more_of found.now.second ++ rest.now))) }
{
    push_value(value, found.first)?;
    push_second_value(value, found.second)?;
    value.push_str(rest)?;
    Ok(())
}

fn push_second_value<A: Allocator>(
    value: &mut String<A>,
    second: Option<char>,
) -> Result<(), AllocError>
    ensures { OnOk result (string_bytes value.new ≡ string_bytes value.old ++ flat_map value_bytes (more_of second)) }
{
    match second {
        Some(c) => push_value(value, c),
        None => Ok(()),
    }
}

/// The text of a reference's characters, with ASCII after them.
pub fn text_of_found<A: Allocator>(
    alloc: A,
    found: &Found,
    rest: &str,
) -> Result<String<A>, AllocError>
    requires { IsAscii rest.now }
    ensures { IfOk result (λ text. chars (string_bytes text) ≡ found.now.first ∷
        (more_of found.now.second ++ rest.now)) }
{
    let mut text = String::new(alloc);
    text.push(found.first)?;
    push_second(&mut text, found.second)?;
    text.push_str(rest)?;
    Ok(text)
}

fn push_second<A: Allocator>(text: &mut String<A>, second: Option<char>) -> Result<(), AllocError>
    ensures { OnOk result (string_bytes text.new ≡ string_bytes text.old ++ encode_utf8_all (more_of second)) }
{
    match second {
        Some(c) => text.push(c),
        None => Ok(()),
    }
}
