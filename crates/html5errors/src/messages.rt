//! The code of an error by its message.
ghost use Rattle.std.specs.Prelude.{◌≡◌, ℕ, false, None, Some};
ghost use Rattle.std.specs.Option.{MatchOption, option_copied};
ghost use Rattle.html5ever_interface.specs.Message.{fixed_text};
ghost use Rattle.html5ever_interface.specs.States.{state_name};
ghost use Rattle.html5reading.specs.ErrorText.{saw, saw_end};
ghost use Rattle.html5errors.specs.Codes.{code_in, end_code_in, fixed_code};
ghost use Rattle.html5errors.specs.Messages.{after_word, code_by_place, code_named, code_of_character, code_of_fixed, code_of_message, code_of_seen, end_code_named, split_first};

use crate::codes::ErrorCode;
use crate::state_names::state_named;
use crate::tables::{code_in, end_code_in};
use html5ever_interface::interface::message::FixedMessage;
use html5ever_interface::states::State;

// The text after a word, if the text begins with it.
fn after_word<'t>(text: &'t str, word: &str) -> Option<&'t str>
    ensures { option_copied result ≡ after_word word.now text.now }
{
    text.strip_prefix(word)
}

// The first character of a text, and the text after it.
fn split_first(text: &str) -> Option<(char, &str)>
    ensures { MatchOption result (split_first text.now ≡ None)
        (λ split. split_first text.now ≡ Some (split.0, split.1.now)) }
{
    let mut rest = text.chars();
    match rest.next() {
        Some(first) => Some((first, rest.as_str())),
        None => None,
    }
}

// The code of a character in the state of that name.
fn code_named(c: char, name: &str) -> Option<ErrorCode>
    ensures { result ≡ code_named c name.now }
{
    match state_named(name) {
        Some(state) => code_in(state, c),
        None => None,
    }
}

// The code of the end in the state of that name.
fn end_code_named(name: &str) -> Option<ErrorCode>
    ensures { result ≡ end_code_named name.now }
{
    match state_named(name) {
        Some(state) => end_code_in(state),
        None => None,
    }
}

// The code of a character, by the text after it.
fn code_by_place(c: char, place: &str) -> Option<ErrorCode>
    ensures { result ≡ code_by_place c place.now }
{
    match after_word(place, " in state ") {
        Some(name) => code_named(c, name),
        None => None,
    }
}

// The code where a character was seen.
#[tactic(auto, unfolding(crate::specs::Messages::code_of_character))]
fn code_of_character(seen: &str) -> Option<ErrorCode>
    ensures { result ≡ code_of_character seen.now }
{
    match split_first(seen) {
        Some((c, place)) => code_by_place(c, place),
        None => None,
    }
}

// The code of what a state saw.
fn code_of_seen(seen: &str) -> Option<ErrorCode>
    ensures { result ≡ code_of_seen seen.now }
{
    match after_word(seen, "EOF in state ") {
        Some(name) => end_code_named(name),
        None => code_of_character(seen),
    }
}

// The code of a message that names nothing of the text.
#[tactic(auto, unfolding(crate::specs::Messages::code_of_fixed))]
fn code_of_fixed(message: &str) -> Option<ErrorCode>
    ensures { result ≡ code_of_fixed message.now }
{
    match message {
        "Duplicate attribute" => Some(ErrorCode::DuplicateAttribute),
        "Attributes on an end tag" => Some(ErrorCode::EndTagWithAttributes),
        "Self-closing end tag" => Some(ErrorCode::EndTagWithTrailingSolidus),
        "Character reference does not end with semicolon"
        | "EOF in numeric character reference"
        | "Semicolon missing after numeric character reference" => {
            Some(ErrorCode::MissingSemicolonAfterCharacterReference)
        }
        "Invalid character reference" => Some(ErrorCode::UnknownNamedCharacterReference),
        "Numeric character reference without digits" | "EOF after '#' in character reference" => {
            Some(ErrorCode::AbsenceOfDigitsInNumericCharacterReference)
        }
        _ => None,
    }
}

// The code of a message.
fn code_of_message(message: &str) -> Option<ErrorCode>
    ensures { result ≡ code_of_message message.now }
{
    match after_word(message, "Saw ") {
        Some(seen) => code_of_seen(seen),
        None => code_of_fixed(message),
    }
}

/// The standard's code of an error by its message, where errors are not exact. One message has one code.
pub fn error_code(message: &str) -> Option<ErrorCode>
    ensures value { result ≡ code_of_message message.now }
    ensures saw { (S : State) (c : ℕ) → message.now ≡ saw false c (state_name S) → result ≡ code_in S c }
    ensures end { (S : State) → message.now ≡ saw_end false (state_name S) → result ≡ end_code_in S }
    ensures fixed { (m : FixedMessage) → message.now ≡ fixed_text m → result ≡ fixed_code m }
{
    code_of_message(message)
}
