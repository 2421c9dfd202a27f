//! The messages of errors.
#![tactic(auto, unfolding(html5reading::specs::Characters::is_bad_character, html5reading::specs::ErrorText::bad_character, html5reading::specs::ErrorText::saw, html5reading::specs::ErrorText::saw_end))]

ghost use Rattle.std.specs.Prelude.{◌≡◌, IfOk, string_bytes};
ghost use Rattle.html5ever_interface.specs.Message.{message_bytes};
ghost use Rattle.html5reading.specs.Characters.{is_bad_character};
ghost use Rattle.html5reading.specs.ErrorText.{saw, saw_end, bad_character};

use html5ever_interface::interface::message::{ErrorMessage, FixedMessage};
use std::alloc::{AllocError, Allocator};

const IN_STATE: &str = " in state ";

/// Whether exact errors report the character wherever it stands.
pub fn is_bad(c: char) -> bool
    ensures { result ≡ is_bad_character c }
{
    let code = c as u32;
    matches!(code, 0x01..=0x08 | 0x0B | 0x0E..=0x1F | 0x7F..=0x9F | 0xFDD0..=0xFDEF)
        || code % 0x1_0000 >= 0xFFFE
}

// A text that begins so, with room for this many bytes more.
fn begun<A: Allocator>(alloc: A, beginning: &str, more: usize) -> Result<String<A>, AllocError>
    ensures { IfOk result (λ text. string_bytes text ≡ beginning.now) }
{
    let mut text = String::with_capacity(alloc, beginning.len().saturating_add(more))?;
    text.push_str(beginning)?;
    Ok(text)
}

/// The message for a bad character.
pub fn bad_character_message<A: Allocator>(alloc: A, c: char) -> Result<ErrorMessage<A>, AllocError>
    ensures { IfOk result (λ message. message_bytes message ≡ bad_character c) }
{
    let mut text = begun(alloc, "Bad character ", c.len_utf8())?;
    text.push(c)?;
    Ok(ErrorMessage::Named(text))
}

/// The message for a character that a state doesn't expect.
pub fn saw_message<A: Allocator>(
    alloc: A,
    exact_errors: bool,
    c: char,
    state: &str,
) -> Result<ErrorMessage<A>, AllocError>
    ensures { IfOk result (λ message. message_bytes message ≡ saw exact_errors c state.now) }
{
    if exact_errors {
        return Ok(ErrorMessage::Fixed(FixedMessage::BadCharacter));
    }
    let more = state.len().saturating_add(c.len_utf8() + IN_STATE.len());
    let mut text = begun(alloc, "Saw ", more)?;
    text.push(c)?;
    text.push_str(IN_STATE)?;
    text.push_str(state)?;
    Ok(ErrorMessage::Named(text))
}

/// The message for an end of input that a state doesn't expect.
pub fn saw_end_message<A: Allocator>(
    alloc: A,
    exact_errors: bool,
    state: &str,
) -> Result<ErrorMessage<A>, AllocError>
    ensures { IfOk result (λ message. message_bytes message ≡ saw_end exact_errors state.now) }
{
    if exact_errors {
        return Ok(ErrorMessage::Fixed(FixedMessage::UnexpectedEof));
    }
    let mut text = begun(alloc, "Saw EOF in state ", state.len())?;
    text.push_str(state)?;
    Ok(ErrorMessage::Named(text))
}
