//! The messages of errors.
ghost use Rattle.std.specs.Prelude.{◌≡◌, IfOk};
ghost use Rattle.html5ever_interface.specs.Message.{fixed_text, message_bytes};

use std::alloc::{AllocError, Allocator, Global};
use std::ops::DerefStr;

/// A message that names nothing of the text.
#[derive(Clone, Copy, Debug, PartialEq, Eq, Hash)]
pub enum FixedMessage {
    /// A state doesn't expect the character. Exact errors say no more.
    BadCharacter,
    /// A state doesn't expect the end of input. Exact errors say no more.
    UnexpectedEof,
    AttributesOnEndTag,
    SelfClosingEndTag,
    DuplicateAttribute,
    /// Of a named reference.
    MissingSemicolon,
    /// Letters and digits, up to a semicolon, begin no name.
    InvalidReference,
    NumberWithoutDigits,
    EofAfterNumberSign,
    EofInNumber,
    MissingSemicolonAfterNumber,
    /// A number that no character should have.
    InvalidNumber,
}

impl FixedMessage {
    /// Its text.
    pub fn as_str(self) -> &'static str
        ensures { result.now ≡ fixed_text self }
    {
        match self {
            FixedMessage::BadCharacter => "Bad character",
            FixedMessage::UnexpectedEof => "Unexpected EOF",
            FixedMessage::AttributesOnEndTag => "Attributes on an end tag",
            FixedMessage::SelfClosingEndTag => "Self-closing end tag",
            FixedMessage::DuplicateAttribute => "Duplicate attribute",
            FixedMessage::MissingSemicolon => "Character reference does not end with semicolon",
            FixedMessage::InvalidReference => "Invalid character reference",
            FixedMessage::NumberWithoutDigits => "Numeric character reference without digits",
            FixedMessage::EofAfterNumberSign => "EOF after '#' in character reference",
            FixedMessage::EofInNumber => "EOF in numeric character reference",
            FixedMessage::MissingSemicolonAfterNumber => {
                "Semicolon missing after numeric character reference"
            }
            FixedMessage::InvalidNumber => "Invalid numeric character reference",
        }
    }
}

/// The message of an error.
#[derive(Drop)]
#[derive_where(Debug, PartialEq, Eq)]
pub enum ErrorMessage<A: Allocator = Global> {
    /// One that names nothing of the text. It takes no memory.
    Fixed(FixedMessage),
    /// One that names a character, a state, a number or letters.
    Named(String<A>),
}

impl<A: Allocator> ErrorMessage<A> {
    /// Its text.
    pub fn as_str(&self) -> &str
        ensures { result.now ≡ message_bytes self.now }
    {
        match self {
            ErrorMessage::Fixed(message) => message.as_str(),
            ErrorMessage::Named(text) => text.as_str(),
        }
    }
}

impl<A: Allocator> DerefStr for ErrorMessage<A> {
    ghost deref_gives = { λ message bytes. bytes ≡ message_bytes message };

    fn deref(&self) -> &str {
        self.as_str()
    }
}

impl<A: Allocator + Copy> ErrorMessage<A> {
    /// An equal message, with the same allocator.
    pub fn try_clone(&self) -> Result<ErrorMessage<A>, AllocError>
        ensures { IfOk result (λ clone. message_bytes clone ≡ message_bytes self.now) }
    {
        match self {
            ErrorMessage::Fixed(message) => Ok(ErrorMessage::Fixed(*message)),
            ErrorMessage::Named(text) => Ok(ErrorMessage::Named(text.clone()?)),
        }
    }
}
