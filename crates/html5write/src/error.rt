//! Why a piece was not written.
ghost use Rattle.std.specs.Prelude.{◌≡◌};
ghost use Rattle.html5write.specs.declared.error.WriteError.TheVariants.{Memory};

use std::alloc::AllocError;
use thiserror::Error;

/// Why a piece was not written. Attributes are counted from 0.
#[derive(Clone, Copy, Debug, PartialEq, Eq, Error)]
pub enum WriteError {
    /// A NUL stands in a text, at this byte of it: no reading of a page gives one.
    #[error("a NUL at byte {at} of the text")]
    NullInText { at: usize },
    /// The name of a tag doesn't begin with a small ASCII letter, or a character stands in it that would
    /// end it or come back as another.
    #[error("invalid tag name")]
    TagName,
    /// The name of this attribute is empty, or has a character that would end it, come back as another or
    /// be an error.
    #[error("attribute {attribute} has an invalid name")]
    AttributeName { attribute: usize },
    /// A NUL stands in the value of this attribute, at this byte of it.
    #[error("a NUL at byte {at} of the value of attribute {attribute}")]
    NullInValue { attribute: usize, at: usize },
    /// This attribute has the name of an earlier one, so a reading would drop it.
    #[error("attribute {attribute} repeats a name")]
    Repeated { attribute: usize },
    /// The text of a comment begins with `>` or `-`, ends with `-`, or has `--`, NUL or CR in it.
    #[error("a comment can't contain this text")]
    CommentText,
    /// A growth was refused.
    #[error("out of memory")]
    Memory,
}

impl From<AllocError> for WriteError {
    ghost from_gives = { λ _ error. error ≡ Memory };

    fn from(_error: AllocError) -> WriteError {
        WriteError::Memory
    }
}
