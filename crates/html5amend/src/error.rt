//! Why an element is not amended.
use std::alloc::AllocError;
use thiserror::Error;

/// Why an element is not amended.
#[derive(Clone, Copy, Debug, PartialEq, Eq, Error)]
pub enum AmendError {
    /// No tag is read with this name. It doesn't begin with a small ASCII letter, or has a character that would end it
    /// or come back as another.
    #[error("invalid tag name")]
    TagName,
    /// No attribute is read with this name: it is empty, or a character stands in it that would end it or come back as another.
    #[error("invalid attribute name")]
    AttributeName,
    #[error("out of memory")]
    Memory,
}

impl From<AllocError> for AmendError {
    ghost use Rattle.std.specs.Prelude.{◌≡◌};
    ghost use Rattle.html5amend.specs.declared.error.AmendError.TheVariants.{Memory};

    ghost from_gives = { λ _ error. error ≡ Memory };

    fn from(_error: AllocError) -> AmendError {
        AmendError::Memory
    }
}
