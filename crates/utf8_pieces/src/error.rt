//! Why bytes give no text.
ghost use Rattle.std.specs.Prelude.{◌≡◌};
ghost use Rattle.utf8_pieces.specs.declared.error.DecodeError.TheVariants.{Memory};

use std::alloc::AllocError;
use thiserror::Error;

/// Why bytes give no text.
#[derive(Clone, Copy, Debug, PartialEq, Eq, Error)]
pub enum DecodeError {
    /// The bytes stop being UTF-8 at this place, counted in bytes from the first of the first piece,
    /// which is at 0. A place past `u64::MAX` counts as `u64::MAX`.
    #[error("invalid UTF-8 at byte {valid_up_to}")]
    NotUtf8 { valid_up_to: u64 },
    /// A growth was refused.
    #[error("out of memory")]
    Memory,
}

impl From<AllocError> for DecodeError {
    ghost from_gives = { λ _ error. error ≡ Memory };

    fn from(_error: AllocError) -> DecodeError {
        DecodeError::Memory
    }
}
