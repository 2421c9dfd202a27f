//! Why a source was not read to its end.
use thiserror::Error;
use utf8_pieces::DecodeError;

/// Why a source was not read to its end.
#[derive(Clone, Copy, Debug, PartialEq, Eq, Error)]
pub enum StreamError {
    /// A read failed.
    #[error("a read failed")]
    Read,
    /// The bytes stop being UTF-8 at this place, counted in bytes from the first, which is at 0. A place
    /// past `u64::MAX` counts as `u64::MAX`.
    #[error("invalid UTF-8 at byte {valid_up_to}")]
    NotUtf8 { valid_up_to: u64 },
    /// A growth was refused.
    #[error("out of memory")]
    Memory,
    /// The sink faulted at a token, or at its end.
    #[error("the sink could not take a token")]
    Sink,
    /// `u64::MAX` reads gave bytes, and the end did not come.
    #[error("too many reads")]
    TooLong,
}

impl From<DecodeError> for StreamError {
    ghost use Rattle.std.specs.Prelude.{◌≡◌, ◌≢◌};
    ghost use Rattle.html5stream.specs.DecodeErrors.{of_decoder};
    ghost use Rattle.html5stream.specs.declared.error.StreamError.TheVariants.{TooLong};
    ghost use Rattle.html5stream.specs.Streams.{failed_read, sink_fault};

    ghost from_gives = { λ error result. (result ≡ of_decoder error) × (failed_read result ≡ 0)
        × (sink_fault result ≡ 0) × (result ≢ TooLong) };

    fn from(error: DecodeError) -> StreamError {
        match error {
            DecodeError::NotUtf8 { valid_up_to } => StreamError::NotUtf8 { valid_up_to },
            DecodeError::Memory => StreamError::Memory,
        }
    }
}
