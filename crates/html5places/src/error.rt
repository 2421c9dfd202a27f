//! Why reading with places stopped.
use thiserror::Error;

/// Why a call was refused. After each of these every further call is refused.
#[derive(Clone, Copy, Debug, PartialEq, Eq, Error)]
pub enum PlaceError {
    /// There was no memory.
    #[error("out of memory")]
    Memory,
    /// The handler refused a token.
    #[error("the handler could not take a token")]
    Handler,
    /// The places of the text would not fit in a `usize`. Nothing of it was read.
    #[error("the text is too long")]
    TooLong,
    /// An earlier call was refused, or the end was read. Nothing was read.
    #[error("the reading has ended")]
    Failed,
}
