//! Why a call of a session was refused.
use thiserror::Error;

/// Why a call was refused.
#[derive(Clone, Copy, Debug, PartialEq, Eq, Error)]
pub enum SessionError {
    /// A growth was refused, or the sink refused what it was sent.
    #[error("out of memory")]
    Memory,
    /// The bytes stop being UTF-8 at this place, counted in bytes from the first of the first piece. All before it were
    /// taken, and none from it on.
    #[error("invalid UTF-8 at byte {valid_up_to}")]
    NotUtf8 { valid_up_to: u64 },
    /// The page ends within a character: its bytes are not all there.
    #[error("the bytes end inside a character")]
    Cut,
    /// The page ends while text waits after a pause.
    #[error("text after a pause was not fed yet")]
    Waiting,
    /// No state can be set within a tag or another item.
    #[error("a tag or other item is incomplete")]
    ItemOpen,
    /// The page has ended, or an earlier call failed.
    #[error("the session has ended")]
    Over,
}
