ghost use Rattle.std.specs.Prelude.{◌≡◌};
ghost use Rattle.html5partial.specs.declared.error.TokenizerError.TheVariants.{Memory};

use std::alloc::AllocError;
use thiserror::Error;

/// Why a call of the tokenizer stopped. After each of these every further call is refused.
#[derive(Clone, Copy, Debug, PartialEq, Eq, Error)]
pub enum TokenizerError {
    /// Memory ran out: until then the sink received a prefix of the correct output.
    #[error("out of memory")]
    Memory,
    /// The sink faulted at a token, or at its end: it is as its own contract says of that fault.
    #[error("the sink could not take a token")]
    Sink,
    /// An earlier call was refused: nothing was sent, and nothing was taken.
    #[error("an earlier call failed")]
    Failed,
}

impl From<AllocError> for TokenizerError {
    ghost from_gives = { λ _ error. error ≡ Memory };

    fn from(_error: AllocError) -> TokenizerError {
        TokenizerError::Memory
    }
}
