//! Why a tree is not built on.
use html5ever_interface::interface::token::SinkFault;
use std::alloc::AllocError;
use thiserror::Error;

/// Why a tree is not built on.
#[derive(Clone, Copy, Debug, PartialEq, Eq, Error)]
pub enum TreeBuilderError {
    /// Out of memory.
    #[error("out of memory")]
    Memory,
    /// The sink could not take an edit.
    #[error("the sink could not take an edit")]
    Sink,
    /// Parsing has stopped: no element is open any more.
    #[error("parsing has stopped")]
    Stopped,
}

impl From<AllocError> for TreeBuilderError {
    ghost use Rattle.std.specs.Prelude.{◌≡◌};
    ghost use Rattle.tree_sink.specs.declared.error.TreeBuilderError.TheVariants.{Memory};

    ghost from_gives = { λ _ error. error ≡ Memory };

    fn from(_error: AllocError) -> TreeBuilderError {
        TreeBuilderError::Memory
    }
}

impl From<SinkFault> for TreeBuilderError {
    ghost use Rattle.std.specs.Prelude.{◌≡◌};
    ghost use Rattle.tree_sink.specs.declared.error.TreeBuilderError.TheVariants.{Sink};

    ghost from_gives = { λ _ error. error ≡ Sink };

    fn from(_fault: SinkFault) -> TreeBuilderError {
        TreeBuilderError::Sink
    }
}
