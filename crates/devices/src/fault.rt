ghost use Rattle.std.specs.Prelude.{◌≡◌};
ghost use Rattle.devices.specs.declared.fault.Fault.TheVariants.{Memory};

use std::alloc::AllocError;
use thiserror::Error;

/// Why the program gives no answer.
#[derive(Clone, Copy, Debug, PartialEq, Eq, Error)]
pub enum Fault {
    /// The input is no UTF-8 text.
    #[error("input is not UTF-8")]
    NotUtf8,
    /// Memory ran out.
    #[error("out of memory")]
    Memory,
    /// A read or a write failed.
    #[error("read or write failed")]
    Device,
}

impl From<AllocError> for Fault {
    ghost from_gives = { λ _ e. e ≡ Memory };

    fn from(_refused: AllocError) -> Fault {
        Fault::Memory
    }
}
