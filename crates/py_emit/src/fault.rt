//! Why a body has no code.
ghost use Rattle.std.specs.Prelude.{◌≡◌};
ghost use Rattle.py_emit.specs.declared.fault.Fault.TheVariants.{OutOfMemory};

use std::alloc::AllocError;
use thiserror::Error;

/// Why a body has no code.
#[derive(Clone, Copy, Debug, Drop, Error, PartialEq, Eq)]
pub enum Fault {
    /// It has more instructions than a code may have.
    #[error("a body is too large")]
    TooLarge,
    #[error("out of memory")]
    OutOfMemory,
}

impl From<AllocError> for Fault {
    ghost from_gives = { λ _ e. e ≡ OutOfMemory };

    fn from(_e: AllocError) -> Fault {
        Fault::OutOfMemory
    }
}
