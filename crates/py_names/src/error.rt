//! Why a tree has no scopes.
ghost use Rattle.std.specs.Prelude.{◌≡◌};
ghost use Rattle.py_names.specs.declared.error.NameFault.TheVariants.{OutOfMemory};

use py_base::Refusal;
use std::alloc::AllocError;
use thiserror::Error;

/// Why a module has no scopes.
#[derive(Clone, Copy, Debug, Drop, Error, PartialEq, Eq)]
pub enum NameFault {
    /// The earliest place where a statement or a name may not stand, with the line of the simple statement or the
    /// clause that it stands in: `Misplaced`, `Doubled` or `Closure`.
    #[error("a name or a statement is refused")]
    Refused(Refusal),
    /// There was no memory for the scopes.
    #[error("out of memory")]
    OutOfMemory,
}

impl From<AllocError> for NameFault {
    ghost from_gives = { λ _ e. e ≡ OutOfMemory };

    fn from(_e: AllocError) -> NameFault {
        NameFault::OutOfMemory
    }
}
