//! Why tokens have no tree.
ghost use Rattle.std.specs.Prelude.{◌≡◌};
ghost use Rattle.py_atoms.specs.declared.error.ParseError.TheVariants.{OutOfMemory};

use py_base::Refusal;
use std::alloc::AllocError;
use thiserror::Error;

/// Why a list of tokens has no tree.
#[derive(Clone, Copy, Debug, Drop, Error, PartialEq, Eq)]
pub enum ParseError {
    /// The first token that continues no module, or that reaches height 101, with its line: `Unexpected`, `LeftOut` or
    /// `Deep`.
    #[error("the tokens are refused")]
    Refused(Refusal),
    /// There was no memory for the tree.
    #[error("out of memory")]
    OutOfMemory,
}

impl From<AllocError> for ParseError {
    ghost from_gives = { λ _ e. e ≡ OutOfMemory };

    fn from(_e: AllocError) -> ParseError {
        ParseError::OutOfMemory
    }
}
