//! Why a tree has no program.
ghost use Rattle.std.specs.Prelude.{◌≡◌};
ghost use Rattle.py_templates.specs.declared.error.CompileError.TheVariants.{Refused};
ghost use Rattle.py_base.specs.declared.refusal.Refusal.TheVariants.{TooLarge};

use py_base::Refusal;
use std::alloc::AllocError;
use thiserror::Error;

/// Why a module has no program.
#[derive(Clone, Copy, Debug, Drop, Error, PartialEq, Eq)]
pub enum CompileError {
    /// `TooLarge`, with the line of the body that has too many instructions, and 1 for all else that is too large.
    #[error("the program is too large")]
    Refused(Refusal),
    /// There was no memory for the program.
    #[error("out of memory")]
    OutOfMemory,
}

/// A refusal with that line.
pub fn too_large(line: u32) -> CompileError
    ensures { result ≡ Refused (TooLarge line) }
{
    CompileError::Refused(Refusal::TooLarge { line })
}

impl From<AllocError> for CompileError {
    ghost use Rattle.py_templates.specs.declared.error.CompileError.TheVariants.{OutOfMemory};

    ghost from_gives = { λ _ e. e ≡ OutOfMemory };

    fn from(_e: AllocError) -> CompileError {
        CompileError::OutOfMemory
    }
}
