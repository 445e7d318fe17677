//! Why a device gave no answer.
ghost use Rattle.std.specs.Prelude.{◌≡◌};
ghost use Rattle.stm_io.specs.declared.error.LoadError.TheVariants.{OutOfMemory as LoadMemory};
ghost use Rattle.stm_io.specs.declared.error.PutError.TheVariants.{OutOfMemory as PutMemory};
ghost use Rattle.stm_io.specs.declared.error.TakeError.TheVariants.{OutOfMemory as TakeMemory};

use std::alloc::AllocError;
use thiserror::Error;

/// Why a text wasn't loaded.
#[derive(Clone, Copy, Debug, Drop, Error, PartialEq, Eq)]
pub enum LoadError {
    /// The loader failed, and counted it.
    #[error("the loader failed")]
    Failed,
    /// There was no memory for the text.
    #[error("out of memory")]
    OutOfMemory,
}

/// Why a line wasn't taken.
#[derive(Clone, Copy, Debug, Drop, Error, PartialEq, Eq)]
pub enum TakeError {
    /// The source failed, and counted it. Some of its bytes may be lost.
    #[error("the source failed")]
    Failed,
    /// There was no memory for the line, and no byte was taken.
    #[error("out of memory")]
    OutOfMemory,
}

/// Why not all bytes were written.
#[derive(Clone, Copy, Debug, Drop, Error, PartialEq, Eq)]
pub enum PutError {
    /// The sink failed, and counted it. A front of the bytes may be written.
    #[error("the sink failed")]
    Failed,
    /// There was no memory, and nothing was written.
    #[error("out of memory")]
    OutOfMemory,
}

impl From<AllocError> for LoadError {
    ghost from_gives = { λ _ e. e ≡ LoadMemory };

    fn from(_e: AllocError) -> LoadError {
        LoadError::OutOfMemory
    }
}

impl From<AllocError> for TakeError {
    ghost from_gives = { λ _ e. e ≡ TakeMemory };

    fn from(_e: AllocError) -> TakeError {
        TakeError::OutOfMemory
    }
}

impl From<AllocError> for PutError {
    ghost from_gives = { λ _ e. e ≡ PutMemory };

    fn from(_e: AllocError) -> PutError {
        PutError::OutOfMemory
    }
}
