//! Why words give no options.
ghost use Rattle.std.specs.Prelude.{◌≡◌};
ghost use Rattle.stm_words.specs.declared.error.WordsError.TheVariants.{OutOfMemory as NoRoom};

use std::alloc::AllocError;
use thiserror::Error;

/// Why the words of a call give no options.
#[derive(Clone, Copy, Debug, Drop, Error, PartialEq, Eq)]
pub enum WordsError {
    /// They are no words of the program: `docs/LANGUAGE.md`, "The words of a call".
    #[error("usage: pystm [--segments N] [--length N] [--pages N] [--budget N] FILE, - or --demo N")]
    Usage,
    /// There was no memory for reading them.
    #[error("out of memory")]
    OutOfMemory,
}

impl From<AllocError> for WordsError {
    ghost from_gives = { λ _ e. e ≡ NoRoom };

    fn from(_e: AllocError) -> WordsError {
        WordsError::OutOfMemory
    }
}
