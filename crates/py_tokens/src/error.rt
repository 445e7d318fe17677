//! Why a text has no tokens.
ghost use Rattle.std.specs.Prelude.{◌≡◌};
ghost use Rattle.py_tokens.specs.declared.error.TokenError.TheVariants.{OutOfMemory};

use py_base::Refusal;
use std::alloc::AllocError;
use thiserror::Error;

/// Why a text has no tokens.
#[derive(Clone, Copy, Debug, Drop, Error, PartialEq, Eq)]
pub enum TokenError {
    /// The earliest place where no rule continues, with its line: `BadCharacter`, `BadDedent`, `OpenString`,
    /// `NumberWide` or `BadEscape`.
    #[error("the text is refused")]
    Refused(Refusal),
    /// There was no memory for the tokens.
    #[error("out of memory")]
    OutOfMemory,
}

impl From<AllocError> for TokenError {
    ghost from_gives = { λ _ e. e ≡ OutOfMemory };

    fn from(_e: AllocError) -> TokenError {
        TokenError::OutOfMemory
    }
}
