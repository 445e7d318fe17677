//! Why a text has no value.
ghost use Rattle.std.specs.Prelude.{◌≡◌};
ghost use Rattle.py_text.specs.declared.error.TextError.TheVariants.{OutOfMemory};

use std::alloc::AllocError;
use thiserror::Error;

/// Why a text of a script has no value.
#[derive(Clone, Copy, Debug, Drop, Error, PartialEq, Eq)]
pub enum TextError {
    /// An integer above 9,223,372,036,854,775,807.
    #[error("the integer is above 9223372036854775807")]
    Wide,
    /// A backslash that has no meaning: `\x` without two hexadecimal digits, or the text's last byte.
    #[error("an escape has no meaning")]
    BadEscape,
    /// There was no memory for the value.
    #[error("out of memory")]
    OutOfMemory,
}

impl From<AllocError> for TextError {
    ghost from_gives = { λ _ e. e ≡ OutOfMemory };

    fn from(_e: AllocError) -> TextError {
        TextError::OutOfMemory
    }
}
