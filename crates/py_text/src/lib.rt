//! Integers and string literals as texts: read from a script, and written by `print` and `repr`.
#![tactic(auto)]

mod digit;
mod error;
mod int;
mod literal;
mod repr;

pub use error::TextError;
pub use int::{print_int, read_int};
pub use literal::unescape;
pub use repr::repr_bytes;
