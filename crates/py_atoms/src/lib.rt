//! The tokens that are left, trees with their heights, and the readers of atoms and of what trails them. What stands
//! inside these is read by a closure, which `py_exprs` gives.
#![tactic(auto)]

mod atom;
pub mod cursor;
mod error;
pub mod node;
mod reader;
mod request;
pub mod tall;
mod trailer;

pub use error::ParseError;
pub use reader::{Reader, TARGET, TEST, TESTS};
pub use request::Request;
pub use trailer::{star_next, trailer_next};
