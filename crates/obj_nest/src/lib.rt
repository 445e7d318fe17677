//! Equality, order, truth and texts of nested values over any view.
#![tactic(auto)]

mod equality;
mod laws;
mod levels;
mod names;
mod ordering;
mod pairing;
mod pieces;
mod texts;
mod truths;

pub use equality::equal;
pub use laws::{calm_law, equal_law, looks_law, order_law};
pub use levels::{LEVELS, too_deep};
pub use ordering::{number_of, order};
pub use texts::text;
pub use truths::truth;
