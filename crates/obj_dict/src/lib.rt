//! Dictionaries over any view.
#![tactic(auto)]

mod laws;
mod listing;
mod pair;

pub use laws::{dict_law, holds_law, pair_law};
pub use listing::{Part, list_of};
pub use pair::{del, get, set};
