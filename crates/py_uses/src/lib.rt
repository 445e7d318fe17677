//! What a module has and uses, before any code is emitted: its bodies, and its strings, global names and keyword lists.
#![tactic(auto)]

mod bodies;
mod body_uses;
mod tally;
mod uses;

pub use bodies::{Body, bodies_in_block, clause_body, gather};
pub use body_uses::module;
pub use tally::Tally;
