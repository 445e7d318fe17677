//! The grammar, as definitions: which tokens spell which tree, how a list of tokens is read from left to right, and the
//! laws that these are one. It has no code that runs but a refusal's line, and stands below the parser and the compiler,
//! so that neither waits for the other.
#![tactic(auto)]

mod fault;
mod laws;
mod rung;
mod tall;

pub use fault::Fault;
pub use laws::{ends_law, grammar_law};
pub use rung::Rung;
pub use tall::Tall;
