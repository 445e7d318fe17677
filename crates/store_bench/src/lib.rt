//! A store under test, on which crates of tests stand: it knows which records are there, so each call can be made where
//! its contract allows it.
#![tactic(auto)]

pub mod acts;
mod bench;
mod insists;
mod kinds;

pub use bench::Bench;
pub use insists::Insists;
