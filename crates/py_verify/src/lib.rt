//! The test that a program is right, before a machine runs it.
#![tactic(auto)]

mod bodies;
mod bounds;
mod context;
mod effect;
mod roots;
mod setup;
mod shape;
mod typing;
mod verified;

pub use verified::{Verified, verify};
