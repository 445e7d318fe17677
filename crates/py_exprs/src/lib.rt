//! Readers of expressions: levels of operators, tests, and what stands in the place of a target.
#![tactic(auto)]

pub mod aiming;
pub mod expression;
mod growth;
mod level;
pub mod operators;
mod rung;
