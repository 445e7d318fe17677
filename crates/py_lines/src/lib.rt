//! Readers of simple statements and their lines, of targets, and of imports.
#![tactic(auto)]

mod assignment;
mod imports;
pub mod simple_line;
pub mod statement;
pub mod target;
