//! From trees to programs, by a table of templates with labels.
#![tactic(auto)]

mod around;
mod codes;
mod compiler;
mod deletion;
mod plan;
mod planning;
mod roots;
mod statement;

pub use compiler::compile;
pub use py_templates::CompileError;
