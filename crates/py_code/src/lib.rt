//! The instructions of a script's code, and programs.
#![tactic(auto)]

mod assembly;
mod instr;
mod program;

pub use assembly::listing;
pub use instr::{Constant, Instr};
pub use program::{Code, Codes, Instrs, KeyLists, Keys, Lines, Program, Root, Roots, Texts};
