//! Texts and programs of the language, each made of a number. For the programs that try whatever a user may write.
#![tactic(auto)]

mod draws;
mod forms;
mod program;
mod statements;
mod text;
mod writer;

pub use program::{MadeProgram, PROGRAM_LIMIT, made_program};
pub use text::{TEXT_LIMIT, made_text};
