//! The code of instructions that make functions and classes, return, raise and print, over any view: each function
//! meets the row of `py_frames` that has its name.
#![tactic(auto)]

mod functions;
mod made_raised;
mod prints;
mod raises;

pub use functions::{class_body_row, make_function_row, return_by};
pub use made_raised::{made_alone, made_valued};
pub use prints::{dying_row, print_item_row, print_newline_row};
pub use raises::{exc_match_row, raise_value};
