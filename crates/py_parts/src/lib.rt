//! What the code of instructions shares: exceptions and answers, what a program has at a number, and where a call
//! happens.
#![tactic(auto)]

mod programs;
mod raising;
mod site;

pub use programs::{
    cell_number, code_name, first_cell, keys_at, parameters, params_at, root_name, slot_name,
    slots_at,
};
pub use raising::{
    base_fault, depth_fault, done, enter, fail_row, give, memory_fault, operand_fault, pass,
    place_in, push, push_two, raise_operand, raise_row, raise_text, raised_fault, told, told_name,
    values_row,
};
pub use site::{Given, InitNumber, Passed, Site, init_number};
