//! The code of instructions that load, store, calculate and build, over any view: each function meets the row of
//! `py_frames` that has its name.
#![tactic(auto)]

mod attributes;
mod builds;
mod builtins;
mod globals;
mod items;
mod locals;
mod operators;
mod setup;

pub use attributes::{
    del_attr_instr, found_method, load_attr_row, load_method_row, store_attr_row,
};
pub use builds::{build_dict_row, build_row, iter_instr, next_instr, unpack_row};
pub use builtins::builtin_named;
pub use globals::{
    bound_row, del_global_row, del_name_row, load_global_row, load_name_row, store_global_row,
    store_name_row,
};
pub use items::{del_item_instr, item_of, load_item_row, set_item, slice_instr, store_item_row};
pub use locals::{const_row, del_local_row, load_local_row};
pub use operators::{
    binary_instr, compare_instr, in_place_instr, jump_false_row, keep_false_row, keep_true_row,
    not_row, unary_instr,
};
pub use setup::setup_row;
