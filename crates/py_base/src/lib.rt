//! What the front end and the heap share: lists and texts, sets of names, refusals, kinds of records, and what has a
//! number by a rule of the language, with its names: operators, builtins and exception classes.
#![tactic(auto)]

pub mod builtin;
mod collection;
pub mod exception;
mod kind;
mod name_set;
mod names;
pub mod operator;
mod refusal;
mod slices;

pub use collection::{Bytes, Duplicate, Items, Log, NoMemory};
pub use kind::Kind;
pub use name_set::NameSet;
pub use names::{
    binary_number, binary_sign, builtin_name, builtin_number, class_name, class_number,
    compare_number, compare_sign, number_beside, unary_number, unary_sign,
};
pub use refusal::{Construct, Refusal};
pub use slices::{first, skip, split};
