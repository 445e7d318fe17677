//! The methods of lists and of dictionaries, and sorting, over any view.
#![tactic(auto)]

mod arguments;
mod dicts;
mod laws;
mod lists;
mod searching;
mod sorting;
mod words;

pub use dicts::dict_method;
pub use laws::{append_law, holds_law, key_law, remove_law, search_law, sort_law, sorted_law};
pub use lists::list_method;
pub use sorting::sorted;
