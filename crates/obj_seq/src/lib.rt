//! Lists and tuples over any view.
#![tactic(auto)]

mod advance;
mod change;
mod gathering;
mod iter;
mod laws;
mod look;
mod place;
mod range;
mod span;

pub use advance::next;
pub use change::{del_item, insert, pop, reverse, set_item};
pub use gathering::gather;
pub use iter::make_iter;
pub use laws::{
    fault_law, holds_law, insert_law, item_law, iter_fault_law, pop_law, reverse_law, slice_law,
};
pub use look::{item, slice};
pub use range::{range_item, range_length};
