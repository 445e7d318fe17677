//! Values, records and views of the object heap, and what every operation over a view means.
#![tactic(auto)]

pub mod arithmetic;
mod change;
mod entry;
pub mod exception;
mod find;
mod laws;
mod looks;
mod order;
mod record;
mod stop;
mod undo;
mod value;
mod view;

pub use change::Change;
pub use entry::Entry;
pub use find::{Records, find_pair};
pub use laws::{
    afresh_law, bind_law, frame_law, holds_law, looks_law, names_law, order_law, part_law,
    range_law, steady_law, stop_law, world_law,
};
pub use looks::{kind, look, size};
pub use order::{Demands, Property};
pub use py_base::{
    Bytes, Construct, Duplicate, Items, Kind, Log, NoMemory, Refusal, builtin, operator,
};
pub use record::{Fault, Got, Head, LENGTH_LIMIT, Record, With};
pub use stop::{Conflict, Conflicts, Out, Side, Stop};
pub use undo::{Undo, note};
pub use value::{Addr, Names, Value, Values, value_or_unset};
pub use view::{Peek, View};
