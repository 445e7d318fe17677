//! Changes of records.
use crate::value::Value;

/// One change of a record, as the calls of a view ask for it.
#[derive(Clone, Copy, Drop)]
pub enum Change {
    /// Another value in a place.
    Set(usize, Value),
    /// A value at the end.
    Push(Value),
    /// The first so many values stay.
    Cut(usize),
    /// A key and its value at the end.
    Pair(Value, Value),
    /// The pair of that number goes.
    Unpair(usize),
}
