//! Records of the heap, and the answers of object operations.
use crate::value::{Value, Values};
use py_base::{Bytes, Kind};

/// The most values, or bytes, of one record.
pub const LENGTH_LIMIT: usize = 1_048_576;

/// A record to be made: its kind, its values, and the bytes that a Str has.
#[derive(Debug, Drop)]
pub struct Record {
    pub kind: Kind,
    pub values: Values,
    pub bytes: Bytes,
}

/// What a look at a record shows at once: its kind, the count of its values, and the first three of them; Unset where
/// it has none there.
#[derive(Clone, Copy, Debug, Drop)]
pub struct Head {
    pub kind: Kind,
    pub count: usize,
    pub first: Value,
    pub second: Value,
    pub third: Value,
}

/// What an exception says besides its class.
#[derive(Debug, Drop)]
pub enum With {
    Nothing,
    Text(Bytes),
    Held(Value),
}

/// An exception that an operation raises: the number of its class, and what it says.
#[derive(Debug, Drop)]
pub struct Fault {
    pub exc: u8,
    pub with: With,
}

/// The answer of an operation: a value, or an exception.
#[derive(Debug, Drop)]
pub enum Got<T> {
    Is(T),
    Raise(Fault),
}
