//! The kinds of records.

/// The kind of a record. Records of the kinds List, Dict, Cell, Iter, Lock and Thread are tracked: they change, and a
/// look at one counts. The others are fixed: they never change once made.
#[derive(Clone, Copy, Debug, Drop, PartialEq, Eq)]
pub enum Kind {
    Str,
    Tuple,
    List,
    Dict,
    Cell,
    Function,
    Class,
    Instance,
    Method,
    Iter,
    Range,
    Lock,
    Thread,
}
