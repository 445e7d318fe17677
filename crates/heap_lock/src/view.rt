// What the table of a lock knows of a seat, and what it is told when it is made.
// Both are for proofs: no view is ever made, and a key has no bytes but its count.
use std::collections::LinkedList;
use std::snapshot::Snapshot;

/// A seat's parts with the highest first, whether it holds the value, the job of the value, the values that the seat
/// has seen, and the value as it took it, while it holds one.
/// A seat that was joined to another has no parts and no job, and has seen nothing.
pub struct View<T, J> {
    pub parts: LinkedList<u8>,
    pub holds: bool,
    pub job: Option<J>,
    pub seen: LinkedList<T>,
    pub taken: Option<T>,
}

/// How many parts the lock has, and the value that it opens with. The job of that value is the lock's.
pub struct Key<T> {
    pub parts: u8,
    pub opening: Snapshot<T>,
}
