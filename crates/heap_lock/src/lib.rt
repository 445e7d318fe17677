//! A lock round one value. A thread takes the value out with its seat, and gives it back.
//! Whenever the value is taken, it is good, of the job that the lock was made for, and has grown from the one that the
//! seat gave last.
//!
//! A lock is a table of `atomic_table` with one word and one slot. `specs/Rule.antt` has its rule and its eight kinds
//! of step, and docs/HEAP.md, "The heap lock", says both in words.
#![tactic(auto)]

mod job;
#[cfg(test)]
mod list_tests;
mod lock;
mod rule;
mod seat;
#[cfg(test)]
mod tests;
mod view;

pub use job::Job;
pub use lock::{HeapLock, NoMemory};
pub use seat::Seat;
