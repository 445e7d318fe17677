//! Why a view refuses a call, and what two transactions ran into.
ghost use Rattle.std.specs.Prelude.{◌≡◌, Ok};
ghost use Rattle.py_data.specs.declared.stop.Stop.TheVariants.{OutOfMemory};

use crate::value::Addr;
use py_base::{Duplicate, Log, NoMemory};
use std::alloc::{AllocError, Global};

/// One of the two outputs.
#[derive(Clone, Copy, Debug, Drop, PartialEq, Eq)]
pub enum Out {
    Output,
    ErrorOutput,
}

/// One side of a conflict: a transaction that runs.
#[derive(Clone, Copy, Debug, Drop, PartialEq, Eq)]
pub struct Side {
    /// The segment that it runs on, from 0.
    pub segment: u8,
    /// The number of its thread, from 0.
    pub thread: u32,
    /// How many transactions were begun before it.
    pub begun: u64,
    /// It can't be aborted.
    pub solo: bool,
}

/// Two running transactions of which one has changed a record, and the other has looked at it or asks to change it.
#[derive(Clone, Copy, Debug, Drop, PartialEq, Eq)]
pub struct Conflict {
    /// The record's address.
    pub at: Addr,
    /// The one that has changed it.
    pub writer: Side,
    /// The one that has looked at it, or asks to change it.
    pub other: Side,
    /// The other asks to change it in this call.
    pub asks: bool,
    /// Who lost: 0 the writer, 1 the other.
    pub lost: u8,
}

impl Duplicate for Conflict {
    /// The conflict itself. It takes no memory.
    fn duplicate(&self, _alloc: Global) -> Result<Conflict, NoMemory>
        ensures { result ≡ Ok self.now }
    {
        Ok(*self)
    }
}

/// Conflicts in the order in which they came.
pub type Conflicts = Log<Conflict>;

/// Why a call of a view was refused, in a word: a view that has more to say of it keeps that. Which of these a view can
/// give is a part of its contract.
#[derive(Clone, Copy, Debug, Drop, PartialEq, Eq)]
pub enum Stop {
    /// The transaction lost a conflict.
    Lost,
    /// The step prints or reads, and the transaction isn't solo.
    NeedSolo,
    /// The record isn't among those that the view was given, or may not be changed there.
    NeedHeap,
    /// The heap has no room.
    Full,
    /// The input failed, and counted it.
    ReadFault,
    /// The output failed, and counted it.
    WriteFault,
    /// The error output failed, and counted it.
    ErrFault,
    /// There was no memory.
    OutOfMemory,
}

impl From<AllocError> for Stop {
    ghost from_gives = { λ _ e. e ≡ OutOfMemory };

    fn from(_e: AllocError) -> Stop {
        Stop::OutOfMemory
    }
}
