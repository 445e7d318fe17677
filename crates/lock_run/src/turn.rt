//! Turns of the one-lock machine, and why one is cut.
ghost use Rattle.std.specs.Prelude.{◌≡◌, IfOk};

use py_data::{Duplicate, Log, Names, NoMemory};
use std::alloc::Global;

/// Steps that one thread does one after another, and the addresses of the records that they make, in order.
#[derive(Debug, Drop)]
pub struct Turn {
    /// The number of the thread, from 0.
    pub thread: u32,
    /// How many steps it does, at least 1.
    pub steps: u64,
    /// The addresses of the records that it makes, in order.
    pub names: Names,
}

impl Turn {
    /// An equal turn in memory of its own.
    pub fn copy(&self, alloc: Global) -> Result<Turn, NoMemory>
        ensures { IfOk result (λ t. t ≡ self.now) }
    {
        Ok(Turn {
            thread: self.thread,
            steps: self.steps,
            names: self.names.copy(alloc)?,
        })
    }
}

impl Duplicate for Turn {
    fn duplicate(&self, alloc: Global) -> Result<Turn, NoMemory> {
        self.copy(alloc)
    }
}

/// The turns of a run, in their order.
pub type History = Log<Turn>;

/// Why a turn wasn't done to its end. The first that holds is told, at each step in the order of this list.
#[derive(Clone, Copy, Debug, Drop, PartialEq, Eq)]
pub enum TurnWhy {
    /// There is no thread of that number.
    NotThere,
    /// The thread has ended, or ended before the turn's last step.
    Ended,
    /// The next step waits.
    Waits,
    /// A name is used already or stands twice, or the steps make more or fewer records than there are names.
    BadNames,
    /// The input failed in the next step, and counted it.
    ReadFault,
    /// The output failed in the next step, and counted it.
    WriteFault,
    /// The error output failed in the next step, and counted it.
    ErrFault,
    /// There was no memory.
    OutOfMemory,
}

/// A turn that was cut.
#[derive(Debug, Drop)]
pub struct TurnFault {
    /// How many steps stay done.
    pub done: u64,
    /// The names that these steps gave, where they were free to give them; else empty.
    pub names: Names,
    pub why: TurnWhy,
}
