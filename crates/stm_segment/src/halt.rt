//! Why a step of a transaction was cut, and what a view gave last.
ghost use Rattle.std.specs.Prelude.{◌≡◌};
ghost use Rattle.stm_segment.specs.inner.Halts.{stop_of, halt_for, told};

use lock_run::Outcome;
use py_data::{Conflict, Stop};

/// Why a step of a transaction was cut, with all that the core has to tell of it. A view's answers say it in a word, as
/// a Stop.
#[derive(Clone, Copy, Debug, Drop)]
pub enum Halt {
    /// The transaction lost this conflict.
    Lost(Conflict),
    /// The step prints or reads, and the transaction isn't solo.
    NeedSolo,
    /// The heap has no room: `reserved + need > limit`, in words of 8 bytes.
    Full {
        reserved: u64,
        need: u64,
        limit: u64,
    },
    /// The input failed, and counted it.
    ReadFault,
    /// The output failed, and counted it.
    WriteFault,
    /// The error output failed, and counted it.
    ErrFault,
    /// There was no memory.
    OutOfMemory,
}

/// What a view gave last.
#[derive(Clone, Copy, Debug, Drop)]
pub struct LastStop {
    /// The Stop that it gave since its step was opened.
    pub stopped: Option<Stop>,
    /// What there is to tell of the last Stop that it gave; want of memory before the first.
    pub halt: Halt,
}

impl Halt {
    /// The word for it.
    pub fn stop(self) -> Stop
        ensures { result ≡ stop_of self }
    {
        match self {
            Halt::Lost(_) => Stop::Lost,
            Halt::NeedSolo => Stop::NeedSolo,
            Halt::Full { .. } => Stop::Full,
            Halt::ReadFault => Stop::ReadFault,
            Halt::WriteFault => Stop::WriteFault,
            Halt::ErrFault => Stop::ErrFault,
            Halt::OutOfMemory => Stop::OutOfMemory,
        }
    }
}

impl LastStop {
    /// Why a step over the view was cut with this Stop.
    fn halt_for(&self, stop: Stop) -> Halt
        ensures { result ≡ halt_for stop self.now.halt }
    {
        match stop {
            Stop::OutOfMemory => Halt::OutOfMemory,
            Stop::Lost
            | Stop::NeedSolo
            | Stop::NeedHeap
            | Stop::Full
            | Stop::ReadFault
            | Stop::WriteFault
            | Stop::ErrFault => self.halt,
        }
    }

    /// Writes down why a step over the view was cut, where its answer says that it was.
    pub fn tell(&self, answer: Result<Outcome, Stop>, halt: &mut Halt)
        ensures { halt.new ≡ told answer halt.old self.now.halt }
    {
        if let Err(stop) = answer {
            *halt = self.halt_for(stop);
        }
    }
}
