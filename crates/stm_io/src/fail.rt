//! Failures that are planned.
ghost use Rattle.std.specs.Prelude.{◌≡◌};
ghost use Rattle.stm_io.specs.Memory.{called, due, planned};

use std::marker::Model;

/// A failure that is planned for a device in memory. Of two for the same call the earlier one in the list counts.
#[derive(Clone, Copy, Debug, PartialEq, Eq)]
pub struct Fail {
    /// The number of the call that fails, from 1.
    pub call: u64,
    /// After how many bytes taken from a source or written to a sink it fails; where there are fewer, after all of
    /// them. Of a loader it plays no part.
    pub bytes: usize,
}

/// Which calls of a device fail, and how many there were so far, up to the last number of 64 bits.
#[derive(Debug, Drop)]
pub struct Schedule {
    fails: Vec<Fail>,
    calls: u64,
}

impl Model for Schedule {
    ghost use Rattle.stm_io.specs.Memory.{Plan};

    ghost Value = { Plan };

    ghost view = { λ a. record { fails = a.fails.items; calls = a.calls } };
}

impl Schedule {
    /// Before the first call.
    pub fn new(fails: Vec<Fail>) -> Schedule
        ensures { result ≡ planned fails.items }
    {
        Schedule { fails, calls: 0 }
    }

    /// Counts a call, and answers after how many bytes it is to fail, if it is to fail.
    pub fn count_call(&mut self) -> Option<usize>
        ensures due { result ≡ due self.old }
        ensures calls { self.new ≡ called self.old }
    {
        self.calls = self.calls.saturating_add(1);
        let call = self.calls;
        self.fails.iter().find(|f| f.call == call).map(|f| f.bytes)
    }
}
