//! The four ways to the outside.
ghost use Rattle.std.specs.Prelude.{◌≡◌, ℕ, ◌≤◌, List, [], ◌∷◌, ◌++◌, IfOk, IfErr, IfSome, OnOk, length, take};
ghost use Rattle.py_data.specs.World.{ends_after, IsLine, shrunk};
ghost use Rattle.stm_io.specs.Outside.{LoaderState, SourceState, SinkState, LoadStops, TakeStops, Puts, PutCause};

use crate::error::{LoadError, PutError, TakeError};

/// Where a script's text is loaded from, by name.
pub trait Loader {
    /// What it tells of itself.
    ghost state: { Self → LoaderState };

    /// The first `most` bytes of the file of that name, or all of a shorter one. The name joins the list of those that
    /// were asked for, whatever the answer; at want of memory perhaps not.
    fn load(&mut self, name: &str, most: usize) -> Result<Vec<u8>, LoadError>
        ensures text { IfOk result (λ v. IfSome ((state self.old).told name.now) (λ xs. v.items ≡ take most xs)) }
        ensures short { IfOk result (λ v. length v.items ≤ most) }
        ensures asked { OnOk result ((state self.new).asked ≡ (state self.old).asked ++ name.now ∷ []) }
        ensures stops { IfErr result (λ e. LoadStops name.now e (state self.old) (state self.new)) }
        ensures same { (state self.new).told ≡ (state self.old).told }
        ensures later { (state self.old).faults ≤ (state self.new).faults };

    /// How often it failed, up to the last number of 64 bits.
    fn faults(&self) -> u64
        ensures { result ≡ (state self.now).faults };
}

/// Where a program's input comes from, line by line.
pub trait Source {
    /// What it tells of itself.
    ghost state: { Self → SourceState };

    /// Takes the longest front of the rest that has at most `most` bytes and no newline but as its last byte. An empty
    /// answer means the end, and is counted.
    fn take_line(&mut self, most: usize) -> Result<Vec<u8>, TakeError>
        requires { 1 ≤ most }
        ensures line { IfOk result (λ l. IsLine (state self.old).told most l.items) }
        ensures short { IfOk result (λ l. length l.items ≤ most) }
        ensures rest { IfOk result (λ l. (state self.new).told ≡ shrunk (state self.old).told (length l.items)) }
        ensures ends { IfOk result (λ l. (state self.new).ends ≡ ends_after l.items (state self.old).ends) }
        ensures stops { IfErr result (λ e. TakeStops e (state self.old) (state self.new)) }
        ensures later { (state self.old).faults ≤ (state self.new).faults };

    /// How often it failed, up to the last number of 64 bits.
    fn faults(&self) -> u64
        ensures { result ≡ (state self.now).faults };
}

/// Where a program's output goes.
pub trait Sink {
    /// What it tells of itself.
    ghost state: { Self → SinkState };

    /// Writes the bytes at the end. A device that takes nothing of a piece that isn't empty has failed.
    fn put(&mut self, bytes: &[u8]) -> Result<(), PutError>
        ensures written { Puts (state self.old).told bytes.now result (state self.new).told }
        ensures cause { PutCause (state self.old).faults (state self.new).faults result };

    /// How often it failed, up to the last number of 64 bits.
    fn faults(&self) -> u64
        ensures { result ≡ (state self.now).faults };
}

/// What a worker passes before it runs instructions on copies, away from the heap. It has no fault.
pub trait Gate {
    /// The worker, from 0, comes to the gate with a piece of that thread.
    fn enter(&self, worker: u8, thread: u32);
}
