//! The states of threads, in the order of their numbers.
ghost use Rattle.std.specs.Prelude.{◌≡◌, ◌<◌, ◌^◌, ◌++◌, [], ◌∷◌, length, slice_get, OnErr, OnOk, Some};
ghost use Rattle.std.specs.Borrow.{sem};

use py_data::NoMemory;
use std::alloc::{AllocError, Global};
use std::marker::Model;

/// The most threads of one list.
const MOST: usize = 2_147_483_647;

/// States of threads. A machine has two such lists, the second of those threads that its last step started, and its
/// threads have numbers of 32 bits: so in one list there is no place for 2^31 of them, and starting one more is want
/// of memory.
#[derive(Drop)]
pub struct Threads<S> {
    states: Vec<S>,
}

impl<S> Model for Threads<S> {
    ghost use Rattle.std.specs.Prelude.{List, length, ◌<◌, ◌^◌};

    ghost Value = { List S };

    ghost view = { λ a. a.states.items };

    ghost invariant = { λ a. length a.states.items < 2 ^ 31 };
}

impl<S: Drop> Threads<S> {
    ghost use Rattle.lock_run.specs.inner.Threads.{LendsState};

    /// No threads.
    pub fn new(alloc: Global) -> Threads<S>
        ensures { result ≡ [] }
    {
        Threads {
            states: Vec::new(alloc),
        }
    }

    /// How many threads there are.
    pub fn len(&self) -> u32
        ensures len { result ≡ length self.now }
        ensures few { result < 2 ^ 31 }
    {
        self.states.len() as u32
    }

    /// The state of a thread.
    pub fn at(&self, t: u32) -> &S
        requires { t < length self.now }
        ensures { slice_get self.now t ≡ Some result.now }
    {
        &self.states[t as usize]
    }

    /// The state of a thread, to be changed in its place.
    pub fn at_mut(&mut self, t: u32) -> &mut S
        requires { t < length self.old }
        ensures* writes_back { sem 𝓛 (LendsState S.row self.entry t result) }
        ensures value { slice_get self.old t ≡ Some result.now }
    {
        &mut self.states[t as usize]
    }

    /// Adds a thread at the end. At want of memory none is added.
    pub fn push(&mut self, s: S) -> Result<(), NoMemory>
        ensures ok { OnOk result (self.new ≡ self.old ++ s ∷ []) }
        ensures err { OnErr result (self.new ≡ self.old) }
    {
        if self.states.len() >= MOST {
            return Err(AllocError);
        }
        self.states.push(s)?;
        Ok(())
    }

    /// Moves the threads of another list to the end. At want of memory both lists stay as they are.
    pub fn append(&mut self, more: &mut Threads<S>) -> Result<(), NoMemory>
        ensures ok { OnOk result ((self.new ≡ self.old ++ more.old) × (more.new ≡ [])) }
        ensures err { OnErr result ((self.new ≡ self.old) × (more.new ≡ more.old)) }
    {
        if more.states.len() > MOST - self.states.len() {
            return Err(AllocError);
        }
        self.states.append(&mut more.states)
    }

    /// Drops all threads.
    pub fn clear(&mut self)
        ensures { self.new ≡ [] }
    {
        self.states.clear();
    }
}
