//! The states of threads: the committed ones, in the order of the threads' numbers, and those that a transaction
//! started.
ghost use Rattle.std.specs.Prelude.{◌≡◌, ◌<◌, ◌≤◌, ◌+◌, ◌++◌, [], ◌∷◌, length, take, slice_get, slice_set, Some, IfOk, OnOk, OnErr};
ghost use Rattle.py_base.specs.Collection.{Logged};

use py_data::NoMemory;
use std::alloc::{AllocError, Global};
use std::marker::Model;

/// The states of the threads that a transaction started, in order.
#[derive(Drop)]
pub struct Started<T> {
    states: Vec<T>,
}

impl<T> Model for Started<T> {
    ghost use Rattle.std.specs.Prelude.{List};

    ghost Value = { List T };

    ghost view = { λ a. a.states.items };
}

impl<T: Drop> Started<T> {
    /// No threads. It takes no memory.
    pub fn new(alloc: Global) -> Started<T>
        ensures { result ≡ [] }
    {
        Started {
            states: Vec::new(alloc),
        }
    }

    /// How many threads there are.
    pub fn len(&self) -> usize
        ensures { result ≡ length self.now }
    {
        self.states.len()
    }

    /// Adds a thread. At want of memory none is added.
    pub fn push(&mut self, s: T) -> Result<(), NoMemory>
        ensures ok { OnOk result (self.new ≡ self.old ++ s ∷ []) }
        ensures err { OnErr result (self.new ≡ self.old) }
    {
        self.states.push(s)?;
        Ok(())
    }

    /// Keeps the first `n` threads, or all where there are fewer.
    pub fn truncate(&mut self, n: usize)
        ensures { self.new ≡ take n self.old }
    {
        self.states.truncate(n);
    }
}

/// The committed states of the threads, with room for more. Threads have numbers of 32 bits, so there is no room for
/// 2^32 of them: making it is want of memory.
#[derive(Drop)]
pub struct Threads<T> {
    states: Vec<T>,
}

impl<T> Model for Threads<T> {
    ghost use Rattle.std.specs.Prelude.{◌-◌, ◌^◌, ◌<◌, min, length, vec_len, vec_capacity};
    ghost use Rattle.py_base.specs.Collection.{Logged};

    ghost Value = { Logged T };

    ghost view = { λ a. record {
      entries = a.states.items;
      room = min (vec_capacity a.states) (2 ^ 32 - 1) - vec_len a.states;
    } };

    ghost invariant = { λ a. length a.states.items < 2 ^ 32 };
}

impl<T: Drop> Threads<T> {
    /// The first thread alone.
    pub fn new(alloc: Global, first: T) -> Result<Threads<T>, NoMemory>
        ensures { IfOk result (λ a. a.entries ≡ first ∷ []) }
    {
        let mut states = Vec::new(alloc);
        states.push(first)?;
        Ok(Threads { states })
    }

    /// How many threads there are; they have the numbers below it.
    pub fn len(&self) -> u32
        ensures { result ≡ length self.now.entries }
    {
        self.states.len() as u32
    }

    /// The state of a thread.
    pub fn at(&self, t: u32) -> &T
        requires { t < length self.now.entries }
        ensures { slice_get self.now.entries t ≡ Some result.now }
    {
        &self.states[t as usize]
    }

    /// Puts another state in the place of a thread's.
    pub fn set(&mut self, t: u32, s: T)
        requires { t < length self.old.entries }
        ensures entries { self.new.entries ≡ slice_set self.old.entries t s }
        ensures room { self.new.room ≡ self.old.room }
    {
        self.states[t as usize] = s;
    }

    /// Makes room for `n` more threads, for which `append` then takes no memory.
    pub fn reserve(&mut self, n: usize) -> Result<(), NoMemory>
        ensures same { self.new.entries ≡ self.old.entries }
        ensures ok { OnOk result (n ≤ self.new.room) }
        ensures kept { self.old.room ≤ self.new.room }
    {
        if n > u32::MAX as usize - self.states.len() {
            return Err(AllocError);
        }
        self.states.reserve(n)
    }

    /// Moves the states of threads for which there is room to the end.
    pub fn append(&mut self, mut more: Started<T>)
        requires { length more ≤ self.old.room }
        ensures entries { self.new.entries ≡ self.old.entries ++ more }
        ensures room { self.old.room ≤ self.new.room + length more }
    {
        match self.states.append(&mut more.states) {
            Ok(()) => (),
            Err(_) => unreachable!(),
        }
    }
}
