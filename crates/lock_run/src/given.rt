//! The names that were given in a turn.
ghost use Rattle.std.specs.Prelude.{◌≡◌, ◌≤◌, ◌∷◌, ◌++◌, [], length, OnOk};
ghost use Rattle.py_data.specs.Collection.{places};

use py_data::{Addr, Names, NoMemory};
use std::alloc::Global;
use std::mem;

/// The names given so far, and how many of them were given before this step.
#[derive(Drop)]
pub struct Given {
    alloc: Global,
    names: Names,
    kept: usize,
    ghost within: { kept ≤ length names },
}

impl Given {
    ghost use Rattle.lock_run.specs.Given.{given_all, given_kept};

    /// No names are given yet.
    pub fn new(alloc: Global) -> Self
        ensures all { given_all result ≡ [] }
        ensures kept { given_kept result ≡ [] }
    {
        Given {
            alloc,
            names: Names::new(alloc),
            kept: 0,
        }
    }

    /// A record got this name.
    pub fn add(&mut self, n: Addr) -> Result<(), NoMemory>
        ensures all { OnOk result (given_all self.new ≡ given_all self.old ++ n.0 ∷ []) }
        ensures kept { given_kept self.new ≡ given_kept self.old }
    {
        self.names.push(n)?;
        Ok(())
    }

    /// A step begins.
    pub fn open(&mut self)
        ensures all { given_all self.new ≡ given_all self.old }
        ensures kept { given_kept self.new ≡ given_all self.old }
    {
        self.kept = self.names.len();
    }

    /// The step is taken back: the names that it gave are given no more.
    pub fn undo(&mut self)
        ensures all { given_all self.new ≡ given_kept self.old }
        ensures kept { given_kept self.new ≡ given_kept self.old }
    {
        self.names.truncate(self.kept);
    }

    /// Hands the names out, and begins anew.
    pub fn take(&mut self) -> Names
        ensures names { places result ≡ given_all self.old }
        ensures all { given_all self.new ≡ [] }
        ensures kept { given_kept self.new ≡ [] }
    {
        self.kept = 0;
        mem::replace(&mut self.names, Names::new(self.alloc))
    }
}
