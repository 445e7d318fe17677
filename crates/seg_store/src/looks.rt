//! The records that one segment of a store of maps has looked at.
ghost use Rattle.std.specs.Prelude.{◌≡◌, ◌<◌, [], length, true, OnOk, OnErr};
ghost use Rattle.py_data.specs.Sight.{mem, no_marks, with_mark};
ghost use Rattle.seg_store.specs.inner.Flags.{IsListed, marks_in};

use py_data::NoMemory;
use std::alloc::Global;

/// Flags of addresses, one for each address from 0 on, and a list of addresses in which each flagged one stands. A
/// look at a flag takes the time of an index, and forgetting all of them that of the list. The flags reach as far as
/// the highest address that was flagged.
#[derive(Drop)]
pub struct Looks {
    flags: Vec<bool>,
    list: Vec<u32>,
    ghost listed: { IsListed flags.items list.items },
}

impl Looks {
    ghost use Rattle.seg_store.specs.inner.Looks.{marks_of, IsReady};

    /// No flag.
    pub fn new(alloc: Global) -> Looks
        ensures { marks_of result ≡ no_marks }
    {
        Looks {
            flags: Vec::new(alloc),
            list: Vec::new(alloc),
        }
    }

    /// Whether an address is flagged.
    pub fn has(&self, a: u32) -> bool
        ensures { result ≡ marks_of self.now a }
    {
        match self.flags.get(a as usize) {
            Some(flag) => *flag,
            None => false,
        }
    }

    /// Lets the flags reach an address.
    fn reach(&mut self, a: u32) -> Result<(), NoMemory>
        ensures same { marks_of self.new ≡ marks_of self.old }
        ensures list { self.new.list.items ≡ self.old.list.items }
        ensures ok { OnOk result (a < length self.new.flags.items) }
    {
        let count = a as usize + 1;
        if self.flags.len() < count {
            self.flags.resize(count, false)?;
        }
        Ok(())
    }

    /// Makes ready to flag an address, so that `flag` then takes no memory.
    pub fn prepare(&mut self, a: u32) -> Result<(), NoMemory>
        ensures same { marks_of self.new ≡ marks_of self.old }
        ensures ok { OnOk result (IsReady a self.new) }
    {
        if self.has(a) {
            return Ok(());
        }
        self.reach(a)?;
        self.list.push(a)?;
        Ok(())
    }

    /// Flags an address that was made ready.
    pub fn flag(&mut self, a: u32)
        requires { IsReady a self.old }
        ensures { marks_of self.new ≡ with_mark a (marks_of self.old) }
    {
        self.flags[a as usize] = true;
    }

    /// Flags an address.
    pub fn mark(&mut self, a: u32) -> Result<(), NoMemory>
        ensures ok { OnOk result (marks_of self.new ≡ with_mark a (marks_of self.old)) }
        ensures err { OnErr result (marks_of self.new ≡ marks_of self.old) }
    {
        self.prepare(a)?;
        self.flag(a);
        Ok(())
    }

    /// Takes all flags away.
    pub fn clear(&mut self)
        ensures { marks_of self.new ≡ no_marks }
    {
        'listed: while let Some(a) = self.list.pop() {
            self.flags[a as usize] = false;
        }
    }
}
