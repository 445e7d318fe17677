//! The list of what a module says, as it grows.
ghost use Rattle.std.specs.Prelude.{◌≡◌, ◌++◌, ◌∷◌, [], OnOk, IfOk};
ghost use Rattle.std.specs.Str.{bytes_eq};
ghost use Rattle.py_names.specs.Outline.{is_none, used_name, bound_name, declared_name, label, repeated, only_where};

use crate::event::Event;
use py_base::{Bytes, NameSet, NoMemory};
use sqlite_items::Items;
use std::alloc::Global;
use std::marker::Model;

/// What was said so far, in the order of the text.
#[derive(Drop)]
pub struct Outline {
    alloc: Global,
    events: Items<Event>,
}

impl Model for Outline {
    ghost use Rattle.std.specs.Prelude.{List};
    ghost use Rattle.py_names.specs.declared.event.Event.{Event};

    ghost Value = { List Event };

    ghost view = { λ o. o.events };
}

/// Whether a name is `None`.
fn is_none(name: &Bytes) -> bool
    ensures { result ≡ is_none name.now }
{
    name.as_slice() == b"None".as_slice()
}

impl Outline {
    pub fn new(alloc: Global) -> Outline
        ensures { result ≡ [] }
    {
        Outline {
            alloc,
            events: Items::new(alloc),
        }
    }

    pub fn alloc(&self) -> Global {
        self.alloc
    }

    /// All that was said.
    pub fn into_events(self) -> Items<Event>
        ensures { result ≡ self }
    {
        let Outline { alloc: _, events } = self;
        events
    }

    pub fn push(&mut self, event: Event) -> Result<(), NoMemory>
        ensures { OnOk result (self.new ≡ self.old ++ event ∷ []) }
    {
        self.events.push(event)
    }

    /// A copy of a name.
    pub fn copy(&self, name: &Bytes) -> Result<Bytes, NoMemory>
        ensures { IfOk result (λ copy. copy ≡ name.now) }
    {
        name.copy(self.alloc)
    }

    /// A variable is read.
    pub fn used_name(&mut self, line: u32, name: &Bytes) -> Result<(), NoMemory>
        ensures { OnOk result (self.new ≡ self.old ++ used_name line name.now) }
    {
        if is_none(name) {
            return Ok(());
        }
        let name = self.copy(name)?;
        self.push(Event::Uses(line, name))
    }

    /// A variable is bound.
    pub fn bound_name(&mut self, line: u32, name: &Bytes) -> Result<(), NoMemory>
        ensures { OnOk result (self.new ≡ self.old ++ bound_name line name.now) }
    {
        if is_none(name) {
            return self.push(Event::Misplaced(line));
        }
        let name = self.copy(name)?;
        self.push(Event::Binds(line, name))
    }

    /// A variable is named in a `global`.
    pub fn declared_name(&mut self, line: u32, name: &Bytes) -> Result<(), NoMemory>
        ensures { OnOk result (self.new ≡ self.old ++ declared_name line name.now) }
    {
        if is_none(name) {
            return Ok(());
        }
        let name = self.copy(name)?;
        self.push(Event::Declares(line, name))
    }

    /// A name that is no variable: of an attribute, a keyword or a parameter.
    pub fn label(&mut self, line: u32, name: &Bytes) -> Result<(), NoMemory>
        ensures { OnOk result (self.new ≡ self.old ++ label line name.now) }
    {
        if is_none(name) {
            return self.push(Event::Misplaced(line));
        }
        Ok(())
    }

    /// A statement that stands where it may, or may not.
    pub fn only_where(&mut self, may: bool, line: u32) -> Result<(), NoMemory>
        ensures { OnOk result (self.new ≡ self.old ++ only_where may line) }
    {
        if !may {
            return self.push(Event::Misplaced(line));
        }
        Ok(())
    }

    /// A name in a list, after these.
    pub fn repeated(&mut self, line: u32, before: &NameSet, name: &Bytes) -> Result<(), NoMemory>
        ensures { OnOk result (self.new ≡ self.old ++ repeated line before.now name.now) }
    {
        if before.has(name.as_slice()) {
            return self.push(Event::Doubled(line));
        }
        Ok(())
    }
}
