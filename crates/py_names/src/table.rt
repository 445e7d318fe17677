//! What each body says of names.
ghost use Rattle.std.specs.Prelude.{◌≡◌, map, OnOk};
ghost use Rattle.py_base.specs.NameLists.{has};
ghost use Rattle.py_names.specs.Scopes.{is_function, is_local, names_after, no_names};

use crate::event::{BodyKind, Event};
use py_base::{NameSet, NoMemory};
use std::alloc::Global;
use std::marker::Model;

/// The names that a body mentions, binds, names in a `global`, and has as parameters.
#[derive(Drop)]
pub struct Table<'a> {
    kind: BodyKind,
    mentioned: NameSet<'a>,
    bound: NameSet<'a>,
    declared: NameSet<'a>,
    parameters: NameSet<'a>,
}

impl<'a> Model for Table<'a> {
    ghost use Rattle.py_names.specs.Scopes.{Names};

    ghost Value = { Names };

    ghost view = { λ t. record {
      kind = t.kind;
      mentioned = t.mentioned;
      bound = t.bound;
      declared = t.declared;
      parameters = t.parameters;
    } };
}

impl<'a> Table<'a> {
    pub fn new(alloc: Global) -> Table<'a>
        ensures { result ≡ no_names }
    {
        Table {
            kind: BodyKind::Module,
            mentioned: NameSet::new(alloc),
            bound: NameSet::new(alloc),
            declared: NameSet::new(alloc),
            parameters: NameSet::new(alloc),
        }
    }

    /// One more event of the body.
    pub fn note(&mut self, event: &'a Event) -> Result<(), NoMemory>
        ensures { OnOk result (self.new ≡ names_after self.old event.now) }
    {
        match event {
            Event::Enter(kind) => {
                self.kind = *kind;
                Ok(())
            }
            Event::Leave => Ok(()),
            Event::Takes(name) => {
                self.mentioned.note(name.as_slice())?;
                self.bound.note(name.as_slice())?;
                self.parameters.note(name.as_slice())?;
                Ok(())
            }
            Event::Uses(_, name) => {
                self.mentioned.note(name.as_slice())?;
                Ok(())
            }
            Event::Binds(_, name) => {
                self.mentioned.note(name.as_slice())?;
                self.bound.note(name.as_slice())?;
                Ok(())
            }
            Event::Declares(_, name) => {
                self.mentioned.note(name.as_slice())?;
                self.declared.note(name.as_slice())?;
                Ok(())
            }
            Event::Misplaced(_) => Ok(()),
            Event::Doubled(_) => Ok(()),
        }
    }

    /// Whether a name is local.
    pub fn is_local(&self, name: &[u8]) -> bool
        ensures { result ≡ is_local self.now name.now }
    {
        match self.kind {
            BodyKind::Module => false,
            BodyKind::Function => self.bound.has(name) && !self.declared.has(name),
            BodyKind::Class => self.bound.has(name) && !self.declared.has(name),
        }
    }

    /// Whether a `global` of the body names a name.
    pub fn declares(&self, name: &[u8]) -> bool
        ensures { result ≡ has name.now self.now.declared }
    {
        self.declared.has(name)
    }

    /// Whether a name is a parameter.
    pub fn takes(&self, name: &[u8]) -> bool
        ensures { result ≡ has name.now self.now.parameters }
    {
        self.parameters.has(name)
    }

    pub fn is_function(&self) -> bool
        ensures { result ≡ is_function self.now.kind }
    {
        match self.kind {
            BodyKind::Function => true,
            BodyKind::Module => false,
            BodyKind::Class => false,
        }
    }

    /// The names that the body mentions, in the order of first mention.
    pub fn mentioned(&self) -> &[&'a [u8]]
        ensures { map (λ x. x.now) result.now ≡ self.now.mentioned }
    {
        self.mentioned.as_slice()
    }
}
