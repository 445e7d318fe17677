//! What a body knows of names.
ghost use Rattle.std.specs.Prelude.{◌≡◌, [], ◌∷◌, ◌≤◌, ◌<◌, ◌+◌, ◌^◌, length, MatchOption};
ghost use Rattle.py_templates.specs.Expressions.{key_names};
ghost use Rattle.py_templates.specs.Names.{cell, first_cell, home, key_list, number_in, text};
ghost use Rattle.py_templates.specs.Statements.{bound_name};
ghost use Rattle.py_names.specs.Outline.{is_none};

use crate::home::Home;
use crate::key_set::KeySet;
use py_base::NameSet;
use py_tree::{Imported, Named};
use std::marker::Model;

/// The root that is the first string: the cell of the count of threads and the classes stand before it.
const FIRST_TEXT: usize = 21;

/// What a body knows of names: whether it is that of a class, the names that it binds, and of the whole program the
/// strings and the global names among the roots; and the names in each of its keyword lists.
#[derive(Drop)]
pub struct Names<'s, 'a> {
    is_class: bool,
    locals: &'s NameSet<'a>,
    texts: &'s NameSet<'a>,
    cells: &'s NameSet<'a>,
    keys: &'s KeySet<'a>,
}

impl<'s, 'a> Model for Names<'s, 'a> {
    ghost use Rattle.std.specs.Prelude.{◌+◌, ◌<◌, ◌^◌, length};
    ghost use Rattle.py_templates.specs.Names.{Known, first_cell};

    ghost Value = { Known };

    ghost view = { λ n. record {
      is_class = n.is_class;
      locals = n.locals.now;
      texts = n.texts.now;
      cells = n.cells.now;
      keys = n.keys.now;
    } };

    ghost invariant = { λ n. (first_cell n.texts.now n.cells.now + length n.cells.now < 2 ^ 32)
        × (length n.locals.now < 2 ^ 32) × (length n.keys.now < 2 ^ 32) };
}

impl<'s, 'a> Names<'s, 'a> {
    /// What a body knows, by its parts. Roots, slots and keyword lists have numbers of 32 bits.
    pub fn new(
        is_class: bool,
        locals: &'s NameSet<'a>,
        texts: &'s NameSet<'a>,
        cells: &'s NameSet<'a>,
        keys: &'s KeySet<'a>,
    ) -> Names<'s, 'a>
        requires roots { first_cell texts.now cells.now + length cells.now < 2 ^ 32 }
        requires slots { length locals.now < 2 ^ 32 }
        requires lists { length keys.now < 2 ^ 32 }
        ensures { result ≡ record {
          is_class = is_class;
          locals = locals.now;
          texts = texts.now;
          cells = cells.now;
          keys = keys.now;
        } }
    {
        Names {
            is_class,
            locals,
            texts,
            cells,
            keys,
        }
    }

    /// The root of a string.
    pub fn text(&self, bytes: &[u8]) -> u32
        ensures { result ≡ text self.now bytes.now }
    {
        (FIRST_TEXT + place(self.texts, bytes)) as u32
    }

    /// The root of a global name.
    fn cell(&self, name: &[u8]) -> u32
        ensures { result ≡ cell self.now name.now }
    {
        let main = if self.cells.has(b"__name__") { 1 } else { 0 };
        (FIRST_TEXT + self.texts.len() + main + place(self.cells, name)) as u32
    }

    /// Where a name lives.
    pub fn home(&self, name: &[u8]) -> Home
        ensures { result ≡ home self.now name.now }
    {
        match self.locals.find(name) {
            None => Home::Cell(self.cell(name)),
            Some(slot) => {
                if self.is_class {
                    Home::Body(self.text(name))
                } else {
                    Home::Slot(slot as u32)
                }
            }
        }
    }

    /// The number of the keyword list of a call with these keyword arguments.
    pub fn key_list(&self, named: &[Named]) -> u32
        ensures { result ≡ key_list self.now (key_names named.now) }
    {
        self.keys.number(named) as u32
    }
}

/// The place of a name, or 0 where it isn't there.
fn place(names: &NameSet, name: &[u8]) -> usize
    ensures place { result ≡ number_in name.now names.now }
    ensures within { length names.now ≡ 0 → result ≡ 0 }
    ensures fits { result ≤ length names.now }
{
    match names.find(name) {
        Some(i) => i,
        None => 0,
    }
}

/// Whether a name is `None`, which is a constant.
pub fn is_none(name: &[u8]) -> bool
    ensures { result ≡ is_none name.now }
{
    name == b"None".as_slice()
}

/// The name that an import binds.
pub fn bound_name(x: &Imported) -> &[u8]
    ensures { result.now ≡ bound_name x.now.name x.now.bound }
{
    match &x.bound {
        Some(name) => name.as_slice(),
        None => x.name.as_slice(),
    }
}
