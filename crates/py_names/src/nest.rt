//! The bodies that stand round a place.
ghost use Rattle.std.specs.Prelude.{◌≡◌, ◌∷◌, [], drop, reverse, MatchOption, OnOk};

use py_base::NoMemory;
use sqlite_items::Items;
use std::alloc::Global;
use std::marker::Model;

/// The numbers of the bodies round a place, which contracts see with the innermost body's first.
#[derive(Drop)]
pub struct Nest {
    bodies: Items<usize>,
}

impl Model for Nest {
    ghost use Rattle.std.specs.Prelude.{List, ℕ, reverse};

    ghost Value = { List ℕ };

    ghost view = { λ n. reverse n.bodies };
}

impl Nest {
    pub fn new(alloc: Global) -> Nest
        ensures { result ≡ [] }
    {
        Nest {
            bodies: Items::new(alloc),
        }
    }

    /// A body begins.
    pub fn enter(&mut self, body: usize) -> Result<(), NoMemory>
        ensures { OnOk result (self.new ≡ body ∷ self.old) }
    {
        self.bodies.push(body)?;
        Ok(())
    }

    /// The innermost body ends.
    pub fn leave(&mut self)
        ensures { self.new ≡ drop 1 self.old }
    {
        let _ = self.bodies.pop();
    }

    /// The innermost body, and those round it, the outermost first.
    pub fn split(&self) -> Option<(usize, &[usize])>
        ensures { MatchOption result (self.now ≡ []) (λ p. self.now ≡ p.0 ∷ reverse p.1.now) }
    {
        let (last, others) = self.bodies.as_slice().split_last()?;
        Some((*last, others))
    }
}
