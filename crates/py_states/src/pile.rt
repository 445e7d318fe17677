//! Piles: lists that grow and shrink at one end. Contracts see the element at that end first.
ghost use Rattle.std.specs.Prelude.{◌≡◌, ◌+◌, ◌<◌, ◌≤◌, [], ◌∷◌, ◌++◌, length, reverse, drop, slice_get, MatchOption, OnOk, IfOk};
ghost use Rattle.py_states.specs.inner.Laid.{moved};

use crate::head::Head;
use py_base::NoMemory;
use std::alloc::Global;
use std::marker::Model;

/// Elements in a pile, with room that can be made beforehand. The one on top came last.
#[derive(Debug, Drop)]
pub struct Pile<T> {
    items: Vec<T>,
}

impl<T> Model for Pile<T> {
    ghost use Rattle.std.specs.Prelude.{◌-◌, reverse, vec_len, vec_capacity};
    ghost use Rattle.py_base.specs.Collection.{Logged};

    ghost Value = { Logged T };

    ghost view = { λ a. record { entries = reverse a.items.items; room = vec_capacity a.items - vec_len a.items } };
}

impl<T: Copy> Pile<T> {
    /// A pile without elements. It takes no memory.
    pub fn new(alloc: Global) -> Pile<T>
        ensures { result.entries ≡ [] }
    {
        Pile {
            items: Vec::new(alloc),
        }
    }

    /// How many elements it has.
    pub fn len(&self) -> usize
        ensures { result ≡ length self.now.entries }
    {
        self.items.len()
    }

    /// The elements, the one on top last.
    pub fn as_slice(&self) -> &[T]
        ensures { self.now.entries ≡ reverse result.now }
    {
        self.items.as_slice()
    }

    /// The element on top.
    pub fn top(&self) -> Option<T>
        ensures { MatchOption result (self.now.entries ≡ []) (λ x. self.now.entries ≡ x ∷ drop 1 self.now.entries) }
    {
        let n = self.items.len();
        if n == 0 {
            None
        } else {
            Some(self.items[n - 1])
        }
    }

    /// The element at a place, counted from the top.
    pub fn at(&self, i: usize) -> T
        requires { i < length self.now.entries }
        ensures { slice_get self.now.entries i ≡ Some result }
    {
        let n = self.items.len();
        self.items[n - 1 - i]
    }

    /// Makes room for `n` more.
    pub fn reserve(&mut self, n: usize) -> Result<(), NoMemory>
        ensures same { self.new.entries ≡ self.old.entries }
        ensures ok { OnOk result (n ≤ self.new.room) }
    {
        self.items.reserve(n)
    }

    /// Puts an element on top, where there is room.
    pub fn push(&mut self, x: T)
        requires { 0 < self.old.room }
        ensures entries { self.new.entries ≡ x ∷ self.old.entries }
        ensures room { self.old.room ≤ self.new.room + 1 }
    {
        self.items.push_reserved(x);
    }

    /// Puts elements on top, where there is room; the first of them comes on top.
    pub fn push_all(&mut self, xs: &[T])
        requires { length xs.now ≤ self.old.room }
        ensures { self.new.entries ≡ xs.now ++ self.old.entries }
    {
        let mut left = xs.len();
        'items: while left > 0 {
            left -= 1;
            self.push(xs[left]);
        }
    }

    /// Puts another element in the place of the one on top.
    #[tactic(auto, using(crate::proofs::PileLemmas::set_top_is))]
    pub fn set_top(&mut self, x: T)
        requires { 0 < length self.old.entries }
        ensures entries { self.new.entries ≡ x ∷ drop 1 self.old.entries }
        ensures room { self.new.room ≡ self.old.room }
    {
        let last = self.items.len() - 1;
        self.items[last] = x;
    }

    /// Lets the first `n` elements go, or all where there are fewer.
    #[tactic(auto, using(crate::proofs::PileLemmas::cut_is))]
    pub fn cut(&mut self, n: usize)
        ensures entries { self.new.entries ≡ drop n self.old.entries }
        ensures room { self.old.room ≤ self.new.room }
    {
        let left = self.items.len().saturating_sub(n);
        self.items.truncate(left);
    }

    /// An equal pile in memory of its own.
    pub fn copy(&self, alloc: Global) -> Result<Pile<T>, NoMemory>
        ensures { IfOk result (λ a. a.entries ≡ self.now.entries) }
    {
        Ok(Pile {
            items: Vec::from_slice(alloc, self.items.as_slice())?,
        })
    }
}

impl Pile<Head> {
    /// The head on top tells another place.
    #[tactic(auto, using(crate::proofs::PileLemmas::moved_is))]
    pub fn move_top(&mut self, pc: u32)
        requires { 0 < length self.old.entries }
        ensures entries { self.new.entries ≡ moved pc self.old.entries }
        ensures room { self.new.room ≡ self.old.room }
    {
        let last = self.items.len() - 1;
        let head = &mut self.items[last];
        head.pc = pc;
    }
}
