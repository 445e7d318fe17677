//! Tracks: lists that grow and shrink at their end, with room that can be made beforehand.
ghost use Rattle.std.specs.Prelude.{◌≡◌, ◌+◌, ◌<◌, ◌≤◌, [], ◌∷◌, ◌++◌, length, take, drop, replicate, slice_set, OnOk, IfOk, IsTrue};

use py_base::NoMemory;
use std::alloc::Global;
use std::marker::Model;

/// Elements in a row, with room that can be made beforehand for more of them at the end.
#[derive(Debug, Drop)]
pub struct Track<T> {
    items: Vec<T>,
}

impl<T> Model for Track<T> {
    ghost use Rattle.std.specs.Prelude.{◌-◌, vec_len, vec_capacity};
    ghost use Rattle.py_base.specs.Collection.{Logged};

    ghost Value = { Logged T };

    ghost view = { λ a. record { entries = a.items.items; room = vec_capacity a.items - vec_len a.items } };
}

impl<T: Copy> Track<T> {
    /// A track without elements. It takes no memory.
    pub fn new(alloc: Global) -> Track<T>
        ensures { result.entries ≡ [] }
    {
        Track {
            items: Vec::new(alloc),
        }
    }

    /// The elements in their order.
    pub fn as_slice(&self) -> &[T]
        ensures { result.now ≡ self.now.entries }
    {
        self.items.as_slice()
    }

    /// How many elements it has.
    pub fn len(&self) -> usize
        ensures { result ≡ length self.now.entries }
    {
        self.items.len()
    }

    /// Makes room for `n` more.
    pub fn reserve(&mut self, n: usize) -> Result<(), NoMemory>
        ensures same { self.new.entries ≡ self.old.entries }
        ensures ok { OnOk result (n ≤ self.new.room) }
    {
        self.items.reserve(n)
    }

    /// Whether there is room for one more.
    pub fn has_room(&self) -> bool
        ensures { IsTrue result → 0 < self.now.room }
    {
        self.items.len() < self.items.capacity()
    }

    /// Adds an element at the end, where there is room.
    pub fn push(&mut self, x: T)
        requires { 0 < self.old.room }
        ensures entries { self.new.entries ≡ self.old.entries ++ x ∷ [] }
        ensures room { self.old.room ≤ self.new.room + 1 }
    {
        self.items.push_reserved(x);
    }

    /// Adds the elements of a slice at the end, where there is room.
    pub fn extend(&mut self, xs: &[T])
        requires { length xs.now ≤ self.old.room }
        ensures entries { self.new.entries ≡ self.old.entries ++ xs.now }
        ensures room { self.old.room ≤ self.new.room + length xs.now }
    {
        match xs {
            [] => (),
            [x] => self.push(*x),
            _ => {
                let _ = self.items.extend_from_slice(xs);
            }
        }
    }

    /// Adds an element `n` times at the end, where there is room.
    pub fn fill(&mut self, n: usize, x: T)
        requires { n ≤ self.old.room }
        ensures { self.new.entries ≡ self.old.entries ++ replicate n x }
    {
        let _ = self.items.resize(self.items.len() + n, x);
    }

    /// Lets the element at a place go; those behind it come down.
    pub fn remove(&mut self, i: usize)
        requires { i < length self.old.entries }
        ensures entries { self.new.entries ≡ take i self.old.entries ++ drop (i + 1) self.old.entries }
        ensures room { self.old.room ≤ self.new.room }
    {
        let _ = self.items.remove(i);
    }

    /// Keeps the first `n` elements, or all where there are fewer.
    pub fn truncate(&mut self, n: usize)
        ensures entries { self.new.entries ≡ take n self.old.entries }
        ensures room { self.old.room ≤ self.new.room }
    {
        self.items.truncate(n);
    }

    /// Puts another element in a place.
    pub fn set(&mut self, i: usize, x: T)
        requires { i < length self.old.entries }
        ensures { self.new.entries ≡ slice_set self.old.entries i x }
    {
        self.items[i] = x;
    }

    /// An equal track in memory of its own.
    pub fn copy(&self, alloc: Global) -> Result<Track<T>, NoMemory>
        ensures { IfOk result (λ a. a.entries ≡ self.now.entries) }
    {
        Ok(Track {
            items: Vec::from_slice(alloc, self.items.as_slice())?,
        })
    }
}
