//! Lists that contracts see as lists, without where they lie in memory.
ghost use Rattle.std.specs.Prelude.{◌≡◌, ℕ, ◌+◌, ◌-◌, ◌<◌, ◌≤◌, List, [], ◌∷◌, ◌++◌, length, slice_get, slice_index_or, slice_set, option_copied, IfOk, IsOk, OnErr, OnOk, remove, take};
ghost use Rattle.py_base.specs.Collection.{Logged};

use std::alloc::{AllocError, Global};
use std::marker::Model;

/// The one error of want of memory.
pub type NoMemory = AllocError;

/// The bytes of a text.
pub type Bytes = Items<u8>;

/// A list of elements. Contracts see of it the elements in their order, and nothing of where they lie.
#[derive(Debug, Drop)]
pub struct Items<T> {
    items: Vec<T>,
}

impl<T> Model for Items<T> {
    ghost use Rattle.std.specs.Prelude.{List};
    ghost use Rattle.std.specs.Coded.{coded_list};

    ghost Value = { List T };

    ghost coded = { coded_list T.code };

    ghost view = { λ a. a.items.items };
}

impl<T> Items<T> {
    /// A list without elements. It takes no memory.
    pub fn new(alloc: Global) -> Items<T>
        ensures { result ≡ [] }
    {
        Items {
            items: Vec::new(alloc),
        }
    }

    /// How many elements it has.
    pub fn len(&self) -> usize
        ensures { result ≡ length self.now }
    {
        self.items.len()
    }

    /// The element at a place, counted from 0, if there is one.
    pub fn get(&self, i: usize) -> Option<&T>
        ensures { option_copied result ≡ slice_get self.now i }
    {
        self.items.get(i)
    }

    /// The elements in their order.
    pub fn as_slice(&self) -> &[T]
        ensures { result.now ≡ self.now }
    {
        self.items.as_slice()
    }
}

impl<T: Drop> Items<T> {
    /// Adds an element at the end. At want of memory the list stays as it is.
    pub fn push(&mut self, x: T) -> Result<(), NoMemory>
        ensures ok { OnOk result (self.new ≡ self.old ++ x ∷ []) }
        ensures err { OnErr result (self.new ≡ self.old) }
    {
        self.items.push(x)?;
        Ok(())
    }

    /// Puts another element in a place.
    pub fn set(&mut self, i: usize, x: T)
        requires { i < length self.old }
        ensures { self.new ≡ slice_set self.old i x }
    {
        self.items[i] = x;
    }

    /// Keeps the first `n` elements, or all where there are fewer.
    pub fn truncate(&mut self, n: usize)
        ensures { self.new ≡ take n self.old }
    {
        self.items.truncate(n);
    }

    /// Takes an element out; those behind it close the gap.
    pub fn remove(&mut self, i: usize)
        requires { i < length self.old }
        ensures { self.new ≡ remove self.old i }
    {
        let _ = self.items.remove(i);
    }
}

impl<T: Copy> Items<T> {
    /// Adds the elements of a slice at the end. At want of memory the list stays as it is.
    pub fn extend_from_slice(&mut self, more: &[T]) -> Result<(), NoMemory>
        ensures ok { OnOk result (self.new ≡ self.old ++ more.now) }
        ensures err { OnErr result (self.new ≡ self.old) }
    {
        self.items.extend_from_slice(more)
    }

    /// The element at a place.
    pub fn at(&self, i: usize) -> T
        requires { i < length self.now }
        ensures { (d : T) → result ≡ slice_index_or self.now i d }
    {
        self.items[i]
    }

    /// A list of the elements of a slice.
    pub fn from_slice(alloc: Global, items: &[T]) -> Result<Items<T>, NoMemory>
        ensures { IfOk result (λ a. a ≡ items.now) }
    {
        Ok(Items {
            items: Vec::from_slice(alloc, items)?,
        })
    }

    /// An equal list in memory of its own.
    pub fn copy(&self, alloc: Global) -> Result<Items<T>, NoMemory>
        ensures { IfOk result (λ a. a ≡ self.now) }
    {
        Ok(Items {
            items: Vec::from_slice(alloc, self.items.as_slice())?,
        })
    }
}

/// A value of which an equal one can be made.
pub trait Duplicate: Drop {
    /// An equal value in memory of its own.
    fn duplicate(&self, alloc: Global) -> Result<Self, NoMemory>
        ensures { IfOk result (λ a. a ≡ self.now) };
}

/// A list to which elements are added, with room that can be made beforehand.
#[derive(Debug, Drop)]
pub struct Log<T> {
    items: Vec<T>,
}

impl<T> Model for Log<T> {
    ghost use Rattle.std.specs.Prelude.{◌-◌, vec_len, vec_capacity};
    ghost use Rattle.py_base.specs.Collection.{Logged};

    ghost Value = { Logged T };

    ghost view = { λ a. record { entries = a.items.items; room = vec_capacity a.items - vec_len a.items } };
}

impl<T: Drop> Log<T> {
    /// A log without elements. It takes no memory.
    pub fn new(alloc: Global) -> Log<T>
        ensures { result.entries ≡ [] }
    {
        Log {
            items: Vec::new(alloc),
        }
    }

    /// How many elements it has.
    pub fn len(&self) -> usize
        ensures { result ≡ length self.now.entries }
    {
        self.items.len()
    }

    /// The element at a place, counted from 0, if there is one.
    pub fn get(&self, i: usize) -> Option<&T>
        ensures { option_copied result ≡ slice_get self.now.entries i }
    {
        self.items.get(i)
    }

    /// Makes room for `n` more, for which `push` then takes no memory.
    pub fn reserve(&mut self, n: usize) -> Result<(), NoMemory>
        ensures same { self.new.entries ≡ self.old.entries }
        ensures ok { OnOk result (n ≤ self.new.room) }
        ensures kept { self.old.room ≤ self.new.room }
    {
        self.items.reserve(n)
    }

    /// Adds an element at the end. Where room was made for it, there is memory. At want of memory the log stays as it
    /// is.
    pub fn push(&mut self, x: T) -> Result<(), NoMemory>
        ensures ok { OnOk result (self.new.entries ≡ self.old.entries ++ x ∷ []) }
        ensures err { OnErr result (self.new.entries ≡ self.old.entries) }
        ensures room { self.old.room ≤ self.new.room + 1 }
        ensures reserved { 0 < self.old.room → IsOk result }
    {
        self.items.push(x)?;
        Ok(())
    }
}

impl<T: Duplicate> Log<T> {
    /// A log of equal elements, in memory of its own.
    pub fn copy(&self, alloc: Global) -> Result<Log<T>, NoMemory>
        ensures { IfOk result (λ a. a.entries ≡ self.now.entries) }
    {
        let mut items = Vec::new(alloc);
        for x in &self.items {
            items.push(x.duplicate(alloc)?)?;
        }
        Ok(Log { items })
    }
}
