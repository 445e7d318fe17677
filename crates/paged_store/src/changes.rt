//! Changes of records that a segment holds, in the words that they have.
ghost use Rattle.std.specs.Prelude.{◌≡◌, ◌+◌, ◌*◌, ◌<◌, ◌≤◌, true, length, MatchBool, IfErr, OnOk, OnErr};
ghost use Rattle.py_data.specs.declared.change.Change.TheVariants.{Set, Push, Cut, Pair, Unpair};
ghost use Rattle.py_data.specs.Changes.{after};
ghost use Rattle.py_data.specs.Heap.{at, has_rooms};
ghost use Rattle.seg_store.specs.Meaning.{sees, holds};
ghost use Rattle.seg_store.specs.Store.{CanChange, IsFull, Refuses};
ghost use Rattle.seg_store.specs.Asking.{AsksFor};
ghost use Rattle.seg_store.specs.Calls.{after_change};
ghost use Rattle.page_table.specs.Lists.{table_of};
ghost use Rattle.paged_store.specs.Words.{kind_by, count_by, body_size};
ghost use Rattle.paged_store.specs.inner.Sight.{CanRead};
ghost use Rattle.paged_store.specs.declared.sight.Seen.TheVariants.{Segment};

use crate::enter::fill_index;
use crate::grow::grow;
use crate::sight::{Seen, len, rooms};
use crate::store::PagedStore;
use crate::value::known_value;
use crate::write::{cut, drop_pair, push_pair, push_values, set_value};
use page_table::Pages;
use py_data::{Addr, NoMemory, Value};
use seg_store::StoreFault;

/// Whether the body of a List or Dict has room for so many values more.
pub(crate) fn has_room(pages: &Pages, k: u8, a: u32, more: usize) -> bool
    requires there { CanRead (table_of pages.now) (Segment k) a }
    requires kind { has_rooms (kind_by ((table_of pages.now).word k) a) ≡ true }
    requires more { more ≤ 2 }
    ensures { let w = (table_of pages.now).word k in
        MatchBool result (2 * (count_by w a + more) ≤ body_size w a) (body_size w a < 2 * (count_by w a + more)) }
{
    let seen = Seen::Segment(k);
    let (room, _) = rooms(pages, seen, a);
    len(pages, seen, a) + more <= room
}

impl PagedStore {
    ghost use Rattle.std.specs.Prelude.{Some};
    ghost use Rattle.seg_store.specs.Telling.{in_use, use_with, Rises, RisesTo, Fits, IsOver};
    ghost use Rattle.paged_store.specs.Stores.{paged_meaning, reserved_of, peaks_of, Fills};

    /// Puts another value in a place of a record that a segment holds.
    pub fn put_value(&mut self, k: u8, a: Addr, i: usize, v: Value) -> Result<(), NoMemory>
        requires segment { k < (paged_meaning self.old).segments }
        requires held { holds ((paged_meaning self.old).part k) a.0 ≡ true }
        requires there { CanChange (sees (paged_meaning self.old) k) a.0 (Set i v) }
        ensures ok { OnOk result (paged_meaning self.new ≡ after_change k a.0 (after (Set i v))
            (paged_meaning self.old)) }
        ensures err { OnErr result (paged_meaning self.new ≡ paged_meaning self.old) }
        ensures reserved { reserved_of self.new ≡ reserved_of self.old }
        ensures peaks { peaks_of self.new ≡ peaks_of self.old }
    {
        known_value(v);
        let draft = &mut self.drafts[k as usize];
        set_value(&mut self.pages, draft, k, a.0, i as u32, v)?;
        Ok(())
    }

    /// Adds a value at the end of a List that a segment holds, whose body has room for it.
    pub fn add_value(&mut self, k: u8, a: Addr, v: Value) -> Result<(), NoMemory>
        requires segment { k < (paged_meaning self.old).segments }
        requires held { holds ((paged_meaning self.old).part k) a.0 ≡ true }
        requires there { CanChange (sees (paged_meaning self.old) k) a.0 (Push v) }
        requires room { let w = (table_of self.old.pages).word k in 2 * (count_by w a.0 + 1) ≤ body_size w a.0 }
        ensures ok { OnOk result (paged_meaning self.new ≡ after_change k a.0 (after (Push v))
            (paged_meaning self.old)) }
        ensures err { OnErr result (paged_meaning self.new ≡ paged_meaning self.old) }
        ensures reserved { reserved_of self.new ≡ reserved_of self.old }
        ensures peaks { peaks_of self.new ≡ peaks_of self.old }
    {
        known_value(v);
        let draft = &mut self.drafts[k as usize];
        push_values(&mut self.pages, draft, k, a.0, &[v])?;
        Ok(())
    }

    /// Adds a key that isn't there, and its value, at the end of a Dict that a segment holds, whose body has room for
    /// them.
    pub fn add_pair(&mut self, k: u8, d: Addr, key: Value, v: Value) -> Result<(), NoMemory>
        requires segment { k < (paged_meaning self.old).segments }
        requires held { holds ((paged_meaning self.old).part k) d.0 ≡ true }
        requires there { CanChange (sees (paged_meaning self.old) k) d.0 (Pair key v) }
        requires room { let w = (table_of self.old.pages).word k in 2 * (count_by w d.0 + 2) ≤ body_size w d.0 }
        ensures ok { OnOk result (paged_meaning self.new ≡ after_change k d.0 (after (Pair key v))
            (paged_meaning self.old)) }
        ensures err { OnErr result (paged_meaning self.new ≡ paged_meaning self.old) }
        ensures reserved { reserved_of self.new ≡ reserved_of self.old }
        ensures peaks { peaks_of self.new ≡ peaks_of self.old }
    {
        known_value(key);
        known_value(v);
        let draft = &mut self.drafts[k as usize];
        push_pair(&mut self.pages, draft, k, d.0, key, v)?;
        Ok(())
    }

    /// Leaves the first `n` values of a List that a segment holds.
    pub fn cut_to(&mut self, k: u8, a: Addr, n: usize) -> Result<(), NoMemory>
        requires segment { k < (paged_meaning self.old).segments }
        requires held { holds ((paged_meaning self.old).part k) a.0 ≡ true }
        requires there { CanChange (sees (paged_meaning self.old) k) a.0 (Cut n) }
        ensures ok { OnOk result (paged_meaning self.new ≡ after_change k a.0 (after (Cut n))
            (paged_meaning self.old)) }
        ensures err { OnErr result (paged_meaning self.new ≡ paged_meaning self.old) }
        ensures reserved { reserved_of self.new ≡ reserved_of self.old }
        ensures peaks { peaks_of self.new ≡ peaks_of self.old }
    {
        let left = n.min(len(&self.pages, Seen::Segment(k), a.0));
        let draft = &mut self.drafts[k as usize];
        cut(&mut self.pages, draft, k, a.0, left as u32)?;
        Ok(())
    }

    /// Drops the pair of that number, from 0, of a Dict that a segment holds.
    pub fn remove_pair(&mut self, k: u8, d: Addr, place: usize) -> Result<(), NoMemory>
        requires segment { k < (paged_meaning self.old).segments }
        requires held { holds ((paged_meaning self.old).part k) d.0 ≡ true }
        requires there { CanChange (sees (paged_meaning self.old) k) d.0 (Unpair place) }
        ensures ok { OnOk result (paged_meaning self.new ≡ after_change k d.0 (after (Unpair place))
            (paged_meaning self.old)) }
        ensures err { OnErr result (paged_meaning self.new ≡ paged_meaning self.old) }
        ensures reserved { reserved_of self.new ≡ reserved_of self.old }
        ensures peaks { peaks_of self.new ≡ peaks_of self.old }
    {
        let draft = &mut self.drafts[k as usize];
        drop_pair(&mut self.pages, draft, k, d.0, place as u32)?;
        Ok(())
    }

    /// Adds a value at the end of a List that a segment holds, whose body has no room for it.
    pub fn grow_value(&mut self, k: u8, a: Addr, v: Value) -> Result<(), StoreFault>
        requires segment { k < (paged_meaning self.old).segments }
        requires held { holds ((paged_meaning self.old).part k) a.0 ≡ true }
        requires there { CanChange (sees (paged_meaning self.old) k) a.0 (Push v) }
        requires full { let w = (table_of self.old.pages).word k in body_size w a.0 < 2 * (count_by w a.0 + 1) }
        ensures ok { OnOk result (paged_meaning self.new ≡ after_change k a.0 (after (Push v))
            (paged_meaning self.old)) }
        ensures err { OnErr result (paged_meaning self.new ≡ paged_meaning self.old) }
        ensures cause { IfErr result (Refuses (IsFull (sees (paged_meaning self.old) k) a.0 (Push v)) (Fills self.old)
            (reserved_of self.new) (paged_meaning self.old).limit) }
        ensures asked { IfErr result (AsksFor (sees (paged_meaning self.old) k a.0)
            (after (Push v) (at (sees (paged_meaning self.old) k) a.0))) }
        ensures fits { OnOk result (Fits (Some (peaks_of self.old)) (use_with (paged_meaning self.old)
            (sees (paged_meaning self.old) k a.0) (after (Push v) (at (sees (paged_meaning self.old) k) a.0)))
            (paged_meaning self.old).limit) }
        ensures over { IfErr result (IsOver (Some (peaks_of self.old)) (use_with (paged_meaning self.old)
            (sees (paged_meaning self.old) k a.0) (after (Push v) (at (sees (paged_meaning self.old) k) a.0)))) }
        ensures reserved { reserved_of self.old ≤ reserved_of self.new }
        ensures rises { OnOk result (Rises (Some (peaks_of self.old)) (Some (peaks_of self.new))
            (in_use (paged_meaning self.new))) }
        ensures rises_err { OnErr result
            (RisesTo (Some (peaks_of self.old)) (Some (peaks_of self.new))
            (use_with (paged_meaning self.old) (sees (paged_meaning self.old) k a.0)
            (after (Push v) (at (sees (paged_meaning self.old) k) a.0)))) }
    {
        known_value(v);
        let draft = &mut self.drafts[k as usize];
        grow(&mut self.pages, draft, k, a.0, &[v])?;
        Ok(())
    }

    /// Adds a key that isn't there, and its value, at the end of a Dict that a segment holds, whose body has no room
    /// for them.
    pub fn grow_pair(&mut self, k: u8, d: Addr, key: Value, v: Value) -> Result<(), StoreFault>
        requires segment { k < (paged_meaning self.old).segments }
        requires held { holds ((paged_meaning self.old).part k) d.0 ≡ true }
        requires there { CanChange (sees (paged_meaning self.old) k) d.0 (Pair key v) }
        requires full { let w = (table_of self.old.pages).word k in body_size w d.0 < 2 * (count_by w d.0 + 2) }
        ensures ok { OnOk result (paged_meaning self.new ≡ after_change k d.0 (after (Pair key v))
            (paged_meaning self.old)) }
        ensures err { OnErr result (paged_meaning self.new ≡ paged_meaning self.old) }
        ensures cause { IfErr result (Refuses (IsFull (sees (paged_meaning self.old) k) d.0 (Pair key v))
            (Fills self.old) (reserved_of self.new) (paged_meaning self.old).limit) }
        ensures asked { IfErr result (AsksFor (sees (paged_meaning self.old) k d.0)
            (after (Pair key v) (at (sees (paged_meaning self.old) k) d.0))) }
        ensures fits { OnOk result (Fits (Some (peaks_of self.old)) (use_with (paged_meaning self.old)
            (sees (paged_meaning self.old) k d.0) (after (Pair key v) (at (sees (paged_meaning self.old) k) d.0)))
            (paged_meaning self.old).limit) }
        ensures over { IfErr result (IsOver (Some (peaks_of self.old)) (use_with (paged_meaning self.old)
            (sees (paged_meaning self.old) k d.0) (after (Pair key v) (at (sees (paged_meaning self.old) k) d.0)))) }
        ensures reserved { reserved_of self.old ≤ reserved_of self.new }
        ensures rises { OnOk result (Rises (Some (peaks_of self.old)) (Some (peaks_of self.new))
            (in_use (paged_meaning self.new))) }
        ensures rises_err { OnErr result
            (RisesTo (Some (peaks_of self.old)) (Some (peaks_of self.new))
            (use_with (paged_meaning self.old) (sees (paged_meaning self.old) k d.0)
            (after (Pair key v) (at (sees (paged_meaning self.old) k) d.0)))) }
    {
        known_value(key);
        known_value(v);
        let draft = &mut self.drafts[k as usize];
        grow(&mut self.pages, draft, k, d.0, &[key, v])?;
        fill_index(&mut self.pages, k, d.0);
        Ok(())
    }
}
