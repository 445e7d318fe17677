//! A store of records in words.
ghost use Rattle.std.specs.Prelude.{◌≡◌, ℕ, ◌*◌, ◌<◌, ◌≤◌, true, false, [], is_some, length, slice_get, Some, IsOk, OnOk, OnErr, IfOk};
ghost use Rattle.py_data.specs.Heap.{Has};
ghost use Rattle.seg_store.specs.Meaning.{sees, holds};
ghost use Rattle.seg_store.specs.Store.{NoOther, IsHolder, IsStore, IsEmpty};
ghost use Rattle.seg_store.specs.Calls.{after_begin, after_mark, after_lock, after_open, after_undo, after_publish, after_drop};
ghost use Rattle.paged_store.specs.Paged.{no_draft, drafted_in};
ghost use Rattle.paged_store.specs.inner.Fine.{IsPaged};

use crate::books::is_shown;
use crate::draft::Draft;
use page_table::Pages;
use py_data::{Addr, NoMemory};
use seg_marks::Marks;
use std::alloc::Global;

/// A store that keeps its records in words of pages, which its segments share until they write to them.
#[derive(Drop)]
pub struct PagedStore {
    pub(crate) alloc: Global,
    pub(crate) pages: Pages,
    pub(crate) present: Vec<bool>,
    pub(crate) marks: Marks,
    pub(crate) drafts: Vec<Draft>,
    ghost sound: { IsPaged pages present.items marks drafts.items },
}

/// The drafts of so many segments, with nothing in them.
fn new_drafts(alloc: Global, segments: u8) -> Result<Vec<Draft>, NoMemory>
    ensures length { IfOk result (λ v. length v.items ≡ segments) }
    ensures empty { IfOk result (λ v. (k : ℕ) → drafted_in (slice_get v.items k) ≡ no_draft) }
{
    let mut drafts = Vec::new(alloc);
    'segments: for _ in 0..segments {
        drafts.push(Draft::new(alloc))?;
    }
    Ok(drafts)
}

impl PagedStore {
    ghost use Rattle.seg_store.specs.Telling.{IsTelling};
    ghost use Rattle.paged_store.specs.Stores.{paged_meaning, reserved_of, peaks_of, new_meaning};

    /// A store for 1 to 8 segments and 1 to 65,536 pages, with no record.
    pub fn new(alloc: Global, segments: u8, pages: u32) -> Result<PagedStore, NoMemory>
        requires segments { (1 ≤ segments) × (segments ≤ 8) }
        requires pages { (1 ≤ pages) × (pages ≤ 65536) }
        ensures meaning { IfOk result (λ s. paged_meaning s ≡ new_meaning segments (512 * pages)) }
        ensures empty { IfOk result (λ s. IsEmpty (paged_meaning s) (Some (peaks_of s))) }
        ensures reserved { IfOk result (λ s. reserved_of s ≡ 2) }
    {
        let table = Pages::new(alloc, segments, pages)?;
        let marks = Marks::new(alloc, segments, 256 * pages)?;
        let mut present = Vec::new(alloc);
        present.resize(256 * pages as usize, false)?;
        let drafts = new_drafts(alloc, segments)?;
        Ok(PagedStore {
            alloc,
            pages: table,
            present,
            marks,
            drafts,
        })
    }

    /// What always holds of a store, for a caller's proof. It does nothing.
    pub fn is_known(&self)
        ensures store { IsStore (reserved_of self.now) (paged_meaning self.now) }
        ensures told { IsTelling (reserved_of self.now) (paged_meaning self.now) (peaks_of self.now) }
    {
        self.pages.known();
        let _drafts = &self.drafts;
    }

    /// How many segments there are.
    #[tactic(auto, unfolding(crate::specs::State::meaning_in, crate::specs::Paged::state_of))]
    pub fn segment_count(&self) -> u8
        ensures { result ≡ (paged_meaning self.now).segments }
    {
        self.pages.segments()
    }

    /// How many words are taken, those given back among them.
    pub fn reserved_words(&self) -> u64
        ensures { result ≡ reserved_of self.now }
    {
        self.pages.reserved()
    }

    /// The most words that can be taken.
    #[tactic(auto, unfolding(crate::specs::State::meaning_in, crate::specs::Paged::state_of))]
    pub fn word_limit(&self) -> u64
        ensures { result ≡ (paged_meaning self.now).limit }
    {
        self.pages.limit()
    }

    /// A transaction begins on a segment: it has looked at nothing yet.
    pub fn forget_looks(&mut self, k: u8)
        requires { k < (paged_meaning self.old).segments }
        ensures meaning { paged_meaning self.new ≡ after_begin k (paged_meaning self.old) }
        ensures reserved { reserved_of self.new ≡ reserved_of self.old }
        ensures peaks { peaks_of self.new ≡ peaks_of self.old }
    {
        self.marks.begin(k);
    }

    /// A segment looks at a record. It takes no memory.
    pub fn note_look(&mut self, k: u8, a: Addr) -> Result<(), NoMemory>
        requires segment { k < (paged_meaning self.old).segments }
        requires there { Has (sees (paged_meaning self.old) k) a.0 }
        ensures done { IsOk result }
        ensures ok { OnOk result (paged_meaning self.new ≡ after_mark k a.0 (paged_meaning self.old)) }
        ensures err { OnErr result (paged_meaning self.new ≡ paged_meaning self.old) }
        ensures reserved { reserved_of self.new ≡ reserved_of self.old }
        ensures peaks { peaks_of self.new ≡ peaks_of self.old }
    {
        self.marks.mark(k, a.0);
        Ok(())
    }

    /// Whether a record of the image stands at an address.
    pub fn stands_at(&self, a: Addr) -> bool
        ensures { result ≡ is_some ((paged_meaning self.now).image a.0) }
    {
        is_shown(&self.present, a.0)
    }

    /// The segment that holds a record.
    pub fn held_by(&self, a: Addr) -> Option<u8>
        ensures { IsHolder (paged_meaning self.now) a.0 result }
    {
        self.marks.holder(a.0)
    }

    /// A segment locks a record of the image that none holds.
    fn lock_first(&mut self, k: u8, a: Addr) -> Result<(), NoMemory>
        requires segment { k < (paged_meaning self.old).segments }
        requires there { Has (paged_meaning self.old).image a.0 }
        requires free { (j : ℕ) → holds ((paged_meaning self.old).part j) a.0 ≡ false }
        ensures ok { OnOk result (paged_meaning self.new ≡ after_lock k a.0 (paged_meaning self.old)) }
        ensures err { OnErr result (paged_meaning self.new ≡ paged_meaning self.old) }
        ensures reserved { reserved_of self.new ≡ reserved_of self.old }
        ensures peaks { peaks_of self.new ≡ peaks_of self.old }
    {
        self.drafts[k as usize].lock(a)?;
        self.marks.mark(k, a.0);
        self.marks.lock(k, a.0);
        Ok(())
    }

    /// A segment takes the write lock of a record, which counts as a look at it. Where it holds the record it takes no
    /// memory.
    pub fn take_lock(&mut self, k: u8, a: Addr) -> Result<(), NoMemory>
        requires segment { k < (paged_meaning self.old).segments }
        requires there { Has (sees (paged_meaning self.old) k) a.0 }
        requires free { NoOther (paged_meaning self.old) k a.0 }
        ensures held { holds ((paged_meaning self.old).part k) a.0 ≡ true → IsOk result }
        ensures ok { OnOk result (paged_meaning self.new ≡ after_lock k a.0 (paged_meaning self.old)) }
        ensures err { OnErr result (paged_meaning self.new ≡ paged_meaning self.old) }
        ensures reserved { reserved_of self.new ≡ reserved_of self.old }
        ensures peaks { peaks_of self.new ≡ peaks_of self.old }
    {
        if self.held_by(a).is_some() {
            self.note_look(k, a)
        } else {
            self.lock_first(k, a)
        }
    }

    /// A step begins.
    pub fn begin_step(&mut self, k: u8)
        requires { k < (paged_meaning self.old).segments }
        ensures meaning { paged_meaning self.new ≡ after_open k (paged_meaning self.old) }
        ensures reserved { reserved_of self.new ≡ reserved_of self.old }
        ensures peaks { peaks_of self.new ≡ peaks_of self.old }
    {
        self.drafts[k as usize].open();
    }

    /// Whether a segment has looked at a record since its transaction began.
    pub fn looked_at(&self, k: u8, a: Addr) -> bool
        requires { k < (paged_meaning self.now).segments }
        ensures { result ≡ ((paged_meaning self.now).part k).looked a.0 }
    {
        self.marks.marked(k, a.0)
    }

    /// How many records of the image a segment has locked.
    pub fn locked_count(&self, k: u8) -> usize
        requires { k < (paged_meaning self.now).segments }
        ensures { result ≡ length ((paged_meaning self.now).part k).changed }
    {
        self.drafts[k as usize].changed.len()
    }

    /// The locked record of that number, from 0, in the order of the locks.
    pub fn locked_at(&self, k: u8, i: usize) -> Addr
        requires segment { k < (paged_meaning self.now).segments }
        requires within { i < length ((paged_meaning self.now).part k).changed }
        ensures { slice_get ((paged_meaning self.now).part k).changed i ≡ Some result.0 }
    {
        self.drafts[k as usize].changed.at(i)
    }

    /// Makes the image what the segment sees. The segment then holds nothing.
    pub fn publish_all(&mut self, k: u8)
        requires { k < (paged_meaning self.old).segments }
        ensures meaning { paged_meaning self.new ≡ after_publish k (paged_meaning self.old) }
        ensures reserved { reserved_of self.new ≡ reserved_of self.old }
        ensures peaks { peaks_of self.new ≡ peaks_of self.old }
    {
        let draft = &mut self.drafts[k as usize];
        draft.publish(k, &mut self.pages, &mut self.present, &mut self.marks);
    }

    /// Drops what the segment changed and made. The segment then holds nothing.
    pub fn drop_all(&mut self, k: u8)
        requires { k < (paged_meaning self.old).segments }
        ensures meaning { paged_meaning self.new ≡ after_drop k (paged_meaning self.old) }
        ensures reserved { reserved_of self.new ≡ reserved_of self.old }
        ensures peaks { peaks_of self.new ≡ peaks_of self.old }
    {
        let draft = &mut self.drafts[k as usize];
        draft.let_go(k, &mut self.pages, &mut self.marks);
    }

    /// Takes back what the segment's step changed and made.
    pub fn take_step_back(&mut self, k: u8)
        requires { k < (paged_meaning self.old).segments }
        ensures meaning { paged_meaning self.new ≡ after_undo k (paged_meaning self.old) }
        ensures reserved { reserved_of self.new ≡ reserved_of self.old }
        ensures peaks { peaks_of self.new ≡ peaks_of self.old }
    {
        let draft = &mut self.drafts[k as usize];
        draft.take_back(k, &mut self.pages, &mut self.marks);
    }
}
