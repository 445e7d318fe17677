//! What a segment's transaction has in hand.
ghost use Rattle.std.specs.Prelude.{◌≡◌, ◌<◌, ◌≤◌, length, OnOk, OnErr};
ghost use Rattle.page_table.specs.Lists.{table_of};
ghost use Rattle.seg_marks.specs.Marks.{granules};

use crate::books::{release, show};
use crate::extent::{Extent, Note, Span};
use crate::spans::{
    give_back_all, push_extents, push_spans, restore_extents, restore_spans, write_back,
};
use page_table::Pages;
use py_base::skip;
use py_data::{Addr, Names, NoMemory};
use seg_marks::Marks;
use std::alloc::Global;

/// What a transaction has locked, made, written and taken; and how much of it stood when its open step
/// began.
#[derive(Drop)]
pub struct Draft {
    /// The records of the image that it has locked, in the order of the locks.
    pub changed: Names,
    /// The records that it made, in order.
    pub made: Names,
    /// Where it may have written, besides in the extents that it took.
    pub spans: Vec<Span>,
    /// The extents that it took.
    pub taken: Vec<Extent>,
    /// What its open step wrote over, the first write first, but for what lies in extents that the step took.
    pub notes: Vec<Note>,
    /// How many spans, extents and made records there were when its open step began.
    pub spans_before: usize,
    pub taken_before: usize,
    pub made_before: usize,
}

impl Draft {
    ghost use Rattle.paged_store.specs.Paged.{drafted, no_draft, taken_since};
    ghost use Rattle.paged_store.specs.inner.Fine.{held_by, touched_by, FitsTable};
    ghost use Rattle.paged_store.specs.inner.Ending.{HaveRoom, pushes, restores, rewinds, GivenBack, among, Released, Shown, made_since};
    ghost use Rattle.paged_store.specs.inner.Drafts.{with_lock, step_opened, step_undone};

    /// Nothing. It takes no memory.
    #[tactic(auto, unfolding(crate::specs::Paged::drafted))]
    pub fn new(alloc: Global) -> Draft
        ensures { drafted result ≡ no_draft }
    {
        Draft {
            changed: Names::new(alloc),
            made: Names::new(alloc),
            spans: Vec::new(alloc),
            taken: Vec::new(alloc),
            notes: Vec::new(alloc),
            spans_before: 0,
            taken_before: 0,
            made_before: 0,
        }
    }

    /// It locks a record of the image.
    #[tactic(auto, unfolding(crate::specs::Paged::drafted))]
    pub fn lock(&mut self, a: Addr) -> Result<(), NoMemory>
        ensures ok { OnOk result (drafted self.new ≡ with_lock a.0 (drafted self.old)) }
        ensures err { OnErr result (drafted self.new ≡ drafted self.old) }
    {
        self.changed.push(a)?;
        Ok(())
    }

    /// Its step begins.
    #[tactic(auto, unfolding(crate::specs::Paged::drafted))]
    pub fn open(&mut self)
        ensures { drafted self.new ≡ step_opened (drafted self.old) }
    {
        self.notes.clear();
        self.spans_before = self.spans.len();
        self.taken_before = self.taken.len();
        self.made_before = self.made.len();
    }

    /// Its step is taken back, but for the words that it wrote.
    #[tactic(auto, unfolding(crate::specs::Paged::drafted))]
    pub fn undo(&mut self)
        ensures { drafted self.new ≡ step_undone (drafted self.old) }
    {
        self.notes.clear();
        self.spans.truncate(self.spans_before);
        self.taken.truncate(self.taken_before);
        self.made.truncate(self.made_before);
    }

    /// It has nothing in hand any more.
    #[tactic(auto, unfolding(crate::specs::Paged::drafted))]
    pub fn clear(&mut self)
        ensures { drafted self.new ≡ no_draft }
    {
        self.changed.truncate(0);
        self.made.truncate(0);
        self.spans.clear();
        self.taken.clear();
        self.notes.clear();
        self.spans_before = 0;
        self.taken_before = 0;
        self.made_before = 0;
    }

    /// What the segment wrote is published, and it holds no record any more.
    pub fn publish(&mut self, k: u8, pages: &mut Pages, present: &mut Vec<bool>, marks: &mut Marks)
        requires segment { k < (table_of pages.old).segments }
        requires fits { FitsTable (table_of pages.old) (length present.old.items) k (drafted self.old) }
        requires granules { granules marks.old ≡ length present.old.items }
        ensures draft { drafted self.new ≡ no_draft }
        ensures table { table_of pages.new ≡ pushes k (touched_by (drafted self.old)) (table_of pages.old) }
        ensures present { Shown (among (drafted self.old).made) present.old.items present.new.items }
        ensures holders { Released (held_by (drafted self.old)) marks.old marks.new }
    {
        push_spans(pages, k, &self.spans);
        push_extents(pages, k, &self.taken);
        release(marks, self.changed.as_slice());
        release(marks, self.made.as_slice());
        show(present, self.made.as_slice());
        self.clear();
    }

    /// What the segment wrote is dropped, the extents that it took are given back, and it holds no record any more.
    pub fn let_go(&mut self, k: u8, pages: &mut Pages, marks: &mut Marks)
        requires segment { k < (table_of pages.old).segments }
        requires fits { FitsTable (table_of pages.old) (granules marks.old) k (drafted self.old) }
        requires room { HaveRoom (drafted self.old).taken (table_of pages.old) }
        ensures draft { drafted self.new ≡ no_draft }
        ensures table { GivenBack (drafted self.old).taken
            (restores k (touched_by (drafted self.old)) (table_of pages.old)) (table_of pages.new) }
        ensures holders { Released (held_by (drafted self.old)) marks.old marks.new }
    {
        restore_spans(pages, k, &self.spans);
        restore_extents(pages, k, &self.taken);
        give_back_all(pages, &self.taken);
        release(marks, self.changed.as_slice());
        release(marks, self.made.as_slice());
        self.clear();
    }

    /// What the segment's step wrote and made is taken back.
    pub fn take_back(&mut self, k: u8, pages: &mut Pages, marks: &mut Marks)
        requires segment { k < (table_of pages.old).segments }
        requires fits { FitsTable (table_of pages.old) (granules marks.old) k (drafted self.old) }
        requires room { HaveRoom (taken_since (drafted self.old)) (table_of pages.old) }
        ensures draft { drafted self.new ≡ step_undone (drafted self.old) }
        ensures table { GivenBack (taken_since (drafted self.old))
            (rewinds k (drafted self.old) (table_of pages.old)) (table_of pages.new) }
        ensures holders { Released (among (made_since (drafted self.old))) marks.old marks.new }
    {
        write_back(pages, k, &self.notes);
        let since = skip(&self.taken, self.taken_before);
        restore_extents(pages, k, since);
        give_back_all(pages, since);
        release(marks, skip(self.made.as_slice(), self.made_before));
        self.undo();
    }
}
