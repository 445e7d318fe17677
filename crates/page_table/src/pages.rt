//! Pages of words that segments share, and their extents.
ghost use Rattle.std.specs.Prelude.{◌≡◌, ℕ, ◌+◌, ◌-◌, ◌*◌, ◌/◌, ◌%◌, ◌<◌, ◌≤◌, ◌^◌, ◌⊎◌, true, false, [], length, IfSome, IfNone, IfOk, OnOk, OnErr};
ghost use Rattle.std.specs.Prelude.{vec_capacity};
ghost use Rattle.page_table.specs.Pages.{Lies, IsTable, limit, new_table, over, after_open, after_write, after_push, after_restore};
ghost use Rattle.page_table.specs.Reserving.{Reserves, TakesThree, after_give_back};
ghost use Rattle.page_table.specs.Counting.{in_use};
ghost use Rattle.page_table.specs.Lists.{table_of, word_at, sheet_at, word_over, IsRun};
ghost use Rattle.page_table.specs.inner.Spreading.{HasWords, Restored, Spread};

use crate::counts::{count_three, words_of};
use crate::sheet::Sheet;
use crate::shelf::Shelf;
use py_data::NoMemory;
use seg_store::StoreFault;
use std::alloc::Global;
use std::marker::Model;

/// Copies the shared words of a span into the pages of a segment's own, but for segment `k`, which has them.
fn restore_at(sheets: &mut Vec<Sheet>, i: usize, k: usize, shared: &[u64], place: usize, n: usize)
    requires index { i < length sheets.old.items }
    requires span { place + n ≤ length shared.now }
    requires there { HasWords k place n (word_at shared.now) sheets.old.items }
    ensures { Restored i place n (word_at shared.now) sheets.old.items sheets.new.items }
{
    if i != k {
        sheets[i].restore(shared, place, n);
    }
}

/// Copies the shared words of a span into the pages of each segment's own, but for segment `k`, which has them.
fn spread(sheets: &mut Vec<Sheet>, k: usize, shared: &[u64], place: usize, n: usize)
    requires span { place + n ≤ length shared.now }
    requires there { HasWords k place n (word_at shared.now) sheets.old.items }
    ensures { Spread (length sheets.old.items) place n (word_at shared.now) sheets.old.items sheets.new.items }
{
    'segments: for i in 0..sheets.len() {
        restore_at(sheets, i, k, shared, place, n);
    }
}

/// Adds words that are 0, for which there is room. A few are added one by one.
fn lengthen(shared: &mut Vec<u64>, size: usize)
    requires room { length shared.old.items + size ≤ vec_capacity shared.old }
    requires small { length shared.old.items + size < 2 ^ 40 }
    ensures words { word_at shared.new.items ≡ word_at shared.old.items }
    ensures length { length shared.new.items ≡ length shared.old.items + size }
{
    if size > 8 {
        let end = shared.len() + size;
        if shared.resize(end, 0).is_err() {
            unreachable!();
        }
    } else {
        'words: for _i in 0..size {
            shared.push_reserved(0);
        }
    }
}

/// Words of 8 bytes in pages of 512. All segments share them, and each has pages of its own, in which it sees and
/// writes words that the others don't.
///
/// Contracts see a table (`specs/Pages.antt`): the shared word at each place, the word of each segment at each place,
/// which pages are a segment's own, and the extents by class. Each call that changes it leaves what that file and
/// `specs/Reserving.antt` say.
#[derive(Drop)]
pub struct Pages {
    alloc: Global,
    shared: Vec<u64>,
    sheets: Vec<Sheet>,
    shelves: Vec<Shelf>,
    pages: u32,
}

impl Model for Pages {
    ghost use Rattle.page_table.specs.Lists.{Lists, lists};
    ghost use Rattle.page_table.specs.inner.Sound.{IsSound};

    ghost Value = { Lists };

    ghost view = { λ p. lists p.shared.items p.sheets.items p.shelves.items p.pages };

    ghost invariant = { λ p. IsSound (lists p.shared.items p.sheets.items p.shelves.items p.pages) };
}

impl Pages {
    /// A table for 1 to 8 segments and 1 to 65,536 pages. All words are 0, and the first two are taken.
    pub fn new(alloc: Global, segments: u8, pages: u32) -> Result<Pages, NoMemory>
        requires segments { (1 ≤ segments) × (segments ≤ 8) }
        requires pages { (1 ≤ pages) × (pages ≤ 65536) }
        ensures { IfOk result (λ t. table_of t ≡ new_table segments pages) }
    {
        let mut sheets = Vec::with_capacity(alloc, segments as usize)?;
        'sheets: for _i in 0..segments {
            sheets.push(Sheet::new(alloc))?;
        }
        let mut shelves = Vec::with_capacity(alloc, 22)?;
        'shelves: for _i in 0..22u8 {
            shelves.push(Shelf::new(alloc))?;
        }
        let mut shared = Vec::new(alloc);
        shared.resize(2, 0)?;
        Ok(Pages {
            alloc,
            shared,
            sheets,
            shelves,
            pages,
        })
    }

    /// What always holds of a table, for a caller's proof. It does nothing.
    pub fn known(&self)
        ensures { IsTable (table_of self.now) }
    {
        let _pages = &self.pages;
    }

    /// How many segments there are.
    pub fn segments(&self) -> u8
        ensures { result ≡ (table_of self.now).segments }
    {
        self.sheets.len() as u8
    }

    /// The end of the words that were taken. It never falls.
    pub fn reserved(&self) -> u64
        ensures { result ≡ (table_of self.now).reserved }
    {
        self.shared.len() as u64
    }

    /// The most words that can be taken.
    pub fn limit(&self) -> u64
        ensures { result ≡ limit (table_of self.now) }
    {
        512 * u64::from(self.pages)
    }

    /// The shared word at a place.
    #[tactic(auto, unfolding(crate::specs::Lists::word_at))]
    pub fn shared_word(&self, place: u32) -> u64
        requires { place < (table_of self.now).reserved }
        ensures { result ≡ (table_of self.now).shared place }
    {
        self.shared[place as usize]
    }

    /// The word of a segment at a place.
    pub fn word(&self, k: u8, place: u32) -> u64
        requires segment { k < (table_of self.now).segments }
        requires place { place < (table_of self.now).reserved }
        ensures { result ≡ (table_of self.now).word k place }
    {
        self.sheets[k as usize].word(&self.shared, place as usize)
    }

    /// The two words of a segment from an even place on. They lie in one page, which is found once.
    pub fn two_words(&self, k: u8, place: u32) -> (u64, u64)
        requires segment { k < (table_of self.now).segments }
        requires span { place + 1 < (table_of self.now).reserved }
        requires even { place % 2 ≡ 0 }
        ensures first { result.0 ≡ (table_of self.now).word k place }
        ensures second { result.1 ≡ (table_of self.now).word k (place + 1) }
    {
        self.sheets[k as usize].two_words(&self.shared, place as usize)
    }

    /// The three words of a segment from an even place on. Where they lie in one page it is found once.
    pub fn three_words(&self, k: u8, place: u32) -> (u64, u64, u64)
        requires segment { k < (table_of self.now).segments }
        requires span { place + 2 < (table_of self.now).reserved }
        requires even { place % 2 ≡ 0 }
        ensures first { result.0 ≡ (table_of self.now).word k place }
        ensures second { result.1 ≡ (table_of self.now).word k (place + 1) }
        ensures third { result.2 ≡ (table_of self.now).word k (place + 2) }
    {
        self.sheets[k as usize].three_words(&self.shared, place as usize)
    }

    /// The words of a segment from a place on, where they lie in one page, which is found once.
    pub fn run(&self, k: u8, place: u32, n: u32) -> Option<&[u64]>
        requires segment { k < (table_of self.now).segments }
        requires span { place + n ≤ (table_of self.now).reserved }
        ensures words { IfSome result (λ s. IsRun ((table_of self.now).word k) place n s.now) }
        ensures border { IfNone result (512 < place % 512 + n) }
    {
        let (from, size) = (place as usize, n as usize);
        if from % 512 + size > 512 {
            return None;
        }
        Some(self.sheets[k as usize].run(&self.shared, from, size))
    }

    /// The words of a segment from a place on, where they lie in one page of its own, which is found once.
    pub fn own_run(&self, k: u8, place: u32, n: u32) -> Option<&[u64]>
        requires segment { k < (table_of self.now).segments }
        ensures words { IfSome result (λ s. IsRun ((table_of self.now).word k) place n s.now) }
        ensures own { IfSome result (λ s. (table_of self.now).own k (place / 512) ≡ true) }
        ensures page { IfSome result (λ s. place % 512 + n ≤ 512) }
        ensures none { IfNone result (((table_of self.now).own k (place / 512) ≡ false) ⊎ (512 < place % 512 + n)) }
    {
        let from = place as usize;
        if from % 512 + n as usize > 512 {
            return None;
        }
        self.sheets[k as usize].own_run(from, n as usize)
    }

    /// Whether a segment has a page of its own.
    pub fn is_private(&self, k: u8, page: u32) -> bool
        requires segment { k < (table_of self.now).segments }
        requires page { page < (table_of self.now).pages }
        ensures { result ≡ (table_of self.now).own k page }
    {
        self.sheets[k as usize].has(page as usize)
    }

    /// Makes a page a segment's own. No word changes.
    pub fn open_page(&mut self, k: u8, page: u32) -> Result<(), NoMemory>
        requires segment { k < (table_of self.old).segments }
        requires page { page < (table_of self.old).pages }
        ensures ok { OnOk result (table_of self.new ≡ after_open k page (table_of self.old)) }
        ensures err { OnErr result (table_of self.new ≡ table_of self.old) }
    {
        let sheet = &mut self.sheets[k as usize];
        sheet.open(self.alloc, &self.shared, page as usize)?;
        Ok(())
    }

    /// Puts another word of a segment in a place of a page of its own. It takes no memory.
    pub fn write_word(&mut self, k: u8, place: u32, w: u64)
        requires segment { k < (table_of self.old).segments }
        requires place { place < (table_of self.old).reserved }
        requires own { (table_of self.old).own k (place / 512) ≡ true }
        ensures { table_of self.new ≡ after_write k place w (table_of self.old) }
    {
        self.sheets[k as usize].set(place as usize, w);
    }

    /// Puts other words of a segment in the two places from an even one on, of a page of its own. They lie in that
    /// page, which is found once. It takes no memory.
    pub fn write_two(&mut self, k: u8, place: u32, first: u64, second: u64)
        requires segment { k < (table_of self.old).segments }
        requires span { place + 1 < (table_of self.old).reserved }
        requires even { place % 2 ≡ 0 }
        requires own { (table_of self.old).own k (place / 512) ≡ true }
        ensures { table_of self.new ≡ after_write k (place + 1) second (after_write k place first (table_of self.old)) }
    {
        self.sheets[k as usize].set_two(place as usize, first, second);
    }

    /// Puts another word of a segment in a place, and makes the page its own first.
    pub fn set_word(&mut self, k: u8, place: u32, w: u64) -> Result<(), NoMemory>
        requires segment { k < (table_of self.old).segments }
        requires place { place < (table_of self.old).reserved }
        ensures ok { OnOk result (table_of self.new
            ≡ after_write k place w (after_open k (place / 512) (table_of self.old))) }
        ensures err { OnErr result (table_of self.new ≡ table_of self.old) }
    {
        self.known();
        self.open_page(k, place / 512)?;
        self.write_word(k, place, w);
        Ok(())
    }

    /// Copies a segment's words of a span into the shared words, and into every other segment's pages. It takes no
    /// memory.
    pub fn push_words(&mut self, k: u8, place: u32, n: u32)
        requires segment { k < (table_of self.old).segments }
        requires span { place + n ≤ (table_of self.old).reserved }
        ensures { table_of self.new ≡ after_push k place n (table_of self.old) }
    {
        let (from, size) = (place as usize, n as usize);
        self.sheets[k as usize].share(&mut self.shared, from, size);
        spread(&mut self.sheets, k as usize, &self.shared, from, size);
    }

    /// Copies the shared words of a span into a segment's pages. It takes no memory.
    pub fn restore_words(&mut self, k: u8, place: u32, n: u32)
        requires segment { k < (table_of self.old).segments }
        requires span { place + n ≤ (table_of self.old).reserved }
        ensures { table_of self.new ≡ after_restore k place n (table_of self.old) }
    {
        self.sheets[k as usize].restore(&self.shared, place as usize, n as usize);
    }

    /// How many extents of a class are in use: they were taken and not given back since.
    pub fn in_use(&self, class: u8) -> usize
        requires { class ≤ 21 }
        ensures { result ≡ in_use (table_of self.now) class }
    {
        self.shelves[class as usize].in_use()
    }

    /// Takes an extent of `2 ^ class` words: the one that was given back last, if there is one, else the next words. At
    /// want of memory nothing is taken.
    pub fn reserve(&mut self, class: u8) -> Result<u32, StoreFault>
        requires class { (1 ≤ class) × (class ≤ 21) }
        ensures extent { Reserves class (table_of self.old) (table_of self.new) result }
        ensures lies { IfOk result (λ p. Lies class p (table_of self.new).reserved) }
    {
        if self.shelves[class as usize].is_empty() {
            self.extend(class)
        } else {
            Ok(self.shelves[class as usize].take())
        }
    }

    fn extend(&mut self, class: u8) -> Result<u32, StoreFault>
        requires class { (1 ≤ class) × (class ≤ 21) }
        requires none { ((table_of self.old).shelf class).spare ≡ [] }
        ensures extent { Reserves class (table_of self.old) (table_of self.new) result }
        ensures lies { IfOk result (λ p. Lies class p (table_of self.new).reserved) }
    {
        let size = 1usize << class;
        let reserved = self.shared.len();
        let limit = 512 * self.pages as usize;
        if reserved + size > limit {
            return Err(StoreFault::Full {
                reserved: reserved as u64,
                need: size as u64,
                limit: limit as u64,
            });
        }
        self.shared.reserve(size)?;
        self.shelves[class as usize].grow()?;
        lengthen(&mut self.shared, size);
        Ok(reserved as u32)
    }

    /// Takes an extent of each of three classes, of which 0 is none, where none of them has one that was given back, and
    /// they fit behind the words that were taken: they have the next words, one behind the other. Else nothing changes,
    /// and neither at want of memory.
    pub fn reserve_all(&mut self, first: u8, second: u8, third: u8) -> Option<(u32, u32, u32)>
        requires first { first ≤ 21 }
        requires second { second ≤ 21 }
        requires third { third ≤ 21 }
        ensures some { IfSome result (λ p. TakesThree first second third p.0 p.1 p.2 (table_of self.old)
            (table_of self.new)) }
        ensures none { IfNone result (table_of self.new ≡ table_of self.old) }
    {
        let one = self.shared.len();
        let two = one + words_of(first);
        let three = two + words_of(second);
        let end = three + words_of(third);
        if end > 512 * self.pages as usize {
            return None;
        }
        if self.shared.reserve(end - one).is_err() {
            return None;
        }
        if !count_three(&mut self.shelves, first, second, third) {
            return None;
        }
        lengthen(&mut self.shared, end - one);
        Some((one as u32, two as u32, three as u32))
    }

    /// Gives an extent back, that was taken with this class and not given back since. It takes no memory.
    pub fn give_back(&mut self, place: u32, class: u8)
        requires class { (1 ≤ class) × (class ≤ 21) }
        requires lies { Lies class place (table_of self.old).reserved }
        requires out { 0 < in_use (table_of self.old) class }
        ensures { table_of self.new ≡ after_give_back class place (table_of self.old) }
    {
        self.shelves[class as usize].put(place);
    }
}
