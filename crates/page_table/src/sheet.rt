//! The pages of one segment's own.
ghost use Rattle.std.specs.Prelude.{◌≡◌, ℕ, ◌+◌, ◌-◌, ◌/◌, ◌%◌, ◌<◌, ◌≤◌, true, false, Some, None, [], length, min, option_copied, slice_get, is_ok, if◌then◌else◌, OnOk, IfSome, IfNone};
ghost use Rattle.page_table.specs.Pages.{put, over};
ghost use Rattle.page_table.specs.Lists.{word_at, sheet_in, word_over, has_page, IsRun};

use crate::page::{Page, copy_to};
use py_data::NoMemory;
use std::alloc::Global;
use std::marker::Model;

/// How many of `n` words from a place on lie in its page.
fn in_page(place: usize, n: usize) -> usize
    ensures { result ≡ min n (512 - place % 512) }
{
    let room = 512 - place % 512;
    if n < room { n } else { room }
}

/// Lets a list of pages reach a number.
fn reach(pages: &mut Vec<Option<Page>>, page: usize) -> Result<(), NoMemory>
    requires { page < 65536 }
    ensures same { sheet_in pages.new.items ≡ sheet_in pages.old.items }
    ensures ok { OnOk result (page < length pages.new.items) }
{
    'places: while pages.len() <= page {
        pages.push(None)?;
    }
    Ok(())
}

/// By number, the pages of a segment's own. The list reaches as far as the highest page that was made its own.
#[derive(Drop)]
pub struct Sheet {
    pages: Vec<Option<Page>>,
}

impl Model for Sheet {
    ghost use Rattle.std.specs.Prelude.{ℕ, List, Option};

    ghost Value = { List (Option (List ℕ)) };

    ghost view = { λ s. s.pages.items };
}

impl Sheet {
    /// No pages. It takes no memory.
    pub fn new(alloc: Global) -> Sheet
        ensures { result ≡ [] }
    {
        Sheet {
            pages: Vec::new(alloc),
        }
    }

    /// What the list has at a number, if it reaches so far.
    fn entry(&self, page: usize) -> Option<&Option<Page>>
        ensures { option_copied result ≡ slice_get self.now page }
    {
        self.pages.get(page)
    }

    /// The page of a number, if there is one.
    fn page(&self, page: usize) -> Option<&Page>
        ensures { option_copied result ≡ sheet_in self.now page }
    {
        match self.entry(page) {
            Some(o) => o.as_ref(),
            None => None,
        }
    }

    /// Whether there is a page of a number.
    pub fn has(&self, page: usize) -> bool
        ensures { result ≡ has_page (sheet_in self.now) page }
    {
        self.page(page).is_some()
    }

    /// The word at a place, over the shared words.
    pub fn word(&self, shared: &[u64], place: usize) -> u64
        requires { place < length shared.now }
        ensures { result ≡ word_over (sheet_in self.now) (word_at shared.now) place }
    {
        match self.page(place / 512) {
            Some(page) => page.get(place % 512),
            None => shared[place],
        }
    }

    /// The two words from an even place on, over the shared words. Both lie in one page.
    pub fn two_words(&self, shared: &[u64], place: usize) -> (u64, u64)
        requires within { place + 1 < length shared.now }
        requires even { place % 2 ≡ 0 }
        ensures first { result.0 ≡ word_over (sheet_in self.now) (word_at shared.now) place }
        ensures second { result.1 ≡ word_over (sheet_in self.now) (word_at shared.now) (place + 1) }
    {
        match self.page(place / 512) {
            Some(page) => (page.get(place % 512), page.get(place % 512 + 1)),
            None => (shared[place], shared[place + 1]),
        }
    }

    /// The three words from an even place on, over the shared words, of which the last may lie in the next page.
    #[cold]
    #[inline(never)]
    fn words_at_end(&self, shared: &[u64], place: usize) -> (u64, u64, u64)
        requires within { place + 2 < length shared.now }
        requires even { place % 2 ≡ 0 }
        ensures first { result.0 ≡ word_over (sheet_in self.now) (word_at shared.now) place }
        ensures second { result.1 ≡ word_over (sheet_in self.now) (word_at shared.now) (place + 1) }
        ensures third { result.2 ≡ word_over (sheet_in self.now) (word_at shared.now) (place + 2) }
    {
        let (first, second) = self.two_words(shared, place);
        (first, second, self.word(shared, place + 2))
    }

    /// The three words from an even place on, over the shared words. They lie in one page, but for those at its end.
    pub fn three_words(&self, shared: &[u64], place: usize) -> (u64, u64, u64)
        requires within { place + 2 < length shared.now }
        requires even { place % 2 ≡ 0 }
        ensures first { result.0 ≡ word_over (sheet_in self.now) (word_at shared.now) place }
        ensures second { result.1 ≡ word_over (sheet_in self.now) (word_at shared.now) (place + 1) }
        ensures third { result.2 ≡ word_over (sheet_in self.now) (word_at shared.now) (place + 2) }
    {
        let i = place % 512;
        if i == 510 {
            return self.words_at_end(shared, place);
        }
        match self.page(place / 512) {
            Some(page) => (page.get(i), page.get(i + 1), page.get(i + 2)),
            None => (shared[place], shared[place + 1], shared[place + 2]),
        }
    }

    /// The words from a place on, which lie in one page, over the shared words.
    pub fn run<'a>(&'a self, shared: &'a [u64], place: usize, n: usize) -> &'a [u64]
        requires within { place + n ≤ length shared.now }
        requires page { place % 512 + n ≤ 512 }
        ensures { IsRun (word_over (sheet_in self.now) (word_at shared.now)) place n result.now }
    {
        match self.page(place / 512) {
            Some(page) => page.words(place % 512, n),
            None => &shared[place..place + n],
        }
    }

    /// The words from a place on, which lie in one page, where it is one of its own.
    pub fn own_run(&self, place: usize, n: usize) -> Option<&[u64]>
        requires page { place % 512 + n ≤ 512 }
        ensures words { (below : ℕ → ℕ) → IfSome result (λ s. IsRun (word_over (sheet_in self.now) below) place n s.now) }
        ensures own { IfSome result (λ s. has_page (sheet_in self.now) (place / 512) ≡ true) }
        ensures none { IfNone result (has_page (sheet_in self.now) (place / 512) ≡ false) }
    {
        match self.page(place / 512) {
            Some(page) => Some(page.words(place % 512, n)),
            None => None,
        }
    }

    /// Makes a page its own, with the shared words. At want of memory nothing changes.
    pub fn open(&mut self, alloc: Global, shared: &[u64], page: usize) -> Result<(), NoMemory>
        requires { page < 65536 }
        ensures words { word_over (sheet_in self.new) (word_at shared.now)
            ≡ word_over (sheet_in self.old) (word_at shared.now) }
        ensures own { has_page (sheet_in self.new)
            ≡ (if is_ok result then put page true (has_page (sheet_in self.old)) else has_page (sheet_in self.old)) }
    {
        if self.has(page) {
            return Ok(());
        }
        let copy = Page::copy_of(alloc, shared, page)?;
        reach(&mut self.pages, page)?;
        self.pages[page] = Some(copy);
        Ok(())
    }

    /// Puts another word in a place of a page of its own.
    pub fn set(&mut self, place: usize, w: u64)
        requires { has_page (sheet_in self.old) (place / 512) ≡ true }
        ensures words { (below : ℕ → ℕ) → word_over (sheet_in self.new) below
            ≡ put place w (word_over (sheet_in self.old) below) }
        ensures own { has_page (sheet_in self.new) ≡ has_page (sheet_in self.old) }
    {
        match &mut self.pages[place / 512] {
            Some(page) => page.set(place % 512, w),
            None => unreachable!(),
        }
    }

    /// Puts other words in the two places from an even one on, of a page of its own. Both lie in it.
    pub fn set_two(&mut self, place: usize, first: u64, second: u64)
        requires has { has_page (sheet_in self.old) (place / 512) ≡ true }
        requires even { place % 2 ≡ 0 }
        ensures words { (below : ℕ → ℕ) → word_over (sheet_in self.new) below
            ≡ put (place + 1) second (put place first (word_over (sheet_in self.old) below)) }
        ensures own { has_page (sheet_in self.new) ≡ has_page (sheet_in self.old) }
    {
        match &mut self.pages[place / 512] {
            Some(page) => page.set_two(place % 512, first, second),
            None => unreachable!(),
        }
    }

    /// Puts other words in the places from one on, of a page of its own.
    fn set_words(&mut self, place: usize, words: &[u64])
        requires has { has_page (sheet_in self.old) (place / 512) ≡ true }
        requires page { place % 512 + length words.now ≤ 512 }
        ensures words { (below : ℕ → ℕ) → word_over (sheet_in self.new) below
            ≡ over place (length words.now) (λ p. word_at words.now (p - place)) (word_over (sheet_in self.old) below) }
        ensures own { has_page (sheet_in self.new) ≡ has_page (sheet_in self.old) }
    {
        match &mut self.pages[place / 512] {
            Some(page) => page.set_words(place % 512, words),
            None => unreachable!(),
        }
    }

    /// Copies shared words from a place on, which lie in one page, into the page of its own, if there is one.
    fn restore_part(&mut self, shared: &[u64], place: usize, n: usize)
        requires within { place + n ≤ length shared.now }
        requires page { place % 512 + n ≤ 512 }
        ensures words { word_over (sheet_in self.new) (word_at shared.now)
            ≡ over place n (word_at shared.now) (word_over (sheet_in self.old) (word_at shared.now)) }
        ensures own { has_page (sheet_in self.new) ≡ has_page (sheet_in self.old) }
    {
        if self.has(place / 512) {
            self.set_words(place, &shared[place..place + n]);
        }
    }

    /// Copies the shared words of a span into the pages of its own.
    pub fn restore(&mut self, shared: &[u64], place: usize, n: usize)
        requires { place + n ≤ length shared.now }
        ensures words { word_over (sheet_in self.new) (word_at shared.now)
            ≡ over place n (word_at shared.now) (word_over (sheet_in self.old) (word_at shared.now)) }
        ensures own { has_page (sheet_in self.new) ≡ has_page (sheet_in self.old) }
    {
        let mut done = 0;
        'parts: while done < n {
            let size = in_page(place + done, n - done);
            self.restore_part(shared, place + done, size);
            done += size;
        }
    }

    /// Copies words from a place on, which lie in one page, of the page of its own, if there is one, into the shared
    /// words.
    fn share_part(&self, shared: &mut Vec<u64>, place: usize, n: usize)
        requires within { place + n ≤ length shared.old.items }
        requires page { place % 512 + n ≤ 512 }
        ensures words { word_at shared.new.items
            ≡ over place n (word_over (sheet_in self.now) (word_at shared.old.items)) (word_at shared.old.items) }
        ensures length { length shared.new.items ≡ length shared.old.items }
    {
        if let Some(page) = self.page(place / 512) {
            copy_to(shared, place, page.words(place % 512, n));
        }
    }

    /// Copies the words of a span, over the shared words, into these.
    pub fn share(&self, shared: &mut Vec<u64>, place: usize, n: usize)
        requires { place + n ≤ length shared.old.items }
        ensures words { word_at shared.new.items
            ≡ over place n (word_over (sheet_in self.now) (word_at shared.old.items)) (word_at shared.old.items) }
        ensures length { length shared.new.items ≡ length shared.old.items }
    {
        let mut done = 0;
        'parts: while done < n {
            let size = in_page(place + done, n - done);
            self.share_part(shared, place + done, size);
            done += size;
        }
    }
}
