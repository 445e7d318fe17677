//! A page of a segment's own.
ghost use Rattle.std.specs.Prelude.{◌≡◌, ℕ, ◌+◌, ◌-◌, ◌*◌, ◌%◌, ◌<◌, ◌≤◌, length, IfOk, min, slice_range};
ghost use Rattle.page_table.specs.Pages.{put, over};
ghost use Rattle.page_table.specs.Lists.{word_at};

use py_data::NoMemory;
use std::alloc::Global;
use std::marker::Model;

/// Copies words over those from a place on.
pub fn copy_to(to: &mut [u64], at: usize, from: &[u64])
    requires { at + length from.now ≤ length to.old }
    ensures words { word_at to.new ≡ over at (length from.now) (λ p. word_at from.now (p - at)) (word_at to.old) }
    ensures length { length to.new ≡ length to.old }
{
    to[at..at + from.len()].copy_from_slice(from);
}

/// 512 words.
#[derive(Drop)]
pub struct Page {
    words: Box<[u64; 512]>,
}

impl Model for Page {
    ghost use Rattle.std.specs.Prelude.{ℕ, List, ◌≡◌, length};

    ghost Value = { List ℕ };

    ghost view = { λ p. p.words.value };

    ghost invariant = { λ p. length p.words.value ≡ 512 };
}

impl Page {
    /// A copy of the words of a page, where those past the end are 0.
    pub fn copy_of(alloc: Global, words: &[u64], page: usize) -> Result<Page, NoMemory>
        requires { page < 65536 }
        ensures words { IfOk result (λ p. (i : ℕ) → i < 512 → word_at p i ≡ word_at words.now (512 * page + i)) }
    {
        let start = (512 * page).min(words.len());
        let end = (512 * page + 512).min(words.len());
        let mut copy = Box::new(alloc, [0; 512])?;
        copy_to(&mut copy[..], 0, &words[start..end]);
        Ok(Page { words: copy })
    }

    /// The word at a place of the page.
    #[tactic(auto, unfolding(crate::specs::Lists::word_at))]
    pub fn get(&self, i: usize) -> u64
        requires { i < 512 }
        ensures { result ≡ word_at self.now i }
    {
        self.words[i]
    }

    /// The words from a place of the page on.
    pub fn words(&self, i: usize, n: usize) -> &[u64]
        requires { i + n ≤ 512 }
        ensures words { result.now ≡ slice_range self.now i (i + n) }
        ensures length { length result.now ≡ n }
    {
        &self.words[i..i + n]
    }

    /// Puts another word in a place.
    pub fn set(&mut self, i: usize, w: u64)
        requires { i < 512 }
        ensures { word_at self.new ≡ put i w (word_at self.old) }
    {
        self.words[i] = w;
    }

    /// Puts other words in two places, one behind the other.
    pub fn set_two(&mut self, i: usize, first: u64, second: u64)
        requires { i + 1 < 512 }
        ensures { word_at self.new ≡ put (i + 1) second (put i first (word_at self.old)) }
    {
        self.set(i, first);
        self.set(i + 1, second);
    }

    /// Puts other words in the places from one on.
    pub fn set_words(&mut self, i: usize, words: &[u64])
        requires { i + length words.now ≤ 512 }
        ensures { word_at self.new ≡ over i (length words.now) (λ p. word_at words.now (p - i)) (word_at self.old) }
    {
        copy_to(&mut self.words[..], i, words);
    }
}
