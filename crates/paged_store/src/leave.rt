//! Pairs that leave the index of a dictionary.
ghost use Rattle.std.specs.Prelude.{◌≡◌, ◌≢◌, ℕ, ◌+◌, ◌-◌, ◌<◌, ◌≤◌, ◌^◌};
ghost use Rattle.page_table.specs.Lists.{table_of};
ghost use Rattle.dict_index.specs.Slots.{slot};
ghost use Rattle.dict_index.specs.Index.{IsIndex, Stands};
ghost use Rattle.dict_index.specs.Leaving.{Closing, Gapped, lowered, skip};
ghost use Rattle.paged_store.specs.Words.{index_by, index_size};
ghost use Rattle.paged_store.specs.inner.Indexed.{home_by, index_words, pairs_by};
ghost use Rattle.paged_store.specs.inner.Indexing.{words_from, CanIndex, Puts};
ghost use Rattle.paged_store.specs.inner.Sight.{words_seen, IsSeen};
ghost use Rattle.paged_store.specs.inner.Writing.{CanPut};

use crate::hash::home;
use crate::index::slots;
use crate::sight::{Seen, val, word};
use dict_index::slots::{distance, next};
use page_table::Pages;

/// The slot of a pair's number, which stands behind no empty one from `start` on.
fn slot_of(pages: &Pages, seen: Seen, place: u32, n: usize, start: usize, pair: usize) -> usize
    requires segment { IsSeen (table_of pages.now) seen }
    requires span { place + n ≤ (table_of pages.now).reserved }
    requires start { start < n }
    requires pair { pair < 2 ^ 20 }
    requires there { (d : ℕ) × Stands n (words_from (words_seen (table_of pages.now) seen) place) start pair d }
    ensures within { result < n }
    ensures found { words_from (words_seen (table_of pages.now) seen) place result ≡ pair + 1 }
{
    pages.known();
    let mut at = start;
    'slots: for j in 0..n {
        if word(pages, seen, place + at as u32) == pair as u64 + 1 {
            return at;
        }
        at = next(at, n);
    }
    unreachable!()
}

/// Goes on over one slot: its word moves into the hole, where it may stand there. It answers where the hole is then.
fn pull(pages: &mut Pages, k: u8, d: u32, place: u32, n: usize, hole: usize, at: usize) -> usize
    requires can { CanIndex k d place n (table_of pages.old) }
    requires hole { hole < n }
    requires at { at < n }
    requires full { words_from ((table_of pages.old).word k) place at ≢ 0 }
    requires pair { let w = (table_of pages.old).word k in words_from w place at ≤ pairs_by w d }
    ensures within { result < n }
    ensures puts { Puts k place n (table_of pages.old) (table_of pages.new) }
    ensures closing { let w = (table_of pages.old).word k in (p start j : ℕ) → start < n → j < n → at ≡ slot n start j
        → Closing (home_by w d) n (words_from w place) (pairs_by w d) p start hole j
        → Closing (home_by w d) n (words_from ((table_of pages.new).word k) place) (pairs_by w d) p start result
        (j + 1) }
{
    pages.known();
    let seen = Seen::Segment(k);
    let word = word(pages, seen, place + at as u32);
    let from = home(pages, seen, val(pages, seen, d, 2 * (word as usize - 1)), n);
    if distance(n, from, at) < distance(n, hole, at) {
        hole
    } else {
        pages.write_word(k, place + hole as u32, word);
        at
    }
}

/// Takes the number of a pair out; words behind it move up, until the gap is at an empty slot.
fn close(pages: &mut Pages, k: u8, d: u32, place: u32, n: usize, pair: usize)
    requires can { CanIndex k d place n (table_of pages.old) }
    requires index { let w = (table_of pages.old).word k in
        IsIndex (home_by w d) n (words_from w place) (pairs_by w d) }
    requires pair { pair < pairs_by ((table_of pages.old).word k) d }
    ensures puts { Puts k place n (table_of pages.old) (table_of pages.new) }
    ensures gapped { let w = (table_of pages.old).word k in
        Gapped (home_by w d) n (words_from ((table_of pages.new).word k) place) (pairs_by w d) pair }
{
    pages.known();
    let seen = Seen::Segment(k);
    let start = home(pages, seen, val(pages, seen, d, 2 * pair), n);
    let first = slot_of(pages, seen, place, n, start, pair);
    let mut hole = first;
    let mut at = next(first, n);
    'slots: for j in 1..n {
        if word(pages, seen, place + at as u32) == 0 {
            pages.write_word(k, place + hole as u32, 0);
            return;
        }
        hole = pull(pages, k, d, place, n, hole, at);
        at = next(at, n);
    }
    unreachable!()
}

/// Numbers above a number fall by one.
fn lower(pages: &mut Pages, k: u8, place: u32, n: usize, above: u64)
    requires segment { k < (table_of pages.old).segments }
    requires may { CanPut k place n (table_of pages.old) }
    ensures puts { Puts k place n (table_of pages.old) (table_of pages.new) }
    ensures words { (s : ℕ) → s < n → words_from ((table_of pages.new).word k) place s
        ≡ lowered above (words_from ((table_of pages.old).word k) place s) }
{
    pages.known();
    'slots: for s in 0..n as u32 {
        let word = pages.word(k, place + s);
        if word > above {
            pages.write_word(k, place + s, word - 1);
        }
    }
}

/// Takes a pair out of the index of a dictionary; the numbers of later ones fall by one.
pub(crate) fn leave_index(pages: &mut Pages, k: u8, d: u32, pair: usize)
    requires can { let w = (table_of pages.old).word k in
        CanIndex k d (index_by w d) (index_size w d) (table_of pages.old) }
    requires index { let w = (table_of pages.old).word k in
        IsIndex (home_by w d) (index_size w d) (index_words w d) (pairs_by w d) }
    requires pair { pair < pairs_by ((table_of pages.old).word k) d }
    ensures puts { let w = (table_of pages.old).word k in
        Puts k (index_by w d) (index_size w d) (table_of pages.old) (table_of pages.new) }
    ensures index { let w = (table_of pages.old).word k in IsIndex (λ j. home_by w d (skip pair j)) (index_size w d)
        (words_from ((table_of pages.new).word k) (index_by w d)) (pairs_by w d - 1) }
{
    pages.known();
    let first = pages.word(k, 2 * d);
    let (place, n) = slots(pages, Seen::Segment(k), d, first);
    close(pages, k, d, place, n, pair);
    lower(pages, k, place, n, pair as u64 + 1);
}
