//! The index of a dictionary as it is read.
ghost use Rattle.std.specs.Prelude.{◌≡◌, ℕ, ◌+◌, ◌*◌, ◌<◌, ◌≤◌, ◌^◌, length};
ghost use Rattle.py_base.specs.declared.kind.Kind.TheVariants.{Dict};
ghost use Rattle.py_data.specs.declared.value.Value.{Value};
ghost use Rattle.page_table.specs.Lists.{table_of};
ghost use Rattle.dict_index.specs.Slots.{used};
ghost use Rattle.dict_index.specs.Index.{FirstEmpty};
ghost use Rattle.paged_store.specs.Words.{index_by, index_size};
ghost use Rattle.paged_store.specs.inner.Indexed.{index_words, pairs_by};
ghost use Rattle.paged_store.specs.inner.Indexing.{words_from, FreeSlot};
ghost use Rattle.paged_store.specs.inner.Sight.{words_seen, record_seen, IsSeen, CanRead, IsKeySeen};

use crate::grow::size_of;
use crate::hash::home;
use crate::sight::{Seen, word};
use crate::value::Header;
use dict_index::slots::next;
use page_table::Pages;
use py_data::Value;

/// Where the index of a dictionary begins, and how many slots it has, by the first word of its header.
pub(crate) fn slots(pages: &Pages, seen: Seen, d: u32, first: u64) -> (u32, usize)
    requires there { CanRead (table_of pages.now) seen d }
    requires kind { (record_seen (table_of pages.now) seen d).kind ≡ Dict }
    requires first { first ≡ words_seen (table_of pages.now) seen (2 * d) }
    requires extent { let w = words_seen (table_of pages.now) seen in
        index_by w d + index_size w d ≤ (table_of pages.now).reserved }
    ensures place { result.0 ≡ index_by (words_seen (table_of pages.now) seen) d }
    ensures size { result.1 ≡ index_size (words_seen (table_of pages.now) seen) d }
    ensures within { result.0 + result.1 ≤ (table_of pages.now).reserved }
    ensures room { pairs_by (words_seen (table_of pages.now) seen) d < result.1 }
    ensures most { result.1 ≤ 2 ^ 20 }
{
    pages.known();
    let place = word(pages, seen, 2 * d + 3) as u32;
    let size = size_of(Header::of(first).index);
    (place, size as usize)
}

/// The first empty slot from a slot on, of `n` from a place on.
pub(crate) fn empty_slot(pages: &Pages, seen: Seen, place: u32, n: usize, start: usize) -> usize
    requires segment { IsSeen (table_of pages.now) seen }
    requires span { place + n ≤ (table_of pages.now).reserved }
    requires within { start < n }
    requires room { used n (words_from (words_seen (table_of pages.now) seen) place) < n }
    ensures within { result < n }
    ensures first { FirstEmpty n (words_from (words_seen (table_of pages.now) seen) place) start result }
{
    pages.known();
    let mut at = start;
    'slots: for d in 0..n {
        if word(pages, seen, place + at as u32) == 0 {
            return at;
        }
        at = next(at, n);
    }
    unreachable!()
}

/// The place of the slot into which a new pair with that key may be entered.
pub(crate) fn free_slot(pages: &Pages, seen: Seen, d: u32, key: Value) -> u32
    requires there { CanRead (table_of pages.now) seen d }
    requires kind { (record_seen (table_of pages.now) seen d).kind ≡ Dict }
    requires extent { let w = words_seen (table_of pages.now) seen in
        index_by w d + index_size w d ≤ (table_of pages.now).reserved }
    requires key { IsKeySeen (table_of pages.now) seen key }
    requires room { let w = words_seen (table_of pages.now) seen in
        used (index_size w d) (index_words w d) < index_size w d }
    ensures { FreeSlot (words_seen (table_of pages.now) seen) d key result }
{
    pages.known();
    let first = word(pages, seen, 2 * d);
    let (place, n) = slots(pages, seen, d, first);
    let start = home(pages, seen, key, n);
    place + empty_slot(pages, seen, place, n, start) as u32
}
