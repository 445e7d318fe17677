//! Pairs that are entered in the index of a dictionary.
ghost use Rattle.std.specs.Prelude.{◌≡◌, ◌+◌, ◌<◌};
ghost use Rattle.page_table.specs.Lists.{table_of};
ghost use Rattle.dict_index.specs.Index.{IsIndex, IsBlank};
ghost use Rattle.paged_store.specs.Words.{index_by, index_size};
ghost use Rattle.paged_store.specs.inner.Indexed.{home_by, index_words, pairs_by, IsIndexed};
ghost use Rattle.paged_store.specs.inner.Indexing.{words_from, CanIndex, Puts};

use crate::hash::home;
use crate::index::{empty_slot, slots};
use crate::sight::{Seen, len, val};
use page_table::Pages;

/// Enters the pair of that number, the first that isn't in the index.
fn enter(pages: &mut Pages, k: u8, d: u32, place: u32, n: usize, m: usize)
    requires can { CanIndex k d place n (table_of pages.old) }
    requires index { let w = (table_of pages.old).word k in IsIndex (home_by w d) n (words_from w place) m }
    requires pair { m < pairs_by ((table_of pages.old).word k) d }
    ensures puts { Puts k place n (table_of pages.old) (table_of pages.new) }
    ensures index { let w = (table_of pages.old).word k in
        IsIndex (home_by w d) n (words_from ((table_of pages.new).word k) place) (m + 1) }
{
    pages.known();
    let seen = Seen::Segment(k);
    let start = home(pages, seen, val(pages, seen, d, 2 * m), n);
    let s = empty_slot(pages, seen, place, n, start);
    pages.write_word(k, place + s as u32, m as u64 + 1);
}

/// Enters all pairs of a dictionary, whose index is empty.
pub(crate) fn fill_index(pages: &mut Pages, k: u8, d: u32)
    requires can { let w = (table_of pages.old).word k in
        CanIndex k d (index_by w d) (index_size w d) (table_of pages.old) }
    requires blank { let w = (table_of pages.old).word k in IsBlank (index_size w d) (index_words w d) }
    ensures puts { let w = (table_of pages.old).word k in
        Puts k (index_by w d) (index_size w d) (table_of pages.old) (table_of pages.new) }
    ensures index { IsIndexed ((table_of pages.new).word k) d }
{
    pages.known();
    let seen = Seen::Segment(k);
    let first = pages.word(k, 2 * d);
    let (place, n) = slots(pages, seen, d, first);
    let count = len(pages, seen, d) / 2;
    'pairs: for m in 0..count {
        enter(pages, k, d, place, n, m);
    }
}
