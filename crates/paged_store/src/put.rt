//! Words of a segment that are put into places which are ready for them. It can't fail.
ghost use Rattle.std.specs.Prelude.{◌≡◌, ℕ, ◌+◌, ◌*◌, ◌/◌, ◌%◌, ◌<◌, ◌≤◌, ◌^◌, false, length};
ghost use Rattle.page_table.specs.Lists.{table_of};
ghost use Rattle.paged_store.specs.Words.{in_span};
ghost use Rattle.dict_index.specs.Packed.{packed};
ghost use Rattle.paged_store.specs.inner.Written.{put_word, put_value, copied};
ghost use Rattle.paged_store.specs.inner.Writing.{CanPut, with_words, laid, cleared, put_values, headed};

use crate::value::{payload, tag};
use page_table::Pages;
use py_data::Value;

/// Puts a value into the two words from an even place on.
pub(crate) fn put_value(pages: &mut Pages, k: u8, place: u32, v: Value)
    requires segment { k < (table_of pages.old).segments }
    requires even { place % 2 ≡ 0 }
    requires may { CanPut k place 2 (table_of pages.old) }
    ensures { table_of pages.new ≡ with_words k (put_value place v ((table_of pages.old).word k)) (table_of pages.old) }
{
    pages.known();
    pages.write_two(k, place, tag(v), payload(v));
}

/// Puts values into the words from a place on, which is even where there are any.
pub(crate) fn put_values(pages: &mut Pages, k: u8, place: u32, vs: &[Value])
    requires segment { k < (table_of pages.old).segments }
    requires even { 0 < length vs.now → place % 2 ≡ 0 }
    requires may { CanPut k place (2 * length vs.now) (table_of pages.old) }
    ensures { table_of pages.new
        ≡ with_words k (put_values place vs.now ((table_of pages.old).word k)) (table_of pages.old) }
{
    pages.known();
    let mut next = place;
    'values: for v in vs {
        put_value(pages, k, next, *v);
        next += 2;
    }
}

/// Copies words to a place, the first one first.
pub(crate) fn copy_words(pages: &mut Pages, k: u8, from: u32, to: u32, n: u32)
    requires segment { k < (table_of pages.old).segments }
    requires there { from + n ≤ (table_of pages.old).reserved }
    requires may { CanPut k to n (table_of pages.old) }
    requires clear { (j : ℕ) → j < n → in_span to j (from + j) ≡ false }
    ensures { table_of pages.new ≡ with_words k (copied from to n ((table_of pages.old).word k)) (table_of pages.old) }
{
    pages.known();
    'words: for j in 0..n {
        let word = pages.word(k, from + j);
        pages.write_word(k, to + j, word);
    }
}

/// Makes the words of a span 0.
pub(crate) fn clear_words(pages: &mut Pages, k: u8, place: u32, n: u32)
    requires segment { k < (table_of pages.old).segments }
    requires may { CanPut k place n (table_of pages.old) }
    ensures { table_of pages.new ≡ with_words k (cleared place n ((table_of pages.old).word k)) (table_of pages.old) }
{
    pages.known();
    'words: for j in 0..n {
        pages.write_word(k, place + j, 0);
    }
}

/// The word of that number, from 0, of those that bytes are packed into: 8 of them, or fewer at their end, the lowest
/// first.
fn packed_word(bytes: &[u8], j: usize) -> u64
    requires { 8 * j ≤ length bytes.now }
    ensures { result ≡ packed bytes.now j }
{
    let from = 8 * j;
    let end = bytes.len().min(from + 8);
    let mut word = 0u64;
    let mut i = end;
    'bytes: while i > from {
        i -= 1;
        word = 256 * word + u64::from(bytes[i]);
    }
    word
}

/// Packs bytes into the words from a place on.
pub(crate) fn put_bytes(pages: &mut Pages, k: u8, place: u32, bytes: &[u8])
    requires segment { k < (table_of pages.old).segments }
    requires may { CanPut k place ((length bytes.now + 7) / 8) (table_of pages.old) }
    ensures { let words = laid place ((length bytes.now + 7) / 8) (packed bytes.now) ((table_of pages.old).word k) in
        table_of pages.new ≡ with_words k words (table_of pages.old) }
{
    pages.known();
    let n = (bytes.len() + 7) / 8;
    'words: for j in 0..n {
        let word = packed_word(bytes, j);
        pages.write_word(k, place + j as u32, word);
    }
}

/// Puts the header of a record, but for its count: its first word, and the places of its body and its index.
pub(crate) fn put_head(pages: &mut Pages, k: u8, a: u32, first: u64, body: u32, index: u32)
    requires segment { k < (table_of pages.old).segments }
    requires may { CanPut k (2 * a) 4 (table_of pages.old) }
    ensures { table_of pages.new
        ≡ with_words k (headed a first body index ((table_of pages.old).word k)) (table_of pages.old) }
{
    pages.known();
    pages.write_two(k, 2 * a + 2, u64::from(body), u64::from(index));
    pages.write_word(k, 2 * a, first);
}

/// Puts the header of a record: its first word, its count, and the places of its body and its index.
pub(crate) fn put_header(
    pages: &mut Pages,
    k: u8,
    a: u32,
    first: u64,
    count: u64,
    body: u32,
    index: u32,
)
    requires segment { k < (table_of pages.old).segments }
    requires may { CanPut k (2 * a) 4 (table_of pages.old) }
    ensures { let w = put_word (2 * a + 1) count ((table_of pages.old).word k) in
        table_of pages.new ≡ with_words k (headed a first body index w) (table_of pages.old) }
{
    pages.known();
    pages.write_two(k, 2 * a, first, count);
    pages.write_two(k, 2 * a + 2, u64::from(body), u64::from(index));
}
