//! Hashes of keys, and their homes in an index.
ghost use Rattle.std.specs.Prelude.{◌≡◌, ◌+◌, ◌*◌, ◌/◌, ◌^◌, ◌<◌, ◌≤◌, Some, IfSome};
ghost use Rattle.py_data.specs.Shape.{text_in};
ghost use Rattle.page_table.specs.Lists.{table_of, IsRun};
ghost use Rattle.dict_index.specs.Packed.{packed};
ghost use Rattle.dict_index.specs.Keys.{text_or_name, hash_text, hash_of, home_of};
ghost use Rattle.paged_store.specs.inner.Sight.{words_seen, record_seen, CanRead, IsText, IsKeySeen};
ghost use Rattle.paged_store.specs.inner.Indexed.{class_by};

use crate::sight::{Seen, layout, run, word_in};
use dict_index::hash::{BUILT, NAMED, hash_int, hash_length, mix};
use dict_index::slots::home_from;
use page_table::Pages;
use py_data::{Kind, Value};

/// The word of that number, from 0, of a string of `n` bytes that begins at `x`. What stands behind its bytes is left
/// out.
fn text_word(
    pages: &Pages,
    seen: Seen,
    a: u32,
    x: usize,
    n: usize,
    words: Option<&[u64]>,
    j: usize,
) -> u64
    requires text { IsText (table_of pages.now) seen a x n }
    requires within { 8 * j < n }
    requires words { IfSome words (λ s. IsRun (words_seen (table_of pages.now) seen) x ((n + 7) / 8) s.now) }
    ensures { result ≡ packed (record_seen (table_of pages.now) seen a).bytes j }
{
    pages.known();
    let word = word_in(pages, seen, words, x, j);
    let left = n - 8 * j;
    if left < 8 {
        word % (1u64 << (8 * left))
    } else {
        word
    }
}

/// The hash of a string of `n` bytes that begins at `x`.
fn text_hash(pages: &Pages, seen: Seen, a: u32, x: usize, n: usize) -> u64
    requires { IsText (table_of pages.now) seen a x n }
    ensures { result ≡ hash_text (record_seen (table_of pages.now) seen a).bytes }
{
    pages.known();
    let mut hash = hash_length(n);
    let count = (n + 7) / 8;
    let words = run(pages, seen, x, count);
    'words: for j in 0..count {
        hash = mix(hash, text_word(pages, seen, a, x, n, words, j));
    }
    hash
}

/// The hash of an address as a key: of a string it is that of its bytes.
#[tactic(auto, unfolding(dict_index::specs::Keys::hash_of))]
fn address_hash(pages: &Pages, seen: Seen, a: u32) -> u64
    requires { CanRead (table_of pages.now) seen a }
    ensures { result ≡ hash_of (text_or_name a (text_in (Some (record_seen (table_of pages.now) seen a)))) }
{
    let (kind, n, x) = layout(pages, seen, a);
    match kind {
        Kind::Str => text_hash(pages, seen, a, x, n),
        _ => mix(NAMED, u64::from(a)),
    }
}

/// The hash of what a key has in common with those that are equal to it.
#[tactic(auto, unfolding(dict_index::specs::Keys::hash_of))]
pub(crate) fn class_hash(pages: &Pages, seen: Seen, key: Value) -> u64
    requires { IsKeySeen (table_of pages.now) seen key }
    ensures { result ≡ hash_of (class_by (words_seen (table_of pages.now) seen) key) }
{
    match key {
        Value::Unset => 0,
        Value::None => 3,
        Value::Bool(b) => hash_int(b as i64),
        Value::Int(i) => hash_int(i),
        Value::Ref(a) => address_hash(pages, seen, a.0),
        Value::Builtin(b) => mix(BUILT, u64::from(b)),
    }
}

/// The slot, of `n`, from which a key is looked for.
#[tactic(auto, unfolding(dict_index::specs::Keys::home_of))]
pub(crate) fn home(pages: &Pages, seen: Seen, key: Value, n: usize) -> usize
    requires key { IsKeySeen (table_of pages.now) seen key }
    requires some { 0 < n }
    requires few { n ≤ 2 ^ 21 }
    ensures value { result ≡ home_of n (class_by (words_seen (table_of pages.now) seen) key) }
    ensures within { result < n }
{
    home_from(class_hash(pages, seen, key), n)
}
