//! The pair of a dictionary in words with an equal key.
ghost use Rattle.std.specs.Prelude.{◌≡◌, ℕ, ◌+◌, ◌*◌, ◌/◌, ◌^◌, ◌<◌, ◌≤◌, eqb, length, Some, true, IfSome, MatchBool};
ghost use Rattle.py_base.specs.declared.kind.Kind.TheVariants.{Dict};
ghost use Rattle.py_data.specs.declared.value.Value.TheVariants.{Ref};
ghost use Rattle.py_data.specs.Heap.{Heap, value_at};
ghost use Rattle.py_data.specs.Shape.{find, same_key, same_bytes, same_text, text_in, ArePairs, KeysDiffer};
ghost use Rattle.page_table.specs.Lists.{table_of, word_at};
ghost use Rattle.paged_store.specs.Words.{body_by, index_by, index_size};
ghost use Rattle.paged_store.specs.inner.Indexed.{IsIndexed};
ghost use Rattle.paged_store.specs.inner.Sight.{words_seen, record_seen, IsSeen, CanRead, SameWords, OtherWords, IsText, IsKeySeen, KeysSeen, KnowsKeys, heap_seen};

use crate::hash::home;
use crate::index::slots;
use crate::sight::{Seen, head_words, layout, run, two_words, value, word, word_in};
use crate::value::{known_value, payload, tag};
use dict_index::slots::next;
use page_table::Pages;
use py_data::{Addr, Kind, Value};

/// Whether the first `n` words from two places on are the same.
fn same_words(pages: &Pages, seen: Seen, x: usize, y: usize, n: usize) -> bool
    requires segment { IsSeen (table_of pages.now) seen }
    requires first { 0 < n → x + n ≤ (table_of pages.now).reserved }
    requires second { 0 < n → y + n ≤ (table_of pages.now).reserved }
    ensures { let w = words_seen (table_of pages.now) seen in
        MatchBool result (SameWords w x y n) (OtherWords w x y n) }
{
    pages.known();
    let first = run(pages, seen, x, n);
    let second = run(pages, seen, y, n);
    'words: for j in 0..n {
        if word_in(pages, seen, first, x, j) != word_in(pages, seen, second, y, j) {
            return false;
        }
    }
    true
}

/// Whether the strings at two addresses, of `n` and of `m` bytes from `x` and from `y` on, have the same bytes. What
/// stands behind the last byte of each isn't compared.
fn same_bytes(
    pages: &Pages,
    seen: Seen,
    a: u32,
    b: u32,
    x: usize,
    y: usize,
    n: usize,
    m: usize,
) -> bool
    requires first { IsText (table_of pages.now) seen a x n }
    requires second { IsText (table_of pages.now) seen b y m }
    ensures { result
        ≡ same_bytes (record_seen (table_of pages.now) seen a).bytes (record_seen (table_of pages.now) seen b).bytes }
{
    pages.known();
    if n != m {
        return false;
    }
    let whole = n / 8;
    if !same_words(pages, seen, x, y, whole) {
        return false;
    }
    if n % 8 == 0 {
        return true;
    }
    let last = word(pages, seen, (x + whole) as u32).to_le_bytes();
    let other = word(pages, seen, (y + whole) as u32).to_le_bytes();
    last[..n % 8] == other[..n % 8]
}

/// Whether two addresses are equal as keys.
fn same_address(pages: &Pages, seen: Seen, a: u32, b: u32) -> bool
    requires first { CanRead (table_of pages.now) seen a }
    requires second { CanRead (table_of pages.now) seen b }
    ensures { result
        ≡ same_text (eqb a b) (text_in (Some (record_seen (table_of pages.now) seen a)))
        (text_in (Some (record_seen (table_of pages.now) seen b))) }
{
    if a == b {
        return true;
    }
    let (kind, n, x) = layout(pages, seen, a);
    let (other, m, y) = layout(pages, seen, b);
    match (kind, other) {
        (Kind::Str, Kind::Str) => same_bytes(pages, seen, a, b, x, y, n, m),
        _ => false,
    }
}

/// Whether two keys are equal.
fn same(pages: &Pages, seen: Seen, x: Value, y: Value) -> bool
    requires first { IsKeySeen (table_of pages.now) seen x }
    requires second { IsKeySeen (table_of pages.now) seen y }
    ensures { result ≡ same_key (heap_seen (table_of pages.now) seen) x y }
{
    match (x, y) {
        (Value::Int(i), Value::Int(j)) => i == j,
        (Value::Int(i), Value::Bool(b)) => i == b as i64,
        (Value::Bool(b), Value::Int(j)) => b as i64 == j,
        (Value::Bool(b), Value::Bool(c)) => b as i64 == c as i64,
        (Value::None, Value::None) => true,
        (Value::Builtin(i), Value::Builtin(j)) => i == j,
        (Value::Ref(a), Value::Ref(b)) => same_address(pages, seen, a.0, b.0),
        _ => false,
    }
}

/// The most pairs of a dictionary whose keys are looked through before one is hashed.
const FEW: usize = 8;

/// The number, from 0, of one of the pairs in a list of words whose key has these two.
fn pair_in_words(words: &[u64], pairs: usize, first: u64, second: u64) -> Option<usize>
    requires { length words.now ≡ 4 * pairs }
    ensures { IfSome result (λ i. (i < pairs) × (word_at words.now (4 * i) ≡ first)
        × (word_at words.now (4 * i + 1) ≡ second)) }
{
    'pairs: for i in 0..pairs {
        if words[4 * i] == first && words[4 * i + 1] == second {
            return Some(i);
        }
    }
    None
}

/// The number, from 0, of a pair of a dictionary whose key is the record at an address, where the pairs are few and one
/// is. Where their words lie in one page, that is found once.
fn pair_of_record(
    pages: &Pages,
    seen: Seen,
    d: u32,
    body: usize,
    pairs: usize,
    a: Addr,
) -> Option<usize>
    requires there { CanRead (table_of pages.now) seen d }
    requires body { body ≡ body_by (words_seen (table_of pages.now) seen) d }
    requires pairs { pairs ≡ length (record_seen (table_of pages.now) seen d).values / 2 }
    ensures { let xs = (record_seen (table_of pages.now) seen d).values in
        IfSome result (λ i. (i < length xs / 2) × (value_at xs (2 * i) ≡ Ref a)) }
{
    pages.known();
    if pairs > FEW {
        return None;
    }
    let key = Value::Ref(a);
    let (first, second) = (tag(key), payload(key));
    known_value(key);
    if let Some(words) = run(pages, seen, body, 4 * pairs) {
        return pair_in_words(words, pairs, first, second);
    }
    'pairs: for i in 0..pairs {
        let (x, y) = two_words(pages, seen, (body + 4 * i) as u32);
        if x == first && y == second {
            return Some(i);
        }
    }
    None
}

/// The same for a key, which may be another value.
fn pair_by_record(
    pages: &Pages,
    seen: Seen,
    d: u32,
    body: usize,
    pairs: usize,
    key: Value,
) -> Option<usize>
    requires there { CanRead (table_of pages.now) seen d }
    requires body { body ≡ body_by (words_seen (table_of pages.now) seen) d }
    requires pairs { pairs ≡ length (record_seen (table_of pages.now) seen d).values / 2 }
    ensures { let xs = (record_seen (table_of pages.now) seen d).values in IfSome result (λ i. (i < length xs / 2)
        × (same_key (heap_seen (table_of pages.now) seen) (value_at xs (2 * i)) key ≡ true)) }
{
    match key {
        Value::Ref(a) => pair_of_record(pages, seen, d, body, pairs, a),
        _ => None,
    }
}

/// The number, from 0, of the pair whose key is equal. Where there are no pairs, or few, of which one has this very
/// record as its key, that is seen at once. Else it goes through the slots of the index, from the key's home to an
/// empty one.
pub fn find_key(pages: &Pages, seen: Seen, d: u32, key: Value) -> Option<usize>
    requires there { CanRead (table_of pages.now) seen d }
    requires kind { (record_seen (table_of pages.now) seen d).kind ≡ Dict }
    requires keys { KeysSeen (table_of pages.now) seen (record_seen (table_of pages.now) seen d).values }
    requires key { IsKeySeen (table_of pages.now) seen key }
    requires extent { let w = words_seen (table_of pages.now) seen in
        index_by w d + index_size w d ≤ (table_of pages.now).reserved }
    requires index { IsIndexed (words_seen (table_of pages.now) seen) d }
    requires pairs { ArePairs (heap_seen (table_of pages.now) seen) (record_seen (table_of pages.now) seen d).values }
    requires differ { KeysDiffer (heap_seen (table_of pages.now) seen)
        (record_seen (table_of pages.now) seen d).values }
    ensures found { result ≡ find (heap_seen (table_of pages.now) seen)
        (record_seen (table_of pages.now) seen d).values key }
    ensures within { IfSome result (λ i. 2 * i + 1 < length (record_seen (table_of pages.now) seen d).values) }
    ensures heap { (h : Heap)
        → KnowsKeys h (words_seen (table_of pages.now) seen) (record_seen (table_of pages.now) seen d).values key
        → result ≡ find h (record_seen (table_of pages.now) seen d).values key }
{
    pages.known();
    let (first, count, body) = head_words(pages, seen, d);
    let (pairs, body) = (count as usize / 2, body as usize);
    if pairs == 0 {
        return None;
    }
    if let Some(pair) = pair_by_record(pages, seen, d, body, pairs, key) {
        return Some(pair);
    }
    let (place, n) = slots(pages, seen, d, first);
    let start = home(pages, seen, key, n);
    let mut at = start;
    'slots: for j in 0..n {
        let word = word(pages, seen, place + at as u32);
        if word == 0 {
            return None;
        }
        let pair = word as usize - 1;
        if same(
            pages,
            seen,
            value(pages, seen, (body + 4 * pair) as u32),
            key,
        ) {
            return Some(pair);
        }
        at = next(at, n);
    }
    None
}
