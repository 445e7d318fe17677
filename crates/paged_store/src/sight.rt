//! Records as they are read in words: in those of the image, or in a segment's.
ghost use Rattle.std.specs.Prelude.{◌≡◌, ℕ, ◌+◌, ◌-◌, ◌*◌, ◌%◌, ◌<◌, ◌≤◌, length, take, drop, slice_index, IfSome};
ghost use Rattle.py_data.specs.declared.value.Value.TheVariants.{Unset};
ghost use Rattle.py_data.specs.Heap.{length_of, value_at};
ghost use Rattle.py_data.specs.Looking.{head_of};
ghost use Rattle.page_table.specs.Lists.{table_of, word_at, IsRun};
ghost use Rattle.paged_store.specs.Words.{value_of, kind_by, class_in, index_class_in, first_in, count_by, body_by, room_in};
ghost use Rattle.paged_store.specs.inner.Sight.{words_seen, record_seen, IsSeen, CanRead};

use crate::value::{Header, value_at};
use page_table::Pages;
use py_data::{Head, Kind, Value};

/// Whose words are read: the image's, or those of the segment of that number.
#[derive(Clone, Copy, Debug, Drop)]
pub enum Seen {
    Image,
    Segment(u8),
}

/// The word at a place.
pub fn word(pages: &Pages, seen: Seen, place: u32) -> u64
    requires segment { IsSeen (table_of pages.now) seen }
    requires place { place < (table_of pages.now).reserved }
    ensures { result ≡ words_seen (table_of pages.now) seen place }
{
    match seen {
        Seen::Image => pages.shared_word(place),
        Seen::Segment(k) => pages.word(k, place),
    }
}

/// The two words from an even place on, which lie in one page.
pub(crate) fn two_words(pages: &Pages, seen: Seen, place: u32) -> (u64, u64)
    requires segment { IsSeen (table_of pages.now) seen }
    requires span { place + 1 < (table_of pages.now).reserved }
    requires even { place % 2 ≡ 0 }
    ensures first { result.0 ≡ words_seen (table_of pages.now) seen place }
    ensures second { result.1 ≡ words_seen (table_of pages.now) seen (place + 1) }
{
    match seen {
        Seen::Image => (pages.shared_word(place), pages.shared_word(place + 1)),
        Seen::Segment(k) => pages.two_words(k, place),
    }
}

/// The words from a place on, where they are several of a segment's and lie in one page.
pub(crate) fn run(pages: &Pages, seen: Seen, place: usize, n: usize) -> Option<&[u64]>
    requires segment { IsSeen (table_of pages.now) seen }
    requires span { 0 < n → place + n ≤ (table_of pages.now).reserved }
    ensures { IfSome result (λ s. IsRun (words_seen (table_of pages.now) seen) place n s.now) }
{
    pages.known();
    match seen {
        Seen::Segment(k) if n > 1 => pages.run(k, place as u32, n as u32),
        _ => None,
    }
}

/// A word behind a place, out of the words from there on where they lie in one page.
#[tactic(auto, unfolding(page_table::specs::Lists::word_at))]
pub(crate) fn word_in(
    pages: &Pages,
    seen: Seen,
    words: Option<&[u64]>,
    place: usize,
    j: usize,
) -> u64
    requires segment { IsSeen (table_of pages.now) seen }
    requires place { place + j < (table_of pages.now).reserved }
    requires words { IfSome words (λ s. (j < length s.now)
        × (word_at s.now j ≡ words_seen (table_of pages.now) seen (place + j))) }
    ensures { result ≡ words_seen (table_of pages.now) seen (place + j) }
{
    pages.known();
    match words {
        Some(words) => words[j],
        None => word(pages, seen, (place + j) as u32),
    }
}

/// The value whose first word is at an even place, as those of every body are.
pub fn value(pages: &Pages, seen: Seen, place: u32) -> Value
    requires segment { IsSeen (table_of pages.now) seen }
    requires span { place + 2 ≤ (table_of pages.now).reserved }
    requires even { place % 2 ≡ 0 }
    ensures { let w = words_seen (table_of pages.now) seen in result ≡ value_of (w place) (w (place + 1)) }
{
    let (tag, payload) = two_words(pages, seen, place);
    value_at(tag, payload)
}

/// What the first word of a record's header tells.
pub(crate) fn header(pages: &Pages, seen: Seen, a: u32) -> Header
    requires { CanRead (table_of pages.now) seen a }
    ensures kind { result.kind ≡ kind_by (words_seen (table_of pages.now) seen) a }
    ensures class { result.class ≡ class_in (words_seen (table_of pages.now) seen (2 * a)) }
    ensures index { result.index ≡ index_class_in (words_seen (table_of pages.now) seen (2 * a)) }
    ensures first { result.first ≡ first_in (words_seen (table_of pages.now) seen (2 * a)) }
{
    pages.known();
    Header::of(word(pages, seen, 2 * a))
}

/// Where its body begins, if it has one.
pub fn body(pages: &Pages, seen: Seen, a: u32) -> usize
    requires { CanRead (table_of pages.now) seen a }
    ensures { result ≡ body_by (words_seen (table_of pages.now) seen) a }
{
    pages.known();
    word(pages, seen, 2 * a + 2) as usize
}

/// The kind of the record at an address.
pub fn kind(pages: &Pages, seen: Seen, a: u32) -> Kind
    requires { CanRead (table_of pages.now) seen a }
    ensures { result ≡ (record_seen (table_of pages.now) seen a).kind }
{
    header(pages, seen, a).kind
}

/// The count of its values; of a Str that of its bytes.
pub fn len(pages: &Pages, seen: Seen, a: u32) -> usize
    requires { CanRead (table_of pages.now) seen a }
    ensures { result ≡ length_of (record_seen (table_of pages.now) seen a) }
{
    pages.known();
    word(pages, seen, 2 * a + 1) as usize
}

/// Its value at a place, from 0.
pub fn val(pages: &Pages, seen: Seen, a: u32, i: usize) -> Value
    requires there { CanRead (table_of pages.now) seen a }
    requires place { i < length (record_seen (table_of pages.now) seen a).values }
    ensures { result ≡ value_at (record_seen (table_of pages.now) seen a).values i }
{
    pages.known();
    value(pages, seen, (body(pages, seen, a) + 2 * i) as u32)
}

/// The first three words of a record's header: its kind and classes, its count, and where its body begins.
pub(crate) fn head_words(pages: &Pages, seen: Seen, a: u32) -> (u64, u64, u64)
    requires { CanRead (table_of pages.now) seen a }
    ensures first { result.0 ≡ words_seen (table_of pages.now) seen (2 * a) }
    ensures count { result.1 ≡ count_by (words_seen (table_of pages.now) seen) a }
    ensures body { result.2 ≡ body_by (words_seen (table_of pages.now) seen) a }
{
    pages.known();
    match seen {
        Seen::Image => (
            pages.shared_word(2 * a),
            pages.shared_word(2 * a + 1),
            pages.shared_word(2 * a + 2),
        ),
        Seen::Segment(k) => pages.three_words(k, 2 * a),
    }
}

/// Its kind, its count, which is of a Str that of its bytes, and where its body begins, if it has one. The header is
/// read once.
pub(crate) fn layout(pages: &Pages, seen: Seen, a: u32) -> (Kind, usize, usize)
    requires { CanRead (table_of pages.now) seen a }
    ensures kind { result.0 ≡ (record_seen (table_of pages.now) seen a).kind }
    ensures count { result.1 ≡ length_of (record_seen (table_of pages.now) seen a) }
    ensures body { result.2 ≡ body_by (words_seen (table_of pages.now) seen) a }
{
    let (first, count, body) = head_words(pages, seen, a);
    (Header::of(first).kind, count as usize, body as usize)
}

/// The same with how many values it has, of which a Str has none.
fn outline(pages: &Pages, seen: Seen, a: u32) -> (Kind, usize, usize)
    requires { CanRead (table_of pages.now) seen a }
    ensures kind { result.0 ≡ (record_seen (table_of pages.now) seen a).kind }
    ensures count { result.1 ≡ length (record_seen (table_of pages.now) seen a).values }
    ensures body { result.2 ≡ body_by (words_seen (table_of pages.now) seen) a }
{
    let (kind, count, body) = layout(pages, seen, a);
    match kind {
        Kind::Str => (kind, 0, body),
        _ => (kind, count, body),
    }
}

/// The value at a place of a body that has `count`; Unset where it has none there.
fn value_in(pages: &Pages, seen: Seen, body: usize, count: usize, i: usize) -> Value
    requires segment { IsSeen (table_of pages.now) seen }
    requires span { i < count → body + 2 * i + 2 ≤ (table_of pages.now).reserved }
    requires even { i < count → body % 2 ≡ 0 }
    ensures there { let w = words_seen (table_of pages.now) seen in
        i < count → result ≡ value_of (w (body + 2 * i)) (w (body + 2 * i + 1)) }
    ensures none { count ≤ i → result ≡ Unset }
{
    pages.known();
    if i < count {
        value(pages, seen, (body + 2 * i) as u32)
    } else {
        Value::Unset
    }
}

/// Its kind, and its value at a place, from 0; Unset where it has none there.
pub fn find_val(pages: &Pages, seen: Seen, a: u32, i: usize) -> (Kind, Value)
    requires { CanRead (table_of pages.now) seen a }
    ensures kind { result.0 ≡ (record_seen (table_of pages.now) seen a).kind }
    ensures value { result.1 ≡ value_at (record_seen (table_of pages.now) seen a).values i }
{
    let (kind, count, body) = outline(pages, seen, a);
    (kind, value_in(pages, seen, body, count, i))
}

/// The first three values of a body; Unset for each that it hasn't. Where it has them and they lie in one page, that is
/// found once.
fn three_values(
    pages: &Pages,
    seen: Seen,
    a: u32,
    body: usize,
    count: usize,
) -> (Value, Value, Value)
    requires there { CanRead (table_of pages.now) seen a }
    requires count { count ≡ length (record_seen (table_of pages.now) seen a).values }
    requires body { body ≡ body_by (words_seen (table_of pages.now) seen) a }
    ensures first { result.0 ≡ value_at (record_seen (table_of pages.now) seen a).values 0 }
    ensures second { result.1 ≡ value_at (record_seen (table_of pages.now) seen a).values 1 }
    ensures third { result.2 ≡ value_at (record_seen (table_of pages.now) seen a).values 2 }
{
    pages.known();
    if count >= 3 {
        if let Some(w) = run(pages, seen, body, 6) {
            return (
                value_at(w[0], w[1]),
                value_at(w[2], w[3]),
                value_at(w[4], w[5]),
            );
        }
    }
    (
        value_in(pages, seen, body, count, 0),
        value_in(pages, seen, body, count, 1),
        value_in(pages, seen, body, count, 2),
    )
}

/// Its kind, the count of its values and the first three.
pub fn head(pages: &Pages, seen: Seen, a: u32) -> Head
    requires { CanRead (table_of pages.now) seen a }
    ensures { result ≡ head_of (record_seen (table_of pages.now) seen a) }
{
    let (kind, count, body) = outline(pages, seen, a);
    let (first, second, third) = three_values(pages, seen, a, body, count);
    Head {
        kind,
        count,
        first,
        second,
        third,
    }
}

/// The values that a body of a class has room for.
fn room(class: u8) -> usize
    requires { class ≤ 21 }
    ensures { result ≡ room_in class }
{
    if class == 0 { 0 } else { 1 << (class - 1) }
}

/// Its room, and the room that it had when it was made: 0 and 0 for a record that is no List and no Dict.
pub fn rooms(pages: &Pages, seen: Seen, a: u32) -> (usize, usize)
    requires { CanRead (table_of pages.now) seen a }
    ensures { let r = record_seen (table_of pages.now) seen a in result ≡ (r.room, r.first) }
{
    let header = header(pages, seen, a);
    match header.kind {
        Kind::List | Kind::Dict => (room(header.class), room(header.first)),
        _ => (0, 0),
    }
}

/// Its byte at a place, from 0.
pub fn byte(pages: &Pages, seen: Seen, a: u32, i: usize) -> u8
    requires there { CanRead (table_of pages.now) seen a }
    requires place { i < length (record_seen (table_of pages.now) seen a).bytes }
    ensures { result ≡ slice_index (record_seen (table_of pages.now) seen a).bytes i }
{
    pages.known();
    let bytes = word(pages, seen, (body(pages, seen, a) + i / 8) as u32).to_le_bytes();
    bytes[i % 8]
}

/// Copies as many of its bytes as `out` holds, from a place on. It reads each word once, and finds them at once
/// where they lie in one page with the words from the body's start on.
pub fn copy_bytes(pages: &Pages, seen: Seen, a: u32, from: usize, out: &mut [u8])
    requires there { CanRead (table_of pages.now) seen a }
    requires bytes { from + length out.old ≤ length (record_seen (table_of pages.now) seen a).bytes }
    ensures { out.new ≡ take (length out.old) (drop from (record_seen (table_of pages.now) seen a).bytes) }
{
    pages.known();
    let body = body(pages, seen, a);
    let words = run(pages, seen, body, (from + out.len() + 7) / 8);
    let mut done = 0;
    'words: while done < out.len() {
        let i = from + done;
        let bytes = word_in(pages, seen, words, body, i / 8).to_le_bytes();
        let n = (8 - i % 8).min(out.len() - done);
        out[done..done + n].copy_from_slice(&bytes[i % 8..i % 8 + n]);
        done += n;
    }
}
