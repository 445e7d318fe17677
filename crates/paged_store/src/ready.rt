//! Making words ready to be written: what can fail of a write comes first.
ghost use Rattle.std.specs.Prelude.{◌≡◌, ℕ, ◌+◌, ◌/◌, ◌<◌, ◌≤◌, ◌^◌, true, length, vec_capacity, IsTrue, OnOk, OnErr};
ghost use Rattle.page_table.specs.Lists.{table_of, IsRun};
ghost use Rattle.paged_store.specs.Words.{Words, in_span};
ghost use Rattle.paged_store.specs.inner.Writing.{desk, Refused, Readied, OwnSpan, Opened, Spanned, with_notes, NotedSome};

use crate::draft::Draft;
use crate::extent::{Note, Span};
use page_table::Pages;
use py_data::NoMemory;

/// Makes the pages of a span a segment's own, one by one. No word changes.
#[cold]
#[inline(never)]
fn open_pages(pages: &mut Pages, k: u8, place: u32, n: u32) -> Result<(), NoMemory>
    requires segment { k < (table_of pages.old).segments }
    requires span { place + n ≤ (table_of pages.old).reserved }
    ensures same { Opened (table_of pages.old) (table_of pages.new) }
    ensures own { OnOk result (OwnSpan k place n (table_of pages.new)) }
{
    pages.known();
    if n == 0 {
        return Ok(());
    }
    let last = (place + (n - 1)) / 512;
    'pages: for page in place / 512..last + 1 {
        pages.open_page(k, page)?;
    }
    Ok(())
}

/// Makes the pages of a span a segment's own. No word changes. Where it lies in one that is so already, that is a look.
pub(crate) fn open_span(pages: &mut Pages, k: u8, place: u32, n: u32) -> Result<(), NoMemory>
    requires segment { k < (table_of pages.old).segments }
    requires span { place + n ≤ (table_of pages.old).reserved }
    ensures same { Opened (table_of pages.old) (table_of pages.new) }
    ensures own { OnOk result (OwnSpan k place n (table_of pages.new)) }
{
    if pages.own_run(k, place, n).is_some() {
        return Ok(());
    }
    open_pages(pages, k, place, n)?;
    Ok(())
}

/// Whether the last of spans is this one.
fn is_last(spans: &[Span], place: u32, words: u32) -> bool
    ensures { IsTrue result → Spanned place words spans.now spans.now }
{
    if let Some(last) = spans.last() {
        if last.place == place && last.words == words {
            return true;
        }
    }
    false
}

/// Adds a span, for which there is room, where it isn't the last already.
fn put_span(spans: &mut Vec<Span>, place: u32, words: u32)
    requires { length spans.old.items < vec_capacity spans.old }
    ensures { Spanned place words spans.old.items spans.new.items }
{
    if !is_last(spans, place, words) {
        spans.push_reserved(Span { place, words });
    }
}

/// Adds a span, where it isn't the last already.
fn add_span(spans: &mut Vec<Span>, place: u32, words: u32) -> Result<(), NoMemory>
    ensures ok { OnOk result (Spanned place words spans.old.items spans.new.items) }
    ensures err { OnErr result (spans.new.items ≡ spans.old.items) }
{
    spans.reserve(1)?;
    put_span(spans, place, words);
    Ok(())
}

/// Notes the words of a segment in a span.
fn add_notes(
    pages: &Pages,
    notes: &mut Vec<Note>,
    k: u8,
    place: u32,
    n: u32,
) -> Result<(), NoMemory>
    requires segment { k < (table_of pages.now).segments }
    requires span { place + n ≤ (table_of pages.now).reserved }
    ensures ok { OnOk result (notes.new.items ≡ with_notes ((table_of pages.now).word k) place n notes.old.items) }
    ensures err { OnErr result (NotedSome ((table_of pages.now).word k) place n notes.old.items notes.new.items) }
{
    pages.known();
    'words: for j in 0..n {
        let word = pages.word(k, place + j);
        notes.push(Note {
            place: place + j,
            word,
        })?;
    }
    Ok(())
}

/// Notes the words of a span, which are these. There is room for the notes.
fn note_run(notes: &mut Vec<Note>, place: u32, n: u32, words: &[u64])
    requires length { length words.now ≡ n }
    requires small { place + n < 2 ^ 32 }
    requires room { length notes.old.items + n ≤ vec_capacity notes.old }
    ensures { (w : Words) → IsRun w place n words.now → notes.new.items ≡ with_notes w place n notes.old.items }
{
    'run: for j in 0..n {
        notes.push_reserved(Note {
            place: place + j,
            word: words[j as usize],
        });
    }
}

/// Whether there is room for a span more, and for so many notes.
fn has_room(draft: &Draft, n: u32) -> bool
    ensures spans { IsTrue result → length draft.now.spans.items < vec_capacity draft.now.spans }
    ensures notes { IsTrue result → length draft.now.notes.items + n ≤ vec_capacity draft.now.notes }
{
    draft.spans.len() < draft.spans.capacity()
        && n as usize <= draft.notes.capacity() - draft.notes.len()
}

/// Makes the words of a span ready to be written, where a page may not be the segment's own yet, or memory is wanted.
#[cold]
#[inline(never)]
fn ready_pages(
    pages: &mut Pages,
    draft: &mut Draft,
    k: u8,
    place: u32,
    n: u32,
) -> Result<(), NoMemory>
    requires segment { k < (table_of pages.old).segments }
    requires span { place + n ≤ (table_of pages.old).reserved }
    ensures ok { OnOk result (Readied k (in_span place n) (desk pages.old draft.old) (desk pages.new draft.new)) }
    ensures err { OnErr result (Refused k (in_span place n) (desk pages.old draft.old) (desk pages.new draft.new)) }
{
    open_pages(pages, k, place, n)?;
    add_span(&mut draft.spans, place, n)?;
    add_notes(pages, &mut draft.notes, k, place, n)?;
    Ok(())
}

/// Makes the words of a span ready to be written: their pages are the segment's own, what stands there is noted, and
/// the span counts as written. No word changes. Mostly the span lies in one page that is the segment's own already,
/// which is found once, and there is room for what is added.
pub(crate) fn ready(
    pages: &mut Pages,
    draft: &mut Draft,
    k: u8,
    place: u32,
    n: u32,
) -> Result<(), NoMemory>
    requires segment { k < (table_of pages.old).segments }
    requires span { place + n ≤ (table_of pages.old).reserved }
    ensures ok { OnOk result (Readied k (in_span place n) (desk pages.old draft.old) (desk pages.new draft.new)) }
    ensures err { OnErr result (Refused k (in_span place n) (desk pages.old draft.old) (desk pages.new draft.new)) }
{
    pages.known();
    if has_room(draft, n) {
        if let Some(words) = pages.own_run(k, place, n) {
            put_span(&mut draft.spans, place, n);
            note_run(&mut draft.notes, place, n, words);
            return Ok(());
        }
    }
    ready_pages(pages, draft, k, place, n)?;
    Ok(())
}
