//! Changes of a record of a segment's. What can fail comes first: the words are made ready, and then they are put.
ghost use Rattle.std.specs.Prelude.{◌≡◌, ℕ, ◌+◌, ◌-◌, ◌*◌, ◌/◌, ◌<◌, ◌≤◌, ◌^◌, true, false, length, OnOk, OnErr};
ghost use Rattle.page_table.specs.Lists.{table_of};
ghost use Rattle.py_base.specs.declared.kind.Kind.TheVariants.{Dict};
ghost use Rattle.dict_index.specs.Slots.{used};
ghost use Rattle.paged_store.specs.Words.{in_span, decode, count_by, body_by, body_size, index_by, index_size};
ghost use Rattle.paged_store.specs.inner.Indexed.{index_words, IsIndexed};
ghost use Rattle.paged_store.specs.inner.Indexing.{AddsPair, RefusesPair, HasSlots, DropsIndexed, leave_places};
ghost use Rattle.paged_store.specs.declared.sight.Seen.TheVariants.{Segment};
ghost use Rattle.paged_store.specs.inner.Sight.{Stands, IsKeySeen};
ghost use Rattle.paged_store.specs.inner.Written.{set_words};
ghost use Rattle.paged_store.specs.inner.Writing.{desk, Wrote, Refused, Readied, with_count, set_places, push_places, cut_places, pushed_words, cut_words};

use crate::draft::Draft;
use crate::index::{free_slot, slots};
use crate::leave::leave_index;
use crate::put::{copy_words, put_value, put_values};
use crate::ready::ready;
use crate::sight::Seen;
use page_table::Pages;
use py_data::{NoMemory, Value};

/// Where the body of a record stands, which it has.
pub(crate) fn body_place(pages: &Pages, k: u8, a: u32) -> u32
    requires segment { k < (table_of pages.now).segments }
    requires stands { Stands ((table_of pages.now).word k) (table_of pages.now).reserved a }
    requires some { 0 < body_size ((table_of pages.now).word k) a }
    ensures { result ≡ body_by ((table_of pages.now).word k) a }
{
    pages.known();
    pages.word(k, 2 * a + 2) as u32
}

/// Makes the word of a record's count ready, and the words of a span.
fn ready_with_count(
    pages: &mut Pages,
    draft: &mut Draft,
    k: u8,
    a: u32,
    place: u32,
    n: u32,
) -> Result<(), NoMemory>
    requires segment { k < (table_of pages.old).segments }
    requires head { 2 * a + 4 ≤ (table_of pages.old).reserved }
    requires span { place + n ≤ (table_of pages.old).reserved }
    ensures ok { OnOk result (
        Readied k (with_count a place n) (desk pages.old draft.old) (desk pages.new draft.new)) }
    ensures err { OnErr result (
        Refused k (with_count a place n) (desk pages.old draft.old) (desk pages.new draft.new)) }
{
    pages.known();
    ready(pages, draft, k, place, n)?;
    ready(pages, draft, k, 2 * a + 1, 1)?;
    Ok(())
}

/// Puts another value in a place of a record.
pub(crate) fn set_value(
    pages: &mut Pages,
    draft: &mut Draft,
    k: u8,
    a: u32,
    i: u32,
    v: Value,
) -> Result<(), NoMemory>
    requires segment { k < (table_of pages.old).segments }
    requires stands { Stands ((table_of pages.old).word k) (table_of pages.old).reserved a }
    requires within { 2 * i + 1 < body_size ((table_of pages.old).word k) a }
    ensures ok { OnOk result (let w = (table_of pages.old).word k in
        Wrote k (set_words w a i v) (set_places w a i) (desk pages.old draft.old) (desk pages.new draft.new)) }
    ensures err { OnErr result (let w = (table_of pages.old).word k in
        Refused k (set_places w a i) (desk pages.old draft.old) (desk pages.new draft.new)) }
{
    pages.known();
    let place = body_place(pages, k, a) + 2 * i;
    ready(pages, draft, k, place, 2)?;
    put_value(pages, k, place, v);
    Ok(())
}

/// Adds values, one or more, at the end of a record whose body has room for them.
pub(crate) fn push_values(
    pages: &mut Pages,
    draft: &mut Draft,
    k: u8,
    a: u32,
    vs: &[Value],
) -> Result<(), NoMemory>
    requires segment { k < (table_of pages.old).segments }
    requires stands { Stands ((table_of pages.old).word k) (table_of pages.old).reserved a }
    requires some { 0 < length vs.now }
    requires room { let w = (table_of pages.old).word k in
        2 * (count_by w a + length vs.now) ≤ body_size w a }
    ensures ok { OnOk result (let w = (table_of pages.old).word k in
        Wrote k (pushed_words w a vs.now) (push_places w a (length vs.now))
        (desk pages.old draft.old) (desk pages.new draft.new)) }
    ensures err { OnErr result (let w = (table_of pages.old).word k in
        Refused k (push_places w a (length vs.now)) (desk pages.old draft.old) (desk pages.new draft.new)) }
{
    pages.known();
    let count = pages.word(k, 2 * a + 1) as u32;
    let place = body_place(pages, k, a) + 2 * count;
    let more = vs.len() as u32;
    ready_with_count(pages, draft, k, a, place, 2 * more)?;
    put_values(pages, k, place, vs);
    pages.write_word(k, 2 * a + 1, u64::from(count + more));
    Ok(())
}

/// Adds a pair at the end of a Dict whose body has room for it, and enters it in the index.
pub(crate) fn push_pair(
    pages: &mut Pages,
    draft: &mut Draft,
    k: u8,
    d: u32,
    key: Value,
    v: Value,
) -> Result<(), NoMemory>
    requires segment { k < (table_of pages.old).segments }
    requires stands { Stands ((table_of pages.old).word k) (table_of pages.old).reserved d }
    requires kind { (decode ((table_of pages.old).word k) d).kind ≡ Dict }
    requires extent { let w = (table_of pages.old).word k in
        index_by w d + index_size w d ≤ (table_of pages.old).reserved }
    requires key { IsKeySeen (table_of pages.old) (Segment k) key }
    requires room { let w = (table_of pages.old).word k in 2 * (count_by w d + 2) ≤ body_size w d }
    requires free { let w = (table_of pages.old).word k in
        used (index_size w d) (index_words w d) < index_size w d }
    ensures ok { OnOk result (AddsPair k d key v (desk pages.old draft.old) (desk pages.new draft.new)) }
    ensures err { OnErr result (RefusesPair k d key (desk pages.old draft.old) (desk pages.new draft.new)) }
{
    pages.known();
    let count = pages.word(k, 2 * d + 1) as u32;
    let place = body_place(pages, k, d) + 2 * count;
    let slot = free_slot(pages, Seen::Segment(k), d, key);
    ready_with_count(pages, draft, k, d, place, 4)?;
    ready(pages, draft, k, slot, 1)?;
    put_values(pages, k, place, &[key, v]);
    pages.write_word(k, 2 * d + 1, u64::from(count + 2));
    pages.write_word(k, slot, u64::from(count / 2 + 1));
    Ok(())
}

/// Leaves the first `n` values of a record.
pub(crate) fn cut(
    pages: &mut Pages,
    draft: &mut Draft,
    k: u8,
    a: u32,
    n: u32,
) -> Result<(), NoMemory>
    requires segment { k < (table_of pages.old).segments }
    requires head { 2 * a + 4 ≤ (table_of pages.old).reserved }
    ensures ok { OnOk result (let w = (table_of pages.old).word k in
        Wrote k (cut_words w a n) (cut_places a) (desk pages.old draft.old) (desk pages.new draft.new)) }
    ensures err { OnErr result (Refused k (cut_places a) (desk pages.old draft.old) (desk pages.new draft.new)) }
{
    pages.known();
    ready(pages, draft, k, 2 * a + 1, 1)?;
    pages.write_word(k, 2 * a + 1, u64::from(n));
    Ok(())
}

/// Drops the pair of that number, from 0, of a Dict, in its index too; those behind close the gap.
pub(crate) fn drop_pair(
    pages: &mut Pages,
    draft: &mut Draft,
    k: u8,
    d: u32,
    place: u32,
) -> Result<(), NoMemory>
    requires segment { k < (table_of pages.old).segments }
    requires stands { Stands ((table_of pages.old).word k) (table_of pages.old).reserved d }
    requires body { 2 * count_by ((table_of pages.old).word k) d ≤ body_size ((table_of pages.old).word k) d }
    requires within { 2 * place + 2 ≤ count_by ((table_of pages.old).word k) d }
    requires slots { let w = (table_of pages.old).word k in
        HasSlots k d (index_by w d) (index_size w d) (table_of pages.old) }
    requires index { IsIndexed ((table_of pages.old).word k) d }
    ensures ok { OnOk result (DropsIndexed k d place (desk pages.old draft.old) (desk pages.new draft.new)) }
    ensures err { OnErr result (let w = (table_of pages.old).word k in
        Refused k (leave_places w d place) (desk pages.old draft.old) (desk pages.new draft.new)) }
{
    pages.known();
    let first = pages.word(k, 2 * d);
    let (index, n) = slots(pages, Seen::Segment(k), d, first);
    let count = pages.word(k, 2 * d + 1) as u32 - 2;
    let to = body_place(pages, k, d) + 4 * place;
    let moved = 2 * count - 4 * place;
    ready_with_count(pages, draft, k, d, to, moved)?;
    ready(pages, draft, k, index, n as u32)?;
    leave_index(pages, k, d, place as usize);
    copy_words(pages, k, to + 4, to, moved);
    pages.write_word(k, 2 * d + 1, u64::from(count));
    Ok(())
}
