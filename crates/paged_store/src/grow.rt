//! A record that grows: its body, and a Dict's index, stand in larger extents.
ghost use Rattle.std.specs.Prelude.{◌≡◌, ◌+◌, ◌*◌, ◌<◌, ◌≤◌, [], ◌∷◌, length, IfOk, IfErr, OnOk, OnErr};
ghost use Rattle.page_table.specs.Pages.{limit};
ghost use Rattle.page_table.specs.Lists.{table_of};
ghost use Rattle.seg_store.specs.Extents.{words_in};
ghost use Rattle.paged_store.specs.Words.{size_of, count_by, body_by, body_size};
ghost use Rattle.paged_store.specs.inner.Claiming.{Denies, RisesBy};
ghost use Rattle.paged_store.specs.inner.Growing.{grown_with, grown_class, grown_index, MayGrow, KeepsBody, CanGrow, GrowsInto, Grew, Ungrown};
ghost use Rattle.paged_store.specs.inner.Sight.{Stands};
ghost use Rattle.paged_store.specs.inner.Written.{next_index};
ghost use Rattle.paged_store.specs.inner.Writing.{desk, with_words};

use crate::draft::Draft;
use crate::put::{clear_words, copy_words, put_head, put_values};
use crate::ready::ready;
use crate::take::take;
use crate::value::Header;
use crate::write::body_place;
use page_table::Pages;
use py_data::{Kind, Value};
use seg_store::StoreFault;

/// The words of an extent of a class, where class 0 is none.
#[tactic(auto, unfolding(crate::specs::Words::size_of))]
pub(crate) fn size_of(class: u8) -> u32
    requires { class ≤ 21 }
    ensures { result ≡ size_of class }
{
    if class == 0 { 0 } else { 1u32 << class }
}

impl Header {
    /// The header of a record once its body has grown by a class: a Dict's index grows with it.
    pub(crate) fn next(&self) -> Header
        requires class { self.now.class < 255 }
        requires index { self.now.index < 255 }
        ensures kind { result.kind ≡ self.now.kind }
        ensures class { result.class ≡ self.now.class + 1 }
        ensures index { result.index ≡ next_index self.now.kind self.now.index }
        ensures first { result.first ≡ self.now.first }
    {
        let index = match self.kind {
            Kind::Dict => self.index + 1,
            _ => 0,
        };
        Header {
            kind: self.kind,
            class: self.class + 1,
            index,
            first: self.first,
        }
    }
}

/// How many words the values of a record take.
fn value_words(pages: &Pages, k: u8, a: u32) -> u32
    requires segment { k < (table_of pages.now).segments }
    requires stands { Stands ((table_of pages.now).word k) (table_of pages.now).reserved a }
    requires count { 2 * count_by ((table_of pages.now).word k) a ≤ body_size ((table_of pages.now).word k) a }
    ensures { result ≡ 2 * count_by ((table_of pages.now).word k) a }
{
    pages.known();
    2 * pages.word(k, 2 * a + 1) as u32
}

/// Where the values of a record stand, which take so many words. Where there are none it is any place.
fn values_place(pages: &Pages, k: u8, a: u32, words: u32) -> u32
    requires segment { k < (table_of pages.now).segments }
    requires stands { Stands ((table_of pages.now).word k) (table_of pages.now).reserved a }
    requires count { words ≤ body_size ((table_of pages.now).word k) a }
    ensures place { 0 < words → result ≡ body_by ((table_of pages.now).word k) a }
    ensures within { result + words ≤ (table_of pages.now).reserved }
{
    if words == 0 {
        0
    } else {
        body_place(pages, k, a)
    }
}

/// Copies the values of a record into a body of the next class, which stands at `body`, makes a Dict's index, which
/// stands at `index`, empty, and adds values at its end. Where the record has no index, `index` is no place.
fn write_grown(pages: &mut Pages, k: u8, a: u32, body: u32, index: u32, vs: &[Value])
    requires segment { k < (table_of pages.old).segments }
    requires can { CanGrow k a body index (length vs.now) (table_of pages.old) }
    ensures { table_of pages.new ≡ with_words k (grown_with ((table_of pages.old).word k) a body index vs.now)
        (table_of pages.old) }
{
    pages.known();
    let next = Header::of(pages.word(k, 2 * a)).next();
    let words = value_words(pages, k, a);
    let from = values_place(pages, k, a, words);
    copy_words(pages, k, from, body, words);
    clear_words(pages, k, index, size_of(next.index));
    put_head(pages, k, a, next.word(), body, index);
    put_values(pages, k, body + words, vs);
    pages.write_word(k, 2 * a + 1, u64::from(words / 2) + vs.len() as u64);
}

/// Makes the header of a record that grows ready, and takes the extents that it then has, for which it answers the
/// places: of its body, and of a Dict's index. Or it takes none.
fn take_grown(pages: &mut Pages, draft: &mut Draft, k: u8, a: u32) -> Result<(u32, u32), StoreFault>
    requires segment { k < (table_of pages.old).segments }
    requires grows { MayGrow ((table_of pages.old).word k) (table_of pages.old).reserved a 0 }
    requires keeps { KeepsBody (table_of pages.old) ((table_of pages.old).word k) a }
    ensures ok { IfOk result (λ at. GrowsInto k a at.0 at.1 (desk pages.old draft.old) (desk pages.new draft.new)) }
    ensures err { OnErr result (Ungrown k a (desk pages.old draft.old) (desk pages.new draft.new)) }
    ensures cause { IfErr result (let w = (table_of pages.old).word k in
        Denies (grown_class w a ∷ grown_index w a ∷ 0 ∷ []) (table_of pages.old) (table_of pages.new)) }
    ensures rises { let w = (table_of pages.old).word k in
        RisesBy (grown_class w a ∷ grown_index w a ∷ 0 ∷ []) (table_of pages.old) (table_of pages.new) }
{
    pages.known();
    let next = Header::of(pages.word(k, 2 * a)).next();
    ready(pages, draft, k, 2 * a, 4)?;
    let (body, index, _) = take(pages, draft, k, next.class, next.index, 0)?;
    Ok((body, index))
}

/// A record grows, and has so many values at its end besides; or no word changes, and no extent is taken.
pub(crate) fn grow(
    pages: &mut Pages,
    draft: &mut Draft,
    k: u8,
    a: u32,
    vs: &[Value],
) -> Result<(), StoreFault>
    requires segment { k < (table_of pages.old).segments }
    requires grows { MayGrow ((table_of pages.old).word k) (table_of pages.old).reserved a (length vs.now) }
    requires keeps { KeepsBody (table_of pages.old) ((table_of pages.old).word k) a }
    ensures ok { OnOk result (Grew k a vs.now (desk pages.old draft.old) (desk pages.new draft.new)) }
    ensures err { OnErr result (Ungrown k a (desk pages.old draft.old) (desk pages.new draft.new)) }
    ensures cause { IfErr result (let w = (table_of pages.old).word k in
        Denies (grown_class w a ∷ grown_index w a ∷ 0 ∷ []) (table_of pages.old) (table_of pages.new)) }
    ensures rises { let w = (table_of pages.old).word k in
        RisesBy (grown_class w a ∷ grown_index w a ∷ 0 ∷ []) (table_of pages.old) (table_of pages.new) }
    ensures most { (table_of pages.new).reserved ≤ limit (table_of pages.new) }
    ensures filled { (table_of pages.new).reserved ≡ 2 + words_in (λ c. ((table_of pages.new).shelf c).total) }
{
    match take_grown(pages, draft, k, a) {
        Ok((body, index)) => {
            write_grown(pages, k, a, body, index, vs);
            pages.known();
            Ok(())
        }
        Err(e) => {
            pages.known();
            Err(e)
        }
    }
}
