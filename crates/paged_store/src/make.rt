//! A record that is made: its header, its body and its index stand in extents that are taken for it.
ghost use Rattle.std.specs.Prelude.{◌≡◌, ℕ, ◌+◌, ◌*◌, ◌<◌, ◌≤◌, [], ◌∷◌, length, IfOk, IfErr, OnErr};
ghost use Rattle.page_table.specs.Pages.{limit};
ghost use Rattle.page_table.specs.Lists.{table_of};
ghost use Rattle.seg_store.specs.Extents.{words_in};
ghost use Rattle.py_data.specs.Heap.{length_by};
ghost use Rattle.paged_store.specs.inner.Claiming.{Denies, RisesBy};
ghost use Rattle.paged_store.specs.inner.Making.{made_length, body_class, index_class, FitsBody, Places};
ghost use Rattle.paged_store.specs.inner.Taking.{Takes};
ghost use Rattle.paged_store.specs.inner.Writing.{desk};

use crate::draft::Draft;
use crate::fill::fill;
use crate::take::take;
use crate::value::Header;
use page_table::Pages;
use py_data::{Addr, Record};
use seg_store::StoreFault;

/// Takes extents for a record, writes it there, and counts it among those that the draft made. It answers its address,
/// which is half of its header's place. Or no word changes, and no extent is taken.
pub(crate) fn make(
    pages: &mut Pages,
    draft: &mut Draft,
    k: u8,
    header: Header,
    r: &Record,
) -> Result<Addr, StoreFault>
    requires segment { k < (table_of pages.old).segments }
    requires kind { header.kind ≡ r.now.kind }
    requires class { header.class ≡ body_class r.now }
    requires index { header.index ≡ index_class r.now }
    requires first { header.first ≡ body_class r.now }
    requires fits { FitsBody r.now }
    ensures ok { IfOk result (λ a. Places k a.0 r.now (desk pages.old draft.old) (desk pages.new draft.new)) }
    ensures err { OnErr result (Takes k [] (desk pages.old draft.old) (desk pages.new draft.new)) }
    ensures cause { IfErr result (Denies (2 ∷ body_class r.now ∷ index_class r.now ∷ []) (table_of pages.old)
        (table_of pages.new)) }
    ensures rises { RisesBy (2 ∷ body_class r.now ∷ index_class r.now ∷ []) (table_of pages.old) (table_of pages.new) }
    ensures within { (table_of pages.new).reserved ≤ limit (table_of pages.new) }
    ensures filled { (table_of pages.new).reserved ≡ 2 + words_in (λ c. ((table_of pages.new).shelf c).total) }
{
    pages.known();
    let before = draft.made.len();
    draft.made.push(Addr(0))?;
    match take(pages, draft, k, 2, header.class, header.index) {
        Ok((head, body, index)) => {
            let a = head / 2;
            draft.made.set(before, Addr(a));
            fill(pages, k, a, header, body, index, r);
            pages.known();
            Ok(Addr(a))
        }
        Err(e) => {
            draft.made.truncate(before);
            pages.known();
            Err(e)
        }
    }
}
