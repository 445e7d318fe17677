//! Extents that a draft takes for a record.
ghost use Rattle.std.specs.Prelude.{◌≡◌, ◌+◌, ◌<◌, ◌≤◌, [], ◌∷◌, ◌++◌, length, vec_capacity, IfOk, IfErr, OnOk, OnErr};
ghost use Rattle.page_table.specs.Lists.{table_of};
ghost use Rattle.paged_store.specs.Words.{size_of};
ghost use Rattle.paged_store.specs.inner.Claiming.{extent_for, Denies, RisesBy};
ghost use Rattle.paged_store.specs.inner.Ending.{ExtentsLie, HaveClasses};
ghost use Rattle.paged_store.specs.inner.Taking.{OwnExtents, Takes};
ghost use Rattle.paged_store.specs.inner.Writing.{desk, Opened};

use crate::claim::claim;
use crate::draft::Draft;
use crate::extent::Extent;
use crate::ready::open_span;
use crate::spans::give_back_all;
use page_table::Pages;
use py_base::skip;
use py_data::NoMemory;
use seg_store::StoreFault;

/// Adds the extent of a class, or none of class 0. There is room for it.
fn add_extent(taken: &mut Vec<Extent>, class: u8, place: u32)
    requires { length taken.old.items < vec_capacity taken.old }
    ensures items { taken.new.items ≡ taken.old.items ++ extent_for class place }
    ensures capacity { vec_capacity taken.new ≡ vec_capacity taken.old }
{
    if class > 0 {
        taken.push_reserved(Extent { place, class });
    }
}

/// Adds the extents of three classes. There is room for them.
fn add_extents(taken: &mut Vec<Extent>, first: (u8, u32), second: (u8, u32), third: (u8, u32))
    requires { length taken.old.items + 3 ≤ vec_capacity taken.old }
    ensures { taken.new.items ≡ taken.old.items
        ++ (extent_for first.0 first.1 ++ extent_for second.0 second.1 ++ extent_for third.0 third.1) }
{
    add_extent(taken, first.0, first.1);
    add_extent(taken, second.0, second.1);
    add_extent(taken, third.0, third.1);
}

/// Makes the pages of extents a segment's own. No word changes.
fn open_extents(pages: &mut Pages, k: u8, extents: &[Extent]) -> Result<(), NoMemory>
    requires segment { k < (table_of pages.old).segments }
    requires lie { ExtentsLie (table_of pages.old).reserved extents.now }
    requires classes { HaveClasses extents.now }
    ensures same { Opened (table_of pages.old) (table_of pages.new) }
    ensures own { OnOk result (OwnExtents k extents.now (table_of pages.new)) }
{
    'extents: for extent in extents {
        open_span(pages, k, extent.place, extent.words())?;
    }
    Ok(())
}

/// Takes extents of three classes, for which it answers their places, or none of them. For class 0 no extent is
/// taken, and the place is any.
pub(crate) fn take(
    pages: &mut Pages,
    draft: &mut Draft,
    k: u8,
    first: u8,
    second: u8,
    third: u8,
) -> Result<(u32, u32, u32), StoreFault>
    requires segment { k < (table_of pages.old).segments }
    requires first { first ≤ 21 }
    requires second { second ≤ 21 }
    requires third { third ≤ 21 }
    ensures ok { IfOk result (λ p. Takes k (extent_for first p.0 ++ extent_for second p.1 ++ extent_for third p.2)
        (desk pages.old draft.old) (desk pages.new draft.new)) }
    ensures within { IfOk result (λ p. (p.0 + size_of first ≤ (table_of pages.new).reserved)
        × (p.1 + size_of second ≤ (table_of pages.new).reserved)
        × (p.2 + size_of third ≤ (table_of pages.new).reserved)) }
    ensures most { IfOk result (λ p. (table_of pages.new).reserved ≤ (table_of pages.old).reserved + size_of
        first + size_of second + size_of third) }
    ensures err { OnErr result (Takes k [] (desk pages.old draft.old) (desk pages.new draft.new)) }
    ensures cause { IfErr result (Denies (first ∷ second ∷ third ∷ []) (table_of pages.old) (table_of pages.new)) }
    ensures rises { RisesBy (first ∷ second ∷ third ∷ []) (table_of pages.old) (table_of pages.new) }
{
    pages.known();
    let before = draft.taken.len();
    draft.taken.reserve(3)?;
    let (one, two, three) = claim(pages, first, second, third)?;
    add_extents(
        &mut draft.taken,
        (first, one),
        (second, two),
        (third, three),
    );
    if open_extents(pages, k, skip(&draft.taken, before)).is_err() {
        give_back_all(pages, skip(&draft.taken, before));
        draft.taken.truncate(before);
        return Err(StoreFault::OutOfMemory);
    }
    Ok((one, two, three))
}
