//! Extents that are claimed for a record before anything is written.
ghost use Rattle.std.specs.Prelude.{◌≡◌, ◌+◌, ◌<◌, ◌≤◌, [], ◌∷◌, ◌++◌, length, IfOk, IfErr, OnErr};
ghost use Rattle.page_table.specs.Pages.{Lies};
ghost use Rattle.page_table.specs.Lists.{table_of};
ghost use Rattle.paged_store.specs.Words.{size_of};
ghost use Rattle.paged_store.specs.inner.Claiming.{extent_for, Claims, Denies, RisesBy};
ghost use Rattle.paged_store.specs.inner.Ending.{ExtentsLie, HaveClasses, HaveRoom, GivenBack};

use page_table::Pages;
use seg_store::StoreFault;

/// Takes an extent of a class, or none of class 0, for which the place is 0.
fn claim_one(pages: &mut Pages, class: u8) -> Result<u32, StoreFault>
    requires { class ≤ 21 }
    ensures ok { IfOk result (λ p. Claims (extent_for class p) (table_of pages.old) (table_of pages.new)) }
    ensures within { IfOk result (λ p. p + size_of class ≤ (table_of pages.new).reserved) }
    ensures most { IfOk result (λ p. (table_of pages.new).reserved ≤ (table_of pages.old).reserved + size_of class) }
    ensures same { OnErr result (table_of pages.new ≡ table_of pages.old) }
    ensures cause { IfErr result (Denies (class ∷ []) (table_of pages.old) (table_of pages.new)) }
    ensures rises { RisesBy (class ∷ []) (table_of pages.old) (table_of pages.new) }
{
    pages.known();
    if class == 0 {
        Ok(0)
    } else {
        pages.reserve(class)
    }
}

/// Gives the extent of a class back, or none of class 0.
pub fn return_one(pages: &mut Pages, class: u8, place: u32)
    requires lie { ExtentsLie (table_of pages.old).reserved (extent_for class place) }
    requires classes { HaveClasses (extent_for class place) }
    requires room { HaveRoom (extent_for class place) (table_of pages.old) }
    ensures { GivenBack (extent_for class place) (table_of pages.old) (table_of pages.new) }
{
    if class > 0 {
        pages.give_back(place, class);
    }
}

/// Takes two extents, or none.
fn claim_two(pages: &mut Pages, first: u8, second: u8) -> Result<(u32, u32), StoreFault>
    requires first { first ≤ 21 }
    requires second { second ≤ 21 }
    ensures ok { IfOk result (λ p. Claims (extent_for first p.0 ++ extent_for second p.1) (table_of pages.old)
        (table_of pages.new)) }
    ensures within { IfOk result (λ p. (p.0 + size_of first ≤ (table_of pages.new).reserved)
        × (p.1 + size_of second ≤ (table_of pages.new).reserved)) }
    ensures most { IfOk result (λ p. (table_of pages.new).reserved ≤ (table_of pages.old).reserved + size_of
        first + size_of second) }
    ensures err { OnErr result (Claims [] (table_of pages.old) (table_of pages.new)) }
    ensures cause { IfErr result (Denies (first ∷ second ∷ []) (table_of pages.old) (table_of pages.new)) }
    ensures rises { RisesBy (first ∷ second ∷ []) (table_of pages.old) (table_of pages.new) }
{
    pages.known();
    let one = claim_one(pages, first)?;
    match claim_one(pages, second) {
        Ok(two) => Ok((one, two)),
        Err(e) => {
            return_one(pages, first, one);
            Err(e)
        }
    }
}

/// Takes extents of three classes one after another, or none.
#[inline(never)]
fn claim_each(
    pages: &mut Pages,
    first: u8,
    second: u8,
    third: u8,
) -> Result<(u32, u32, u32), StoreFault>
    requires first { first ≤ 21 }
    requires second { second ≤ 21 }
    requires third { third ≤ 21 }
    ensures ok { IfOk result (λ p. Claims (extent_for first p.0 ++ extent_for second p.1 ++ extent_for third p.2)
        (table_of pages.old) (table_of pages.new)) }
    ensures within { IfOk result (λ p. (p.0 + size_of first ≤ (table_of pages.new).reserved)
        × (p.1 + size_of second ≤ (table_of pages.new).reserved)
        × (p.2 + size_of third ≤ (table_of pages.new).reserved)) }
    ensures most { IfOk result (λ p. (table_of pages.new).reserved ≤ (table_of pages.old).reserved + size_of
        first + size_of second + size_of third) }
    ensures err { OnErr result (Claims [] (table_of pages.old) (table_of pages.new)) }
    ensures cause { IfErr result (Denies (first ∷ second ∷ third ∷ []) (table_of pages.old) (table_of pages.new)) }
    ensures rises { RisesBy (first ∷ second ∷ third ∷ []) (table_of pages.old) (table_of pages.new) }
{
    pages.known();
    let (one, two) = claim_two(pages, first, second)?;
    match claim_one(pages, third) {
        Ok(three) => Ok((one, two, three)),
        Err(e) => {
            return_one(pages, first, one);
            return_one(pages, second, two);
            Err(e)
        }
    }
}

/// Takes extents of three classes, for which it answers their places, or none. For class 0 no extent is taken, and
/// the place is any. Mostly all are new, and are taken at once.
pub fn claim(
    pages: &mut Pages,
    first: u8,
    second: u8,
    third: u8,
) -> Result<(u32, u32, u32), StoreFault>
    requires first { first ≤ 21 }
    requires second { second ≤ 21 }
    requires third { third ≤ 21 }
    ensures ok { IfOk result (λ p. Claims (extent_for first p.0 ++ extent_for second p.1 ++ extent_for third p.2)
        (table_of pages.old) (table_of pages.new)) }
    ensures within { IfOk result (λ p. (p.0 + size_of first ≤ (table_of pages.new).reserved)
        × (p.1 + size_of second ≤ (table_of pages.new).reserved)
        × (p.2 + size_of third ≤ (table_of pages.new).reserved)) }
    ensures most { IfOk result (λ p. (table_of pages.new).reserved ≤ (table_of pages.old).reserved + size_of
        first + size_of second + size_of third) }
    ensures err { OnErr result (Claims [] (table_of pages.old) (table_of pages.new)) }
    ensures cause { IfErr result (Denies (first ∷ second ∷ third ∷ []) (table_of pages.old) (table_of pages.new)) }
    ensures rises { RisesBy (first ∷ second ∷ third ∷ []) (table_of pages.old) (table_of pages.new) }
{
    pages.known();
    match pages.reserve_all(first, second, third) {
        Some(places) => Ok(places),
        None => claim_each(pages, first, second, third),
    }
}
