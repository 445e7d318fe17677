//! Extents of several classes that are counted as new together, before their words are taken.
ghost use Rattle.std.specs.Prelude.{◌≡◌, ℕ, ◌+◌, ◌<◌, ◌≤◌, ◌^◌, [], ◌∷◌, length};
ghost use Rattle.page_table.specs.Pages.{Shelf as Extents};
ghost use Rattle.page_table.specs.Lists.{shelf_at};
ghost use Rattle.page_table.specs.inner.Counted.{words_of, one_more, NoneSpare, Counts};

use crate::shelf::Shelf;

/// How many words an extent of a class has; none of class 0.
pub fn words_of(class: u8) -> usize
    requires { class ≤ 21 }
    ensures is { result ≡ words_of class }
    ensures most { result ≤ 2 ^ 21 }
{
    if class == 0 { 0 } else { 1usize << class }
}

/// Counts an extent of a class as new, where none was given back; of class 0 none. Or nothing changes.
fn count(shelves: &mut Vec<Shelf>, class: u8) -> bool
    requires class { class < length shelves.old.items }
    requires few { 1 ≤ class → (shelf_at shelves.old.items class).total < 2 ^ 33 }
    ensures counts { Counts result (class ∷ []) (shelf_at shelves.old.items) (shelf_at shelves.new.items) }
    ensures length { length shelves.new.items ≡ length shelves.old.items }
{
    if class == 0 {
        true
    } else {
        shelves[class as usize].count()
    }
}

/// Takes back that an extent of a class was counted.
fn uncount(shelves: &mut Vec<Shelf>, class: u8)
    requires class { class < length shelves.old.items }
    requires some { 1 ≤ class
        → length (shelf_at shelves.old.items class).spare < (shelf_at shelves.old.items class).total }
    ensures back { (f : ℕ → Extents) → NoneSpare class f → shelf_at shelves.old.items ≡ one_more class f
        → shelf_at shelves.new.items ≡ f }
    ensures length { length shelves.new.items ≡ length shelves.old.items }
{
    if class > 0 {
        shelves[class as usize].uncount();
    }
}

/// Counts an extent of each of two classes, of which 0 is none. Or nothing changes.
fn count_two(shelves: &mut Vec<Shelf>, first: u8, second: u8) -> bool
    requires first { first < length shelves.old.items }
    requires second { second < length shelves.old.items }
    requires few { (c : ℕ) → 1 ≤ c → c < length shelves.old.items → (shelf_at shelves.old.items c).total + 1 < 2 ^ 33 }
    ensures counts { Counts result (first ∷ second ∷ []) (shelf_at shelves.old.items) (shelf_at shelves.new.items) }
    ensures length { length shelves.new.items ≡ length shelves.old.items }
{
    if !count(shelves, first) {
        return false;
    }
    if !count(shelves, second) {
        uncount(shelves, first);
        return false;
    }
    true
}

/// Counts an extent of each of three classes, of which 0 is none. Or nothing changes.
pub fn count_three(shelves: &mut Vec<Shelf>, first: u8, second: u8, third: u8) -> bool
    requires first { first < length shelves.old.items }
    requires second { second < length shelves.old.items }
    requires third { third < length shelves.old.items }
    requires few { (c : ℕ) → 1 ≤ c → c < length shelves.old.items → (shelf_at shelves.old.items c).total + 2 < 2 ^ 33 }
    ensures counts { Counts result (first ∷ second ∷ third ∷ []) (shelf_at shelves.old.items)
        (shelf_at shelves.new.items) }
    ensures length { length shelves.new.items ≡ length shelves.old.items }
{
    if !count(shelves, first) {
        return false;
    }
    if !count_two(shelves, second, third) {
        uncount(shelves, first);
        return false;
    }
    true
}
