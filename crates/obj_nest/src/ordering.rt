//! Which of two values comes first.
ghost use Rattle.std.specs.Prelude.{◌≡◌, MatchResult, None, min};
ghost use Rattle.py_data.specs.declared.record.Got.TheVariants.{Is};
ghost use Rattle.py_data.specs.declared.stop.Stop.TheVariants.{OutOfMemory};
ghost use Rattle.py_data.specs.Comparing.{number_of, order_bytes, order_numbers};
ghost use Rattle.py_data.specs.Looking.{until_row};
ghost use Rattle.py_data.specs.Sense.{Meets, Safe, IsLive};
ghost use Rattle.obj_nest.specs.Levels.{level_row};
ghost use Rattle.obj_nest.specs.Ordering.{by_lengths, bytes_with, decided_row, is_open, listed_from, listed_row, order_levels, order_row, order_under, ordered_by, parts_at, parts_below, ranked_row, shared_row, strings_row, turn_row, turn_with, unequal_row};

use crate::equality::equal_at;
use crate::levels::{LEVELS, too_deep};
use crate::pairing::{Pairing, pairing_at};
use obj_str::bytes_of;
use py_data::exception::{TYPE_ERROR, raise};
use py_data::{Addr, Got, Stop, Value, View, look, size};
use std::alloc::Global;
use std::cmp::Ordering;

/// The number that a value is, truth values among them: True is 1 and False is 0.
pub fn number_of(x: Value) -> Option<i64>
    ensures { result ≡ number_of x }
{
    match x {
        Value::Int(i) => Some(i),
        Value::Bool(b) => Some(b as i64),
        _ => None,
    }
}

/// The order of two values that aren't both references: of numbers, or none.
fn plain_order(alloc: Global, x: Value, y: Value) -> Result<Got<Ordering>, Stop>
    ensures { MatchResult result (λ g. g ≡ order_numbers (number_of x) (number_of y)) (λ e. e ≡ OutOfMemory) }
{
    match (number_of(x), number_of(y)) {
        (Some(i), Some(j)) => Ok(Got::Is(i.cmp(&j))),
        _ => raise(alloc, TYPE_ERROR, b"unsupported operand"),
    }
}

/// The order of two texts, by the first bytes that differ.
fn compare_bytes(x: &[u8], y: &[u8]) -> Ordering
    ensures { result ≡ order_bytes x.now y.now }
{
    x.cmp(y)
}

/// The order of a string with these bytes and another one.
#[tactic(auto, using(py_data::proofs::Rows::row_steps, py_data::proofs::Steps::call_steps), unfolding(crate::specs::Ordering::bytes_with))]
fn bytes_with<S, V: View<S>>(
    alloc: Global,
    v: &mut V,
    x: &[u8],
    b: Addr,
) -> Result<Got<Ordering>, Stop>
    requires live { IsLive V.sense v.old }
    requires safe { Safe V.sense.partial (bytes_with {S = S} x.now b.0) (V.sense.heap v.old) }
    ensures { Meets V.sense (bytes_with x.now b.0) v.old v.new result }
{
    let y = bytes_of(alloc, v, b)?;
    Ok(Got::Is(compare_bytes(x, y.as_slice())))
}

/// The order of two strings, by their bytes.
#[tactic(auto, using(py_data::proofs::Rows::row_steps, py_data::proofs::Steps::call_steps), unfolding(crate::specs::Ordering::strings_row))]
fn strings<S, V: View<S>>(alloc: Global, v: &mut V, a: Addr, b: Addr) -> Result<Got<Ordering>, Stop>
    requires live { IsLive V.sense v.old }
    requires safe { Safe V.sense.partial (strings_row {S = S} a.0 b.0) (V.sense.heap v.old) }
    ensures { Meets V.sense (strings_row a.0 b.0) v.old v.new result }
{
    let x = bytes_of(alloc, v, a)?;
    bytes_with(alloc, v, x.as_slice(), b)
}

/// What two items decide, of which is known whether they are equal.
#[cycle(ordering)]
#[tactic(auto, using(py_data::proofs::Rows::row_steps, py_data::proofs::Steps::call_steps), unfolding(crate::specs::Ordering::unequal_row))]
fn unequal<S, V: View<S>>(
    alloc: Global,
    v: &mut V,
    levels: usize,
    x: Value,
    y: Value,
    same: bool,
) -> Result<Got<Option<Ordering>>, Stop>
    requires live { IsLive V.sense v.old }
    requires safe { Safe V.sense.partial (unequal_row {S = S} (parts_at levels) x y same) (V.sense.heap v.old) }
    ensures { Meets V.sense (unequal_row (parts_at levels) x y same) v.old v.new result }
{
    if same {
        return Ok(Got::Is(None));
    }
    match order_at(alloc, v, levels, x, y)? {
        Got::Is(first) => Ok(Got::Is(Some(first))),
        Got::Raise(e) => Ok(Got::Raise(e)),
    }
}

/// What two items decide.
#[cycle(ordering)]
#[tactic(auto, using(py_data::proofs::Rows::row_steps, py_data::proofs::Steps::call_steps), unfolding(crate::specs::Ordering::decided_row))]
fn decided<S, V: View<S>>(
    alloc: Global,
    v: &mut V,
    levels: usize,
    x: Value,
    y: Value,
) -> Result<Got<Option<Ordering>>, Stop>
    requires live { IsLive V.sense v.old }
    requires safe { Safe V.sense.partial (decided_row {S = S} (parts_at levels) x y) (V.sense.heap v.old) }
    ensures { Meets V.sense (decided_row (parts_at levels) x y) v.old v.new result }
{
    match equal_at(alloc, v, levels, x, y)? {
        Got::Is(same) => unequal(alloc, v, levels, x, y, same),
        Got::Raise(e) => Ok(Got::Raise(e)),
    }
}

/// What an item decides against that of another list at a place.
#[cycle(ordering)]
#[tactic(auto, using(py_data::proofs::Rows::row_steps, py_data::proofs::Steps::call_steps), unfolding(crate::specs::Ordering::turn_with))]
fn turn_with<S, V: View<S>>(
    alloc: Global,
    v: &mut V,
    levels: usize,
    b: Addr,
    i: usize,
    x: Value,
) -> Result<Got<Option<Ordering>>, Stop>
    requires live { IsLive V.sense v.old }
    requires safe { Safe V.sense.partial (turn_with {S = S} (parts_at levels) b.0 i x) (V.sense.heap v.old) }
    ensures { Meets V.sense (turn_with (parts_at levels) b.0 i x) v.old v.new result }
{
    let y = look(v, b, i)?;
    decided(alloc, v, levels, x, y)
}

/// What the items of two lists at a place decide.
#[cycle(ordering)]
#[tactic(auto, using(py_data::proofs::Rows::row_steps, py_data::proofs::Steps::call_steps), unfolding(crate::specs::Ordering::turn_row))]
fn turn<S, V: View<S>>(
    alloc: Global,
    v: &mut V,
    levels: usize,
    a: Addr,
    b: Addr,
    i: usize,
) -> Result<Got<Option<Ordering>>, Stop>
    requires live { IsLive V.sense v.old }
    requires safe { Safe V.sense.partial (turn_row {S = S} (parts_at levels) a.0 b.0 i) (V.sense.heap v.old) }
    ensures { Meets V.sense (turn_row (parts_at levels) a.0 b.0 i) v.old v.new result }
{
    let x = look(v, a, i)?;
    turn_with(alloc, v, levels, b, i, x)
}

/// Nothing is decided so far.
fn goes_on(first: &Got<Option<Ordering>>) -> bool
    ensures { result ≡ is_open first.now }
{
    matches!(first, Got::Is(None))
}

/// What the first items of two lists decide, one by one.
#[cycle(ordering)]
fn every_turn<S, V: View<S>>(
    alloc: Global,
    v: &mut V,
    levels: usize,
    a: Addr,
    b: Addr,
    n: usize,
) -> Result<Got<Option<Ordering>>, Stop>
    requires live { IsLive V.sense v.old }
    requires safe { Safe V.sense.partial (until_row {S = S} (turn_row (parts_at levels) a.0 b.0) is_open (Is None) 0 n)
        (V.sense.heap v.old) }
    ensures { Meets V.sense (until_row (turn_row (parts_at levels) a.0 b.0) is_open (Is None) 0 n) v.old v.new result }
{
    'turns: for i in 0..n {
        let first = turn(alloc, v, levels, a, b, i)?;
        if !goes_on(&first) {
            return Ok(first);
        }
    }
    Ok(Got::Is(None))
}

/// The order of two lists of these lengths, whose items decide so.
fn by_lengths(n: usize, m: usize, first: Got<Option<Ordering>>) -> Got<Ordering>
    ensures { result ≡ by_lengths n m first }
{
    match first {
        Got::Is(None) => Got::Is(n.cmp(&m)),
        Got::Is(Some(o)) => Got::Is(o),
        Got::Raise(e) => Got::Raise(e),
    }
}

/// The order of two lists of these lengths.
#[cycle(ordering)]
#[tactic(auto, using(py_data::proofs::Rows::row_steps, py_data::proofs::Steps::call_steps), unfolding(crate::specs::Ordering::shared_row))]
fn shared<S, V: View<S>>(
    alloc: Global,
    v: &mut V,
    levels: usize,
    a: Addr,
    b: Addr,
    n: usize,
    m: usize,
) -> Result<Got<Ordering>, Stop>
    requires live { IsLive V.sense v.old }
    requires safe { Safe V.sense.partial (shared_row {S = S} (parts_at levels) a.0 b.0 n m) (V.sense.heap v.old) }
    ensures { Meets V.sense (shared_row (parts_at levels) a.0 b.0 n m) v.old v.new result }
{
    let first = every_turn(alloc, v, levels, a, b, n.min(m))?;
    Ok(by_lengths(n, m, first))
}

/// The order of two lists, of which the first has this length.
#[cycle(ordering)]
#[tactic(auto, using(py_data::proofs::Rows::row_steps, py_data::proofs::Steps::call_steps), unfolding(crate::specs::Ordering::listed_from))]
fn listed_from<S, V: View<S>>(
    alloc: Global,
    v: &mut V,
    levels: usize,
    a: Addr,
    b: Addr,
    n: usize,
) -> Result<Got<Ordering>, Stop>
    requires live { IsLive V.sense v.old }
    requires safe { Safe V.sense.partial (listed_from {S = S} (parts_at levels) a.0 b.0 n) (V.sense.heap v.old) }
    ensures { Meets V.sense (listed_from (parts_at levels) a.0 b.0 n) v.old v.new result }
{
    let m = size(v, b)?;
    shared(alloc, v, levels, a, b, n, m)
}

/// The order of two lists, or two tuples.
#[cycle(ordering)]
#[tactic(auto, using(py_data::proofs::Rows::row_steps, py_data::proofs::Steps::call_steps), unfolding(crate::specs::Ordering::listed_row))]
fn listed<S, V: View<S>>(
    alloc: Global,
    v: &mut V,
    levels: usize,
    a: Addr,
    b: Addr,
) -> Result<Got<Ordering>, Stop>
    requires live { IsLive V.sense v.old }
    requires safe { Safe V.sense.partial (listed_row {S = S} (parts_at levels) a.0 b.0) (V.sense.heap v.old) }
    ensures { Meets V.sense (listed_row (parts_at levels) a.0 b.0) v.old v.new result }
{
    let n = size(v, a)?;
    listed_from(alloc, v, levels, a, b, n)
}

/// The order of two lists, or two tuples, where a level is left.
#[cycle(ordering)]
#[tactic(auto, using(crate::proofs::LevelSteps::order_done))]
fn leveled<S, V: View<S>>(
    alloc: Global,
    v: &mut V,
    levels: usize,
    a: Addr,
    b: Addr,
) -> Result<Got<Ordering>, Stop>
    requires live { IsLive V.sense v.old }
    requires safe { Safe V.sense.partial (level_row {S = S} (parts_below levels) (λ u. listed_row u a.0 b.0))
        (V.sense.heap v.old) }
    ensures { Meets V.sense (level_row (parts_below levels) (λ u. listed_row u a.0 b.0)) v.old v.new result }
{
    if levels == 0 {
        too_deep(alloc)
    } else {
        listed(alloc, v, levels - 1, a, b)
    }
}

/// The order of two records that are compared so.
#[cycle(ordering)]
#[tactic(auto, using(py_data::proofs::Rows::row_steps, py_data::proofs::Steps::call_steps), unfolding(crate::specs::Ordering::ordered_by))]
fn ordered_by<S, V: View<S>>(
    alloc: Global,
    v: &mut V,
    levels: usize,
    a: Addr,
    b: Addr,
    how: Pairing,
) -> Result<Got<Ordering>, Stop>
    requires live { IsLive V.sense v.old }
    requires safe { Safe V.sense.partial (ordered_by {S = S} (parts_below levels) a.0 b.0 how) (V.sense.heap v.old) }
    ensures { Meets V.sense (ordered_by (parts_below levels) a.0 b.0 how) v.old v.new result }
{
    match how {
        Pairing::Texts => strings(alloc, v, a, b),
        Pairing::Items => leveled(alloc, v, levels, a, b),
        _ => raise(alloc, TYPE_ERROR, b"unsupported operand"),
    }
}

/// The order of two records.
#[cycle(ordering)]
#[tactic(auto, using(py_data::proofs::Rows::row_steps, py_data::proofs::Steps::call_steps), unfolding(crate::specs::Ordering::ranked_row))]
fn ranked<S, V: View<S>>(
    alloc: Global,
    v: &mut V,
    levels: usize,
    a: Addr,
    b: Addr,
) -> Result<Got<Ordering>, Stop>
    requires live { IsLive V.sense v.old }
    requires safe { Safe V.sense.partial (ranked_row {S = S} (parts_below levels) a.0 b.0) (V.sense.heap v.old) }
    ensures { Meets V.sense (ranked_row (parts_below levels) a.0 b.0) v.old v.new result }
{
    let how = pairing_at(v, a, b)?;
    ordered_by(alloc, v, levels, a, b, how)
}

/// The order of two values, where so many levels are left.
#[cycle(ordering)]
#[tactic(auto, using(py_data::proofs::Rows::row_steps, py_data::proofs::Steps::call_steps), unfolding(crate::specs::Ordering::order_under))]
fn order_at<S, V: View<S>>(
    alloc: Global,
    v: &mut V,
    levels: usize,
    x: Value,
    y: Value,
) -> Result<Got<Ordering>, Stop>
    requires live { IsLive V.sense v.old }
    requires safe { Safe V.sense.partial (order_levels {S = S} levels x y) (V.sense.heap v.old) }
    ensures { Meets V.sense (order_levels levels x y) v.old v.new result }
{
    match (x, y) {
        (Value::Ref(a), Value::Ref(b)) => ranked(alloc, v, levels, a, b),
        _ => plain_order(alloc, x, y),
    }
}

/// Which of two values comes first: of two numbers by value, of two strings by their bytes, of two lists or two
/// tuples by their first unequal items, and where there are none by their lengths. TypeError for all others, where
/// Python 2.7 has an order for any two values; RuntimeError, where they are nested deeper than 100 levels up to what
/// decides.
#[tactic(auto, unfolding(crate::specs::Ordering::order_row))]
pub fn order<S, V: View<S>>(
    alloc: Global,
    v: &mut V,
    x: Value,
    y: Value,
) -> Result<Got<Ordering>, Stop>
    requires live { IsLive V.sense v.old }
    requires safe { Safe V.sense.partial (order_row {S = S} x y) (V.sense.heap v.old) }
    ensures { Meets V.sense (order_row x y) v.old v.new result }
{
    order_at(alloc, v, LEVELS, x, y)
}
