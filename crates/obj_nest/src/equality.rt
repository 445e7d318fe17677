//! Whether two values are equal.
ghost use Rattle.std.specs.Prelude.{◌≡◌, ◌≤◌, ◌<◌, ◌+◌, ◌*◌, IfSome, true};
ghost use Rattle.py_data.specs.declared.record.TheConstants.{LENGTH_LIMIT};
ghost use Rattle.py_data.specs.declared.record.Got.TheVariants.{Is};
ghost use Rattle.py_data.specs.Comparing.{is_same};
ghost use Rattle.py_data.specs.Looking.{until_row};
ghost use Rattle.py_data.specs.Sense.{Meets, Safe, IsLive};
ghost use Rattle.obj_nest.specs.Equal.{by_pairing, equal_levels, equal_row, equal_under, found_row, is_equal, item_row, item_with, items_from, items_row, methods_row, methods_with, owner_with, owners_row, pair_row, pair_with, paired_row, pairs_from, pairs_row, plain_same, records_row, sized_row, sought_row, texts_row, texts_with};
ghost use Rattle.obj_nest.specs.Levels.{below, level_row};

use crate::levels::{LEVELS, too_deep};
use crate::pairing::{Pairing, pairing_at};
use obj_str::bytes_of;
use py_data::{Addr, Got, Stop, Value, View, look, size};
use std::alloc::Global;

/// Whether values that aren't both references are equal.
fn is_plain_same(x: Value, y: Value) -> bool
    ensures { result ≡ plain_same x y }
{
    match (x, y) {
        (Value::Int(i), Value::Int(j)) => i == j,
        (Value::Int(i), Value::Bool(b)) => i == b as i64,
        (Value::Bool(b), Value::Int(j)) => b as i64 == j,
        (Value::Bool(b), Value::Bool(c)) => b == c,
        (Value::None, Value::None) => true,
        (Value::Builtin(i), Value::Builtin(j)) => i == j,
        (Value::Ref(a), Value::Ref(b)) => a.0 == b.0,
        _ => false,
    }
}

/// Whether the bytes of a string are these.
#[tactic(auto, using(py_data::proofs::Rows::row_steps, py_data::proofs::Steps::call_steps), unfolding(crate::specs::Equal::texts_with))]
fn texts_with<S, V: View<S>>(alloc: Global, v: &mut V, x: &[u8], b: Addr) -> Result<Got<bool>, Stop>
    requires live { IsLive V.sense v.old }
    requires safe { Safe V.sense.partial (texts_with {S = S} x.now b.0) (V.sense.heap v.old) }
    ensures { Meets V.sense (texts_with x.now b.0) v.old v.new result }
{
    let y = bytes_of(alloc, v, b)?;
    Ok(Got::Is(x == y.as_slice()))
}

/// Whether two strings have the same bytes.
#[tactic(auto, using(py_data::proofs::Rows::row_steps, py_data::proofs::Steps::call_steps), unfolding(crate::specs::Equal::texts_row))]
fn texts<S, V: View<S>>(alloc: Global, v: &mut V, a: Addr, b: Addr) -> Result<Got<bool>, Stop>
    requires live { IsLive V.sense v.old }
    requires safe { Safe V.sense.partial (texts_row {S = S} a.0 b.0) (V.sense.heap v.old) }
    ensures { Meets V.sense (texts_row a.0 b.0) v.old v.new result }
{
    let x = bytes_of(alloc, v, a)?;
    texts_with(alloc, v, x.as_slice(), b)
}

/// Whether a value is that of a record at a place.
#[cycle(equality)]
#[tactic(auto, using(py_data::proofs::Rows::row_steps, py_data::proofs::Steps::call_steps), unfolding(crate::specs::Equal::item_with))]
fn item_with<S, V: View<S>>(
    alloc: Global,
    v: &mut V,
    levels: usize,
    b: Addr,
    i: usize,
    x: Value,
) -> Result<Got<bool>, Stop>
    requires live { IsLive V.sense v.old }
    requires safe { Safe V.sense.partial (item_with {S = S} (equal_levels levels) b.0 i x) (V.sense.heap v.old) }
    ensures { Meets V.sense (item_with (equal_levels levels) b.0 i x) v.old v.new result }
{
    let y = look(v, b, i)?;
    equal_at(alloc, v, levels, x, y)
}

/// Whether the values of two records at a place are equal.
#[cycle(equality)]
#[tactic(auto, using(py_data::proofs::Rows::row_steps, py_data::proofs::Steps::call_steps), unfolding(crate::specs::Equal::item_row))]
fn item<S, V: View<S>>(
    alloc: Global,
    v: &mut V,
    levels: usize,
    a: Addr,
    b: Addr,
    i: usize,
) -> Result<Got<bool>, Stop>
    requires live { IsLive V.sense v.old }
    requires safe { Safe V.sense.partial (item_row {S = S} (equal_levels levels) a.0 b.0 i) (V.sense.heap v.old) }
    ensures { Meets V.sense (item_row (equal_levels levels) a.0 b.0 i) v.old v.new result }
{
    let x = look(v, a, i)?;
    item_with(alloc, v, levels, b, i, x)
}

/// Equal so far.
fn goes_on(first: &Got<bool>) -> bool
    ensures { result ≡ is_equal first.now }
{
    matches!(first, Got::Is(true))
}

/// Whether the first values of two records are equal, one by one.
#[cycle(equality)]
fn every_item<S, V: View<S>>(
    alloc: Global,
    v: &mut V,
    levels: usize,
    a: Addr,
    b: Addr,
    n: usize,
) -> Result<Got<bool>, Stop>
    requires live { IsLive V.sense v.old }
    requires safe { Safe V.sense.partial
        (until_row {S = S} (item_row (equal_levels levels) a.0 b.0) is_equal (Is true) 0 n) (V.sense.heap v.old) }
    ensures { Meets V.sense (until_row (item_row (equal_levels levels) a.0 b.0) is_equal (Is true) 0 n) v.old
        v.new result }
{
    'turns: for i in 0..n {
        let first = item(alloc, v, levels, a, b, i)?;
        if !goes_on(&first) {
            return Ok(first);
        }
    }
    Ok(Got::Is(true))
}

/// Whether two sequences of these lengths are equal.
#[cycle(equality)]
#[tactic(auto, using(py_data::proofs::Rows::row_steps, py_data::proofs::Steps::call_steps), unfolding(crate::specs::Equal::sized_row))]
fn items_sized<S, V: View<S>>(
    alloc: Global,
    v: &mut V,
    levels: usize,
    a: Addr,
    b: Addr,
    n: usize,
    m: usize,
) -> Result<Got<bool>, Stop>
    requires live { IsLive V.sense v.old }
    requires safe { Safe V.sense.partial (sized_row {S = S} (item_row (equal_levels levels) a.0 b.0) n m)
        (V.sense.heap v.old) }
    ensures { Meets V.sense (sized_row (item_row (equal_levels levels) a.0 b.0) n m) v.old v.new result }
{
    if n == m {
        every_item(alloc, v, levels, a, b, n)
    } else {
        Ok(Got::Is(false))
    }
}

/// Whether two sequences are equal, of which the first has this length.
#[cycle(equality)]
#[tactic(auto, using(py_data::proofs::Rows::row_steps, py_data::proofs::Steps::call_steps), unfolding(crate::specs::Equal::items_from))]
fn items_from<S, V: View<S>>(
    alloc: Global,
    v: &mut V,
    levels: usize,
    a: Addr,
    b: Addr,
    n: usize,
) -> Result<Got<bool>, Stop>
    requires live { IsLive V.sense v.old }
    requires safe { Safe V.sense.partial (items_from {S = S} (equal_levels levels) a.0 b.0 n) (V.sense.heap v.old) }
    ensures { Meets V.sense (items_from (equal_levels levels) a.0 b.0 n) v.old v.new result }
{
    let m = size(v, b)?;
    items_sized(alloc, v, levels, a, b, n, m)
}

/// Whether two sequences are equal.
#[cycle(equality)]
#[tactic(auto, using(py_data::proofs::Rows::row_steps, py_data::proofs::Steps::call_steps), unfolding(crate::specs::Equal::items_row))]
fn items<S, V: View<S>>(
    alloc: Global,
    v: &mut V,
    levels: usize,
    a: Addr,
    b: Addr,
) -> Result<Got<bool>, Stop>
    requires live { IsLive V.sense v.old }
    requires safe { Safe V.sense.partial (items_row {S = S} (equal_levels levels) a.0 b.0) (V.sense.heap v.old) }
    ensures { Meets V.sense (items_row (equal_levels levels) a.0 b.0) v.old v.new result }
{
    let n = size(v, a)?;
    items_from(alloc, v, levels, a, b, n)
}

/// Whether a value is that of the other dictionary's pair of this number.
#[cycle(equality)]
#[tactic(auto, using(py_data::proofs::Rows::row_steps, py_data::proofs::Steps::call_steps), unfolding(crate::specs::Equal::found_row))]
fn found<S, V: View<S>>(
    alloc: Global,
    v: &mut V,
    levels: usize,
    b: Addr,
    x: Value,
    o: Option<usize>,
) -> Result<Got<bool>, Stop>
    requires live { IsLive V.sense v.old }
    requires safe { Safe V.sense.partial (found_row {S = S} (equal_levels levels) b.0 x o) (V.sense.heap v.old) }
    requires within { IfSome o (λ j. 2 * j + 1 < LENGTH_LIMIT) }
    ensures { Meets V.sense (found_row (equal_levels levels) b.0 x o) v.old v.new result }
{
    match o {
        None => Ok(Got::Is(false)),
        Some(j) => {
            let y = look(v, b, 2 * j + 1)?;
            equal_at(alloc, v, levels, x, y)
        }
    }
}

/// Whether the other dictionary has this value for a key.
#[cycle(equality)]
#[tactic(auto, using(py_data::proofs::Rows::row_steps, py_data::proofs::Steps::call_steps), unfolding(crate::specs::Equal::sought_row))]
fn sought<S, V: View<S>>(
    alloc: Global,
    v: &mut V,
    levels: usize,
    b: Addr,
    k: Value,
    x: Value,
) -> Result<Got<bool>, Stop>
    requires live { IsLive V.sense v.old }
    requires safe { Safe V.sense.partial (sought_row {S = S} (equal_levels levels) b.0 k x) (V.sense.heap v.old) }
    ensures { Meets V.sense (sought_row (equal_levels levels) b.0 k x) v.old v.new result }
{
    let o = v.find_key(b, k)?;
    found(alloc, v, levels, b, x, o)
}

/// Whether the other dictionary has the value of a pair for this key.
#[cycle(equality)]
#[tactic(auto, using(py_data::proofs::Rows::row_steps, py_data::proofs::Steps::call_steps), unfolding(crate::specs::Equal::pair_with))]
fn pair_with<S, V: View<S>>(
    alloc: Global,
    v: &mut V,
    levels: usize,
    a: Addr,
    b: Addr,
    i: usize,
    k: Value,
) -> Result<Got<bool>, Stop>
    requires live { IsLive V.sense v.old }
    requires safe { Safe V.sense.partial (pair_with {S = S} (equal_levels levels) a.0 b.0 i k) (V.sense.heap v.old) }
    requires within { i ≤ LENGTH_LIMIT }
    ensures { Meets V.sense (pair_with (equal_levels levels) a.0 b.0 i k) v.old v.new result }
{
    let x = look(v, a, 2 * i + 1)?;
    sought(alloc, v, levels, b, k, x)
}

/// Whether the other dictionary has the same value for the key of a pair.
#[cycle(equality)]
#[tactic(auto, using(py_data::proofs::Rows::row_steps, py_data::proofs::Steps::call_steps), unfolding(crate::specs::Equal::pair_row))]
fn pair<S, V: View<S>>(
    alloc: Global,
    v: &mut V,
    levels: usize,
    a: Addr,
    b: Addr,
    i: usize,
) -> Result<Got<bool>, Stop>
    requires live { IsLive V.sense v.old }
    requires safe { Safe V.sense.partial (pair_row {S = S} (equal_levels levels) a.0 b.0 i) (V.sense.heap v.old) }
    requires within { i ≤ LENGTH_LIMIT }
    ensures { Meets V.sense (pair_row (equal_levels levels) a.0 b.0 i) v.old v.new result }
{
    let k = look(v, a, 2 * i)?;
    pair_with(alloc, v, levels, a, b, i, k)
}

/// Whether the other dictionary has the same value for each of the first keys.
#[cycle(equality)]
fn every_pair<S, V: View<S>>(
    alloc: Global,
    v: &mut V,
    levels: usize,
    a: Addr,
    b: Addr,
    n: usize,
) -> Result<Got<bool>, Stop>
    requires live { IsLive V.sense v.old }
    requires safe { Safe V.sense.partial
        (until_row {S = S} (pair_row (equal_levels levels) a.0 b.0) is_equal (Is true) 0 n) (V.sense.heap v.old) }
    requires within { n ≤ LENGTH_LIMIT }
    ensures { Meets V.sense (until_row (pair_row (equal_levels levels) a.0 b.0) is_equal (Is true) 0 n) v.old
        v.new result }
{
    'turns: for i in 0..n {
        let first = pair(alloc, v, levels, a, b, i)?;
        if !goes_on(&first) {
            return Ok(first);
        }
    }
    Ok(Got::Is(true))
}

/// Whether two dictionaries of these lengths are equal.
#[cycle(equality)]
#[tactic(auto, using(py_data::proofs::Rows::row_steps, py_data::proofs::Steps::call_steps), unfolding(crate::specs::Equal::paired_row))]
fn pairs_sized<S, V: View<S>>(
    alloc: Global,
    v: &mut V,
    levels: usize,
    a: Addr,
    b: Addr,
    n: usize,
    m: usize,
) -> Result<Got<bool>, Stop>
    requires live { IsLive V.sense v.old }
    requires safe { Safe V.sense.partial (paired_row {S = S} (pair_row (equal_levels levels) a.0 b.0) n m)
        (V.sense.heap v.old) }
    requires within { n ≤ LENGTH_LIMIT }
    ensures { Meets V.sense (paired_row (pair_row (equal_levels levels) a.0 b.0) n m) v.old v.new result }
{
    if n == m {
        every_pair(alloc, v, levels, a, b, n / 2)
    } else {
        Ok(Got::Is(false))
    }
}

/// Whether two dictionaries are equal, of which the first has this length.
#[cycle(equality)]
#[tactic(auto, using(py_data::proofs::Rows::row_steps, py_data::proofs::Steps::call_steps), unfolding(crate::specs::Equal::pairs_from))]
fn pairs_from<S, V: View<S>>(
    alloc: Global,
    v: &mut V,
    levels: usize,
    a: Addr,
    b: Addr,
    n: usize,
) -> Result<Got<bool>, Stop>
    requires live { IsLive V.sense v.old }
    requires safe { Safe V.sense.partial (pairs_from {S = S} (equal_levels levels) a.0 b.0 n) (V.sense.heap v.old) }
    requires within { n ≤ LENGTH_LIMIT }
    ensures { Meets V.sense (pairs_from (equal_levels levels) a.0 b.0 n) v.old v.new result }
{
    let m = size(v, b)?;
    pairs_sized(alloc, v, levels, a, b, n, m)
}

/// Whether two dictionaries are equal.
#[cycle(equality)]
#[tactic(auto, using(py_data::proofs::Rows::row_steps, py_data::proofs::Steps::call_steps), unfolding(crate::specs::Equal::pairs_row))]
fn pairs<S, V: View<S>>(
    alloc: Global,
    v: &mut V,
    levels: usize,
    a: Addr,
    b: Addr,
) -> Result<Got<bool>, Stop>
    requires live { IsLive V.sense v.old }
    requires safe { Safe V.sense.partial (pairs_row {S = S} (equal_levels levels) a.0 b.0) (V.sense.heap v.old) }
    ensures { Meets V.sense (pairs_row (equal_levels levels) a.0 b.0) v.old v.new result }
{
    let n = size(v, a)?;
    pairs_from(alloc, v, levels, a, b, n)
}

/// Whether two methods are of one object, with this function of the first.
#[tactic(auto, using(py_data::proofs::Rows::row_steps, py_data::proofs::Steps::call_steps), unfolding(crate::specs::Equal::methods_with))]
fn methods_with<S, V: View<S>>(v: &mut V, a: Addr, b: Addr, f: Value) -> Result<Got<bool>, Stop>
    requires live { IsLive V.sense v.old }
    requires safe { Safe V.sense.partial (methods_with {S = S} a.0 b.0 f) (V.sense.heap v.old) }
    ensures { Meets V.sense (methods_with a.0 b.0 f) v.old v.new result }
{
    let g = look(v, b, 0)?;
    owners(v, a, b, is_identical(f, g))
}

/// Whether two methods have the same function and object.
#[tactic(auto, using(py_data::proofs::Rows::row_steps, py_data::proofs::Steps::call_steps), unfolding(crate::specs::Equal::methods_row))]
fn methods<S, V: View<S>>(v: &mut V, a: Addr, b: Addr) -> Result<Got<bool>, Stop>
    requires live { IsLive V.sense v.old }
    requires safe { Safe V.sense.partial (methods_row {S = S} a.0 b.0) (V.sense.heap v.old) }
    ensures { Meets V.sense (methods_row a.0 b.0) v.old v.new result }
{
    let f = look(v, a, 0)?;
    methods_with(v, a, b, f)
}

/// Whether a method's object is this one, and what was found of the functions.
#[tactic(auto, using(py_data::proofs::Rows::row_steps, py_data::proofs::Steps::call_steps), unfolding(crate::specs::Equal::owner_with))]
fn owner_with<S, V: View<S>>(v: &mut V, b: Addr, same: bool, x: Value) -> Result<Got<bool>, Stop>
    requires live { IsLive V.sense v.old }
    requires safe { Safe V.sense.partial (owner_with {S = S} b.0 same x) (V.sense.heap v.old) }
    ensures { Meets V.sense (owner_with b.0 same x) v.old v.new result }
{
    let y = look(v, b, 1)?;
    Ok(Got::Is(same && is_identical(x, y)))
}

/// Whether two methods have the same object, and what was found of their functions.
#[tactic(auto, using(py_data::proofs::Rows::row_steps, py_data::proofs::Steps::call_steps), unfolding(crate::specs::Equal::owners_row))]
fn owners<S, V: View<S>>(v: &mut V, a: Addr, b: Addr, same: bool) -> Result<Got<bool>, Stop>
    requires live { IsLive V.sense v.old }
    requires safe { Safe V.sense.partial (owners_row {S = S} a.0 b.0 same) (V.sense.heap v.old) }
    ensures { Meets V.sense (owners_row a.0 b.0 same) v.old v.new result }
{
    let x = look(v, a, 1)?;
    owner_with(v, b, same, x)
}

/// Whether two values are the same one.
fn is_identical(x: Value, y: Value) -> bool
    ensures { result ≡ is_same x y }
{
    match (x, y) {
        (Value::None, Value::None) => true,
        (Value::Bool(b), Value::Bool(c)) => b == c,
        (Value::Int(i), Value::Int(j)) => i == j,
        (Value::Builtin(i), Value::Builtin(j)) => i == j,
        (Value::Ref(a), Value::Ref(b)) => a.0 == b.0,
        _ => false,
    }
}

/// Whether two records are equal by their items, where a level is left.
#[cycle(equality)]
#[tactic(auto, using(crate::proofs::LevelSteps::level_done))]
fn leveled_items<S, V: View<S>>(
    alloc: Global,
    v: &mut V,
    levels: usize,
    a: Addr,
    b: Addr,
) -> Result<Got<bool>, Stop>
    requires live { IsLive V.sense v.old }
    requires safe { Safe V.sense.partial (level_row {S = S} (below equal_under levels) (λ u. items_row u a.0 b.0))
        (V.sense.heap v.old) }
    ensures { Meets V.sense (level_row (below equal_under levels) (λ u. items_row u a.0 b.0)) v.old v.new result }
{
    if levels == 0 {
        too_deep(alloc)
    } else {
        items(alloc, v, levels - 1, a, b)
    }
}

/// Whether two records are equal by their pairs, where a level is left.
#[cycle(equality)]
#[tactic(auto, using(crate::proofs::LevelSteps::level_done))]
fn leveled_pairs<S, V: View<S>>(
    alloc: Global,
    v: &mut V,
    levels: usize,
    a: Addr,
    b: Addr,
) -> Result<Got<bool>, Stop>
    requires live { IsLive V.sense v.old }
    requires safe { Safe V.sense.partial (level_row {S = S} (below equal_under levels) (λ u. pairs_row u a.0 b.0))
        (V.sense.heap v.old) }
    ensures { Meets V.sense (level_row (below equal_under levels) (λ u. pairs_row u a.0 b.0)) v.old v.new result }
{
    if levels == 0 {
        too_deep(alloc)
    } else {
        pairs(alloc, v, levels - 1, a, b)
    }
}

/// Whether two records are equal, compared so.
#[cycle(equality)]
#[tactic(auto, using(py_data::proofs::Rows::row_steps, py_data::proofs::Steps::call_steps), unfolding(crate::specs::Equal::by_pairing))]
fn paired_by<S, V: View<S>>(
    alloc: Global,
    v: &mut V,
    levels: usize,
    a: Addr,
    b: Addr,
    how: Pairing,
) -> Result<Got<bool>, Stop>
    requires live { IsLive V.sense v.old }
    requires safe { Safe V.sense.partial (by_pairing {S = S} (below equal_under levels) a.0 b.0 how)
        (V.sense.heap v.old) }
    ensures { Meets V.sense (by_pairing (below equal_under levels) a.0 b.0 how) v.old v.new result }
{
    match how {
        Pairing::Texts => texts(alloc, v, a, b),
        Pairing::Items => leveled_items(alloc, v, levels, a, b),
        Pairing::Pairs => leveled_pairs(alloc, v, levels, a, b),
        Pairing::Methods => methods(v, a, b),
        Pairing::Others => Ok(Got::Is(a.0 == b.0)),
    }
}

/// Whether two records are equal.
#[cycle(equality)]
#[tactic(auto, using(py_data::proofs::Rows::row_steps, py_data::proofs::Steps::call_steps), unfolding(crate::specs::Equal::records_row))]
fn records<S, V: View<S>>(
    alloc: Global,
    v: &mut V,
    levels: usize,
    a: Addr,
    b: Addr,
) -> Result<Got<bool>, Stop>
    requires live { IsLive V.sense v.old }
    requires safe { Safe V.sense.partial (records_row {S = S} (below equal_under levels) a.0 b.0) (V.sense.heap v.old) }
    ensures { Meets V.sense (records_row (below equal_under levels) a.0 b.0) v.old v.new result }
{
    let how = pairing_at(v, a, b)?;
    paired_by(alloc, v, levels, a, b, how)
}

/// Whether two values are equal, where so many levels are left.
#[cycle(equality)]
#[tactic(auto, using(py_data::proofs::Rows::row_steps, py_data::proofs::Steps::call_steps), unfolding(crate::specs::Equal::equal_under))]
pub fn equal_at<S, V: View<S>>(
    alloc: Global,
    v: &mut V,
    levels: usize,
    x: Value,
    y: Value,
) -> Result<Got<bool>, Stop>
    requires live { IsLive V.sense v.old }
    requires safe { Safe V.sense.partial (equal_levels {S = S} levels x y) (V.sense.heap v.old) }
    ensures { Meets V.sense (equal_levels levels x y) v.old v.new result }
{
    match (x, y) {
        (Value::Ref(a), Value::Ref(b)) => records(alloc, v, levels, a, b),
        _ => Ok(Got::Is(is_plain_same(x, y))),
    }
}

/// Whether two values are equal: numbers by value, where True is 1 and False is 0; strings by their bytes; lists and
/// tuples item by item; dictionaries by their pairs in any order; methods by function and object; all else by
/// identity. The first parts that decide end it. RuntimeError, where values are nested deeper than 100 levels up to
/// what decides; Python 2.7 compares deeper ones, and takes an item for equal to itself without a look.
#[tactic(auto, unfolding(crate::specs::Equal::equal_row))]
pub fn equal<S, V: View<S>>(alloc: Global, v: &mut V, x: Value, y: Value) -> Result<Got<bool>, Stop>
    requires live { IsLive V.sense v.old }
    requires safe { Safe V.sense.partial (equal_row {S = S} x y) (V.sense.heap v.old) }
    ensures { Meets V.sense (equal_row x y) v.old v.new result }
{
    equal_at(alloc, v, LEVELS, x, y)
}
