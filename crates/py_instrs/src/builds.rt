//! What is built, taken apart, and gone through.
ghost use Rattle.std.specs.Prelude.{◌≡◌, ◌≤◌, [], ◌∷◌, length, reverse, IfOk, MatchOption};
ghost use Rattle.py_data.specs.declared.record.Got.TheVariants.{Is};
ghost use Rattle.py_data.specs.declared.value.Value.TheVariants.{Ref};
ghost use Rattle.py_data.specs.Fault.{memory_fault};
ghost use Rattle.py_data.specs.Heap.{new_rec};
ghost use Rattle.py_data.specs.Sense.{Meets, Safe, IsLive};
ghost use Rattle.py_data.specs.Shape.{is_key_kind};
ghost use Rattle.obj_class.specs.Exceptions.{made_row};
ghost use Rattle.obj_dict.specs.Dict.{key_row};
ghost use Rattle.py_frames.specs.BuildRows as rows;
ghost use Rattle.py_frames.specs.Raising as raising;

use obj_class::make_record;
use obj_seq::{gather, make_iter, next as next_item};
use py_data::exception::{MEMORY_ERROR, TYPE_ERROR, VALUE_ERROR};
use py_data::{
    Addr, Bytes, Fault, Got, Kind, LENGTH_LIMIT, NoMemory, Record, Stop, Value, Values, View, With,
};
use py_frames::{Next, Pushed};
use py_parts::{give, memory_fault, place_in, push, push_two, raise_operand, raise_row, told};
use std::alloc::Global;

/// Makes a tuple or a list of these values, and pushes it.
#[tactic(auto, using(py_data::proofs::Rows::row_steps, py_data::proofs::Steps::call_steps), unfolding(py_frames::specs::BuildRows::built_row))]
fn built_row<S, V: View<S>>(
    alloc: Global,
    v: &mut V,
    kind: Kind,
    values: Values,
) -> Result<Next, Stop>
    requires live { IsLive V.sense v.old }
    requires safe { Safe V.sense.partial (rows.built_row {S = S} kind values) (V.sense.heap v.old) }
    ensures { Meets V.sense (rows.built_row kind values) v.old v.new result }
{
    let x = make_record(alloc, v, kind, values)?;
    Ok(push(x))
}

/// BUILD_TUPLE and BUILD_LIST: a new record of that kind has the values. MemoryError where there are too many.
#[tactic(auto, using(py_data::proofs::Rows::row_steps, py_data::proofs::Steps::call_steps), unfolding(py_frames::specs::BuildRows::build_row))]
pub fn build_row<S, V: View<S>>(
    alloc: Global,
    v: &mut V,
    roots: Addr,
    kind: Kind,
    values: Values,
) -> Result<Next, Stop>
    requires live { IsLive V.sense v.old }
    requires safe { Safe V.sense.partial (rows.build_row {S = S} roots.0 kind values) (V.sense.heap v.old) }
    ensures { Meets V.sense (rows.build_row roots.0 kind values) v.old v.new result }
{
    if values.len() <= LENGTH_LIMIT {
        built_row(alloc, v, kind, values)
    } else {
        raise_row(alloc, v, roots, &memory_fault())
    }
}

/// The first two values and the others, where there are two.
fn next_pair(items: &[Value]) -> Option<(Value, Value, &[Value])>
    ensures { MatchOption result (length items.now ≤ 1) (λ p. items.now ≡ p.0 ∷ p.1 ∷ p.2.now) }
{
    match items {
        [key, x, more @ ..] => Some((*key, *x, more)),
        _ => None,
    }
}

/// Sets the pairs of a dictionary, from left to right.
fn pairs_set<S, V: View<S>>(
    alloc: Global,
    v: &mut V,
    d: Addr,
    pairs: &[Value],
) -> Result<Got<()>, Stop>
    requires live { IsLive V.sense v.old }
    requires safe { Safe V.sense.partial (rows.pairs_set {S = S} d.0 pairs.now) (V.sense.heap v.old) }
    ensures { Meets V.sense (rows.pairs_set d.0 pairs.now) v.old v.new result }
{
    let mut rest = pairs;
    'turns: while let Some((key, x, more)) = next_pair(rest) {
        let turn = obj_dict::set(alloc, v, d, key, x)?;
        match turn {
            Got::Is(_) => rest = more,
            Got::Raise(e) => return Ok(Got::Raise(e)),
        }
    }
    Ok(Got::Is(()))
}

/// The dictionary is pushed, or the exception raised.
#[tactic(auto, using(py_data::proofs::Rows::row_steps, py_data::proofs::Steps::call_steps), unfolding(py_frames::specs::BuildRows::dict_or_raise))]
fn dict_or_raise<S, V: View<S>>(
    alloc: Global,
    v: &mut V,
    roots: Addr,
    d: Value,
    got: Got<()>,
) -> Result<Next, Stop>
    requires live { IsLive V.sense v.old }
    requires safe { Safe V.sense.partial (rows.dict_or_raise {S = S} roots.0 d got) (V.sense.heap v.old) }
    ensures { Meets V.sense (rows.dict_or_raise roots.0 d got) v.old v.new result }
{
    match got {
        Got::Is(_) => Ok(push(d)),
        Got::Raise(e) => raise_row(alloc, v, roots, &e),
    }
}

/// Fills a new dictionary, and pushes it.
#[tactic(auto, using(py_data::proofs::Rows::row_steps, py_data::proofs::Steps::call_steps), unfolding(py_frames::specs::BuildRows::filled_dict))]
fn filled_dict<S, V: View<S>>(
    alloc: Global,
    v: &mut V,
    roots: Addr,
    pairs: &[Value],
    d: Value,
) -> Result<Next, Stop>
    requires live { IsLive V.sense v.old }
    requires safe { Safe V.sense.partial (rows.filled_dict {S = S} roots.0 pairs.now d) (V.sense.heap v.old) }
    ensures { Meets V.sense (rows.filled_dict roots.0 pairs.now d) v.old v.new result }
{
    let got = pairs_set(alloc, v, place_in(d), pairs)?;
    dict_or_raise(alloc, v, roots, d, got)
}

/// Makes a dictionary of these pairs, and pushes it.
#[tactic(auto, using(py_data::proofs::Rows::row_steps, py_data::proofs::Steps::call_steps), unfolding(py_frames::specs::BuildRows::new_dict))]
fn new_dict<S, V: View<S>>(
    alloc: Global,
    v: &mut V,
    roots: Addr,
    pairs: &[Value],
) -> Result<Next, Stop>
    requires live { IsLive V.sense v.old }
    requires safe { Safe V.sense.partial (rows.new_dict {S = S} roots.0 pairs.now) (V.sense.heap v.old) }
    ensures { Meets V.sense (rows.new_dict roots.0 pairs.now) v.old v.new result }
{
    let d = make_record(alloc, v, Kind::Dict, Values::new(alloc))?;
    filled_dict(alloc, v, roots, pairs, d)
}

/// Whether a record of that kind can be a key.
fn is_key_kind(kind: Kind) -> bool
    ensures { result ≡ is_key_kind kind }
{
    matches!(
        kind,
        Kind::Str | Kind::Function | Kind::Class | Kind::Instance
    )
}

/// Whether a value can be a key.
#[tactic(auto, using(py_data::proofs::Rows::row_steps), unfolding(obj_dict::specs::Dict::key_row))]
fn key_row<S, V: View<S>>(v: &mut V, key: Value) -> Result<bool, Stop>
    requires live { IsLive V.sense v.old }
    requires safe { Safe V.sense.partial (key_row {S = S} key) (V.sense.heap v.old) }
    ensures { Meets V.sense (key_row key) v.old v.new result }
{
    match key {
        Value::Ref(a) => Ok(is_key_kind(v.kind(a)?)),
        Value::Unset => Ok(false),
        _ => Ok(true),
    }
}

/// Whether the first value of each pair can be a key.
fn all_keys_row<S, V: View<S>>(v: &mut V, pairs: &[Value]) -> Result<bool, Stop>
    requires live { IsLive V.sense v.old }
    requires safe { Safe V.sense.partial (rows.all_keys_row {S = S} pairs.now) (V.sense.heap v.old) }
    ensures { Meets V.sense (rows.all_keys_row pairs.now) v.old v.new result }
{
    let mut rest = pairs;
    'turns: while let Some((key, _, more)) = next_pair(rest) {
        let usable = key_row(v, key)?;
        if usable {
            rest = more;
        } else {
            return Ok(false);
        }
    }
    Ok(true)
}

/// The exception of too many pairs: of a key that can be none, or else of their number.
fn size_or_key(alloc: Global, keys: bool) -> Result<Fault, NoMemory>
    ensures { IfOk result (λ e. e ≡ rows.size_or_key keys) }
{
    if keys {
        Ok(memory_fault())
    } else {
        told(alloc, TYPE_ERROR, b"unhashable")
    }
}

/// Raises what too many pairs raise.
#[tactic(auto, using(py_data::proofs::Rows::row_steps, py_data::proofs::Steps::call_steps), unfolding(py_frames::specs::BuildRows::too_many_pairs))]
fn too_many_pairs<S, V: View<S>>(
    alloc: Global,
    v: &mut V,
    roots: Addr,
    pairs: &[Value],
) -> Result<Next, Stop>
    requires live { IsLive V.sense v.old }
    requires safe { Safe V.sense.partial (rows.too_many_pairs {S = S} roots.0 pairs.now) (V.sense.heap v.old) }
    ensures { Meets V.sense (rows.too_many_pairs roots.0 pairs.now) v.old v.new result }
{
    let keys = all_keys_row(v, pairs)?;
    let e = size_or_key(alloc, keys)?;
    raise_row(alloc, v, roots, &e)
}

/// BUILD_DICT: a new dictionary has the pairs, set from left to right. TypeError for what can't be a key, MemoryError
/// where there are too many pairs.
#[tactic(auto, using(py_data::proofs::Rows::row_steps, py_data::proofs::Steps::call_steps), unfolding(py_frames::specs::BuildRows::build_dict_row))]
pub fn build_dict_row<S, V: View<S>>(
    alloc: Global,
    v: &mut V,
    roots: Addr,
    pairs: &[Value],
) -> Result<Next, Stop>
    requires live { IsLive V.sense v.old }
    requires safe { Safe V.sense.partial (rows.build_dict_row {S = S} roots.0 pairs.now) (V.sense.heap v.old) }
    ensures { Meets V.sense (rows.build_dict_row roots.0 pairs.now) v.old v.new result }
{
    if pairs.len() <= LENGTH_LIMIT {
        new_dict(alloc, v, roots, pairs)
    } else {
        too_many_pairs(alloc, v, roots, pairs)
    }
}

/// The values in the opposite order.
fn reversed(alloc: Global, values: &[Value]) -> Result<Pushed, NoMemory>
    ensures { IfOk result (λ ys. ys ≡ reverse values.now) }
{
    match values {
        [x, y] => Ok(Pushed::two(*y, *x)),
        _ => {
            let turned: Vec<Value> = values.iter().rev().copied().collect(alloc)?;
            Pushed::from_slice(alloc, turned.as_slice())
        }
    }
}

/// The exception of values of another number.
fn count_fault(alloc: Global) -> Result<Fault, NoMemory>
    ensures { IfOk result (λ e. e ≡ raising.count_fault) }
{
    told(alloc, VALUE_ERROR, b"wrong number of values")
}

/// So many values were not there to be unpacked.
#[tactic(auto, using(py_data::proofs::Rows::row_steps, py_data::proofs::Steps::call_steps))]
fn raise_count<S, V: View<S>>(alloc: Global, v: &mut V, roots: Addr) -> Result<Next, Stop>
    requires live { IsLive V.sense v.old }
    requires safe { Safe V.sense.partial (raising.raise_row {S = S} roots.0 raising.count_fault) (V.sense.heap v.old) }
    ensures { Meets V.sense (raising.raise_row roots.0 raising.count_fault) v.old v.new result }
{
    let e = count_fault(alloc)?;
    raise_row(alloc, v, roots, &e)
}

/// So many values are pushed, the first of them last. ValueError where there are fewer or more.
#[tactic(auto, using(py_data::proofs::Rows::row_steps, py_data::proofs::Steps::call_steps), unfolding(py_frames::specs::BuildRows::spread))]
fn spread_values<S, V: View<S>>(
    alloc: Global,
    v: &mut V,
    roots: Addr,
    n: u32,
    values: &[Value],
) -> Result<Next, Stop>
    requires live { IsLive V.sense v.old }
    requires safe { Safe V.sense.partial (rows.spread {S = S} roots.0 n (Is values.now)) (V.sense.heap v.old) }
    ensures { Meets V.sense (rows.spread roots.0 n (Is values.now)) v.old v.new result }
{
    if values.len() == n as usize {
        Ok(Next::Goes(reversed(alloc, values)?))
    } else {
        raise_count(alloc, v, roots)
    }
}

/// The same of what was gathered.
#[tactic(auto, using(py_data::proofs::Rows::row_steps), unfolding(py_frames::specs::BuildRows::spread))]
fn spread<S, V: View<S>>(
    alloc: Global,
    v: &mut V,
    roots: Addr,
    n: u32,
    got: Got<Values>,
) -> Result<Next, Stop>
    requires live { IsLive V.sense v.old }
    requires safe { Safe V.sense.partial (rows.spread {S = S} roots.0 n got) (V.sense.heap v.old) }
    ensures { Meets V.sense (rows.spread roots.0 n got) v.old v.new result }
{
    match got {
        Got::Is(values) => spread_values(alloc, v, roots, n, values.as_slice()),
        Got::Raise(e) => raise_row(alloc, v, roots, &e),
    }
}

/// Gathers the items of a value, and pushes them.
#[tactic(auto, using(py_data::proofs::Rows::row_steps, py_data::proofs::Steps::call_steps), unfolding(py_frames::specs::BuildRows::spread_row))]
fn spread_row<S, V: View<S>>(
    alloc: Global,
    v: &mut V,
    roots: Addr,
    n: u32,
    x: Value,
) -> Result<Next, Stop>
    requires live { IsLive V.sense v.old }
    requires safe { Safe V.sense.partial (rows.spread_row {S = S} roots.0 n x) (V.sense.heap v.old) }
    ensures { Meets V.sense (rows.spread_row roots.0 n x) v.old v.new result }
{
    let got = gather(alloc, v, x)?;
    spread(alloc, v, roots, n, got)
}

/// UNPACK: the `n` items of a value are pushed, the first of them last.
#[tactic(auto, using(py_data::proofs::Rows::row_steps, py_data::proofs::Steps::call_steps), unfolding(py_frames::specs::BuildRows::unpack_row))]
pub fn unpack_row<S, V: View<S>>(
    alloc: Global,
    v: &mut V,
    roots: Addr,
    n: u32,
    x: Value,
) -> Result<Next, Stop>
    requires live { IsLive V.sense v.old }
    requires safe { Safe V.sense.partial (rows.unpack_row {S = S} roots.0 n x) (V.sense.heap v.old) }
    ensures { Meets V.sense (rows.unpack_row roots.0 n x) v.old v.new result }
{
    if n as usize <= LENGTH_LIMIT {
        spread_row(alloc, v, roots, n, x)
    } else {
        raise_row(alloc, v, roots, &memory_fault())
    }
}

/// ITER: an iterator of a value is pushed.
#[tactic(auto, using(py_data::proofs::Rows::row_steps, py_data::proofs::Steps::call_steps), unfolding(py_frames::specs::BuildRows::iter_instr))]
pub fn iter_instr<S, V: View<S>>(
    alloc: Global,
    v: &mut V,
    roots: Addr,
    x: Value,
) -> Result<Next, Stop>
    requires live { IsLive V.sense v.old }
    requires safe { Safe V.sense.partial (rows.iter_instr {S = S} roots.0 x) (V.sense.heap v.old) }
    ensures { Meets V.sense (rows.iter_instr roots.0 x) v.old v.new result }
{
    let got = make_iter(alloc, v, x)?;
    give(alloc, v, roots, got)
}

/// The iterator and its next item are pushed, or it is at its end.
#[tactic(auto, using(py_data::proofs::Rows::row_steps, py_data::proofs::Steps::call_steps), unfolding(py_frames::specs::BuildRows::next_or_end))]
fn next_or_end<S, V: View<S>>(
    alloc: Global,
    v: &mut V,
    roots: Addr,
    t: u32,
    it: Value,
    got: Got<Option<Value>>,
) -> Result<Next, Stop>
    requires live { IsLive V.sense v.old }
    requires safe { Safe V.sense.partial (rows.next_or_end {S = S} roots.0 t it got) (V.sense.heap v.old) }
    ensures { Meets V.sense (rows.next_or_end roots.0 t it got) v.old v.new result }
{
    match got {
        Got::Is(Some(y)) => Ok(push_two(it, y)),
        Got::Is(None) => Ok(Next::Jumps(t, Pushed::none())),
        Got::Raise(e) => raise_row(alloc, v, roots, &e),
    }
}

/// A record goes on, if it is an iterator.
#[tactic(auto, using(py_data::proofs::Rows::row_steps, py_data::proofs::Steps::call_steps), unfolding(py_frames::specs::BuildRows::next_instr))]
fn next_at<S, V: View<S>>(
    alloc: Global,
    v: &mut V,
    roots: Addr,
    t: u32,
    a: Addr,
) -> Result<Next, Stop>
    requires live { IsLive V.sense v.old }
    requires safe { Safe V.sense.partial (rows.next_instr {S = S} roots.0 t (Ref a)) (V.sense.heap v.old) }
    ensures { Meets V.sense (rows.next_instr roots.0 t (Ref a)) v.old v.new result }
{
    let got = next_item(alloc, v, a)?;
    next_or_end(alloc, v, roots, t, Value::Ref(a), got)
}

/// NEXT: the iterator and its next item are pushed, or the place `t` follows where it is at its end.
#[tactic(auto, using(py_data::proofs::Rows::row_steps), unfolding(py_frames::specs::BuildRows::next_instr))]
pub fn next_instr<S, V: View<S>>(
    alloc: Global,
    v: &mut V,
    roots: Addr,
    t: u32,
    x: Value,
) -> Result<Next, Stop>
    requires live { IsLive V.sense v.old }
    requires safe { Safe V.sense.partial (rows.next_instr {S = S} roots.0 t x) (V.sense.heap v.old) }
    ensures { Meets V.sense (rows.next_instr roots.0 t x) v.old v.new result }
{
    match x {
        Value::Ref(a) => next_at(alloc, v, roots, t, a),
        _ => raise_operand(alloc, v, roots),
    }
}
