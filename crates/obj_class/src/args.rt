//! What of an exception is told: its attribute `args`, or a part of it.
ghost use Rattle.std.specs.Prelude.{◌≡◌, ◌≤◌};
ghost use Rattle.py_data.specs.declared.record.TheConstants.{LENGTH_LIMIT};
ghost use Rattle.py_data.specs.Sense.{Meets, Safe, IsLive};
ghost use Rattle.obj_class.specs.Telling.{args_among_row, args_at_row, args_by_row, args_in_row, args_pair_row, args_row, class_under_row, dict_args_row, is_args_row, is_missing, is_of_row, part, part_at_row, part_by_row, part_of_row, part_one_row, part_sized_row, part_tuple_row, part_value_row, part_with_row, told_part_row, under_row, value_by_row, value_if_row, value_under_row};

use crate::bases::is_sub;
use obj_str::bytes_of;
use py_data::exception::KEY_ERROR;
use py_data::{Addr, Kind, LENGTH_LIMIT, Stop, Value, View, kind, look, size};
use std::alloc::Global;

/// A value that is told: as it stands within others (`quoted`), or by itself.
#[derive(Clone, Copy, Debug, Drop, PartialEq, Eq)]
pub struct Part {
    pub quoted: bool,
    pub value: Value,
}

// ---- which class it is

/// Whether a class is this one, or below it.
#[tactic(auto, using(py_data::proofs::Rows::row_steps), unfolding(crate::specs::Telling::under_row))]
fn is_under<S, V: View<S>>(v: &mut V, c: Addr, base: Value) -> Result<bool, Stop>
    requires live { IsLive V.sense v.old }
    requires safe { Safe V.sense.partial (under_row {S = S} c.0 base) (V.sense.heap v.old) }
    ensures { Meets V.sense (under_row c.0 base) v.old v.new result }
{
    match base {
        Value::Ref(b) => is_sub(v, c, b),
        _ => Ok(false),
    }
}

/// Whether a class is that of a number among the roots, or below it.
#[tactic(auto, using(py_data::proofs::Rows::row_steps, py_data::proofs::Steps::call_steps), unfolding(crate::specs::Telling::class_under_row))]
fn is_class_under<S, V: View<S>>(v: &mut V, roots: Addr, n: u8, c: Addr) -> Result<bool, Stop>
    requires live { IsLive V.sense v.old }
    requires safe { Safe V.sense.partial (class_under_row {S = S} roots.0 n c.0) (V.sense.heap v.old) }
    ensures { Meets V.sense (class_under_row roots.0 n c.0) v.old v.new result }
{
    let base = look(v, roots, 1 + n as usize)?;
    is_under(v, c, base)
}

/// The same of a value that is the address of a class.
#[tactic(auto, using(py_data::proofs::Rows::row_steps), unfolding(crate::specs::Telling::value_under_row))]
fn is_value_under<S, V: View<S>>(v: &mut V, roots: Addr, n: u8, class: Value) -> Result<bool, Stop>
    requires live { IsLive V.sense v.old }
    requires safe { Safe V.sense.partial (value_under_row {S = S} roots.0 n class) (V.sense.heap v.old) }
    ensures { Meets V.sense (value_under_row roots.0 n class) v.old v.new result }
{
    match class {
        Value::Ref(c) => is_class_under(v, roots, n, c),
        _ => Ok(false),
    }
}

/// Whether the class of an instance is that of a number among the roots, or below it.
#[tactic(auto, using(py_data::proofs::Rows::row_steps, py_data::proofs::Steps::call_steps), unfolding(crate::specs::Telling::is_of_row))]
pub fn is_of<S, V: View<S>>(v: &mut V, roots: Addr, n: u8, a: Addr) -> Result<bool, Stop>
    requires live { IsLive V.sense v.old }
    requires safe { Safe V.sense.partial (is_of_row {S = S} roots.0 n a.0) (V.sense.heap v.old) }
    ensures { Meets V.sense (is_of_row roots.0 n a.0) v.old v.new result }
{
    let class = look(v, a, 0)?;
    is_value_under(v, roots, n, class)
}

// ---- its attribute `args`

/// Whether a record of a kind is the string `args`.
#[tactic(auto, using(py_data::proofs::Rows::row_steps, py_data::proofs::Steps::call_steps), unfolding(crate::specs::Telling::args_by_row))]
fn is_args_by<S, V: View<S>>(alloc: Global, v: &mut V, a: Addr, kind: Kind) -> Result<bool, Stop>
    requires live { IsLive V.sense v.old }
    requires safe { Safe V.sense.partial (args_by_row {S = S} a.0 kind) (V.sense.heap v.old) }
    ensures { Meets V.sense (args_by_row a.0 kind) v.old v.new result }
{
    match kind {
        Kind::Str => {
            let text = bytes_of(alloc, v, a)?;
            Ok(b"args".as_slice() == text.as_slice())
        }
        _ => Ok(false),
    }
}

/// Whether a record is the string `args`.
#[tactic(auto, using(py_data::proofs::Rows::row_steps, py_data::proofs::Steps::call_steps), unfolding(crate::specs::Telling::args_at_row))]
fn is_args_at<S, V: View<S>>(alloc: Global, v: &mut V, a: Addr) -> Result<bool, Stop>
    requires live { IsLive V.sense v.old }
    requires safe { Safe V.sense.partial (args_at_row {S = S} a.0) (V.sense.heap v.old) }
    ensures { Meets V.sense (args_at_row a.0) v.old v.new result }
{
    let kind = kind(v, a)?;
    is_args_by(alloc, v, a, kind)
}

/// Whether a key is the string `args`.
#[tactic(auto, using(py_data::proofs::Rows::row_steps), unfolding(crate::specs::Telling::is_args_row))]
fn is_args<S, V: View<S>>(alloc: Global, v: &mut V, key: Value) -> Result<bool, Stop>
    requires live { IsLive V.sense v.old }
    requires safe { Safe V.sense.partial (is_args_row {S = S} key) (V.sense.heap v.old) }
    ensures { Meets V.sense (is_args_row key) v.old v.new result }
{
    match key {
        Value::Ref(a) => is_args_at(alloc, v, a),
        _ => Ok(false),
    }
}

/// The value of the pair of this number, if its key is the one.
#[tactic(auto, using(py_data::proofs::Rows::row_steps, py_data::proofs::Steps::call_steps), unfolding(crate::specs::Telling::value_if_row))]
fn value_if<S, V: View<S>>(v: &mut V, d: Addr, i: usize, is: bool) -> Result<Option<Value>, Stop>
    requires live { IsLive V.sense v.old }
    requires safe { Safe V.sense.partial (value_if_row {S = S} d.0 i is) (V.sense.heap v.old) }
    requires within { i ≤ LENGTH_LIMIT }
    ensures { Meets V.sense (value_if_row d.0 i is) v.old v.new result }
{
    if is {
        let x = look(v, d, 2 * i + 1)?;
        Ok(Some(x))
    } else {
        Ok(None)
    }
}

/// The value of the pair of this number and key, if the key is `args`.
#[tactic(auto, using(py_data::proofs::Rows::row_steps, py_data::proofs::Steps::call_steps), unfolding(crate::specs::Telling::value_by_row))]
fn value_by<S, V: View<S>>(
    alloc: Global,
    v: &mut V,
    d: Addr,
    i: usize,
    key: Value,
) -> Result<Option<Value>, Stop>
    requires live { IsLive V.sense v.old }
    requires safe { Safe V.sense.partial (value_by_row {S = S} d.0 i key) (V.sense.heap v.old) }
    requires within { i ≤ LENGTH_LIMIT }
    ensures { Meets V.sense (value_by_row d.0 i key) v.old v.new result }
{
    let is = is_args(alloc, v, key)?;
    value_if(v, d, i, is)
}

/// The value of the pair of this number, if its key is `args`.
#[tactic(auto, using(py_data::proofs::Rows::row_steps, py_data::proofs::Steps::call_steps), unfolding(crate::specs::Telling::args_pair_row))]
fn args_pair<S, V: View<S>>(
    alloc: Global,
    v: &mut V,
    d: Addr,
    i: usize,
) -> Result<Option<Value>, Stop>
    requires live { IsLive V.sense v.old }
    requires safe { Safe V.sense.partial (args_pair_row {S = S} d.0 i) (V.sense.heap v.old) }
    requires within { i ≤ LENGTH_LIMIT }
    ensures { Meets V.sense (args_pair_row d.0 i) v.old v.new result }
{
    let key = look(v, d, 2 * i)?;
    value_by(alloc, v, d, i, key)
}

/// Whether nothing was found.
fn is_missing(found: &Option<Value>) -> bool
    ensures { result ≡ is_missing found.now }
{
    match found {
        Some(_) => false,
        None => true,
    }
}

/// The value of the first of so many pairs whose key is `args`.
fn args_among<S, V: View<S>>(
    alloc: Global,
    v: &mut V,
    d: Addr,
    n: usize,
) -> Result<Option<Value>, Stop>
    requires live { IsLive V.sense v.old }
    requires safe { Safe V.sense.partial (args_among_row {S = S} d.0 n) (V.sense.heap v.old) }
    requires within { n ≤ LENGTH_LIMIT }
    ensures { Meets V.sense (args_among_row d.0 n) v.old v.new result }
{
    'turns: for i in 0..n {
        let found = args_pair(alloc, v, d, i)?;
        if !is_missing(&found) {
            return Ok(found);
        }
    }
    Ok(None)
}

/// What a dictionary has as `args`.
#[tactic(auto, using(py_data::proofs::Rows::row_steps, py_data::proofs::Steps::call_steps), unfolding(crate::specs::Telling::dict_args_row))]
fn dict_args<S, V: View<S>>(alloc: Global, v: &mut V, d: Addr) -> Result<Option<Value>, Stop>
    requires live { IsLive V.sense v.old }
    requires safe { Safe V.sense.partial (dict_args_row {S = S} d.0) (V.sense.heap v.old) }
    ensures { Meets V.sense (dict_args_row d.0) v.old v.new result }
{
    let n = size(v, d)?;
    args_among(alloc, v, d, n / 2)
}

/// The same of the dictionary that a value is the address of.
#[tactic(auto, using(py_data::proofs::Rows::row_steps), unfolding(crate::specs::Telling::args_in_row))]
fn args_in<S, V: View<S>>(alloc: Global, v: &mut V, dict: Value) -> Result<Option<Value>, Stop>
    requires live { IsLive V.sense v.old }
    requires safe { Safe V.sense.partial (args_in_row {S = S} dict) (V.sense.heap v.old) }
    ensures { Meets V.sense (args_in_row dict) v.old v.new result }
{
    match dict {
        Value::Ref(d) => dict_args(alloc, v, d),
        _ => Ok(None),
    }
}

/// What an instance has itself as `args`.
#[tactic(auto, using(py_data::proofs::Rows::row_steps, py_data::proofs::Steps::call_steps), unfolding(crate::specs::Telling::args_row))]
fn args<S, V: View<S>>(alloc: Global, v: &mut V, a: Addr) -> Result<Option<Value>, Stop>
    requires live { IsLive V.sense v.old }
    requires safe { Safe V.sense.partial (args_row {S = S} a.0) (V.sense.heap v.old) }
    ensures { Meets V.sense (args_row a.0) v.old v.new result }
{
    let dict = look(v, a, 1)?;
    args_in(alloc, v, dict)
}

// ---- what of an exception is told

/// The one item, in quotes where the exception is a KeyError.
#[tactic(auto, using(py_data::proofs::Rows::row_steps, py_data::proofs::Steps::call_steps), unfolding(crate::specs::Telling::part_with_row))]
fn part_with<S, V: View<S>>(v: &mut V, roots: Addr, a: Addr, x: Value) -> Result<Option<Part>, Stop>
    requires live { IsLive V.sense v.old }
    requires safe { Safe V.sense.partial (part_with_row {S = S} roots.0 a.0 x) (V.sense.heap v.old) }
    ensures { Meets V.sense (part_with_row roots.0 a.0 x) v.old v.new result }
{
    let quoted = is_of(v, roots, KEY_ERROR, a)?;
    Ok(Some(Part { quoted, value: x }))
}

/// The same of a tuple of one item.
#[tactic(auto, using(py_data::proofs::Rows::row_steps, py_data::proofs::Steps::call_steps), unfolding(crate::specs::Telling::part_one_row))]
fn part_one<S, V: View<S>>(v: &mut V, roots: Addr, a: Addr, t: Addr) -> Result<Option<Part>, Stop>
    requires live { IsLive V.sense v.old }
    requires safe { Safe V.sense.partial (part_one_row {S = S} roots.0 a.0 t.0) (V.sense.heap v.old) }
    ensures { Meets V.sense (part_one_row roots.0 a.0 t.0) v.old v.new result }
{
    let x = look(v, t, 0)?;
    part_with(v, roots, a, x)
}

/// What is told of a tuple of so many items.
#[tactic(auto, using(py_data::proofs::Rows::row_steps), unfolding(crate::specs::Telling::part_sized_row))]
fn part_sized<S, V: View<S>>(
    v: &mut V,
    roots: Addr,
    a: Addr,
    t: Addr,
    n: usize,
) -> Result<Option<Part>, Stop>
    requires live { IsLive V.sense v.old }
    requires safe { Safe V.sense.partial (part_sized_row {S = S} roots.0 a.0 t.0 n) (V.sense.heap v.old) }
    ensures { Meets V.sense (part_sized_row roots.0 a.0 t.0 n) v.old v.new result }
{
    if n == 0 {
        Ok(None)
    } else if n == 1 {
        part_one(v, roots, a, t)
    } else {
        Ok(Some(Part {
            quoted: true,
            value: Value::Ref(t),
        }))
    }
}

/// What is told of a tuple.
#[tactic(auto, using(py_data::proofs::Rows::row_steps, py_data::proofs::Steps::call_steps), unfolding(crate::specs::Telling::part_tuple_row))]
fn part_tuple<S, V: View<S>>(v: &mut V, roots: Addr, a: Addr, t: Addr) -> Result<Option<Part>, Stop>
    requires live { IsLive V.sense v.old }
    requires safe { Safe V.sense.partial (part_tuple_row {S = S} roots.0 a.0 t.0) (V.sense.heap v.old) }
    ensures { Meets V.sense (part_tuple_row roots.0 a.0 t.0) v.old v.new result }
{
    let n = size(v, t)?;
    part_sized(v, roots, a, t, n)
}

/// What is told of a record of a kind.
#[tactic(auto, using(py_data::proofs::Rows::row_steps), unfolding(crate::specs::Telling::part_by_row))]
fn part_by<S, V: View<S>>(
    v: &mut V,
    roots: Addr,
    a: Addr,
    t: Addr,
    kind: Kind,
) -> Result<Option<Part>, Stop>
    requires live { IsLive V.sense v.old }
    requires safe { Safe V.sense.partial (part_by_row {S = S} roots.0 a.0 t.0 kind) (V.sense.heap v.old) }
    ensures { Meets V.sense (part_by_row roots.0 a.0 t.0 kind) v.old v.new result }
{
    match kind {
        Kind::Tuple => part_tuple(v, roots, a, t),
        _ => Ok(None),
    }
}

/// What is told of a record.
#[tactic(auto, using(py_data::proofs::Rows::row_steps, py_data::proofs::Steps::call_steps), unfolding(crate::specs::Telling::part_at_row))]
fn part_at<S, V: View<S>>(v: &mut V, roots: Addr, a: Addr, t: Addr) -> Result<Option<Part>, Stop>
    requires live { IsLive V.sense v.old }
    requires safe { Safe V.sense.partial (part_at_row {S = S} roots.0 a.0 t.0) (V.sense.heap v.old) }
    ensures { Meets V.sense (part_at_row roots.0 a.0 t.0) v.old v.new result }
{
    let kind = kind(v, t)?;
    part_by(v, roots, a, t, kind)
}

/// What is told of a value that is the attribute `args`.
#[tactic(auto, using(py_data::proofs::Rows::row_steps), unfolding(crate::specs::Telling::part_value_row))]
fn part_value<S, V: View<S>>(
    v: &mut V,
    roots: Addr,
    a: Addr,
    x: Value,
) -> Result<Option<Part>, Stop>
    requires live { IsLive V.sense v.old }
    requires safe { Safe V.sense.partial (part_value_row {S = S} roots.0 a.0 x) (V.sense.heap v.old) }
    ensures { Meets V.sense (part_value_row roots.0 a.0 x) v.old v.new result }
{
    match x {
        Value::Ref(t) => part_at(v, roots, a, t),
        _ => Ok(None),
    }
}

/// What is told where the attribute `args` was looked for.
#[tactic(auto, using(py_data::proofs::Rows::row_steps), unfolding(crate::specs::Telling::part_of_row))]
fn part_of<S, V: View<S>>(
    v: &mut V,
    roots: Addr,
    a: Addr,
    args: Option<Value>,
) -> Result<Option<Part>, Stop>
    requires live { IsLive V.sense v.old }
    requires safe { Safe V.sense.partial (part_of_row {S = S} roots.0 a.0 args) (V.sense.heap v.old) }
    ensures { Meets V.sense (part_of_row roots.0 a.0 args) v.old v.new result }
{
    match args {
        Some(x) => part_value(v, roots, a, x),
        None => Ok(None),
    }
}

/// What of an exception is told: nothing where its own attribute `args` is an empty tuple, is no tuple or isn't there;
/// the one item of a tuple, in quotes where the exception is a KeyError or below it; else the tuple.
#[tactic(auto, using(py_data::proofs::Rows::row_steps, py_data::proofs::Steps::call_steps), unfolding(crate::specs::Telling::told_part_row))]
pub fn told_part<S, V: View<S>>(
    alloc: Global,
    v: &mut V,
    roots: Addr,
    a: Addr,
) -> Result<Option<Part>, Stop>
    requires live { IsLive V.sense v.old }
    requires safe { Safe V.sense.partial (told_part_row {S = S} roots.0 a.0) (V.sense.heap v.old) }
    ensures { Meets V.sense (told_part_row roots.0 a.0) v.old v.new result }
{
    let args = args(alloc, v, a)?;
    part_of(v, roots, a, args)
}
