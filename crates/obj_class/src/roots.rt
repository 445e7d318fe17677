//! The list of roots: the classes that every program has.
ghost use Rattle.std.specs.Prelude.{◌≡◌, IfOk, [], ◌∷◌, ◌++◌, get_or};
ghost use Rattle.py_base.specs.Numbers.{class_count, class_names, class_number};
ghost use Rattle.py_data.specs.Heap.{value_at};
ghost use Rattle.py_data.specs.Sense.{Meets, Safe, IsLive};
ghost use Rattle.obj_class.specs.NewRoots.{class_of_row, new_class_row, next_root_row, roots_behind_row, roots_from, roots_listed_row, roots_row};
ghost use Rattle.obj_class.specs.Roots.{base_names, own_name, root_base};

use crate::making::{make_record, make_text, one, three};
use py_base::class_name;
use py_data::exception::{
    ARITHMETIC_ERROR, BASE_EXCEPTION, COUNT, EXCEPTION, LOOKUP_ERROR, NAME_ERROR, OBJECT,
    STANDARD_ERROR, THREAD_ERROR,
};
use py_data::{Addr, Bytes, Kind, NoMemory, Record, Stop, Value, Values, View};
use std::alloc::Global;

/// The number of the base of each class, in the order of the classes' numbers; `object` has none.
const BASES: [u8; 20] = [
    OBJECT,
    OBJECT,
    BASE_EXCEPTION,
    EXCEPTION,
    STANDARD_ERROR,
    STANDARD_ERROR,
    STANDARD_ERROR,
    STANDARD_ERROR,
    STANDARD_ERROR,
    STANDARD_ERROR,
    STANDARD_ERROR,
    STANDARD_ERROR,
    STANDARD_ERROR,
    STANDARD_ERROR,
    ARITHMETIC_ERROR,
    ARITHMETIC_ERROR,
    LOOKUP_ERROR,
    LOOKUP_ERROR,
    NAME_ERROR,
    EXCEPTION,
];

/// The name of a class.
fn name_of(n: u8) -> &'static [u8]
    ensures { result.now ≡ get_or class_names n [] }
{
    match class_name(n) {
        Some(name) => name,
        None => b"",
    }
}

/// The name that a class has itself.
pub fn own_name(n: u8) -> &'static [u8]
    ensures { result.now ≡ own_name n }
{
    if n == THREAD_ERROR {
        b"error"
    } else {
        name_of(n)
    }
}

/// The number of a class's base, and 0 for a number that no class has.
fn base_number(n: u8) -> u8
    ensures { result ≡ class_number (get_or base_names n []) }
{
    if (n as usize) < BASES.len() {
        BASES[n as usize]
    } else {
        OBJECT
    }
}

/// The value at a place; Unset where there is none.
#[tactic(auto, using(py_data::proofs::Looked::value_past))]
fn value_at(values: &Values, i: usize) -> Value
    ensures { result ≡ value_at values.now i }
{
    if i < values.len() {
        values.at(i)
    } else {
        Value::Unset
    }
}

/// The base of a class, among the roots before it.
pub fn root_base(values: &Values, n: u8) -> Value
    ensures { result ≡ root_base values.now n }
{
    if n == OBJECT {
        Value::None
    } else {
        value_at(values, 1 + base_number(n) as usize)
    }
}

/// Makes a class without attributes, whose name is at hand.
#[tactic(auto, using(py_data::proofs::Rows::row_steps, py_data::proofs::Steps::call_steps), unfolding(crate::specs::NewRoots::class_of_row))]
fn class_of<S, V: View<S>>(
    alloc: Global,
    v: &mut V,
    base: Value,
    name: Value,
) -> Result<Value, Stop>
    requires live { IsLive V.sense v.old }
    requires safe { Safe V.sense.partial (class_of_row {S = S} base name) (V.sense.heap v.old) }
    ensures { Meets V.sense (class_of_row base name) v.old v.new result }
{
    let dict = make_record(alloc, v, Kind::Dict, Values::new(alloc))?;
    make_record(alloc, v, Kind::Class, three(alloc, name, base, dict)?)
}

/// Makes a class without attributes.
#[tactic(auto, using(py_data::proofs::Rows::row_steps, py_data::proofs::Steps::call_steps), unfolding(crate::specs::NewRoots::new_class_row))]
fn new_class<S, V: View<S>>(
    alloc: Global,
    v: &mut V,
    base: Value,
    text: &[u8],
) -> Result<Value, Stop>
    requires live { IsLive V.sense v.old }
    requires safe { Safe V.sense.partial (new_class_row {S = S} base text.now) (V.sense.heap v.old) }
    ensures { Meets V.sense (new_class_row base text.now) v.old v.new result }
{
    let name = make_text(alloc, v, text)?;
    class_of(alloc, v, base, name)
}

/// The values, and one more behind them.
fn with_one(values: Values, x: Value) -> Result<Values, NoMemory>
    ensures { IfOk result (λ vs. vs ≡ values ++ x ∷ []) }
{
    let mut all = values;
    all.push(x)?;
    Ok(all)
}

/// Makes the class of a number, behind those before it.
#[tactic(auto, using(py_data::proofs::Rows::row_steps, py_data::proofs::Steps::call_steps), unfolding(crate::specs::NewRoots::next_root_row))]
fn next_root<S, V: View<S>>(alloc: Global, v: &mut V, n: u8, values: Values) -> Result<Values, Stop>
    requires live { IsLive V.sense v.old }
    requires safe { Safe V.sense.partial (next_root_row {S = S} n values) (V.sense.heap v.old) }
    ensures { Meets V.sense (next_root_row n values) v.old v.new result }
{
    let class = new_class(alloc, v, root_base(&values, n), own_name(n))?;
    Ok(with_one(values, class)?)
}

/// Makes all classes behind a first value.
fn classes<S, V: View<S>>(alloc: Global, v: &mut V, first: Values) -> Result<Values, Stop>
    requires live { IsLive V.sense v.old }
    requires safe { Safe V.sense.partial (roots_from {S = S} 0 class_count first) (V.sense.heap v.old) }
    ensures { Meets V.sense (roots_from 0 class_count first) v.old v.new result }
{
    let mut values = first;
    'turns: for n in 0..COUNT {
        let next = next_root(alloc, v, n, values)?;
        values = next;
    }
    Ok(values)
}

/// Makes the list of the roots.
#[tactic(auto, using(py_data::proofs::Rows::row_steps), unfolding(crate::specs::NewRoots::roots_listed_row))]
fn listed<S, V: View<S>>(alloc: Global, v: &mut V, values: Values) -> Result<Addr, Stop>
    requires live { IsLive V.sense v.old }
    requires safe { Safe V.sense.partial (roots_listed_row {S = S} values) (V.sense.heap v.old) }
    ensures { Meets V.sense (roots_listed_row values) v.old v.new result }
{
    let made = Record {
        kind: Kind::Tuple,
        values,
        bytes: Bytes::new(alloc),
    };
    let a = v.make(&made)?;
    Ok(a)
}

/// Makes the classes and the list of the roots, behind the Cell.
#[tactic(auto, using(py_data::proofs::Rows::row_steps, py_data::proofs::Steps::call_steps), unfolding(crate::specs::NewRoots::roots_behind_row))]
fn roots_behind<S, V: View<S>>(alloc: Global, v: &mut V, cell: Value) -> Result<Addr, Stop>
    requires live { IsLive V.sense v.old }
    requires safe { Safe V.sense.partial (roots_behind_row {S = S} cell) (V.sense.heap v.old) }
    ensures { Meets V.sense (roots_behind_row cell) v.old v.new result }
{
    let first = one(alloc, cell)?;
    let values = classes(alloc, v, first)?;
    listed(alloc, v, values)
}

/// Makes the list of the roots of a program, and answers its address: the Cell of the count of threads, which is 1, and
/// the classes that every program has, in the order of their numbers. 62 records are made.
#[tactic(auto, using(py_data::proofs::Rows::row_steps, py_data::proofs::Steps::call_steps), unfolding(crate::specs::NewRoots::roots_row))]
pub fn make_roots<S, V: View<S>>(alloc: Global, v: &mut V) -> Result<Addr, Stop>
    requires live { IsLive V.sense v.old }
    requires safe { Safe V.sense.partial (roots_row {S = S}) (V.sense.heap v.old) }
    ensures { Meets V.sense roots_row v.old v.new result }
{
    let cell = make_record(alloc, v, Kind::Cell, one(alloc, Value::Int(1))?)?;
    roots_behind(alloc, v, cell)
}
