//! What is measured of a heap, over any view. Each change is a step of its own.
ghost use Rattle.std.specs.Prelude.{◌+◌, ◌*◌, ◌<◌, ◌≤◌, length, IfOk, []};
ghost use Rattle.py_data.specs.declared.record.TheConstants.{LENGTH_LIMIT};
ghost use Rattle.py_base.specs.declared.kind.Kind.TheVariants.{List as ListKind, Dict};
ghost use Rattle.py_data.specs.Heap.{Heap, new_rec};
ghost use Rattle.py_data.specs.Row.{Make};
ghost use Rattle.py_data.specs.Sense.{Asks};
ghost use Rattle.bench_cases.specs.Holds.{HoldsRecord, Holds};

use obj_bench::pairs::zero_pairs;
use py_data::{Addr, Bytes, Kind, LENGTH_LIMIT, Record, Stop, Value, Values, View};
use std::alloc::Global;

/// Makes a record.
fn make<S, V: View<S>>(alloc: Global, v: &mut V, kind: Kind, values: Values) -> Result<Addr, Stop>
    requires { (h : Heap) → Asks {S = S} V.sense.partial (Make (new_rec kind values [])) h }
    ensures { IfOk result (λ a. HoldsRecord V.sense kind a.0 (length values) v.new) }
{
    v.open_step();
    v.make(&Record {
        kind,
        values,
        bytes: Bytes::new(alloc),
    })
}

/// Appends to a list of `n` values the number `n`.
fn append<S, V: View<S>>(v: &mut V, list: Addr, n: u32) -> Result<(), Stop>
    requires list { HoldsRecord V.sense ListKind list.0 n v.old }
    requires below { n < LENGTH_LIMIT }
    ensures { IfOk result (λ _. HoldsRecord V.sense ListKind list.0 (n + 1) v.new) }
{
    v.open_step();
    v.push_val(list, Value::Int(i64::from(n)))
}

/// Sets the value of one of a dictionary's `n` pairs to the pair's number.
fn change<S, V: View<S>>(v: &mut V, dict: Addr, n: u32, place: u32) -> Result<(), Stop>
    requires dict { HoldsRecord V.sense Dict dict.0 (2 * n) v.old }
    requires pair { place < n }
    ensures { IfOk result (λ _. HoldsRecord V.sense Dict dict.0 (2 * n) v.new) }
{
    v.open_step();
    v.set_val(dict, 2 * place as usize + 1, Value::Int(i64::from(place)))
}

/// The number that a value is, and 0 for another value.
fn number(value: Value) -> i64 {
    match value {
        Value::Int(n) => n,
        _ => 0,
    }
}

/// The sum of the numbers among a record's `n` values.
fn sum<S, V: View<S>>(v: &mut V, a: Addr, n: usize) -> Result<i64, Stop>
    requires { Holds V.sense a.0 n v.old }
{
    let mut sum = 0i64;
    for i in 0..n {
        sum = sum.wrapping_add(number(v.val(a, i)?));
    }
    Ok(sum)
}

/// So many appends to one list.
pub fn appends<S, V: View<S>>(alloc: Global, v: &mut V, count: u32) -> Result<i64, Stop>
    requires { count ≤ LENGTH_LIMIT }
{
    let list = make(alloc, v, Kind::List, Values::new(alloc))?;
    for n in 0..count {
        append(v, list, n)?;
    }
    sum(v, list, count as usize)
}

/// So many changes of the values of one dictionary, which has so many pairs.
pub fn changes<S, V: View<S>>(alloc: Global, v: &mut V, count: u32) -> Result<i64, Stop>
    requires { 2 * count ≤ LENGTH_LIMIT }
{
    let values = zero_pairs(alloc, count)?;
    let dict = make(alloc, v, Kind::Dict, values)?;
    for place in 0..count {
        change(v, dict, count, place)?;
    }
    sum(v, dict, 2 * count as usize)
}
