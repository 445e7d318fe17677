//! Going through lists, tuples, strings, dictionaries and ranges.
ghost use Rattle.std.specs.Prelude.{◌≡◌, ◌≢◌, ◌<◌, ◌^◌, pos, IfOk, IfSome};
ghost use Rattle.py_data.specs.declared.value.Value.TheVariants.{Ref};
ghost use Rattle.py_data.specs.Sense.{Meets, Safe, IsLive, Asks, Shows};
ghost use Rattle.py_data.specs.Row.{Read};
ghost use Rattle.py_data.specs.Range.{range_length};
ghost use Rattle.obj_seq.specs.Iter.{iter_row, make_iter_row, iter_values, count_of, count_span, is_iter};

use crate::span::{Span, span_in, three_in};
use py_data::exception::{TYPE_ERROR, raise};
use py_data::{Addr, Bytes, Got, Kind, NoMemory, Record, Stop, Value, Values, View};
use std::alloc::Global;

/// The values of an iterator's record.
fn iter_values(alloc: Global, over: Addr, at: u64, count: u64) -> Result<Values, NoMemory>
    requires at { at < 2 ^ 63 }
    requires count { count < 2 ^ 63 }
    ensures { IfOk result (λ vs. vs ≡ iter_values over.0 at count) }
{
    let mut values = Values::new(alloc);
    values.push(Value::Ref(over))?;
    values.push(Value::Int(at as i64))?;
    values.push(Value::Int(count as i64))?;
    Ok(values)
}

/// How many numbers a range has.
fn count_span(span: Option<Span>) -> Option<u64>
    requires some { IfSome span (λ s. s.step ≢ pos 0) }
    requires within { IfSome span (λ s. range_length s.start s.stop s.step < 2 ^ 63) }
    ensures value { result ≡ count_span span }
    ensures fits { IfSome result (λ n. n < 2 ^ 63) }
{
    match span {
        Some(span) => Some(span.count()),
        None => None,
    }
}

/// The length of a record that can be gone through: of its items, its bytes, its pairs or its numbers.
#[tactic(auto, using(py_data::proofs::Rows::row_steps, crate::proofs::Heads::three_of_head))]
fn count<S, V: View<S>>(v: &mut V, a: Addr) -> Result<Option<u64>, Stop>
    requires live { IsLive V.sense v.old }
    requires there { Asks {S = S} V.sense.partial (Read a.0) (V.sense.heap v.old) }
    ensures shows { Shows V.sense a.0 (λ r. count_of r.kind r.values r.bytes) v.old v.new result }
    ensures fits { IfOk result (λ o. IfSome o (λ n. n < 2 ^ 63)) }
{
    let head = v.head(a)?;
    match head.kind {
        Kind::List | Kind::Tuple => Ok(Some(head.count as u64)),
        Kind::Str => Ok(Some(v.byte_len(a)? as u64)),
        Kind::Dict => Ok(Some((head.count / 2) as u64)),
        Kind::Range => Ok(count_span(span_in(three_in(head)))),
        _ => Ok(None),
    }
}

fn is_iter(kind: Kind) -> bool
    ensures { result ≡ is_iter kind }
{
    matches!(kind, Kind::Iter)
}

/// A new iterator over a record with a length, if that can be gone through.
#[tactic(auto, using(py_data::proofs::Rows::row_steps), unfolding(crate::specs::Iter::make_iter_row))]
fn iter_of<S, V: View<S>>(
    alloc: Global,
    v: &mut V,
    a: Addr,
    count: Option<u64>,
) -> Result<Got<Value>, Stop>
    requires live { IsLive V.sense v.old }
    requires fits { IfSome count (λ n. n < 2 ^ 63) }
    requires safe { Safe V.sense.partial (make_iter_row {S = S} a.0 count) (V.sense.heap v.old) }
    ensures { Meets V.sense (make_iter_row a.0 count) v.old v.new result }
{
    match count {
        Some(n) => {
            let made = Record {
                kind: Kind::Iter,
                values: iter_values(alloc, a, 0, n)?,
                bytes: Bytes::new(alloc),
            };
            Ok(Got::Is(Value::Ref(v.make(&made)?)))
        }
        None => raise(alloc, TYPE_ERROR, b"not iterable"),
    }
}

/// A new iterator over a record, or the record itself where it is one.
#[tactic(auto, using(py_data::proofs::Rows::row_steps))]
fn iter_over<S, V: View<S>>(alloc: Global, v: &mut V, a: Addr) -> Result<Got<Value>, Stop>
    requires live { IsLive V.sense v.old }
    requires safe { Safe V.sense.partial (iter_row {S = S} (Ref a)) (V.sense.heap v.old) }
    ensures { Meets V.sense (iter_row (Ref a)) v.old v.new result }
{
    let kind = v.kind(a)?;
    if is_iter(kind) {
        return Ok(Got::Is(Value::Ref(a)));
    }
    let count = count(v, a)?;
    iter_of(alloc, v, a, count)
}

/// An iterator over a list, a tuple, a string, a dictionary (its keys) or a range, at its start; of an iterator it is
/// the iterator itself. TypeError for any other value.
#[tactic(auto, using(py_data::proofs::Rows::row_steps))]
pub fn make_iter<S, V: View<S>>(alloc: Global, v: &mut V, x: Value) -> Result<Got<Value>, Stop>
    requires live { IsLive V.sense v.old }
    requires safe { Safe V.sense.partial (iter_row {S = S} x) (V.sense.heap v.old) }
    ensures { Meets V.sense (iter_row x) v.old v.new result }
{
    match x {
        Value::Ref(a) => iter_over(alloc, v, a),
        _ => raise(alloc, TYPE_ERROR, b"not iterable"),
    }
}
