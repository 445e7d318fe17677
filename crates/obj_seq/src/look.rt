//! Items and slices of lists and tuples.
ghost use Rattle.std.specs.Prelude.{◌≡◌, ◌≤◌, length};
ghost use Rattle.py_data.specs.Sense.{Meets, Safe, IsLive};
ghost use Rattle.py_data.specs.Row.{Ret};
ghost use Rattle.py_data.specs.inner.Rest.{Stands};
ghost use Rattle.py_data.specs.Heap.{at};
ghost use Rattle.obj_seq.specs.Seq.{item_row, slice_row, part};

use crate::place::{bound_or, place_of};
use py_data::exception::{INDEX_ERROR, raise};
use py_data::{Addr, Bytes, Got, Record, Stop, Value, Values, View};
use std::alloc::Global;

/// The item of a list or tuple at an index. A negative index counts from the end. IndexError where no item has it.
#[tactic(auto, using(py_data::proofs::Rows::row_steps, crate::proofs::Places::place_steps))]
pub fn item<S, V: View<S>>(alloc: Global, v: &mut V, a: Addr, i: i64) -> Result<Got<Value>, Stop>
    requires live { IsLive V.sense v.old }
    requires safe { Safe V.sense.partial (item_row {S = S} a.0 i) (V.sense.heap v.old) }
    ensures { Meets V.sense (item_row a.0 i) v.old v.new result }
{
    let n = v.len(a)?;
    match place_of(i, n) {
        Some(k) => Ok(Got::Is(v.val(a, k)?)),
        None => raise(alloc, INDEX_ERROR, b"index out of range"),
    }
}

/// The items from place `i` up to place `j` of a record that was looked at.
pub fn collect<S, V: View<S>>(
    alloc: Global,
    v: &mut V,
    a: Addr,
    i: usize,
    j: usize,
) -> Result<Values, Stop>
    requires live { IsLive V.sense v.old }
    requires stands { Stands V.sense a.0 (at (V.sense.heap v.old) a.0) v.old }
    requires within { j ≤ length (at (V.sense.heap v.old) a.0).values }
    ensures { Meets V.sense (Ret (part (at (V.sense.heap v.old) a.0).values i j)) v.old v.new result }
{
    let mut values = Values::new(alloc);
    'turns: for k in i..j {
        values.push(v.val(a, k)?)?;
    }
    Ok(values)
}

/// A new list or tuple of the items from one bound up to another. A negative bound counts from the end, a bound is cut
/// to what there is, and a missing one is the first place or the end.
#[tactic(auto, using(py_data::proofs::Rows::row_steps))]
pub fn slice<S, V: View<S>>(
    alloc: Global,
    v: &mut V,
    a: Addr,
    from: Option<i64>,
    to: Option<i64>,
) -> Result<Got<Value>, Stop>
    requires live { IsLive V.sense v.old }
    requires safe { Safe V.sense.partial (slice_row {S = S} a.0 from to) (V.sense.heap v.old) }
    ensures { Meets V.sense (slice_row a.0 from to) v.old v.new result }
{
    let kind = v.kind(a)?;
    let n = v.len(a)?;
    let values = collect(alloc, v, a, bound_or(from, 0, n), bound_or(to, n, n))?;
    let made = Record {
        kind,
        values,
        bytes: Bytes::new(alloc),
    };
    Ok(Got::Is(Value::Ref(v.make(&made)?)))
}
