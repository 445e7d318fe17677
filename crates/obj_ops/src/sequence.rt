//! Sequences and strings that are joined and repeated.
ghost use Rattle.std.specs.Prelude.{◌≡◌, ◌≤◌, ◌+◌, ◌*◌, ◌++◌, IfOk, length, leb};
ghost use Rattle.std.specs.List.{repeat};
ghost use Rattle.py_data.specs.declared.record.TheConstants.{LENGTH_LIMIT};
ghost use Rattle.py_data.specs.Heap.{at};
ghost use Rattle.py_data.specs.Row.{Ret};
ghost use Rattle.py_data.specs.inner.Rest.{Stands};
ghost use Rattle.py_data.specs.Sense.{Meets, Safe, IsLive};
ghost use Rattle.obj_ops.specs.Sequences.{values_row, made_row, new_items, joined_with, joined_items, joined_text_with, joined_texts, times, repeated_items, new_repeated, repeated_text};

use obj_str::{bytes_of, make_str, too_long};
use py_data::{
    Addr, Bytes, Got, Items, Kind, LENGTH_LIMIT, NoMemory, Record, Stop, Value, Values, View,
};
use std::alloc::Global;

/// The values of a record of `n` values, which was looked at.
fn collect<S, V: View<S>>(alloc: Global, v: &mut V, a: Addr, n: usize) -> Result<Values, Stop>
    requires live { IsLive V.sense v.old }
    requires stands { Stands V.sense a.0 (at (V.sense.heap v.old) a.0) v.old }
    requires count { length (at (V.sense.heap v.old) a.0).values ≡ n }
    ensures met { Meets V.sense (Ret (at (V.sense.heap v.old) a.0).values) v.old v.new result }
    ensures fits { IfOk result (λ xs. length xs ≡ n) }
{
    let mut values = Values::new(alloc);
    'turns: for i in 0..n {
        let x = v.val(a, i)?;
        values.push(x)?;
    }
    Ok(values)
}

/// The values of a record.
#[tactic(auto, using(py_data::proofs::Rows::row_steps), unfolding(crate::specs::Sequences::values_row))]
pub fn values_of<S, V: View<S>>(alloc: Global, v: &mut V, a: Addr) -> Result<Values, Stop>
    requires live { IsLive V.sense v.old }
    requires safe { Safe V.sense.partial (values_row {S = S} a.0) (V.sense.heap v.old) }
    ensures met { Meets V.sense (values_row a.0) v.old v.new result }
    ensures fits { IfOk result (λ xs. length xs ≤ LENGTH_LIMIT) }
{
    let n = v.len(a)?;
    collect(alloc, v, a, n)
}

/// Makes a record of that kind, of these values. There may be no more than `LENGTH_LIMIT` of them.
#[tactic(auto, using(py_data::proofs::Rows::row_steps), unfolding(crate::specs::Sequences::made_row))]
pub fn make_items<S, V: View<S>>(
    alloc: Global,
    v: &mut V,
    kind: Kind,
    values: Values,
) -> Result<Got<Value>, Stop>
    requires live { IsLive V.sense v.old }
    requires safe { Safe V.sense.partial (made_row {S = S} kind values) (V.sense.heap v.old) }
    ensures { Meets V.sense (made_row kind values) v.old v.new result }
{
    let made = Record {
        kind,
        values,
        bytes: Bytes::new(alloc),
    };
    Ok(Got::Is(Value::Ref(v.make(&made)?)))
}

/// The one list and then the other.
fn append<T: Copy + Drop>(xs: Items<T>, ys: &[T]) -> Result<Items<T>, NoMemory>
    ensures { IfOk result (λ zs. zs ≡ xs ++ ys.now) }
{
    let mut all = xs;
    all.extend_from_slice(ys)?;
    Ok(all)
}

/// Makes a record of the values of two lists.
#[tactic(auto, using(py_data::proofs::Rows::row_steps), unfolding(crate::specs::Sequences::new_items))]
fn append_items<S, V: View<S>>(
    alloc: Global,
    v: &mut V,
    k: Kind,
    xs: Values,
    ys: Values,
) -> Result<Got<Value>, Stop>
    requires live { IsLive V.sense v.old }
    requires left { length xs ≤ LENGTH_LIMIT }
    requires right { length ys ≤ LENGTH_LIMIT }
    requires safe { Safe V.sense.partial (new_items {S = S} k (length xs + length ys) (xs ++ ys)) (V.sense.heap v.old) }
    ensures { Meets V.sense (new_items k (length xs + length ys) (xs ++ ys)) v.old v.new result }
{
    if xs.len() + ys.len() <= LENGTH_LIMIT {
        let all = append(xs, ys.as_slice())?;
        make_items(alloc, v, k, all)
    } else {
        Ok(too_long())
    }
}

/// Joins these values and those of a record.
#[tactic(auto, using(py_data::proofs::Rows::row_steps, py_data::proofs::Steps::call_steps), unfolding(crate::specs::Sequences::joined_with))]
fn join_with<S, V: View<S>>(
    alloc: Global,
    v: &mut V,
    k: Kind,
    xs: Values,
    b: Addr,
) -> Result<Got<Value>, Stop>
    requires live { IsLive V.sense v.old }
    requires left { length xs ≤ LENGTH_LIMIT }
    requires safe { Safe V.sense.partial (joined_with {S = S} k xs b.0) (V.sense.heap v.old) }
    ensures { Meets V.sense (joined_with k xs b.0) v.old v.new result }
{
    let ys = values_of(alloc, v, b)?;
    append_items(alloc, v, k, xs, ys)
}

/// A new sequence of the items of two. MemoryError, before anything is made, where they are more than `LENGTH_LIMIT`.
#[tactic(auto, using(py_data::proofs::Rows::row_steps, py_data::proofs::Steps::call_steps), unfolding(crate::specs::Sequences::joined_items))]
pub fn join_items<S, V: View<S>>(
    alloc: Global,
    v: &mut V,
    k: Kind,
    a: Addr,
    b: Addr,
) -> Result<Got<Value>, Stop>
    requires live { IsLive V.sense v.old }
    requires safe { Safe V.sense.partial (joined_items {S = S} k a.0 b.0) (V.sense.heap v.old) }
    ensures { Meets V.sense (joined_items k a.0 b.0) v.old v.new result }
{
    let xs = values_of(alloc, v, a)?;
    join_with(alloc, v, k, xs, b)
}

/// Joins these bytes and those of a string.
#[tactic(auto, using(py_data::proofs::Rows::row_steps, py_data::proofs::Steps::call_steps), unfolding(crate::specs::Sequences::joined_text_with))]
fn join_text_with<S, V: View<S>>(
    alloc: Global,
    v: &mut V,
    xs: Bytes,
    b: Addr,
) -> Result<Got<Value>, Stop>
    requires live { IsLive V.sense v.old }
    requires safe { Safe V.sense.partial (joined_text_with {S = S} xs b.0) (V.sense.heap v.old) }
    ensures { Meets V.sense (joined_text_with xs b.0) v.old v.new result }
{
    let ys = bytes_of(alloc, v, b)?;
    let all = append(xs, ys.as_slice())?;
    make_str(alloc, v, all.as_slice())
}

/// A new string of the bytes of two. MemoryError, before anything is made, where they are more than `LENGTH_LIMIT`.
#[tactic(auto, using(py_data::proofs::Rows::row_steps, py_data::proofs::Steps::call_steps), unfolding(crate::specs::Sequences::joined_texts))]
pub fn join_texts<S, V: View<S>>(
    alloc: Global,
    v: &mut V,
    a: Addr,
    b: Addr,
) -> Result<Got<Value>, Stop>
    requires live { IsLive V.sense v.old }
    requires safe { Safe V.sense.partial (joined_texts {S = S} a.0 b.0) (V.sense.heap v.old) }
    ensures { Meets V.sense (joined_texts a.0 b.0) v.old v.new result }
{
    let text = bytes_of(alloc, v, a)?;
    let xs = text.to_bytes(alloc)?;
    join_text_with(alloc, v, xs, b)
}

/// How often a sequence is repeated: not at all, where the number is negative.
pub fn times(n: i64) -> u64
    ensures { result ≡ times n }
{
    if n < 0 { 0 } else { n as u64 }
}

/// So many times so many are no more than a record may have.
fn is_short(n: u64, m: usize) -> bool
    ensures { result ≡ leb (n * m) LENGTH_LIMIT }
{
    match n.checked_mul(m as u64) {
        Some(all) => all <= LENGTH_LIMIT as u64,
        None => false,
    }
}

/// A list so often.
fn repeat<T: Copy + Drop>(alloc: Global, xs: &[T], n: u64) -> Result<Items<T>, NoMemory>
    ensures { IfOk result (λ zs. zs ≡ repeat n xs.now) }
{
    let mut all = Items::new(alloc);
    if xs.len() == 0 {
        return Ok(all);
    }
    'turns: for _ in 0..n {
        all.extend_from_slice(xs)?;
    }
    Ok(all)
}

/// Makes a record of a list's values so often.
#[tactic(auto, using(py_data::proofs::Rows::row_steps), unfolding(crate::specs::Sequences::new_items))]
fn repeat_values<S, V: View<S>>(
    alloc: Global,
    v: &mut V,
    k: Kind,
    n: u64,
    xs: Values,
) -> Result<Got<Value>, Stop>
    requires live { IsLive V.sense v.old }
    requires safe { Safe V.sense.partial (new_items {S = S} k (n * length xs) (repeat n xs)) (V.sense.heap v.old) }
    ensures { Meets V.sense (new_items k (n * length xs) (repeat n xs)) v.old v.new result }
{
    if is_short(n, xs.len()) {
        let all = repeat(alloc, xs.as_slice(), n)?;
        make_items(alloc, v, k, all)
    } else {
        Ok(too_long())
    }
}

/// A new sequence of the items of one, so often. MemoryError, before anything is made, where they are more than
/// `LENGTH_LIMIT`.
#[tactic(auto, using(py_data::proofs::Rows::row_steps, py_data::proofs::Steps::call_steps), unfolding(crate::specs::Sequences::repeated_items))]
pub fn repeat_items<S, V: View<S>>(
    alloc: Global,
    v: &mut V,
    k: Kind,
    a: Addr,
    n: u64,
) -> Result<Got<Value>, Stop>
    requires live { IsLive V.sense v.old }
    requires safe { Safe V.sense.partial (repeated_items {S = S} k a.0 n) (V.sense.heap v.old) }
    ensures { Meets V.sense (repeated_items k a.0 n) v.old v.new result }
{
    let xs = values_of(alloc, v, a)?;
    repeat_values(alloc, v, k, n, xs)
}

/// Makes a string of bytes so often.
#[tactic(auto, using(py_data::proofs::Rows::row_steps), unfolding(crate::specs::Sequences::new_repeated))]
fn repeat_bytes<S, V: View<S>>(
    alloc: Global,
    v: &mut V,
    n: u64,
    bs: &[u8],
) -> Result<Got<Value>, Stop>
    requires live { IsLive V.sense v.old }
    requires safe { Safe V.sense.partial (new_repeated {S = S} n bs.now) (V.sense.heap v.old) }
    ensures { Meets V.sense (new_repeated n bs.now) v.old v.new result }
{
    if is_short(n, bs.len()) {
        let all = repeat(alloc, bs, n)?;
        make_str(alloc, v, all.as_slice())
    } else {
        Ok(too_long())
    }
}

/// A new string of the bytes of one, so often. MemoryError, before anything is made, where they are more than
/// `LENGTH_LIMIT`.
#[tactic(auto, using(py_data::proofs::Rows::row_steps, py_data::proofs::Steps::call_steps), unfolding(crate::specs::Sequences::repeated_text))]
pub fn repeat_text<S, V: View<S>>(
    alloc: Global,
    v: &mut V,
    a: Addr,
    n: u64,
) -> Result<Got<Value>, Stop>
    requires live { IsLive V.sense v.old }
    requires safe { Safe V.sense.partial (repeated_text {S = S} a.0 n) (V.sense.heap v.old) }
    ensures { Meets V.sense (repeated_text a.0 n) v.old v.new result }
{
    let bs = bytes_of(alloc, v, a)?;
    repeat_bytes(alloc, v, n, bs.as_slice())
}
