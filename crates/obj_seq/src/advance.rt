//! The next item of an iterator.
ghost use Rattle.std.specs.Prelude.{◌≡◌, ◌≢◌, ◌<◌, ◌+◌, ◌^◌, length, slice_get, pos, [], ◌∷◌, IfOk, IfSome};
ghost use Rattle.py_base.specs.declared.kind.Kind.TheVariants.{Str};
ghost use Rattle.py_data.specs.Sense.{Meets, Safe, IsLive, Asks, Shows};
ghost use Rattle.py_data.specs.Made.{rec_of};
ghost use Rattle.py_data.specs.Heap.{new_rec};
ghost use Rattle.py_data.specs.Row.{Read, Do};
ghost use Rattle.py_data.specs.Range.{range_length};
ghost use Rattle.obj_seq.specs.Iter.{next_row, next_by, next_with, next_over, go_or_end, byte_or_end, iter_parts, number_in, parts_in};
ghost use Rattle.obj_seq.specs.inner.Heads.{ahead_of, key_ahead, LeavesRoom};

use crate::range::{range_item, range_length};
use crate::span::{Span, read_span, three_in};
use py_data::exception::{RUNTIME_ERROR, TYPE_ERROR, raise};
use py_data::{Addr, Bytes, Got, Kind, LENGTH_LIMIT, NoMemory, Record, Stop, Value, Values, View};
use std::alloc::Global;

/// What an iterator's record says: what it goes over, its place, and the length at its start.
#[derive(Clone, Copy)]
pub struct Parts {
    pub over: Addr,
    pub at: u64,
    pub count: u64,
}

/// What three values say of an iterator.
fn parts_in(values: Option<(Value, Value, Value)>) -> Option<Parts>
    ensures value { result ≡ parts_in values }
    ensures fits { IfSome result (λ p. p.at < 2 ^ 63) }
{
    match values {
        Some((Value::Ref(over), Value::Int(at), Value::Int(count))) => {
            if at >= 0 && count >= 0 {
                Some(Parts {
                    over,
                    at: at as u64,
                    count: count as u64,
                })
            } else {
                None
            }
        }
        _ => None,
    }
}

/// What a record says, if it is an iterator.
#[tactic(auto, using(py_data::proofs::Rows::row_steps, crate::proofs::Heads::three_of_head))]
fn read_parts<S, V: View<S>>(v: &mut V, it: Addr) -> Result<Option<Option<Parts>>, Stop>
    requires live { IsLive V.sense v.old }
    requires there { Asks {S = S} V.sense.partial (Read it.0) (V.sense.heap v.old) }
    ensures fits { IfOk result (λ q. IfSome q (λ o. IfSome o (λ p. p.at < 2 ^ 63))) }
    ensures shows { Shows V.sense it.0 (λ q. iter_parts q.kind q.values) v.old v.new result }
{
    let head = v.head(it)?;
    match head.kind {
        Kind::Iter => Ok(Some(parts_in(three_in(head)))),
        _ => Ok(None),
    }
}

/// The byte at a place of a string, if it has that place.
#[tactic(auto, using(py_data::proofs::Rows::row_steps))]
fn byte_at<S, V: View<S>>(v: &mut V, a: Addr, at: u64) -> Result<Option<u8>, Stop>
    requires live { IsLive V.sense v.old }
    requires there { Asks {S = S} V.sense.partial (Read a.0) (V.sense.heap v.old) }
    ensures shows { Shows V.sense a.0 (λ r. slice_get r.bytes at) v.old v.new result }
    ensures fits { IfOk result (λ o. IfSome o (λ _. at < LENGTH_LIMIT)) }
{
    let n = v.byte_len(a)?;
    if at < n as u64 {
        let mut byte = [0];
        v.copy_bytes(a, at as usize, &mut byte)?;
        Ok(Some(byte[0]))
    } else {
        Ok(None)
    }
}

/// The number of a range at a place.
fn number_in(span: Option<Span>, at: u64) -> Option<Value>
    requires some { IfSome span (λ s. s.step ≢ pos 0) }
    requires within { IfSome span (λ s. range_length s.start s.stop s.step < 2 ^ 63) }
    ensures value { result ≡ number_in span at }
    ensures fits { IfSome result (λ _. at + 1 < 2 ^ 63) }
{
    match span {
        Some(Span { start, stop, step }) => {
            if at < range_length(start, stop, step) {
                Some(Value::Int(range_item(start, stop, step, at)))
            } else {
                None
            }
        }
        None => None,
    }
}

/// What an iterator comes to, as far as one look at what it goes over tells.
#[derive(Clone, Copy)]
enum Ahead {
    Text,
    Changed,
    Item(Option<Value>),
}

/// The value of a record at a place, if it has that place, by its count.
#[tactic(auto, using(py_data::proofs::Rows::row_steps))]
fn counted_item<S, V: View<S>>(v: &mut V, a: Addr, at: u64) -> Result<Option<Value>, Stop>
    requires live { IsLive V.sense v.old }
    requires there { Asks {S = S} V.sense.partial (Read a.0) (V.sense.heap v.old) }
    ensures shows { Shows V.sense a.0 (λ r. slice_get r.values at) v.old v.new result }
    ensures fits { IfOk result (λ o. IfSome o (λ _. at < LENGTH_LIMIT)) }
{
    let n = v.len(a)?;
    if at < n as u64 {
        Ok(Some(v.val(a, at as usize)?))
    } else {
        Ok(None)
    }
}

/// The value of a record at a place, if it has that place. One that holds something tells that it is there.
#[tactic(auto, using(py_data::proofs::Rows::row_steps))]
fn item_at<S, V: View<S>>(v: &mut V, a: Addr, at: u64) -> Result<Option<Value>, Stop>
    requires live { IsLive V.sense v.old }
    requires there { Asks {S = S} V.sense.partial (Read a.0) (V.sense.heap v.old) }
    ensures shows { Shows V.sense a.0 (λ r. slice_get r.values at) v.old v.new result }
    ensures fits { IfOk result (λ o. IfSome o (λ _. at < LENGTH_LIMIT)) }
{
    if at < LENGTH_LIMIT as u64 {
        match v.find_val(a, at as usize)? {
            Value::Unset => counted_item(v, a, at),
            x => Ok(Some(x)),
        }
    } else {
        counted_item(v, a, at)
    }
}

/// The key of a dictionary's pair at a place, which had so many pairs at its start.
#[tactic(auto, using(py_data::proofs::Rows::row_steps))]
fn key_at<S, V: View<S>>(v: &mut V, a: Addr, at: u64, count: u64) -> Result<Ahead, Stop>
    requires live { IsLive V.sense v.old }
    requires there { Asks {S = S} V.sense.partial (Read a.0) (V.sense.heap v.old) }
    requires fits { at < 2 ^ 63 }
    ensures shows { Shows V.sense a.0 (λ r. key_ahead r.values at count) v.old v.new result }
    ensures fits { IfOk result (λ x. LeavesRoom x at) }
{
    let n = v.len(a)? as u64;
    if n / 2 != count {
        Ok(Ahead::Changed)
    } else if 2 * at < n {
        Ok(Ahead::Item(Some(v.val(a, (2 * at) as usize)?)))
    } else {
        Ok(Ahead::Item(None))
    }
}

/// What an iterator comes to at a place of a record, which had so many pairs at its start if it is a dictionary.
#[tactic(auto, using(py_data::proofs::Rows::row_steps))]
fn look_ahead<S, V: View<S>>(v: &mut V, a: Addr, at: u64, count: u64) -> Result<Ahead, Stop>
    requires live { IsLive V.sense v.old }
    requires there { Asks {S = S} V.sense.partial (Read a.0) (V.sense.heap v.old) }
    requires fits { at < 2 ^ 63 }
    ensures shows { Shows V.sense a.0 (λ r. ahead_of r.kind r.values at count) v.old v.new result }
    ensures fits { IfOk result (λ x. LeavesRoom x at) }
{
    match v.kind(a)? {
        Kind::Str => Ok(Ahead::Text),
        Kind::List | Kind::Tuple => {
            let item = item_at(v, a, at)?;
            Ok(Ahead::Item(item))
        }
        Kind::Dict => key_at(v, a, at, count),
        Kind::Range => {
            let span = read_span(v, a)?;
            Ok(Ahead::Item(number_in(span, at)))
        }
        _ => Ok(Ahead::Item(None)),
    }
}

/// Answers a value, and lets the iterator go on to the next place; or answers that it is at its end.
#[tactic(auto, using(py_data::proofs::Rows::change_steps), unfolding(crate::specs::Iter::go_or_end))]
fn go_or_end<S, V: View<S>>(
    v: &mut V,
    it: Addr,
    at: u64,
    x: Option<Value>,
) -> Result<Got<Option<Value>>, Stop>
    requires live { IsLive V.sense v.old }
    requires fits { IfSome x (λ _. at + 1 < 2 ^ 63) }
    requires safe { Safe V.sense.partial (go_or_end {S = S} it.0 at x) (V.sense.heap v.old) }
    ensures { Meets V.sense (go_or_end it.0 at x) v.old v.new result }
{
    match x {
        Some(x) => {
            v.set_val(it, 1, Value::Int((at + 1) as i64))?;
            Ok(Got::Is(Some(x)))
        }
        None => Ok(Got::Is(None)),
    }
}

/// A string of one byte that is to be made.
pub fn one_byte(alloc: Global, byte: u8) -> Result<Record, NoMemory>
    ensures { IfOk result (λ r. rec_of r ≡ new_rec Str [] (byte ∷ [])) }
{
    let mut bytes = Bytes::new(alloc);
    bytes.push(byte)?;
    Ok(Record {
        kind: Kind::Str,
        values: Values::new(alloc),
        bytes,
    })
}

/// Answers a new string of one byte, and lets the iterator go on; or answers that it is at its end.
#[tactic(auto, using(py_data::proofs::Rows::change_steps), unfolding(crate::specs::Iter::byte_or_end))]
fn byte_or_end<S, V: View<S>>(
    alloc: Global,
    v: &mut V,
    it: Addr,
    at: u64,
    byte: Option<u8>,
) -> Result<Got<Option<Value>>, Stop>
    requires live { IsLive V.sense v.old }
    requires fits { IfSome byte (λ _. at + 1 < 2 ^ 63) }
    requires safe { Safe V.sense.partial (byte_or_end {S = S} it.0 at byte) (V.sense.heap v.old) }
    ensures { Meets V.sense (byte_or_end it.0 at byte) v.old v.new result }
{
    match byte {
        Some(byte) => {
            let made = one_byte(alloc, byte)?;
            let text = v.make(&made)?;
            go_or_end(v, it, at, Some(Value::Ref(text)))
        }
        None => Ok(Got::Is(None)),
    }
}

/// Lets an iterator go on over what its parts say.
#[tactic(auto, using(py_data::proofs::Rows::row_steps))]
fn next_over<S, V: View<S>>(
    alloc: Global,
    v: &mut V,
    it: Addr,
    parts: Parts,
) -> Result<Got<Option<Value>>, Stop>
    requires live { IsLive V.sense v.old }
    requires fits { parts.at < 2 ^ 63 }
    requires safe { Safe V.sense.partial (Do (Read parts.over.0) (next_over {S = S} it.0 parts.at parts.count))
        (V.sense.heap v.old) }
    ensures { Meets V.sense (Do (Read parts.over.0) (next_over it.0 parts.at parts.count)) v.old v.new result }
{
    let over = parts.over;
    match look_ahead(v, over, parts.at, parts.count)? {
        Ahead::Text => {
            let byte = byte_at(v, over, parts.at)?;
            byte_or_end(alloc, v, it, parts.at, byte)
        }
        Ahead::Changed => raise(
            alloc,
            RUNTIME_ERROR,
            b"dictionary changed size during iteration",
        ),
        Ahead::Item(x) => go_or_end(v, it, parts.at, x),
    }
}

/// Lets an iterator go on, whose record may say nothing.
#[tactic(auto, using(py_data::proofs::Rows::row_steps), unfolding(crate::specs::Iter::next_with))]
fn next_with<S, V: View<S>>(
    alloc: Global,
    v: &mut V,
    it: Addr,
    parts: Option<Parts>,
) -> Result<Got<Option<Value>>, Stop>
    requires live { IsLive V.sense v.old }
    requires fits { IfSome parts (λ p. p.at < 2 ^ 63) }
    requires safe { Safe V.sense.partial (next_with {S = S} it.0 parts) (V.sense.heap v.old) }
    ensures { Meets V.sense (next_with it.0 parts) v.old v.new result }
{
    match parts {
        Some(parts) => next_over(alloc, v, it, parts),
        None => Ok(Got::Is(None)),
    }
}

/// The same of a record, if it is an iterator. TypeError where it isn't.
#[tactic(auto, using(py_data::proofs::Rows::row_steps), unfolding(crate::specs::Iter::next_by))]
fn next_by<S, V: View<S>>(
    alloc: Global,
    v: &mut V,
    it: Addr,
    parts: Option<Option<Parts>>,
) -> Result<Got<Option<Value>>, Stop>
    requires live { IsLive V.sense v.old }
    requires fits { IfSome parts (λ o. IfSome o (λ p. p.at < 2 ^ 63)) }
    requires safe { Safe V.sense.partial (next_by {S = S} it.0 parts) (V.sense.heap v.old) }
    ensures { Meets V.sense (next_by it.0 parts) v.old v.new result }
{
    match parts {
        Some(parts) => next_with(alloc, v, it, parts),
        None => raise(alloc, TYPE_ERROR, b"unsupported operand"),
    }
}

/// The next item of an iterator, or none at its end: of a list or tuple an item, of a string a new string of one byte,
/// of a dictionary a key, of a range a number. RuntimeError where the dictionary has more or fewer pairs than when the
/// iterator was made, and TypeError where the record is no iterator.
#[tactic(auto, using(py_data::proofs::Rows::row_steps))]
pub fn next<S, V: View<S>>(alloc: Global, v: &mut V, it: Addr) -> Result<Got<Option<Value>>, Stop>
    requires live { IsLive V.sense v.old }
    requires safe { Safe V.sense.partial (next_row {S = S} it.0) (V.sense.heap v.old) }
    ensures { Meets V.sense (next_row it.0) v.old v.new result }
{
    let parts = read_parts(v, it)?;
    next_by(alloc, v, it, parts)
}
