//! Texts of items with a separator between each two.
ghost use Rattle.std.specs.Prelude.{◌≡◌, cond, []};
ghost use Rattle.obj_str.specs.Adding.{Adds, Tells};
ghost use Rattle.obj_str.specs.Methods as methods;
ghost use Rattle.obj_str.specs.Methods.{items_row, join_with, texts_row};
ghost use Rattle.py_data.specs.Sense.{Meets, Safe, IsLive};

use crate::argument::{text_item, wrong_arguments};
use crate::growing::grown_by;
use crate::text::{bytes_of, make_fitting};
use obj_seq::gather;
use py_base::split;
use py_data::{Addr, Bytes, Got, Kind, Stop, Value, View};
use std::alloc::Global;

/// A value is a string. TypeError, `wrong arguments`, where it is none.
#[tactic(auto, using(py_data::proofs::Rows::row_steps), unfolding(crate::specs::Methods::text_item, crate::specs::Methods::text_at))]
fn test_text<S, V: View<S>>(alloc: Global, v: &mut V, x: Value) -> Result<Got<()>, Stop>
    requires live { IsLive V.sense v.old }
    requires safe { Safe V.sense.partial (methods.text_item {S = S} x) (V.sense.heap v.old) }
    ensures { Tells V.sense x v.old v.new result }
{
    match x {
        Value::Ref(a) => match v.kind(a)? {
            Kind::Str => Ok(Got::Is(())),
            _ => wrong_arguments(alloc),
        },
        _ => wrong_arguments(alloc),
    }
}

/// A text with a separator and the text of a value behind it. TypeError, `wrong arguments`, where the value is no
/// string. A text that has become too long is None, and stays so: then the value's bytes aren't read.
fn add_item<S, V: View<S>>(
    alloc: Global,
    v: &mut V,
    sep: &[u8],
    text: Option<Bytes>,
    x: Value,
) -> Result<Got<Option<Bytes>>, Stop>
    requires live { IsLive V.sense v.old }
    requires safe { Safe V.sense.partial (methods.text_item {S = S} x) (V.sense.heap v.old) }
    ensures { Adds V.sense sep.now text x v.old v.new result }
{
    match text {
        Some(text) => match text_item(alloc, v, x)? {
            Got::Is(part) => Ok(Got::Is(grown_by(text, sep, part.as_slice())?)),
            Got::Raise(e) => Ok(Got::Raise(e)),
        },
        None => match test_text(alloc, v, x)? {
            Got::Is(()) => Ok(Got::Is(None)),
            Got::Raise(e) => Ok(Got::Raise(e)),
        },
    }
}

/// What stands before an item: nothing before the first.
fn between(first: bool, sep: &[u8]) -> &[u8]
    ensures { result.now ≡ cond first [] sep.now }
{
    if first { &[] } else { sep }
}

/// A new string of the texts of values with a separator between each two. TypeError, `wrong arguments`, where one is no
/// string; MemoryError where the text would be longer than a string may be: it is made no further than that.
fn join_texts<S, V: View<S>>(
    alloc: Global,
    v: &mut V,
    sep: &[u8],
    values: &[Value],
) -> Result<Got<Value>, Stop>
    requires live { IsLive V.sense v.old }
    requires safe { Safe V.sense.partial (texts_row {S = S} sep.now values.now) (V.sense.heap v.old) }
    ensures { Meets V.sense (texts_row sep.now values.now) v.old v.new result }
{
    let mut text = Some(Bytes::new(alloc));
    let mut first = true;
    let mut rest = values;
    'turns: while let Some((x, more)) = split(rest) {
        match add_item(alloc, v, between(first, sep), text, *x)? {
            Got::Is(longer) => text = longer,
            Got::Raise(e) => return Ok(Got::Raise(e)),
        }
        first = false;
        rest = more;
    }
    make_fitting(alloc, v, text)
}

/// The same with the bytes of a string as the separator.
#[tactic(auto, using(py_data::proofs::Rows::row_steps, py_data::proofs::Steps::call_steps), unfolding(crate::specs::Methods::items_row))]
fn join_items<S, V: View<S>>(
    alloc: Global,
    v: &mut V,
    a: Addr,
    values: &[Value],
) -> Result<Got<Value>, Stop>
    requires live { IsLive V.sense v.old }
    requires safe { Safe V.sense.partial (items_row {S = S} a.0 values.now) (V.sense.heap v.old) }
    ensures { Meets V.sense (items_row a.0 values.now) v.old v.new result }
{
    let sep = bytes_of(alloc, v, a)?;
    join_texts(alloc, v, sep.as_slice(), values)
}

/// `join`: the items of the argument are gathered first.
#[tactic(auto, using(py_data::proofs::Rows::row_steps, py_data::proofs::Steps::call_steps), unfolding(crate::specs::Methods::join_with))]
pub fn join<S, V: View<S>>(
    alloc: Global,
    v: &mut V,
    a: Addr,
    items: Option<Value>,
) -> Result<Got<Value>, Stop>
    requires live { IsLive V.sense v.old }
    requires safe { Safe V.sense.partial (join_with {S = S} a.0 items) (V.sense.heap v.old) }
    ensures { Meets V.sense (join_with a.0 items) v.old v.new result }
{
    match items {
        Some(x) => match gather(alloc, v, x)? {
            Got::Is(values) => join_items(alloc, v, a, values.as_slice()),
            Got::Raise(e) => Ok(Got::Raise(e)),
        },
        None => wrong_arguments(alloc),
    }
}
