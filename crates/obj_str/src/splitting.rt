//! The list of the pieces of a text.
ghost use Rattle.std.specs.Prelude.{◌≡◌, ◌<◌, [], length, IfSome, Some};
ghost use Rattle.obj_str.specs.Cutting.{last_of, pieces_of};
ghost use Rattle.obj_str.specs.Methods as methods;
ghost use Rattle.obj_str.specs.Methods.{cut_row, list_row, new_list, piece_row, split_with, strings_then};
ghost use Rattle.py_data.specs.Sense.{Meets, Safe, IsLive};

use crate::argument::{only, text_item, wrong_arguments};
use crate::cutting::{count_pieces, cut_next};
use crate::text::{bytes_of, too_long};
use memchr::memmem::Finder;
use py_data::exception::{VALUE_ERROR, raise};
use py_data::{Addr, Bytes, Got, Kind, LENGTH_LIMIT, Record, Stop, Value, Values, View};
use std::alloc::Global;

/// A new string of a piece.
#[tactic(auto, using(py_data::proofs::Rows::row_steps), unfolding(crate::specs::Methods::piece_row))]
fn make_piece<S, V: View<S>>(alloc: Global, v: &mut V, piece: &[u8]) -> Result<Value, Stop>
    requires live { IsLive V.sense v.old }
    requires safe { Safe V.sense.partial (piece_row {S = S} piece.now) (V.sense.heap v.old) }
    ensures { Meets V.sense (piece_row piece.now) v.old v.new result }
{
    let made = Record {
        kind: Kind::Str,
        values: Values::new(alloc),
        bytes: Bytes::from_slice(alloc, piece)?,
    };
    Ok(Value::Ref(v.make(&made)?))
}

/// A new list of values.
#[tactic(auto, using(py_data::proofs::Rows::row_steps), unfolding(crate::specs::Methods::new_list))]
fn make_list<S, V: View<S>>(alloc: Global, v: &mut V, values: Values) -> Result<Got<Value>, Stop>
    requires live { IsLive V.sense v.old }
    requires safe { Safe V.sense.partial (new_list {S = S} values) (V.sense.heap v.old) }
    ensures { Meets V.sense (new_list values) v.old v.new result }
{
    let made = Record {
        kind: Kind::List,
        values,
        bytes: Bytes::new(alloc),
    };
    Ok(Got::Is(Value::Ref(v.make(&made)?)))
}

/// A new list of the strings that were made, and of one more where there is a piece behind the last separator.
fn finish_list<S, V: View<S>>(
    alloc: Global,
    v: &mut V,
    separator: &Option<Finder<'_>>,
    rest: &[u8],
    values: Values,
) -> Result<Got<Value>, Stop>
    requires live { IsLive V.sense v.old }
    requires safe { Safe V.sense.partial (strings_then {S = S} new_list (last_of separator.now rest.now) values)
        (V.sense.heap v.old) }
    ensures { Meets V.sense (strings_then new_list (last_of separator.now rest.now) values) v.old v.new result }
{
    match separator {
        Some(_) => {
            let piece = make_piece(alloc, v, rest)?;
            let mut all = values;
            all.push(piece)?;
            make_list(alloc, v, all)
        }
        None => make_list(alloc, v, values),
    }
}

/// A new list of new strings of the pieces of a text.
fn make_pieces<S, V: View<S>>(
    alloc: Global,
    v: &mut V,
    separator: &Option<Finder<'_>>,
    bytes: &[u8],
) -> Result<Got<Value>, Stop>
    requires some { IfSome separator.now (λ s. 0 < length s) }
    requires live { IsLive V.sense v.old }
    requires safe { Safe V.sense.partial (strings_then {S = S} new_list (pieces_of separator.now bytes.now) [])
        (V.sense.heap v.old) }
    ensures { Meets V.sense (strings_then new_list (pieces_of separator.now bytes.now) []) v.old v.new result }
{
    let mut values = Values::new(alloc);
    let mut rest = bytes;
    'turns: while let Some((piece, more)) = cut_next(separator, rest) {
        let made = make_piece(alloc, v, piece)?;
        values.push(made)?;
        rest = more;
    }
    finish_list(alloc, v, separator, rest, values)
}

/// The same. MemoryError, before anything is made, where the pieces are more than a list may have.
#[tactic(auto, using(py_data::proofs::Rows::row_steps), unfolding(crate::specs::Methods::list_row))]
fn list_pieces<S, V: View<S>>(
    alloc: Global,
    v: &mut V,
    separator: &Option<Finder<'_>>,
    bytes: &[u8],
) -> Result<Got<Value>, Stop>
    requires some { IfSome separator.now (λ s. 0 < length s) }
    requires live { IsLive V.sense v.old }
    requires safe { Safe V.sense.partial (list_row {S = S} (pieces_of separator.now bytes.now)) (V.sense.heap v.old) }
    ensures { Meets V.sense (list_row (pieces_of separator.now bytes.now)) v.old v.new result }
{
    if count_pieces(separator, bytes) <= LENGTH_LIMIT {
        make_pieces(alloc, v, separator, bytes)
    } else {
        Ok(too_long())
    }
}

/// The pieces of a string's bytes.
#[tactic(auto, using(py_data::proofs::Rows::row_steps, py_data::proofs::Steps::call_steps), unfolding(crate::specs::Methods::cut_row))]
fn cut<S, V: View<S>>(
    alloc: Global,
    v: &mut V,
    a: Addr,
    separator: &Option<Finder<'_>>,
) -> Result<Got<Value>, Stop>
    requires some { IfSome separator.now (λ s. 0 < length s) }
    requires live { IsLive V.sense v.old }
    requires safe { Safe V.sense.partial (cut_row {S = S} a.0 separator.now) (V.sense.heap v.old) }
    ensures { Meets V.sense (cut_row a.0 separator.now) v.old v.new result }
{
    let bytes = bytes_of(alloc, v, a)?;
    list_pieces(alloc, v, separator, bytes.as_slice())
}

/// `split` at a separator. ValueError, `empty separator`, where it has no bytes.
#[tactic(auto, using(py_data::proofs::Rows::row_steps), unfolding(crate::specs::Methods::cut_at))]
fn cut_at<S, V: View<S>>(
    alloc: Global,
    v: &mut V,
    a: Addr,
    separator: &[u8],
) -> Result<Got<Value>, Stop>
    requires live { IsLive V.sense v.old }
    requires safe { Safe V.sense.partial (methods.cut_at {S = S} a.0 separator.now) (V.sense.heap v.old) }
    ensures { Meets V.sense (methods.cut_at a.0 separator.now) v.old v.new result }
{
    if separator.is_empty() {
        raise(alloc, VALUE_ERROR, b"empty separator")
    } else {
        cut(alloc, v, a, &Some(Finder::new(separator)))
    }
}

/// `split` with an argument. None is as good as none.
#[tactic(auto, using(py_data::proofs::Rows::row_steps, py_data::proofs::Steps::call_steps), unfolding(crate::specs::Methods::split_at))]
fn split_at<S, V: View<S>>(
    alloc: Global,
    v: &mut V,
    a: Addr,
    separator: Value,
) -> Result<Got<Value>, Stop>
    requires live { IsLive V.sense v.old }
    requires safe { Safe V.sense.partial (methods.split_at {S = S} a.0 separator) (V.sense.heap v.old) }
    ensures { Meets V.sense (methods.split_at a.0 separator) v.old v.new result }
{
    if is_none(separator) {
        return cut(alloc, v, a, &None);
    }
    match text_item(alloc, v, separator)? {
        Got::Is(bytes) => cut_at(alloc, v, a, bytes.as_slice()),
        Got::Raise(e) => Ok(Got::Raise(e)),
    }
}

/// A value is None.
fn is_none(x: Value) -> bool
    ensures { result ≡ methods.is_none x }
{
    match x {
        Value::None => true,
        _ => false,
    }
}

/// `split` with one argument. TypeError, `wrong arguments`, where there are more.
#[tactic(auto, using(py_data::proofs::Rows::row_steps), unfolding(crate::specs::Methods::split_with))]
fn split_one<S, V: View<S>>(
    alloc: Global,
    v: &mut V,
    a: Addr,
    separator: Option<Value>,
) -> Result<Got<Value>, Stop>
    requires live { IsLive V.sense v.old }
    requires safe { Safe V.sense.partial (split_with {S = S} a.0 separator) (V.sense.heap v.old) }
    ensures { Meets V.sense (split_with a.0 separator) v.old v.new result }
{
    match separator {
        Some(x) => split_at(alloc, v, a, x),
        None => wrong_arguments(alloc),
    }
}

/// `split`: at runs of blanks, or at a separator.
pub fn split<S, V: View<S>>(
    alloc: Global,
    v: &mut V,
    a: Addr,
    args: &[Value],
) -> Result<Got<Value>, Stop>
    requires live { IsLive V.sense v.old }
    requires safe { Safe V.sense.partial (methods.split_row {S = S} a.0 args.now) (V.sense.heap v.old) }
    ensures { Meets V.sense (methods.split_row a.0 args.now) v.old v.new result }
{
    if args.is_empty() {
        cut(alloc, v, a, &None)
    } else {
        split_one(alloc, v, a, only(args))
    }
}
