//! `str`, `repr` and `ord`.
ghost use Rattle.std.specs.Prelude.{◌≡◌, MatchResult};
ghost use Rattle.obj_builtins.specs.Texts as texts;
ghost use Rattle.py_data.specs.Sense.{Meets, Safe, IsLive};
ghost use Rattle.py_data.specs.declared.stop.Stop.TheVariants.{OutOfMemory};

use crate::arguments::{Few, Form, form_of_value, wrong_arguments};
use obj_class::text;
use obj_str::{bytes_of, make_str};
use py_data::{Addr, Got, Stop, Value, View};
use std::alloc::Global;

/// A new string of a value's text, as it stands within others (`quoted`) or by itself. MemoryError where it is longer
/// than `LENGTH_LIMIT`.
#[tactic(auto, using(py_data::proofs::Rows::row_steps, py_data::proofs::Steps::call_steps), unfolding(crate::specs::Texts::written_row))]
fn write<S, V: View<S>>(
    alloc: Global,
    v: &mut V,
    roots: Addr,
    x: Value,
    quoted: bool,
) -> Result<Got<Value>, Stop>
    requires live { IsLive V.sense v.old }
    requires safe { Safe V.sense.partial (texts.written_row {S = S} roots.0 x quoted) (V.sense.heap v.old) }
    ensures { Meets V.sense (texts.written_row roots.0 x quoted) v.old v.new result }
{
    match text(alloc, v, roots, x, quoted)? {
        Got::Is(bytes) => make_str(alloc, v, bytes.as_slice()),
        Got::Raise(e) => Ok(Got::Raise(e)),
    }
}

/// The text of a value of this form by itself: of a string that string.
#[tactic(auto, using(py_data::proofs::Rows::row_steps), unfolding(crate::specs::Texts::str_of))]
fn str_of<S, V: View<S>>(
    alloc: Global,
    v: &mut V,
    roots: Addr,
    x: Value,
    f: Form,
) -> Result<Got<Value>, Stop>
    requires live { IsLive V.sense v.old }
    requires safe { Safe V.sense.partial (texts.str_of {S = S} roots.0 x f) (V.sense.heap v.old) }
    ensures { Meets V.sense (texts.str_of roots.0 x f) v.old v.new result }
{
    match f {
        Form::Text(_) => Ok(Got::Is(x)),
        _ => write(alloc, v, roots, x, false),
    }
}

/// `str` of one argument.
#[tactic(auto, using(py_data::proofs::Rows::row_steps, py_data::proofs::Steps::call_steps), unfolding(crate::specs::Texts::str_alone))]
fn str_alone<S, V: View<S>>(
    alloc: Global,
    v: &mut V,
    roots: Addr,
    x: Value,
) -> Result<Got<Value>, Stop>
    requires live { IsLive V.sense v.old }
    requires safe { Safe V.sense.partial (texts.str_alone {S = S} roots.0 x) (V.sense.heap v.old) }
    ensures { Meets V.sense (texts.str_alone roots.0 x) v.old v.new result }
{
    let f = form_of_value(v, x)?;
    str_of(alloc, v, roots, x, f)
}

/// `str`: the empty string, or the text of a value by itself.
#[tactic(auto, using(py_data::proofs::Rows::row_steps), unfolding(crate::specs::Texts::str_row))]
pub fn text_value<S, V: View<S>>(
    alloc: Global,
    v: &mut V,
    roots: Addr,
    args: Few,
) -> Result<Got<Value>, Stop>
    requires live { IsLive V.sense v.old }
    requires safe { Safe V.sense.partial (texts.str_row {S = S} roots.0 args) (V.sense.heap v.old) }
    ensures { Meets V.sense (texts.str_row roots.0 args) v.old v.new result }
{
    match args {
        Few::Nothing => make_str(alloc, v, b""),
        Few::One(x) => str_alone(alloc, v, roots, x),
        Few::Many => wrong_arguments(alloc),
    }
}

/// `repr`: the text of a value as it stands within others.
#[tactic(auto, using(py_data::proofs::Rows::row_steps), unfolding(crate::specs::Texts::repr_row))]
pub fn repr<S, V: View<S>>(
    alloc: Global,
    v: &mut V,
    roots: Addr,
    x: Option<Value>,
) -> Result<Got<Value>, Stop>
    requires live { IsLive V.sense v.old }
    requires safe { Safe V.sense.partial (texts.repr_row {S = S} roots.0 x) (V.sense.heap v.old) }
    ensures { Meets V.sense (texts.repr_row roots.0 x) v.old v.new result }
{
    match x {
        Some(x) => write(alloc, v, roots, x, true),
        None => wrong_arguments(alloc),
    }
}

/// The number of the byte, where there is one alone.
fn byte_value(alloc: Global, bytes: &[u8]) -> Result<Got<Value>, Stop>
    ensures { MatchResult result (λ g. g ≡ texts.byte_value bytes.now) (λ e. e ≡ OutOfMemory) }
{
    match bytes {
        [b] => Ok(Got::Is(Value::Int(*b as i64))),
        _ => wrong_arguments(alloc),
    }
}

/// The number of the byte of a string.
#[tactic(auto, using(py_data::proofs::Rows::row_steps, py_data::proofs::Steps::call_steps), unfolding(crate::specs::Texts::byte_row))]
fn byte_in<S, V: View<S>>(alloc: Global, v: &mut V, a: Addr) -> Result<Got<Value>, Stop>
    requires live { IsLive V.sense v.old }
    requires safe { Safe V.sense.partial (texts.byte_row {S = S} a.0) (V.sense.heap v.old) }
    ensures { Meets V.sense (texts.byte_row a.0) v.old v.new result }
{
    let bytes = bytes_of(alloc, v, a)?;
    byte_value(alloc, bytes.as_slice())
}

/// `ord` of a value of this form.
#[tactic(auto, using(py_data::proofs::Rows::row_steps), unfolding(crate::specs::Texts::ord_of))]
fn ord_of<S, V: View<S>>(alloc: Global, v: &mut V, f: Form) -> Result<Got<Value>, Stop>
    requires live { IsLive V.sense v.old }
    requires safe { Safe V.sense.partial (texts.ord_of {S = S} f) (V.sense.heap v.old) }
    ensures { Meets V.sense (texts.ord_of f) v.old v.new result }
{
    match f {
        Form::Text(a) => byte_in(alloc, v, a),
        _ => wrong_arguments(alloc),
    }
}

/// `ord` of one argument.
#[tactic(auto, using(py_data::proofs::Rows::row_steps, py_data::proofs::Steps::call_steps), unfolding(crate::specs::Texts::ord_alone))]
fn ord_alone<S, V: View<S>>(alloc: Global, v: &mut V, x: Value) -> Result<Got<Value>, Stop>
    requires live { IsLive V.sense v.old }
    requires safe { Safe V.sense.partial (texts.ord_alone {S = S} x) (V.sense.heap v.old) }
    ensures { Meets V.sense (texts.ord_alone x) v.old v.new result }
{
    let f = form_of_value(v, x)?;
    ord_of(alloc, v, f)
}

/// `ord`: the number of the byte of a string that has one.
#[tactic(auto, using(py_data::proofs::Rows::row_steps), unfolding(crate::specs::Texts::ord_row))]
pub fn ord<S, V: View<S>>(alloc: Global, v: &mut V, x: Option<Value>) -> Result<Got<Value>, Stop>
    requires live { IsLive V.sense v.old }
    requires safe { Safe V.sense.partial (texts.ord_row {S = S} x) (V.sense.heap v.old) }
    ensures { Meets V.sense (texts.ord_row x) v.old v.new result }
{
    match x {
        Some(x) => ord_alone(alloc, v, x),
        None => wrong_arguments(alloc),
    }
}
