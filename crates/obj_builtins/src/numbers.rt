//! `int`, `bool`, `abs` and `chr`.
ghost use Rattle.std.specs.Prelude.{◌≡◌, MatchResult};
ghost use Rattle.obj_builtins.specs.Numbers as numbers;
ghost use Rattle.py_data.specs.Sense.{Meets, Safe, IsLive};
ghost use Rattle.py_data.specs.declared.stop.Stop.TheVariants.{OutOfMemory};

use crate::arguments::{Few, Form, form_of_value};
use crate::literals::{narrow, text_number};
use obj_nest::truth;
use obj_ops::number_in;
use obj_str::{bytes_of, make_str, wrong_arguments};
use py_data::exception::{VALUE_ERROR, raise};
use py_data::{Addr, Got, Stop, Value, View};
use std::alloc::Global;

/// The number that a string writes.
#[tactic(auto, using(py_data::proofs::Rows::row_steps, py_data::proofs::Steps::call_steps), unfolding(crate::specs::Numbers::read_row))]
fn read<S, V: View<S>>(alloc: Global, v: &mut V, a: Addr) -> Result<Got<Value>, Stop>
    requires live { IsLive V.sense v.old }
    requires safe { Safe V.sense.partial (numbers.read_row {S = S} a.0) (V.sense.heap v.old) }
    ensures { Meets V.sense (numbers.read_row a.0) v.old v.new result }
{
    let text = bytes_of(alloc, v, a)?;
    text_number(alloc, text.as_slice())
}

/// The number that a value is or writes.
#[tactic(auto, using(py_data::proofs::Rows::row_steps), unfolding(crate::specs::Numbers::int_of))]
fn int_of<S, V: View<S>>(alloc: Global, v: &mut V, f: Form) -> Result<Got<Value>, Stop>
    requires live { IsLive V.sense v.old }
    requires safe { Safe V.sense.partial (numbers.int_of {S = S} f) (V.sense.heap v.old) }
    ensures { Meets V.sense (numbers.int_of f) v.old v.new result }
{
    match f {
        Form::Number(i) => Ok(Got::Is(Value::Int(i))),
        Form::Truth(b) => Ok(Got::Is(Value::Int(b as i64))),
        Form::Text(a) => read(alloc, v, a),
        _ => wrong_arguments(alloc),
    }
}

/// `int` of one argument.
#[tactic(auto, using(py_data::proofs::Rows::row_steps, py_data::proofs::Steps::call_steps), unfolding(crate::specs::Numbers::int_alone))]
fn int_alone<S, V: View<S>>(alloc: Global, v: &mut V, x: Value) -> Result<Got<Value>, Stop>
    requires live { IsLive V.sense v.old }
    requires safe { Safe V.sense.partial (numbers.int_alone {S = S} x) (V.sense.heap v.old) }
    ensures { Meets V.sense (numbers.int_alone x) v.old v.new result }
{
    let f = form_of_value(v, x)?;
    int_of(alloc, v, f)
}

/// `int`: 0, the number that a value is, or the one that a string writes. ValueError for a text that is no number,
/// OverflowError where 64 bits don't hold it.
#[tactic(auto, using(py_data::proofs::Rows::row_steps), unfolding(crate::specs::Numbers::int_row))]
pub fn int<S, V: View<S>>(alloc: Global, v: &mut V, args: Few) -> Result<Got<Value>, Stop>
    requires live { IsLive V.sense v.old }
    requires safe { Safe V.sense.partial (numbers.int_row {S = S} args) (V.sense.heap v.old) }
    ensures { Meets V.sense (numbers.int_row args) v.old v.new result }
{
    match args {
        Few::Nothing => Ok(Got::Is(Value::Int(0))),
        Few::One(x) => int_alone(alloc, v, x),
        Few::Many => wrong_arguments(alloc),
    }
}

/// `bool` of one argument.
#[tactic(auto, using(py_data::proofs::Rows::row_steps, py_data::proofs::Steps::call_steps), unfolding(crate::specs::Numbers::bool_alone))]
fn bool_alone<S, V: View<S>>(v: &mut V, x: Value) -> Result<Got<Value>, Stop>
    requires live { IsLive V.sense v.old }
    requires safe { Safe V.sense.partial (numbers.bool_alone {S = S} x) (V.sense.heap v.old) }
    ensures { Meets V.sense (numbers.bool_alone x) v.old v.new result }
{
    let b = truth(v, x)?;
    Ok(Got::Is(Value::Bool(b)))
}

/// `bool`: False, or whether a value is true.
#[tactic(auto, using(py_data::proofs::Rows::row_steps), unfolding(crate::specs::Numbers::bool_row))]
pub fn truth_value<S, V: View<S>>(alloc: Global, v: &mut V, args: Few) -> Result<Got<Value>, Stop>
    requires live { IsLive V.sense v.old }
    requires safe { Safe V.sense.partial (numbers.bool_row {S = S} args) (V.sense.heap v.old) }
    ensures { Meets V.sense (numbers.bool_row args) v.old v.new result }
{
    match args {
        Few::Nothing => Ok(Got::Is(Value::Bool(false))),
        Few::One(x) => bool_alone(v, x),
        Few::Many => wrong_arguments(alloc),
    }
}

/// A number without its sign. OverflowError for the least one.
#[tactic(auto, unfolding(crate::specs::Numbers::absolute))]
fn absolute(alloc: Global, i: i64) -> Result<Got<Value>, Stop>
    ensures { MatchResult result (λ g. g ≡ numbers.absolute i) (λ e. e ≡ OutOfMemory) }
{
    let n = i as i128;
    narrow(alloc, if i < 0 { -n } else { n })
}

/// The same of what is one, if it is.
#[tactic(auto, unfolding(crate::specs::Numbers::absolute_in))]
fn absolute_in(alloc: Global, n: Option<i64>) -> Result<Got<Value>, Stop>
    ensures { MatchResult result (λ g. g ≡ numbers.absolute_in n) (λ e. e ≡ OutOfMemory) }
{
    match n {
        Some(i) => absolute(alloc, i),
        None => wrong_arguments(alloc),
    }
}

/// `abs`: a number without its sign.
#[tactic(auto, using(py_data::proofs::Rows::row_steps), unfolding(crate::specs::Numbers::abs_row))]
pub fn abs<S, V: View<S>>(alloc: Global, v: &mut V, x: Option<Value>) -> Result<Got<Value>, Stop>
    requires live { IsLive V.sense v.old }
    requires safe { Safe V.sense.partial (numbers.abs_row {S = S} x) (V.sense.heap v.old) }
    ensures { Meets V.sense (numbers.abs_row x) v.old v.new result }
{
    absolute_in(alloc, number_in(x))
}

/// The byte of a number from 0 to 255.
fn byte_of(i: i64) -> Option<u8>
    ensures { result ≡ numbers.byte_of i }
{
    if i < 0 || i > 255 {
        None
    } else {
        Some(i as u8)
    }
}

/// A new string of one byte. ValueError where there is none.
#[tactic(auto, using(py_data::proofs::Rows::row_steps), unfolding(crate::specs::Numbers::letter_row))]
fn letter<S, V: View<S>>(alloc: Global, v: &mut V, b: Option<u8>) -> Result<Got<Value>, Stop>
    requires live { IsLive V.sense v.old }
    requires safe { Safe V.sense.partial (numbers.letter_row {S = S} b) (V.sense.heap v.old) }
    ensures { Meets V.sense (numbers.letter_row b) v.old v.new result }
{
    match b {
        Some(b) => make_str(alloc, v, &[b]),
        None => raise(alloc, VALUE_ERROR, b"chr() arg not in range(256)"),
    }
}

/// The same of a number.
#[tactic(auto, using(py_data::proofs::Rows::row_steps), unfolding(crate::specs::Numbers::letter_of))]
fn letter_of<S, V: View<S>>(alloc: Global, v: &mut V, n: Option<i64>) -> Result<Got<Value>, Stop>
    requires live { IsLive V.sense v.old }
    requires safe { Safe V.sense.partial (numbers.letter_of {S = S} n) (V.sense.heap v.old) }
    ensures { Meets V.sense (numbers.letter_of n) v.old v.new result }
{
    match n {
        Some(i) => letter(alloc, v, byte_of(i)),
        None => wrong_arguments(alloc),
    }
}

/// `chr`: a new string of the byte of a number.
#[tactic(auto, using(py_data::proofs::Rows::row_steps), unfolding(crate::specs::Numbers::chr_row))]
pub fn chr<S, V: View<S>>(alloc: Global, v: &mut V, x: Option<Value>) -> Result<Got<Value>, Stop>
    requires live { IsLive V.sense v.old }
    requires safe { Safe V.sense.partial (numbers.chr_row {S = S} x) (V.sense.heap v.old) }
    ensures { Meets V.sense (numbers.chr_row x) v.old v.new result }
{
    letter_of(alloc, v, number_in(x))
}
