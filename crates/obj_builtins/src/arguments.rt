//! What arguments are to a builtin function: how many, and of which forms.
ghost use Rattle.std.specs.Prelude.{◌≡◌};
ghost use Rattle.obj_builtins.specs.Arguments.{few, form_at, form_of, form_row};
ghost use Rattle.py_data.specs.Sense.{Meets, Safe, IsLive};

use py_data::{Addr, Kind, Stop, Value, View, kind};

/// How many arguments there are.
#[derive(Clone, Copy, Debug, Drop, PartialEq, Eq)]
pub enum Few {
    Nothing,
    /// One alone.
    One(Value),
    Many,
}

/// What a value is to a builtin function.
#[derive(Clone, Copy, Debug, Drop, PartialEq, Eq)]
pub enum Form {
    Number(i64),
    Truth(bool),
    /// The string at that address.
    Text(Addr),
    /// The tuple.
    Items(Addr),
    /// A list.
    ListOf,
    /// A dictionary.
    Pairs,
    /// The class.
    Class(Addr),
    /// The instance.
    Object(Addr),
    /// The builtin of that number.
    Named(u8),
    Other,
}

/// No argument, one alone, or more.
pub fn few_of(args: &[Value]) -> Few
    ensures { result ≡ few args.now }
{
    match args {
        [] => Few::Nothing,
        [x] => Few::One(*x),
        _ => Few::Many,
    }
}

/// What a record is to a builtin function.
fn form_of(kind: Kind, a: Addr) -> Form
    ensures { result ≡ form_of kind a }
{
    match kind {
        Kind::Str => Form::Text(a),
        Kind::Tuple => Form::Items(a),
        Kind::List => Form::ListOf,
        Kind::Dict => Form::Pairs,
        Kind::Class => Form::Class(a),
        Kind::Instance => Form::Object(a),
        _ => Form::Other,
    }
}

/// What the record at an address is to a builtin function.
#[tactic(auto, using(py_data::proofs::Rows::row_steps, py_data::proofs::Steps::call_steps), unfolding(crate::specs::Arguments::form_at))]
fn form_at<S, V: View<S>>(v: &mut V, a: Addr) -> Result<Form, Stop>
    requires live { IsLive V.sense v.old }
    requires safe { Safe V.sense.partial (form_at {S = S} a) (V.sense.heap v.old) }
    ensures { Meets V.sense (form_at a) v.old v.new result }
{
    let k = kind(v, a)?;
    Ok(form_of(k, a))
}

/// What a value is to a builtin function.
#[tactic(auto, using(py_data::proofs::Rows::row_steps), unfolding(crate::specs::Arguments::form_row))]
pub fn form_of_value<S, V: View<S>>(v: &mut V, x: Value) -> Result<Form, Stop>
    requires live { IsLive V.sense v.old }
    requires safe { Safe V.sense.partial (form_row {S = S} x) (V.sense.heap v.old) }
    ensures { Meets V.sense (form_row x) v.old v.new result }
{
    match x {
        Value::Ref(a) => form_at(v, a),
        Value::Int(i) => Ok(Form::Number(i)),
        Value::Bool(b) => Ok(Form::Truth(b)),
        Value::Builtin(b) => Ok(Form::Named(b)),
        _ => Ok(Form::Other),
    }
}
