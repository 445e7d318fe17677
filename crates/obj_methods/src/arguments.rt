//! Arguments of methods, and answers that they share.
ghost use Rattle.std.specs.Prelude.{◌≡◌};
ghost use Rattle.obj_methods.specs.Arguments.{key_and_value, number_and_value, only_number};
ghost use Rattle.obj_methods.specs.Lists.{done};

use obj_nest::number_of;
use py_data::{Got, Value};

/// The number that the one argument is.
pub fn only_number(args: &[Value]) -> Option<i64>
    ensures { result ≡ only_number args.now }
{
    match args {
        [x] => number_of(*x),
        _ => None,
    }
}

/// The number that the first of two arguments is, and the second one.
pub fn number_and_value(args: &[Value]) -> Option<(i64, Value)>
    ensures { result ≡ number_and_value args.now }
{
    match args {
        [i, x] => match number_of(*i) {
            Some(i) => Some((i, *x)),
            None => None,
        },
        _ => None,
    }
}

/// A key, and a value where there is a second argument.
pub fn key_and_value(args: &[Value]) -> Option<(Value, Option<Value>)>
    ensures { result ≡ key_and_value args.now }
{
    match args {
        [k] => Some((*k, None)),
        [k, x] => Some((*k, Some(*x))),
        _ => None,
    }
}

/// What a method answers that does something and has no value to give: None.
pub fn done<T: Drop>(got: Got<T>) -> Got<Value>
    ensures { result ≡ done got }
{
    match got {
        Got::Is(_) => Got::Is(Value::None),
        Got::Raise(e) => Got::Raise(e),
    }
}
