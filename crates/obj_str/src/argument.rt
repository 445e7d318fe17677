//! Arguments of methods.
ghost use Rattle.std.specs.Prelude.{◌≡◌, MatchResult};
ghost use Rattle.py_data.specs.declared.record.Got.TheVariants.{Raise};
ghost use Rattle.py_data.specs.declared.stop.Stop.TheVariants.{OutOfMemory};
ghost use Rattle.py_data.specs.Sense.{Meets, Safe, IsLive};
ghost use Rattle.py_data.specs.Fault.{argument_fault, operand_fault};
ghost use Rattle.obj_str.specs.Methods as methods;

use crate::short::Text;
use crate::text::bytes_of;
use py_data::exception::{TYPE_ERROR, raise};
use py_data::{Addr, Got, Kind, Stop, Value, View};
use std::alloc::Global;

/// The answer where the arguments are too many or too few, or one is of another type: TypeError, `wrong arguments`.
pub fn wrong_arguments<T>(alloc: Global) -> Result<Got<T>, Stop>
    ensures { MatchResult result (λ g. g ≡ Raise argument_fault) (λ e. e ≡ OutOfMemory) }
{
    raise(alloc, TYPE_ERROR, b"wrong arguments")
}

/// The answer where an operation isn't for such a value: TypeError, `unsupported operand`.
pub fn wrong_operand<T>(alloc: Global) -> Result<Got<T>, Stop>
    ensures { MatchResult result (λ g. g ≡ Raise operand_fault) (λ e. e ≡ OutOfMemory) }
{
    raise(alloc, TYPE_ERROR, b"unsupported operand")
}

/// The argument, where there is one alone.
pub fn only(args: &[Value]) -> Option<Value>
    ensures { result ≡ methods.only args.now }
{
    match args {
        [x] => Some(*x),
        _ => None,
    }
}

/// The arguments, where there are two.
pub fn both(args: &[Value]) -> Option<(Value, Value)>
    ensures { result ≡ methods.both args.now }
{
    match args {
        [x, y] => Some((*x, *y)),
        _ => None,
    }
}

/// The bytes of a record, which is a string.
#[tactic(auto, using(py_data::proofs::Rows::row_steps), unfolding(crate::specs::Methods::text_at))]
fn text_at<S, V: View<S>>(alloc: Global, v: &mut V, a: Addr) -> Result<Got<Text>, Stop>
    requires live { IsLive V.sense v.old }
    requires safe { Safe V.sense.partial (methods.text_at {S = S} a.0) (V.sense.heap v.old) }
    ensures { Meets V.sense (methods.text_at a.0) v.old v.new result }
{
    match v.kind(a)? {
        Kind::Str => Ok(Got::Is(bytes_of(alloc, v, a)?)),
        _ => wrong_arguments(alloc),
    }
}

/// The bytes of a value, which is a string. TypeError, `wrong arguments`, where it is none.
#[tactic(auto, using(py_data::proofs::Rows::row_steps), unfolding(crate::specs::Methods::text_item))]
pub fn text_item<S, V: View<S>>(alloc: Global, v: &mut V, x: Value) -> Result<Got<Text>, Stop>
    requires live { IsLive V.sense v.old }
    requires safe { Safe V.sense.partial (methods.text_item {S = S} x) (V.sense.heap v.old) }
    ensures { Meets V.sense (methods.text_item x) v.old v.new result }
{
    match x {
        Value::Ref(a) => text_at(alloc, v, a),
        _ => wrong_arguments(alloc),
    }
}
