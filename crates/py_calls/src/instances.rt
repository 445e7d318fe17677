//! The instances that calls of classes make.
ghost use Rattle.py_data.specs.Fault.{memory_fault};
ghost use Rattle.py_data.specs.Sense.{Meets, Safe, IsLive};
ghost use Rattle.py_frames.specs.ClassCalls as class_calls;

use obj_class::{make_record, make_text, two, with_args};
use py_data::{Addr, Got, Kind, LENGTH_LIMIT, Stop, Value, Values, View};
use py_parts::memory_fault;
use std::alloc::Global;

/// Makes an instance without attributes.
#[tactic(auto, using(py_data::proofs::Rows::row_steps, py_data::proofs::Steps::call_steps), unfolding(py_frames::specs::ClassCalls::plain_instance))]
fn plain_instance<S, V: View<S>>(alloc: Global, v: &mut V, c: Addr) -> Result<Value, Stop>
    requires live { IsLive V.sense v.old }
    requires safe { Safe V.sense.partial (class_calls.plain_instance {S = S} c.0) (V.sense.heap v.old) }
    ensures { Meets V.sense (class_calls.plain_instance c.0) v.old v.new result }
{
    let dict = make_record(alloc, v, Kind::Dict, Values::new(alloc))?;
    make_record(alloc, v, Kind::Instance, two(alloc, Value::Ref(c), dict)?)
}

/// Makes an exception, which has the arguments as its attribute `args`.
#[tactic(auto, using(py_data::proofs::Rows::row_steps, py_data::proofs::Steps::call_steps), unfolding(py_frames::specs::ClassCalls::args_instance))]
fn args_instance<S, V: View<S>>(
    alloc: Global,
    v: &mut V,
    c: Addr,
    args: &[Value],
) -> Result<Value, Stop>
    requires live { IsLive V.sense v.old }
    requires safe { Safe V.sense.partial (class_calls.args_instance {S = S} c.0 args.now) (V.sense.heap v.old) }
    ensures { Meets V.sense (class_calls.args_instance c.0 args.now) v.old v.new result }
{
    let key = make_text(alloc, v, b"args")?;
    with_args(
        alloc,
        v,
        Value::Ref(c),
        key,
        Values::from_slice(alloc, args)?,
    )
}

/// Makes an instance of a class, which is an exception class or isn't.
#[tactic(auto, using(py_data::proofs::Rows::row_steps), unfolding(py_frames::specs::ClassCalls::instance_of))]
fn instance_of<S, V: View<S>>(
    alloc: Global,
    v: &mut V,
    c: Addr,
    args: &[Value],
    exception: bool,
) -> Result<Value, Stop>
    requires live { IsLive V.sense v.old }
    requires safe { Safe V.sense.partial (class_calls.instance_of {S = S} c.0 args.now exception) (V.sense.heap v.old) }
    ensures { Meets V.sense (class_calls.instance_of c.0 args.now exception) v.old v.new result }
{
    if exception {
        args_instance(alloc, v, c, args)
    } else {
        plain_instance(alloc, v, c)
    }
}

/// Makes an instance of a class. MemoryError, before anything is made, where the arguments are too many.
#[tactic(auto, using(py_data::proofs::Rows::row_steps, py_data::proofs::Steps::call_steps), unfolding(py_frames::specs::ClassCalls::new_instance))]
pub fn new_instance<S, V: View<S>>(
    alloc: Global,
    v: &mut V,
    c: Addr,
    args: &[Value],
    exception: bool,
) -> Result<Got<Value>, Stop>
    requires live { IsLive V.sense v.old }
    requires safe { Safe V.sense.partial (class_calls.new_instance {S = S} c.0 args.now exception)
        (V.sense.heap v.old) }
    ensures { Meets V.sense (class_calls.new_instance c.0 args.now exception) v.old v.new result }
{
    if args.len() <= LENGTH_LIMIT {
        let x = instance_of(alloc, v, c, args, exception)?;
        Ok(Got::Is(x))
    } else {
        Ok(Got::Raise(memory_fault()))
    }
}
