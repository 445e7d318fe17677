//! The instances that exceptions make.
ghost use Rattle.std.specs.Prelude.{◌≡◌};
ghost use Rattle.py_data.specs.declared.record.With.TheVariants.{Text};
ghost use Rattle.py_data.specs.Sense.{Meets, Safe, IsLive};
ghost use Rattle.obj_class.specs.Exceptions.{args_row, dict_of_args, exception_row, fault_row, is_tellable, keyed_row, numbered_row, told_row};

use crate::making::{make_record, make_text, one, two};
use py_data::exception::MEMORY_ERROR;
use py_data::{Addr, Fault, Kind, LENGTH_LIMIT, Stop, Value, Values, View, With, look};
use std::alloc::Global;

/// Whether a text is no longer than a record may be.
fn is_tellable(with: &With) -> bool
    ensures { result ≡ is_tellable with.now }
{
    match with {
        With::Text(text) => text.len() <= LENGTH_LIMIT,
        _ => true,
    }
}

/// Makes the instance of a class whose one attribute is this pair.
#[tactic(auto, using(py_data::proofs::Rows::row_steps, py_data::proofs::Steps::call_steps), unfolding(crate::specs::Exceptions::dict_of_args))]
fn with_dict<S, V: View<S>>(
    alloc: Global,
    v: &mut V,
    class: Value,
    key: Value,
    tuple: Value,
) -> Result<Value, Stop>
    requires live { IsLive V.sense v.old }
    requires safe { Safe V.sense.partial (dict_of_args {S = S} class key tuple) (V.sense.heap v.old) }
    ensures { Meets V.sense (dict_of_args class key tuple) v.old v.new result }
{
    let dict = make_record(alloc, v, Kind::Dict, two(alloc, key, tuple)?)?;
    make_record(alloc, v, Kind::Instance, two(alloc, class, dict)?)
}

/// Makes the instance of a class with these arguments.
#[tactic(auto, using(py_data::proofs::Rows::row_steps, py_data::proofs::Steps::call_steps), unfolding(crate::specs::Exceptions::args_row))]
pub fn with_args<S, V: View<S>>(
    alloc: Global,
    v: &mut V,
    class: Value,
    key: Value,
    args: Values,
) -> Result<Value, Stop>
    requires live { IsLive V.sense v.old }
    requires safe { Safe V.sense.partial (args_row {S = S} class key args) (V.sense.heap v.old) }
    ensures { Meets V.sense (args_row class key args) v.old v.new result }
{
    let tuple = make_record(alloc, v, Kind::Tuple, args)?;
    with_dict(alloc, v, class, key, tuple)
}

/// The arguments that are a new string.
#[tactic(auto, using(py_data::proofs::Rows::row_steps, py_data::proofs::Steps::call_steps), unfolding(crate::specs::Exceptions::told_row))]
fn told_text<S, V: View<S>>(alloc: Global, v: &mut V, text: &[u8]) -> Result<Values, Stop>
    requires live { IsLive V.sense v.old }
    requires safe { Safe V.sense.partial (told_row {S = S} (Text text.now)) (V.sense.heap v.old) }
    ensures { Meets V.sense (told_row (Text text.now)) v.old v.new result }
{
    let a = make_text(alloc, v, text)?;
    Ok(one(alloc, a)?)
}

/// The arguments of what an exception is told with.
#[tactic(auto, using(py_data::proofs::Rows::row_steps), unfolding(crate::specs::Exceptions::told_row))]
fn told<S, V: View<S>>(alloc: Global, v: &mut V, with: &With) -> Result<Values, Stop>
    requires live { IsLive V.sense v.old }
    requires safe { Safe V.sense.partial (told_row {S = S} with.now) (V.sense.heap v.old) }
    ensures { Meets V.sense (told_row with.now) v.old v.new result }
{
    match with {
        With::Nothing => Ok(Values::new(alloc)),
        With::Text(text) => told_text(alloc, v, text.as_slice()),
        With::Held(x) => Ok(one(alloc, *x)?),
    }
}

/// Makes the exception of a class, with the key of its arguments at hand.
#[tactic(auto, using(py_data::proofs::Rows::row_steps, py_data::proofs::Steps::call_steps), unfolding(crate::specs::Exceptions::keyed_row))]
fn with_key<S, V: View<S>>(
    alloc: Global,
    v: &mut V,
    class: Value,
    with: &With,
    key: Value,
) -> Result<Value, Stop>
    requires live { IsLive V.sense v.old }
    requires safe { Safe V.sense.partial (keyed_row {S = S} class with.now key) (V.sense.heap v.old) }
    ensures { Meets V.sense (keyed_row class with.now key) v.old v.new result }
{
    let args = told(alloc, v, with)?;
    with_args(alloc, v, class, key, args)
}

/// Makes the exception of a class.
#[tactic(auto, using(py_data::proofs::Rows::row_steps, py_data::proofs::Steps::call_steps), unfolding(crate::specs::Exceptions::exception_row))]
fn exception<S, V: View<S>>(
    alloc: Global,
    v: &mut V,
    class: Value,
    with: &With,
) -> Result<Value, Stop>
    requires live { IsLive V.sense v.old }
    requires safe { Safe V.sense.partial (exception_row {S = S} class with.now) (V.sense.heap v.old) }
    ensures { Meets V.sense (exception_row class with.now) v.old v.new result }
{
    let key = make_text(alloc, v, b"args")?;
    with_key(alloc, v, class, with, key)
}

/// Makes the exception of the class of a number.
#[tactic(auto, using(py_data::proofs::Rows::row_steps, py_data::proofs::Steps::call_steps), unfolding(crate::specs::Exceptions::numbered_row))]
fn numbered<S, V: View<S>>(
    alloc: Global,
    v: &mut V,
    roots: Addr,
    n: u8,
    with: &With,
) -> Result<Value, Stop>
    requires live { IsLive V.sense v.old }
    requires safe { Safe V.sense.partial (numbered_row {S = S} roots.0 n with.now) (V.sense.heap v.old) }
    ensures { Meets V.sense (numbered_row roots.0 n with.now) v.old v.new result }
{
    let class = look(v, roots, 1 + n as usize)?;
    exception(alloc, v, class, with)
}

/// Makes an exception: an instance of its class, whose one attribute `args` is a tuple of what it is told with. `roots`
/// is the address of the program's list of roots. A text of more than 1,048,576 bytes makes MemoryError in its place,
/// before anything is made. Python 2.7's exceptions have `message` besides.
#[tactic(auto, using(py_data::proofs::Rows::row_steps), unfolding(crate::specs::Exceptions::fault_row))]
pub fn make_fault<S, V: View<S>>(
    alloc: Global,
    v: &mut V,
    roots: Addr,
    f: &Fault,
) -> Result<Value, Stop>
    requires live { IsLive V.sense v.old }
    requires safe { Safe V.sense.partial (fault_row {S = S} roots.0 f.now) (V.sense.heap v.old) }
    ensures { Meets V.sense (fault_row roots.0 f.now) v.old v.new result }
{
    if is_tellable(&f.with) {
        numbered(alloc, v, roots, f.exc, &f.with)
    } else {
        numbered(alloc, v, roots, MEMORY_ERROR, &With::Nothing)
    }
}
