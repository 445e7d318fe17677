//! The instructions that make functions and classes, and RETURN.
ghost use Rattle.std.specs.Prelude.{◌≡◌, IfOk, [], length};
ghost use Rattle.py_data.specs.Sense.{Meets, Safe, IsLive};
ghost use Rattle.py_frames.specs.Binding.{entered, unset_slots};
ghost use Rattle.py_frames.specs.FunctionRows.{body_by, body_frame, class_body_row, class_of, class_row, ended_row, function_of, instance_row, leave_row, make_function_row, named_function, new_body, new_class, new_function, return_by, value_or_instance};
ghost use Rattle.py_frames.specs.State.{code_at};
ghost use Rattle.py_data.specs.declared.value.Value.TheVariants.{Ref};

use obj_class::{make_record, make_text, three};
use py_calls::push_unset;
use py_code::Program;
use py_data::{Addr, Kind, LENGTH_LIMIT, NoMemory, Stop, Value, Values, View, kind};
use py_frames::{Blocks, Frame, Next};
use py_parts::{
    Site, base_fault, depth_fault, enter, fail_row, memory_fault, operand_fault, place_in, push,
    raise_row, slots_at,
};
use std::alloc::Global;

/// At most so many frames stand in one another.
const MOST_FRAMES: usize = 1_000;

/// Makes the function of a code, and pushes it.
#[tactic(auto, using(py_data::proofs::Rows::row_steps, py_data::proofs::Steps::call_steps), unfolding(py_frames::specs::FunctionRows::function_of))]
fn function_of<S, V: View<S>>(
    alloc: Global,
    v: &mut V,
    n: u32,
    name: Value,
    defaults: Value,
) -> Result<Next, Stop>
    requires live { IsLive V.sense v.old }
    requires safe { Safe V.sense.partial (function_of {S = S} n name defaults) (V.sense.heap v.old) }
    ensures { Meets V.sense (function_of n name defaults) v.old v.new result }
{
    let values = three(alloc, name, Value::Int(n as i64), defaults)?;
    let f = make_record(alloc, v, Kind::Function, values)?;
    Ok(push(f))
}

/// Makes the tuple of the defaults, and the function.
#[tactic(auto, using(py_data::proofs::Rows::row_steps, py_data::proofs::Steps::call_steps), unfolding(py_frames::specs::FunctionRows::named_function))]
fn named_function<S, V: View<S>>(
    alloc: Global,
    v: &mut V,
    n: u32,
    defaults: &[Value],
    name: Value,
) -> Result<Next, Stop>
    requires live { IsLive V.sense v.old }
    requires safe { Safe V.sense.partial (named_function {S = S} n defaults.now name) (V.sense.heap v.old) }
    ensures { Meets V.sense (named_function n defaults.now name) v.old v.new result }
{
    let values = Values::from_slice(alloc, defaults)?;
    let d = make_record(alloc, v, Kind::Tuple, values)?;
    function_of(alloc, v, n, name, d)
}

/// Makes the name, the tuple of the defaults, and the function.
#[tactic(auto, using(py_data::proofs::Rows::row_steps, py_data::proofs::Steps::call_steps), unfolding(py_frames::specs::FunctionRows::new_function))]
fn new_function<S, V: View<S>>(
    alloc: Global,
    v: &mut V,
    name: &[u8],
    n: u32,
    defaults: &[Value],
) -> Result<Next, Stop>
    requires live { IsLive V.sense v.old }
    requires safe { Safe V.sense.partial (new_function {S = S} name.now n defaults.now) (V.sense.heap v.old) }
    ensures { Meets V.sense (new_function name.now n defaults.now) v.old v.new result }
{
    let a = make_text(alloc, v, name)?;
    named_function(alloc, v, n, defaults, a)
}

/// MAKE_FUNCTION, by the name of the code, its number, and the defaults.
#[tactic(auto, using(py_data::proofs::Rows::row_steps), unfolding(py_frames::specs::FunctionRows::make_function_row))]
pub fn make_function_row<S, V: View<S>>(
    alloc: Global,
    v: &mut V,
    roots: Addr,
    name: &[u8],
    n: u32,
    defaults: &[Value],
) -> Result<Next, Stop>
    requires live { IsLive V.sense v.old }
    requires safe { Safe V.sense.partial (make_function_row {S = S} roots.0 name.now n defaults.now)
        (V.sense.heap v.old) }
    ensures { Meets V.sense (make_function_row roots.0 name.now n defaults.now) v.old v.new result }
{
    if name.len() <= LENGTH_LIMIT && defaults.len() <= LENGTH_LIMIT {
        new_function(alloc, v, name, n, defaults)
    } else {
        raise_row(alloc, v, roots, &memory_fault())
    }
}

/// So many slots without a value.
fn unset_slots(alloc: Global, n: usize) -> Result<Values, NoMemory>
    ensures { IfOk result (λ vs. vs ≡ unset_slots n) }
{
    let mut slots = Values::new(alloc);
    push_unset(&mut slots, n)?;
    Ok(slots)
}

/// The frame of a class body.
fn body_frame(
    alloc: Global,
    n: u32,
    slots: usize,
    base: Value,
    dict: Value,
) -> Result<Frame, NoMemory>
    ensures { IfOk result (λ f. f ≡ body_frame n slots base dict) }
{
    let slots = unset_slots(alloc, slots)?;
    Ok(Frame {
        code: n,
        pc: 0,
        slots,
        stack: Values::new(alloc),
        blocks: Blocks::new(alloc),
        made: base,
        names: Some(place_in(dict)),
    })
}

/// Makes the Dict of a class body, and enters it.
#[tactic(auto, using(py_data::proofs::Rows::row_steps, py_data::proofs::Steps::call_steps), unfolding(py_frames::specs::FunctionRows::new_body))]
fn new_body<S, V: View<S>>(
    alloc: Global,
    v: &mut V,
    n: u32,
    slots: usize,
    base: Value,
) -> Result<Next, Stop>
    requires live { IsLive V.sense v.old }
    requires safe { Safe V.sense.partial (new_body {S = S} n slots base) (V.sense.heap v.old) }
    ensures { Meets V.sense (new_body n slots base) v.old v.new result }
{
    let d = make_record(alloc, v, Kind::Dict, Values::new(alloc))?;
    let f = body_frame(alloc, n, slots, base, d)?;
    Ok(enter(alloc, f)?)
}

/// CLASS_BODY over a base of a kind, from one of so many frames.
#[tactic(auto, using(py_data::proofs::Rows::row_steps), unfolding(py_frames::specs::FunctionRows::body_by))]
fn body_by<S, V: View<S>>(
    alloc: Global,
    v: &mut V,
    s: &Site<'_>,
    n: u32,
    base: Value,
    kind: Kind,
) -> Result<Next, Stop>
    requires live { IsLive V.sense v.old }
    requires safe { Safe V.sense.partial (body_by {S = S} s.now n base kind) (V.sense.heap v.old) }
    ensures { Meets V.sense (body_by s.now n base kind) v.old v.new result }
{
    match kind {
        Kind::Class => {
            if s.depth < MOST_FRAMES {
                new_body(alloc, v, n, slots_at(s.program, n).len(), base)
            } else {
                raise_row(alloc, v, s.roots, &depth_fault(alloc)?)
            }
        }
        _ => raise_row(alloc, v, s.roots, &base_fault(alloc)?),
    }
}

/// CLASS_BODY over a base that is a record.
#[tactic(auto, using(py_data::proofs::Rows::row_steps, py_data::proofs::Steps::call_steps), unfolding(py_frames::specs::FunctionRows::class_body_row))]
fn body_at<S, V: View<S>>(
    alloc: Global,
    v: &mut V,
    s: &Site<'_>,
    n: u32,
    a: Addr,
) -> Result<Next, Stop>
    requires live { IsLive V.sense v.old }
    requires safe { Safe V.sense.partial (class_body_row {S = S} s.now n (Ref a)) (V.sense.heap v.old) }
    ensures { Meets V.sense (class_body_row s.now n (Ref a)) v.old v.new result }
{
    let kind = kind(v, a)?;
    body_by(alloc, v, s, n, Value::Ref(a), kind)
}

/// CLASS_BODY, by the number of the body's code and the base.
#[tactic(auto, using(py_data::proofs::Rows::row_steps), unfolding(py_frames::specs::FunctionRows::class_body_row))]
pub fn class_body_row<S, V: View<S>>(
    alloc: Global,
    v: &mut V,
    s: &Site<'_>,
    n: u32,
    base: Value,
) -> Result<Next, Stop>
    requires live { IsLive V.sense v.old }
    requires safe { Safe V.sense.partial (class_body_row {S = S} s.now n base) (V.sense.heap v.old) }
    ensures { Meets V.sense (class_body_row s.now n base) v.old v.new result }
{
    match base {
        Value::Ref(a) => body_at(alloc, v, s, n, a),
        _ => raise_row(alloc, v, s.roots, &base_fault(alloc)?),
    }
}

/// Behind the last frame the Thread record is marked as ended.
#[tactic(auto, using(py_data::proofs::Rows::change_steps), unfolding(py_frames::specs::FunctionRows::ended_row))]
pub fn ended_row<S, V: View<S>>(v: &mut V, thread: Option<Addr>) -> Result<(), Stop>
    requires live { IsLive V.sense v.old }
    requires safe { Safe V.sense.partial (ended_row {S = S} thread) (V.sense.heap v.old) }
    ensures { Meets V.sense (ended_row thread) v.old v.new result }
{
    match thread {
        Some(t) => v.set_val(t, 3, Value::Bool(true)),
        None => Ok(()),
    }
}

/// Leaves the last frame with a value.
#[tactic(auto, using(py_data::proofs::Rows::row_steps, py_data::proofs::Steps::call_steps), unfolding(py_frames::specs::FunctionRows::leave_row))]
fn leave_last<S, V: View<S>>(v: &mut V, thread: Option<Addr>, x: Value) -> Result<Next, Stop>
    requires live { IsLive V.sense v.old }
    requires safe { Safe V.sense.partial (leave_row {S = S} thread 0 x) (V.sense.heap v.old) }
    ensures { Meets V.sense (leave_row thread 0 x) v.old v.new result }
{
    ended_row(v, thread)?;
    Ok(Next::Leaves(x))
}

/// Leaves a frame with a value; it stands on so many others.
#[tactic(auto, using(py_data::proofs::Rows::row_steps), unfolding(py_frames::specs::FunctionRows::leave_row))]
fn leave_row<S, V: View<S>>(
    v: &mut V,
    thread: Option<Addr>,
    depth: usize,
    x: Value,
) -> Result<Next, Stop>
    requires live { IsLive V.sense v.old }
    requires safe { Safe V.sense.partial (leave_row {S = S} thread depth x) (V.sense.heap v.old) }
    ensures { Meets V.sense (leave_row thread depth x) v.old v.new result }
{
    match depth {
        0 => leave_last(v, thread, x),
        _ => Ok(Next::Leaves(x)),
    }
}

/// Makes the class of a body that has ended, and leaves the body.
#[tactic(auto, using(py_data::proofs::Rows::row_steps, py_data::proofs::Steps::call_steps), unfolding(py_frames::specs::FunctionRows::class_of))]
fn class_of<S, V: View<S>>(
    alloc: Global,
    v: &mut V,
    base: Value,
    dict: Addr,
    name: Value,
) -> Result<Next, Stop>
    requires live { IsLive V.sense v.old }
    requires safe { Safe V.sense.partial (class_of {S = S} base dict name) (V.sense.heap v.old) }
    ensures { Meets V.sense (class_of base dict name) v.old v.new result }
{
    let values = three(alloc, name, base, Value::Ref(dict))?;
    let c = make_record(alloc, v, Kind::Class, values)?;
    Ok(Next::Leaves(c))
}

/// Makes the name and the class of a body that has ended.
#[tactic(auto, using(py_data::proofs::Rows::row_steps, py_data::proofs::Steps::call_steps), unfolding(py_frames::specs::FunctionRows::new_class))]
fn new_class<S, V: View<S>>(
    alloc: Global,
    v: &mut V,
    name: &[u8],
    base: Value,
    dict: Addr,
) -> Result<Next, Stop>
    requires live { IsLive V.sense v.old }
    requires safe { Safe V.sense.partial (new_class {S = S} name.now base dict) (V.sense.heap v.old) }
    ensures { Meets V.sense (new_class name.now base dict) v.old v.new result }
{
    let a = make_text(alloc, v, name)?;
    class_of(alloc, v, base, dict, a)
}

/// RETURN from a class body.
#[tactic(auto, using(py_data::proofs::Rows::row_steps), unfolding(py_frames::specs::FunctionRows::class_row))]
fn class_row<S, V: View<S>>(
    alloc: Global,
    v: &mut V,
    roots: Addr,
    name: &[u8],
    base: Value,
    dict: Addr,
) -> Result<Next, Stop>
    requires live { IsLive V.sense v.old }
    requires safe { Safe V.sense.partial (class_row {S = S} roots.0 name.now base dict) (V.sense.heap v.old) }
    ensures { Meets V.sense (class_row roots.0 name.now base dict) v.old v.new result }
{
    if name.len() <= LENGTH_LIMIT {
        new_class(alloc, v, name, base, dict)
    } else {
        fail_row(alloc, v, roots, &memory_fault())
    }
}

/// RETURN from an `__init__`, which must return None.
#[tactic(auto, using(py_data::proofs::Rows::row_steps), unfolding(py_frames::specs::FunctionRows::instance_row))]
fn instance_row<S, V: View<S>>(
    alloc: Global,
    v: &mut V,
    roots: Addr,
    x: Value,
    returned: Value,
) -> Result<Next, Stop>
    requires live { IsLive V.sense v.old }
    requires safe { Safe V.sense.partial (instance_row {S = S} roots.0 x returned) (V.sense.heap v.old) }
    ensures { Meets V.sense (instance_row roots.0 x returned) v.old v.new result }
{
    match returned {
        Value::None => Ok(Next::Leaves(x)),
        _ => raise_row(alloc, v, roots, &operand_fault(alloc)?),
    }
}

/// RETURN from a function or the module, or from an `__init__`.
#[tactic(auto, using(py_data::proofs::Rows::row_steps), unfolding(py_frames::specs::FunctionRows::value_or_instance))]
fn value_or_instance<S, V: View<S>>(
    alloc: Global,
    v: &mut V,
    roots: Addr,
    thread: Option<Addr>,
    depth: usize,
    x: Value,
    made: Value,
) -> Result<Next, Stop>
    requires live { IsLive V.sense v.old }
    requires safe { Safe V.sense.partial (value_or_instance {S = S} roots.0 thread depth x made) (V.sense.heap v.old) }
    ensures { Meets V.sense (value_or_instance roots.0 thread depth x made) v.old v.new result }
{
    match made {
        Value::Unset => leave_row(v, thread, depth, x),
        _ => instance_row(alloc, v, roots, made, x),
    }
}

/// RETURN, by the name of the frame's code, how many frames it stands on, the value, and what the frame says of an
/// instance or a class that it makes.
#[tactic(auto, using(py_data::proofs::Rows::row_steps), unfolding(py_frames::specs::FunctionRows::return_by))]
pub fn return_by<S, V: View<S>>(
    alloc: Global,
    v: &mut V,
    roots: Addr,
    thread: Option<Addr>,
    name: &[u8],
    depth: usize,
    x: Value,
    made: Value,
    names: Option<Addr>,
) -> Result<Next, Stop>
    requires live { IsLive V.sense v.old }
    requires safe { Safe V.sense.partial (return_by {S = S} roots.0 thread name.now depth x made names)
        (V.sense.heap v.old) }
    ensures { Meets V.sense (return_by roots.0 thread name.now depth x made names) v.old v.new result }
{
    match names {
        Some(d) => class_row(alloc, v, roots, name, made, d),
        None => value_or_instance(alloc, v, roots, thread, depth, x, made),
    }
}
