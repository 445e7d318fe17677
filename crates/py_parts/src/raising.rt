//! Instructions that raise, and what an instruction makes of the answer of an operation on objects.
ghost use Rattle.std.specs.Prelude.{◌≡◌, IfOk, [], ◌∷◌, ◌++◌};
ghost use Rattle.py_data.specs.Fault.{depth_fault, memory_fault, operand_fault, text_fault};
ghost use Rattle.py_data.specs.Sense.{Meets, Safe, IsLive};
ghost use Rattle.py_frames.specs.declared.next.Next.TheVariants.{Enters, Goes};
ghost use Rattle.py_frames.specs.Raising.{base_fault, done, fail_row, give, place_in, raise_row, raised_fault, values_row};

use obj_class::make_fault;
use obj_ops::values_of;
use py_data::exception::{MEMORY_ERROR, RUNTIME_ERROR, TYPE_ERROR};
use py_data::{Addr, Bytes, Fault, Got, NoMemory, Stop, Value, Values, View, With};
use py_frames::{Entered, Frame, Next, Pushed};
use std::alloc::Global;

/// The address in a value; 0 where it has none.
pub fn place_in(x: Value) -> Addr
    ensures { result.0 ≡ place_in x }
{
    match x {
        Value::Ref(a) => a,
        _ => Addr(0),
    }
}

/// A value is pushed.
pub fn push(x: Value) -> Next
    ensures { result ≡ Goes (x ∷ []) }
{
    Next::Goes(Pushed::one(x))
}

/// Two values are pushed, the second on top.
pub fn push_two(x: Value, y: Value) -> Next
    ensures { result ≡ Goes (x ∷ y ∷ []) }
{
    Next::Goes(Pushed::two(x, y))
}

/// Nothing is pushed.
pub fn pass() -> Next
    ensures { result ≡ Goes [] }
{
    Next::Goes(Pushed::none())
}

/// A frame is entered.
pub fn enter(alloc: Global, f: Frame) -> Result<Next, NoMemory>
    ensures { IfOk result (λ n. n ≡ Enters f) }
{
    Ok(Next::Enters(Entered::new(alloc, f)?))
}

/// An instruction raises an exception.
#[tactic(auto, using(py_data::proofs::Rows::row_steps, py_data::proofs::Steps::call_steps), unfolding(py_frames::specs::Raising::raise_row))]
pub fn raise_row<S, V: View<S>>(
    alloc: Global,
    v: &mut V,
    roots: Addr,
    e: &Fault,
) -> Result<Next, Stop>
    requires live { IsLive V.sense v.old }
    requires safe { Safe V.sense.partial (raise_row {S = S} roots.0 e.now) (V.sense.heap v.old) }
    ensures { Meets V.sense (raise_row roots.0 e.now) v.old v.new result }
{
    let x = make_fault(alloc, v, roots, e)?;
    Ok(Next::Throws(x))
}

/// It raises an exception of a class with a text.
#[tactic(auto, using(py_data::proofs::Rows::row_steps))]
pub fn raise_text<S, V: View<S>>(
    alloc: Global,
    v: &mut V,
    roots: Addr,
    exc: u8,
    text: &[u8],
) -> Result<Next, Stop>
    requires live { IsLive V.sense v.old }
    requires safe { Safe V.sense.partial (raise_row {S = S} roots.0 (text_fault exc text.now)) (V.sense.heap v.old) }
    ensures { Meets V.sense (raise_row roots.0 (text_fault exc text.now)) v.old v.new result }
{
    let e = told(alloc, exc, text)?;
    raise_row(alloc, v, roots, &e)
}

/// An instruction isn't for operands of these types.
#[tactic(auto, using(py_data::proofs::Rows::row_steps, py_data::proofs::Steps::call_steps))]
pub fn raise_operand<S, V: View<S>>(alloc: Global, v: &mut V, roots: Addr) -> Result<Next, Stop>
    requires live { IsLive V.sense v.old }
    requires safe { Safe V.sense.partial (raise_row {S = S} roots.0 operand_fault) (V.sense.heap v.old) }
    ensures { Meets V.sense (raise_row roots.0 operand_fault) v.old v.new result }
{
    let e = operand_fault(alloc)?;
    raise_row(alloc, v, roots, &e)
}

/// An instruction raises an exception once its frame is left.
#[tactic(auto, using(py_data::proofs::Rows::row_steps, py_data::proofs::Steps::call_steps), unfolding(py_frames::specs::Raising::fail_row))]
pub fn fail_row<S, V: View<S>>(
    alloc: Global,
    v: &mut V,
    roots: Addr,
    e: &Fault,
) -> Result<Next, Stop>
    requires live { IsLive V.sense v.old }
    requires safe { Safe V.sense.partial (fail_row {S = S} roots.0 e.now) (V.sense.heap v.old) }
    ensures { Meets V.sense (fail_row roots.0 e.now) v.old v.new result }
{
    let x = make_fault(alloc, v, roots, e)?;
    Ok(Next::Fails(x))
}

/// The value that an operation answers is pushed, or its exception raised.
#[tactic(auto, using(py_data::proofs::Rows::row_steps), unfolding(py_frames::specs::Raising::give))]
pub fn give<S, V: View<S>>(
    alloc: Global,
    v: &mut V,
    roots: Addr,
    got: Got<Value>,
) -> Result<Next, Stop>
    requires live { IsLive V.sense v.old }
    requires safe { Safe V.sense.partial (give {S = S} roots.0 got) (V.sense.heap v.old) }
    ensures { Meets V.sense (give roots.0 got) v.old v.new result }
{
    match got {
        Got::Is(x) => Ok(push(x)),
        Got::Raise(e) => raise_row(alloc, v, roots, &e),
    }
}

/// An operation was done, or its exception is raised.
#[tactic(auto, using(py_data::proofs::Rows::row_steps), unfolding(py_frames::specs::Raising::done))]
pub fn done<S, T: Drop, V: View<S>>(
    alloc: Global,
    v: &mut V,
    roots: Addr,
    got: Got<T>,
) -> Result<Next, Stop>
    requires live { IsLive V.sense v.old }
    requires safe { Safe V.sense.partial (done {S = S} {A = T} roots.0 got) (V.sense.heap v.old) }
    ensures { Meets V.sense (done roots.0 got) v.old v.new result }
{
    match got {
        Got::Is(_) => Ok(pass()),
        Got::Raise(e) => raise_row(alloc, v, roots, &e),
    }
}

/// All values of a record.
#[tactic(auto, using(py_data::proofs::Rows::row_steps), unfolding(py_frames::specs::Raising::values_row, obj_ops::specs::Sequences::values_row))]
pub fn values_row<S, V: View<S>>(alloc: Global, v: &mut V, a: Addr) -> Result<Values, Stop>
    requires live { IsLive V.sense v.old }
    requires safe { Safe V.sense.partial (values_row {S = S} a.0) (V.sense.heap v.old) }
    ensures { Meets V.sense (values_row a.0) v.old v.new result }
{
    values_of(alloc, v, a)
}

/// An exception of a class with a text.
pub fn told(alloc: Global, exc: u8, text: &[u8]) -> Result<Fault, NoMemory>
    ensures { IfOk result (λ e. e ≡ text_fault exc text.now) }
{
    let text = Bytes::from_slice(alloc, text)?;
    Ok(Fault {
        exc,
        with: With::Text(text),
    })
}

/// An exception of a class with a text: a name, and what stands before and behind it.
pub fn told_name(
    alloc: Global,
    exc: u8,
    before: &[u8],
    name: &[u8],
    behind: &[u8],
) -> Result<Fault, NoMemory>
    ensures { IfOk result (λ e. e ≡ text_fault exc (before.now ++ name.now ++ behind.now)) }
{
    let mut text = Bytes::from_slice(alloc, before)?;
    text.extend_from_slice(name)?;
    text.extend_from_slice(behind)?;
    Ok(Fault {
        exc,
        with: With::Text(text),
    })
}

/// An operation isn't for operands of these types.
pub fn operand_fault(alloc: Global) -> Result<Fault, NoMemory>
    ensures { IfOk result (λ e. e ≡ operand_fault) }
{
    told(alloc, TYPE_ERROR, b"unsupported operand")
}

/// It can't be raised.
pub fn raised_fault(alloc: Global) -> Result<Fault, NoMemory>
    ensures { IfOk result (λ e. e ≡ raised_fault) }
{
    told(alloc, TYPE_ERROR, b"cannot be raised")
}

/// It can't be the base of a class.
pub fn base_fault(alloc: Global) -> Result<Fault, NoMemory>
    ensures { IfOk result (λ e. e ≡ base_fault) }
{
    told(alloc, TYPE_ERROR, b"bad base")
}

/// Too many frames stand in one another.
pub fn depth_fault(alloc: Global) -> Result<Fault, NoMemory>
    ensures { IfOk result (λ e. e ≡ depth_fault) }
{
    told(alloc, RUNTIME_ERROR, b"maximum recursion depth exceeded")
}

/// The record would have more values or bytes than one may have.
pub fn memory_fault() -> Fault
    ensures { result ≡ memory_fault }
{
    Fault {
        exc: MEMORY_ERROR,
        with: With::Nothing,
    }
}
