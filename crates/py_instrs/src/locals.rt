//! Constants, and the slots of a frame.
ghost use Rattle.std.specs.Prelude.{◌≡◌, IfOk};
ghost use Rattle.py_data.specs.Sense.{Meets, Safe, IsLive};
ghost use Rattle.py_code.specs.declared.instr.Constant.TheVariants.{Root};
ghost use Rattle.py_frames.specs.LocalRows.{const_row, del_local_row, load_local_row, unbound_fault};
ghost use Rattle.py_frames.specs.Raising.{raise_row};

use py_code::Constant;
use py_data::exception::UNBOUND_LOCAL_ERROR;
use py_data::{Addr, Fault, NoMemory, Stop, Value, View, look};
use py_frames::Next;
use py_parts::{push, raise_row, told_name};
use std::alloc::Global;

/// Pushes the root of a number.
#[tactic(auto, using(py_data::proofs::Rows::row_steps, py_data::proofs::Steps::call_steps), unfolding(py_frames::specs::LocalRows::const_row))]
fn push_root<S, V: View<S>>(v: &mut V, roots: Addr, n: u32) -> Result<Next, Stop>
    requires live { IsLive V.sense v.old }
    requires safe { Safe V.sense.partial (const_row {S = S} roots.0 (Root n)) (V.sense.heap v.old) }
    ensures { Meets V.sense (const_row roots.0 (Root n)) v.old v.new result }
{
    let x = look(v, roots, n as usize)?;
    Ok(push(x))
}

/// CONST.
#[tactic(auto, using(py_data::proofs::Rows::row_steps), unfolding(py_frames::specs::LocalRows::const_row))]
pub fn const_row<S, V: View<S>>(v: &mut V, roots: Addr, c: Constant) -> Result<Next, Stop>
    requires live { IsLive V.sense v.old }
    requires safe { Safe V.sense.partial (const_row {S = S} roots.0 c) (V.sense.heap v.old) }
    ensures { Meets V.sense (const_row roots.0 c) v.old v.new result }
{
    match c {
        Constant::None => Ok(push(Value::None)),
        Constant::Truth(b) => Ok(push(Value::Bool(b))),
        Constant::Int(n) => Ok(push(Value::Int(n))),
        Constant::Builtin(b) => Ok(push(Value::Builtin(b))),
        Constant::Root(n) => push_root(v, roots, n),
    }
}

/// The exception of a slot without a value, by its name.
fn unbound_fault(alloc: Global, name: &[u8]) -> Result<Fault, NoMemory>
    ensures { IfOk result (λ e. e ≡ unbound_fault name.now) }
{
    told_name(
        alloc,
        UNBOUND_LOCAL_ERROR,
        b"local variable '",
        name,
        b"' referenced before assignment",
    )
}

/// Raises the exception of a slot without a value.
#[tactic(auto, using(py_data::proofs::Rows::row_steps))]
fn raise_unbound<S, V: View<S>>(
    alloc: Global,
    v: &mut V,
    roots: Addr,
    name: &[u8],
) -> Result<Next, Stop>
    requires live { IsLive V.sense v.old }
    requires safe { Safe V.sense.partial (raise_row {S = S} roots.0 (unbound_fault name.now)) (V.sense.heap v.old) }
    ensures { Meets V.sense (raise_row roots.0 (unbound_fault name.now)) v.old v.new result }
{
    let e = unbound_fault(alloc, name)?;
    raise_row(alloc, v, roots, &e)
}

/// LOAD_LOCAL, of a slot of that name that holds `x`.
#[tactic(auto, using(py_data::proofs::Rows::row_steps), unfolding(py_frames::specs::LocalRows::load_local_row))]
pub fn load_local_row<S, V: View<S>>(
    alloc: Global,
    v: &mut V,
    roots: Addr,
    name: &[u8],
    x: Value,
) -> Result<Next, Stop>
    requires live { IsLive V.sense v.old }
    requires safe { Safe V.sense.partial (load_local_row {S = S} roots.0 name.now x) (V.sense.heap v.old) }
    ensures { Meets V.sense (load_local_row roots.0 name.now x) v.old v.new result }
{
    match x {
        Value::Unset => raise_unbound(alloc, v, roots, name),
        _ => Ok(push(x)),
    }
}

/// DEL_LOCAL, of the slot of number `i` and that name, which holds `x`.
#[tactic(auto, using(py_data::proofs::Rows::row_steps), unfolding(py_frames::specs::LocalRows::del_local_row))]
pub fn del_local_row<S, V: View<S>>(
    alloc: Global,
    v: &mut V,
    roots: Addr,
    name: &[u8],
    i: u32,
    x: Value,
) -> Result<Next, Stop>
    requires live { IsLive V.sense v.old }
    requires safe { Safe V.sense.partial (del_local_row {S = S} roots.0 name.now i x) (V.sense.heap v.old) }
    ensures { Meets V.sense (del_local_row roots.0 name.now i x) v.old v.new result }
{
    match x {
        Value::Unset => raise_unbound(alloc, v, roots, name),
        _ => Ok(Next::Stores(i, Value::Unset)),
    }
}
