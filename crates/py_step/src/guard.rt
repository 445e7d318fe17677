//! Operands that hold nothing.
ghost use Rattle.std.specs.Prelude.{◌≡◌, ◌++◌, drop, take};
ghost use Rattle.py_data.specs.Sense.{Meets, Safe, IsLive};
ghost use Rattle.py_frames.specs.Steps as steps;
ghost use Rattle.py_states.specs.Innermost.{innermost};
ghost use Rattle.py_step.specs.inner.Operators.{HasOperator};

use crate::instrs::instr_row;
use py_base::{first, skip};
use py_code::Instr;
use py_data::{Stop, Value, View};
use py_frames::Next;
use py_parts::{Site, raise_operand};
use py_states::ThreadState;
use std::alloc::Global;

/// A value is Unset.
fn is_unset(x: Value) -> bool
    ensures { result ≡ steps.is_unset x }
{
    match x {
        Value::Unset => true,
        _ => false,
    }
}

/// One of the values is Unset.
pub fn has_unset(values: &[Value]) -> bool
    ensures { result ≡ steps.has_unset values.now }
{
    values.iter().any(|x| is_unset(*x))
}

/// One of the values but the second is Unset.
fn has_unset_but_second(xs: &[Value]) -> bool
    ensures { result ≡ steps.has_unset (take 1 xs.now ++ drop 2 xs.now) }
{
    if has_unset(first(xs, 1)) {
        return true;
    }
    has_unset(skip(xs, 2))
}

/// One of an instruction's operands that may not be Unset is. A few instructions only move theirs.
pub fn lacks_operand(i: Instr, xs: &[Value]) -> bool
    ensures { result ≡ steps.has_unset (steps.wanted i xs.now) }
{
    match i {
        Instr::Pop | Instr::Dup | Instr::Dup2 | Instr::Rot2 | Instr::Rot3 => false,
        Instr::CallMethod(_, _) => has_unset_but_second(xs),
        _ => has_unset(xs),
    }
}

/// Does an instruction over its operands, or raises where one of them is Unset.
#[tactic(auto, using(py_data::proofs::Rows::row_steps), unfolding(py_frames::specs::Steps::guarded_row))]
pub fn guarded_row<V: View<ThreadState>>(
    alloc: Global,
    v: &mut V,
    s: &Site<'_>,
    t: &ThreadState,
    xs: &[Value],
    i: Instr,
) -> Result<Next, Stop>
    requires operator { HasOperator i }
    requires live { IsLive V.sense v.old }
    requires safe { Safe V.sense.partial (steps.guarded_row s.now (innermost t.now.frames) xs.now i)
        (V.sense.heap v.old) }
    ensures { Meets V.sense (steps.guarded_row s.now (innermost t.now.frames) xs.now i) v.old v.new result }
{
    if lacks_operand(i, xs) {
        raise_operand(alloc, v, s.roots)
    } else {
        instr_row(alloc, v, s, t, xs, i)
    }
}
