//! Operators and jumps.
ghost use Rattle.std.specs.Prelude.{◌≡◌, ◌<◌, length};
ghost use Rattle.py_base.specs.Numbers.{binary_signs, compare_signs, unary_signs};
ghost use Rattle.py_data.specs.Sense.{Meets, Safe, IsLive};
ghost use Rattle.py_frames.specs.OperatorRows as rows;

use obj_ops::{binary, compare, in_place, truth, unary};
use py_data::{Addr, Stop, Value, View};
use py_frames::{Next, Pushed};
use py_parts::{give, push};
use std::alloc::Global;

/// UNARY: an operator of one operand, by its number.
#[tactic(auto, using(py_data::proofs::Rows::row_steps, py_data::proofs::Steps::call_steps), unfolding(py_frames::specs::OperatorRows::unary_instr))]
pub fn unary_instr<S, V: View<S>>(
    alloc: Global,
    v: &mut V,
    roots: Addr,
    op: u8,
    x: Value,
) -> Result<Next, Stop>
    requires number { op < length unary_signs }
    requires live { IsLive V.sense v.old }
    requires safe { Safe V.sense.partial (rows.unary_instr {S = S} roots.0 op x) (V.sense.heap v.old) }
    ensures { Meets V.sense (rows.unary_instr roots.0 op x) v.old v.new result }
{
    let got = unary(alloc, v, op, x)?;
    give(alloc, v, roots, got)
}

/// NOT.
#[tactic(auto, using(py_data::proofs::Rows::row_steps, py_data::proofs::Steps::call_steps), unfolding(py_frames::specs::OperatorRows::not_row))]
pub fn not_row<S, V: View<S>>(v: &mut V, x: Value) -> Result<Next, Stop>
    requires live { IsLive V.sense v.old }
    requires safe { Safe V.sense.partial (rows.not_row {S = S} x) (V.sense.heap v.old) }
    ensures { Meets V.sense (rows.not_row x) v.old v.new result }
{
    let b = truth(v, x)?;
    Ok(push(Value::Bool(!b)))
}

/// BINARY: an operator of two operands, by its number.
#[tactic(auto, using(py_data::proofs::Rows::row_steps, py_data::proofs::Steps::call_steps), unfolding(py_frames::specs::OperatorRows::binary_instr))]
pub fn binary_instr<S, V: View<S>>(
    alloc: Global,
    v: &mut V,
    roots: Addr,
    op: u8,
    x: Value,
    y: Value,
) -> Result<Next, Stop>
    requires number { op < length binary_signs }
    requires live { IsLive V.sense v.old }
    requires safe { Safe V.sense.partial (rows.binary_instr {S = S} roots.0 op x y) (V.sense.heap v.old) }
    ensures { Meets V.sense (rows.binary_instr roots.0 op x y) v.old v.new result }
{
    let got = binary(alloc, v, roots, op, x, y)?;
    give(alloc, v, roots, got)
}

/// IN_PLACE: an operator in place, by its number.
#[tactic(auto, using(py_data::proofs::Rows::row_steps, py_data::proofs::Steps::call_steps), unfolding(py_frames::specs::OperatorRows::in_place_instr))]
pub fn in_place_instr<S, V: View<S>>(
    alloc: Global,
    v: &mut V,
    roots: Addr,
    op: u8,
    x: Value,
    y: Value,
) -> Result<Next, Stop>
    requires number { op < length binary_signs }
    requires live { IsLive V.sense v.old }
    requires safe { Safe V.sense.partial (rows.in_place_instr {S = S} roots.0 op x y) (V.sense.heap v.old) }
    ensures { Meets V.sense (rows.in_place_instr roots.0 op x y) v.old v.new result }
{
    let got = in_place(alloc, v, roots, op, x, y)?;
    give(alloc, v, roots, got)
}

/// COMPARE: a comparing operator, by its number.
#[tactic(auto, using(py_data::proofs::Rows::row_steps, py_data::proofs::Steps::call_steps), unfolding(py_frames::specs::OperatorRows::compare_instr))]
pub fn compare_instr<S, V: View<S>>(
    alloc: Global,
    v: &mut V,
    roots: Addr,
    op: u8,
    x: Value,
    y: Value,
) -> Result<Next, Stop>
    requires number { op < length compare_signs }
    requires live { IsLive V.sense v.old }
    requires safe { Safe V.sense.partial (rows.compare_instr {S = S} roots.0 op x y) (V.sense.heap v.old) }
    ensures { Meets V.sense (rows.compare_instr roots.0 op x y) v.old v.new result }
{
    let got = compare(alloc, v, op, x, y)?;
    give(alloc, v, roots, got)
}

/// Where a jump leads that is made for what isn't true.
#[tactic(auto, unfolding(py_frames::specs::OperatorRows::fall_or_jump))]
fn fall_or_jump(t: u32, b: bool) -> Next
    ensures { result ≡ rows.fall_or_jump t b }
{
    if b {
        Next::Goes(Pushed::none())
    } else {
        Next::Jumps(t, Pushed::none())
    }
}

/// JUMP_FALSE.
#[tactic(auto, using(py_data::proofs::Rows::row_steps, py_data::proofs::Steps::call_steps), unfolding(py_frames::specs::OperatorRows::jump_false_row))]
pub fn jump_false_row<S, V: View<S>>(v: &mut V, t: u32, x: Value) -> Result<Next, Stop>
    requires live { IsLive V.sense v.old }
    requires safe { Safe V.sense.partial (rows.jump_false_row {S = S} t x) (V.sense.heap v.old) }
    ensures { Meets V.sense (rows.jump_false_row t x) v.old v.new result }
{
    let b = truth(v, x)?;
    Ok(fall_or_jump(t, b))
}

/// Where a jump leads that keeps the value, and is made for what isn't true.
#[tactic(auto, unfolding(py_frames::specs::OperatorRows::pop_or_keep))]
fn pop_or_keep(t: u32, x: Value, b: bool) -> Next
    ensures { result ≡ rows.pop_or_keep t x b }
{
    if b {
        Next::Goes(Pushed::none())
    } else {
        Next::Jumps(t, Pushed::one(x))
    }
}

/// KEEP_FALSE.
#[tactic(auto, using(py_data::proofs::Rows::row_steps, py_data::proofs::Steps::call_steps), unfolding(py_frames::specs::OperatorRows::keep_false_row))]
pub fn keep_false_row<S, V: View<S>>(v: &mut V, t: u32, x: Value) -> Result<Next, Stop>
    requires live { IsLive V.sense v.old }
    requires safe { Safe V.sense.partial (rows.keep_false_row {S = S} t x) (V.sense.heap v.old) }
    ensures { Meets V.sense (rows.keep_false_row t x) v.old v.new result }
{
    let b = truth(v, x)?;
    Ok(pop_or_keep(t, x, b))
}

/// KEEP_TRUE.
#[tactic(auto, using(py_data::proofs::Rows::row_steps, py_data::proofs::Steps::call_steps), unfolding(py_frames::specs::OperatorRows::keep_true_row))]
pub fn keep_true_row<S, V: View<S>>(v: &mut V, t: u32, x: Value) -> Result<Next, Stop>
    requires live { IsLive V.sense v.old }
    requires safe { Safe V.sense.partial (rows.keep_true_row {S = S} t x) (V.sense.heap v.old) }
    ensures { Meets V.sense (rows.keep_true_row t x) v.old v.new result }
{
    let b = truth(v, x)?;
    Ok(pop_or_keep(t, x, !b))
}
