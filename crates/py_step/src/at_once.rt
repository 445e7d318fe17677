//! Instructions that ask nothing of the heap and raise nothing, done at once: without a view, and without memory for
//! what they push.
ghost use Rattle.std.specs.Prelude.{◌≡◌, [], ◌∷◌, Some, IfSome};
ghost use Rattle.obj_ops.specs.Compare.{comparison_of};
ghost use Rattle.obj_ops.specs.Numbers.{calculated, divided, narrowed, operator_of};
ghost use Rattle.py_data.specs.Arithmetic.{floor_quotient, floor_remainder};
ghost use Rattle.py_data.specs.declared.record.Got.TheVariants.{Is};
ghost use Rattle.py_data.specs.declared.value.Value.TheVariants.{Int as Number};
ghost use Rattle.py_code.specs.declared.instr.Instr.TheVariants.{Binary, Compare, Const, InPlace, JumpFalse, LoadLocal, Pop, Return, StoreLocal};
ghost use Rattle.py_frames.specs.State.{operands};
ghost use Rattle.py_states.specs.Innermost.{innermost};
ghost use Rattle.py_step.specs.inner.Directly.{IsAtOnce, compares, constant_value};

use py_code::{Constant, Instr};
use py_data::Value;
use py_data::arithmetic::{floor_divide, floor_modulo};
use py_data::operator::{binary, compare};
use py_states::ThreadState;
use std::cmp::Ordering;

/// A number, where 64 bits hold it.
#[tactic(auto, unfolding(obj_ops::specs::Numbers::narrowed))]
fn narrow(n: i128) -> Option<i64>
    ensures { IfSome result (λ z. narrowed n ≡ Is (Number z)) }
{
    if n < -9_223_372_036_854_775_808 || n > 9_223_372_036_854_775_807 {
        None
    } else {
        Some(n as i64)
    }
}

/// A quotient rounded down, where there is one.
#[tactic(auto, unfolding(obj_ops::specs::Numbers::divided, obj_ops::specs::Numbers::narrowed))]
fn divide(i: i64, j: i64) -> Option<i64>
    ensures { IfSome result (λ z. divided floor_quotient i j ≡ Is (Number z)) }
{
    if j == 0 || i == i64::MIN {
        None
    } else {
        narrow(floor_divide(i, j) as i128)
    }
}

/// What a division rounded down leaves, where it leaves something.
#[tactic(auto, unfolding(obj_ops::specs::Numbers::divided))]
fn remain(i: i64, j: i64) -> Option<i64>
    ensures { IfSome result (λ z. divided floor_remainder i j ≡ Is (Number z)) }
{
    if j == 0 {
        None
    } else {
        narrow(floor_modulo(i, j) as i128)
    }
}

/// An operator on two numbers, by its number, where it raises nothing; none of powers and shifts.
#[tactic(auto, unfolding(obj_ops::specs::Numbers::calculated))]
fn calculate(op: u8, i: i64, j: i64) -> Option<i64>
    ensures { IfSome result (λ z. calculated (operator_of op) i j ≡ Is (Number z)) }
{
    match op {
        binary::ADD => narrow(i as i128 + j as i128),
        binary::SUBTRACT => narrow(i as i128 - j as i128),
        binary::MULTIPLY => narrow(i as i128 * j as i128),
        binary::DIVIDE => divide(i, j),
        binary::FLOOR_DIVIDE => divide(i, j),
        binary::REMAINDER => remain(i, j),
        binary::AND => Some(i & j),
        binary::OR => Some(i | j),
        binary::XOR => Some(i ^ j),
        _ => None,
    }
}

/// A comparison of two numbers, by the number of its sign; none of `in` and `not in`.
fn order(op: u8, i: i64, j: i64) -> Option<bool>
    ensures { IfSome result (λ b. compares (comparison_of op) i j ≡ Some b) }
{
    match op {
        compare::LESS => Some(i.cmp(&j) == Ordering::Less),
        compare::GREATER => Some(i.cmp(&j) == Ordering::Greater),
        compare::EQUAL => Some(i == j),
        compare::GREATER_EQUAL => Some(i.cmp(&j) != Ordering::Less),
        compare::LESS_EQUAL => Some(i.cmp(&j) != Ordering::Greater),
        compare::NOT_EQUAL => Some(!(i == j)),
        compare::IS => Some(i == j),
        compare::IS_NOT => Some(!(i == j)),
        _ => None,
    }
}

/// The value of a constant; a root's stands in the heap.
pub fn value_of(c: Constant) -> Option<Value>
    ensures { result ≡ constant_value c }
{
    match c {
        Constant::None => Some(Value::None),
        Constant::Truth(b) => Some(Value::Bool(b)),
        Constant::Int(n) => Some(Value::Int(n)),
        Constant::Builtin(b) => Some(Value::Builtin(b)),
        Constant::Root(_) => None,
    }
}

/// CONST of a value that is no root's.
fn constant(s: &mut ThreadState, c: Constant) -> bool
    ensures { IsAtOnce s.old (Const c) result s.new }
{
    match value_of(c) {
        Some(x) => s.gives(0, x),
        None => false,
    }
}

/// LOAD_LOCAL of a slot that holds a value.
fn load(s: &mut ThreadState, j: u32) -> bool
    ensures { IsAtOnce s.old (LoadLocal j) result s.new }
{
    match s.slot(j as usize) {
        Value::Unset => false,
        x => s.gives(0, x),
    }
}

/// STORE_LOCAL of a value.
fn store(s: &mut ThreadState, j: u32) -> bool
    ensures { IsAtOnce s.old (StoreLocal j) result s.new }
{
    match s.operand(1, 0) {
        Value::Unset => false,
        x => s.keeps(1, j, x),
    }
}

/// POP of a value.
fn pop(s: &mut ThreadState) -> bool
    ensures { IsAtOnce s.old Pop result s.new }
{
    s.passes_on(1)
}

/// JUMP_FALSE over a truth value.
fn branch(s: &mut ThreadState, place: u32) -> bool
    ensures { IsAtOnce s.old (JumpFalse place) result s.new }
{
    match s.operand(1, 0) {
        Value::Bool(true) => s.passes_on(1),
        Value::Bool(false) => s.jumps_on(1, place),
        _ => false,
    }
}

/// RETURN of None from an `__init__` that another function called: the instance is what it gives.
fn leave_init(s: &mut ThreadState) -> bool
    ensures { IsAtOnce s.old Return result s.new }
{
    match s.made() {
        Value::Unset => false,
        made => match (s.operand(1, 0), s.names()) {
            (Value::None, None) => s.returns(1, made),
            _ => false,
        },
    }
}

/// RETURN from a function that another one called: of a value, where its frame makes nothing, or of None from an
/// `__init__`.
fn leave(s: &mut ThreadState) -> bool
    ensures { IsAtOnce s.old Return result s.new }
{
    match (s.operand(1, 0), s.made(), s.names()) {
        (Value::Unset, _, _) => false,
        (x, Value::Unset, None) => s.returns(1, x),
        _ => leave_init(s),
    }
}

/// The two operands, if they are numbers.
fn two_numbers(s: &ThreadState) -> Option<(i64, i64)>
    ensures { IfSome result (λ z. operands 2 (innermost s.now.frames) ≡ Number z.0 ∷ Number z.1 ∷ []) }
{
    match s.operands(2) {
        [Value::Int(a), Value::Int(b)] => Some((*a, *b)),
        _ => None,
    }
}

/// BINARY and INPLACE of two numbers.
fn number(s: &mut ThreadState, op: u8) -> bool
    ensures binary { IsAtOnce s.old (Binary op) result s.new }
    ensures in_place { IsAtOnce s.old (InPlace op) result s.new }
{
    match two_numbers(s) {
        Some((a, b)) => match calculate(op, a, b) {
            Some(z) => s.gives(2, Value::Int(z)),
            None => false,
        },
        None => false,
    }
}

/// COMPARE of two numbers.
fn truth(s: &mut ThreadState, op: u8) -> bool
    ensures { IsAtOnce s.old (Compare op) result s.new }
{
    match two_numbers(s) {
        Some((a, b)) => match order(op, a, b) {
            Some(z) => s.gives(2, Value::Bool(z)),
            None => false,
        },
        None => false,
    }
}

/// Does an instruction of a thread that has a frame, if it asks nothing of the heap and raises nothing: whether it was
/// done.
#[inline(always)]
pub fn do_at_once(s: &mut ThreadState, i: Instr) -> bool
    ensures { IsAtOnce s.old i result s.new }
{
    match i {
        Instr::Const(c) => constant(s, c),
        Instr::LoadLocal(j) => load(s, j),
        Instr::StoreLocal(j) => store(s, j),
        Instr::Pop => pop(s),
        Instr::Jump(place) => s.jumps_on(0, place),
        Instr::JumpFalse(place) => branch(s, place),
        Instr::Binary(op) => number(s, op),
        Instr::InPlace(op) => number(s, op),
        Instr::Compare(op) => truth(s, op),
        Instr::Try(handler) => s.tries(0, handler),
        Instr::PopTry => s.has_tried(0),
        Instr::Return => leave(s),
        _ => false,
    }
}
