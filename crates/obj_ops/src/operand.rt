//! What operands are to an operator, and what it does with two of them.
ghost use Rattle.std.specs.Prelude.{◌≡◌};
ghost use Rattle.py_data.specs.Sense.{Meets, Safe, IsLive};
ghost use Rattle.obj_ops.specs.Operands.{operand_of, operand_row, number_of, truth_of, tuple_of, list_of, both_numbers, both_truths, numbers_case, repeat_case, repeat_text_case, join_case, join_with, join_text_with, add_case, times_case, multiply_case, remainder_case, case_of};

use crate::operator::Operator;
use py_data::{Addr, Kind, Stop, Value, View};

/// What a value is to an operator.
#[derive(Clone, Copy, Debug, Drop, PartialEq, Eq)]
pub enum Operand {
    Whole(i64),
    Truth(bool),
    /// The string at that address.
    Text(Addr),
    /// The list or the tuple at that address.
    Sequence(Kind, Addr),
    Other,
}

/// What an operator does.
#[derive(Clone, Copy, Debug, Drop, PartialEq, Eq)]
pub enum Case {
    Numbers(i64, i64),
    Truths(bool, bool),
    Join(Kind, Addr, Addr),
    JoinTexts(Addr, Addr),
    Repeat(Kind, Addr, i64),
    RepeatText(Addr, i64),
    /// The template, and the tuple of its arguments where they stand in one.
    Format(Addr, Option<Addr>),
    Wrong,
}

/// What a record is to an operator.
fn operand_of(kind: Kind, a: Addr) -> Operand
    ensures { result ≡ operand_of kind a }
{
    match kind {
        Kind::Str => Operand::Text(a),
        Kind::Tuple => Operand::Sequence(Kind::Tuple, a),
        Kind::List => Operand::Sequence(Kind::List, a),
        _ => Operand::Other,
    }
}

/// What a value is to an operator.
#[tactic(auto, using(py_data::proofs::Rows::row_steps), unfolding(crate::specs::Operands::operand_row))]
pub fn operand_at<S, V: View<S>>(v: &mut V, x: Value) -> Result<Operand, Stop>
    requires live { IsLive V.sense v.old }
    requires safe { Safe V.sense.partial (operand_row {S = S} x) (V.sense.heap v.old) }
    ensures { Meets V.sense (operand_row x) v.old v.new result }
{
    match x {
        Value::Ref(a) => Ok(operand_of(v.kind(a)?, a)),
        Value::Int(i) => Ok(Operand::Whole(i)),
        Value::Bool(b) => Ok(Operand::Truth(b)),
        _ => Ok(Operand::Other),
    }
}

/// The number that an operand is, if it is one.
fn number_of(p: Operand) -> Option<i64>
    ensures { result ≡ number_of p }
{
    match p {
        Operand::Whole(i) => Some(i),
        Operand::Truth(b) => Some(b as i64),
        _ => None,
    }
}

/// The truth value that an operand is, if it is one.
fn truth_of(p: Operand) -> Option<bool>
    ensures { result ≡ truth_of p }
{
    match p {
        Operand::Truth(b) => Some(b),
        _ => None,
    }
}

/// The tuple that an operand is, if it is one.
fn tuple_of(p: Operand) -> Option<Addr>
    ensures { result ≡ tuple_of p }
{
    match p {
        Operand::Sequence(Kind::Tuple, a) => Some(a),
        _ => None,
    }
}

/// The list that an operand is, if it is one.
pub fn list_of(p: Operand) -> Option<Addr>
    ensures { result ≡ list_of p }
{
    match p {
        Operand::Sequence(Kind::List, a) => Some(a),
        _ => None,
    }
}

/// Both operands are numbers.
fn both_numbers(p: Option<i64>, q: Option<i64>) -> Case
    ensures { result ≡ both_numbers p q }
{
    match (p, q) {
        (Some(i), Some(j)) => Case::Numbers(i, j),
        _ => Case::Wrong,
    }
}

/// Both operands are truth values, or it is the other case.
fn both_truths(p: Option<bool>, q: Option<bool>, otherwise: Case) -> Case
    ensures { result ≡ both_truths p q otherwise }
{
    match (p, q) {
        (Some(b), Some(c)) => Case::Truths(b, c),
        _ => otherwise,
    }
}

/// Both operands are truth values, or both are numbers.
fn numbers_case(p: Operand, q: Operand) -> Case
    ensures { result ≡ numbers_case p q }
{
    both_truths(
        truth_of(p),
        truth_of(q),
        both_numbers(number_of(p), number_of(q)),
    )
}

/// A sequence is repeated so often, if that is a number.
fn repeat_case(kind: Kind, a: Addr, n: Option<i64>) -> Case
    ensures { result ≡ repeat_case kind a n }
{
    match n {
        Some(n) => Case::Repeat(kind, a, n),
        None => Case::Wrong,
    }
}

/// A string is repeated so often, if that is a number.
fn repeat_text_case(a: Addr, n: Option<i64>) -> Case
    ensures { result ≡ repeat_text_case a n }
{
    match n {
        Some(n) => Case::RepeatText(a, n),
        None => Case::Wrong,
    }
}

/// Sequences of one kind are joined.
fn join_case(k: Kind, l: Kind, a: Addr, b: Addr) -> Case
    ensures { result ≡ join_case k l a b }
{
    match (k, l) {
        (Kind::Tuple, Kind::Tuple) => Case::Join(Kind::Tuple, a, b),
        (Kind::List, Kind::List) => Case::Join(Kind::List, a, b),
        _ => Case::Wrong,
    }
}

/// A sequence and another operand are added.
fn join_with(k: Kind, a: Addr, q: Operand) -> Case
    ensures { result ≡ join_with k a q }
{
    match q {
        Operand::Sequence(l, b) => join_case(k, l, a, b),
        _ => Case::Wrong,
    }
}

/// A string and another operand are added.
fn join_text_with(a: Addr, q: Operand) -> Case
    ensures { result ≡ join_text_with a q }
{
    match q {
        Operand::Text(b) => Case::JoinTexts(a, b),
        _ => Case::Wrong,
    }
}

/// Two operands are added.
fn add_case(p: Operand, q: Operand) -> Case
    ensures { result ≡ add_case p q }
{
    match p {
        Operand::Text(a) => join_text_with(a, q),
        Operand::Sequence(k, a) => join_with(k, a, q),
        _ => numbers_case(p, q),
    }
}

/// An operand that is no sequence, and another one are multiplied.
fn times_case(p: Operand, q: Operand) -> Case
    ensures { result ≡ times_case p q }
{
    match q {
        Operand::Text(b) => repeat_text_case(b, number_of(p)),
        Operand::Sequence(l, b) => repeat_case(l, b, number_of(p)),
        _ => numbers_case(p, q),
    }
}

/// Two operands are multiplied.
fn multiply_case(p: Operand, q: Operand) -> Case
    ensures { result ≡ multiply_case p q }
{
    match p {
        Operand::Text(a) => repeat_text_case(a, number_of(q)),
        Operand::Sequence(k, a) => repeat_case(k, a, number_of(q)),
        _ => times_case(p, q),
    }
}

/// An operand stands before a percent sign, and another one behind it.
fn remainder_case(p: Operand, q: Operand) -> Case
    ensures { result ≡ remainder_case p q }
{
    match p {
        Operand::Text(a) => Case::Format(a, tuple_of(q)),
        _ => numbers_case(p, q),
    }
}

/// What an operator does with two operands.
pub fn case_of(op: Operator, p: Operand, q: Operand) -> Case
    ensures { result ≡ case_of op p q }
{
    match op {
        Operator::Add => add_case(p, q),
        Operator::Multiply => multiply_case(p, q),
        Operator::Remainder => remainder_case(p, q),
        _ => numbers_case(p, q),
    }
}
