//! The operators by their numbers.
ghost use Rattle.std.specs.Prelude.{◌≡◌, ◌<◌, length};
ghost use Rattle.py_base.specs.Numbers.{binary_signs, compare_signs, unary_signs};
ghost use Rattle.obj_ops.specs.Compare.{comparison_of};
ghost use Rattle.obj_ops.specs.Numbers.{operator_of, sign_of};

use py_data::operator::{binary, compare, unary};

/// An operator of BINARY and INPLACE.
#[derive(Clone, Copy, Debug, Drop, PartialEq, Eq)]
pub enum Operator {
    Or,
    Xor,
    And,
    ShiftLeft,
    ShiftRight,
    Add,
    Subtract,
    Multiply,
    Divide,
    FloorDivide,
    Remainder,
    Power,
}

/// An operator of UNARY.
#[derive(Clone, Copy, Debug, Drop, PartialEq, Eq)]
pub enum Sign {
    Plus,
    Minus,
    Invert,
}

/// An operator of COMPARE.
#[derive(Clone, Copy, Debug, Drop, PartialEq, Eq)]
pub enum Comparison {
    Less,
    Greater,
    Equal,
    GreaterEqual,
    LessEqual,
    NotEqual,
    In,
    NotIn,
    Is,
    IsNot,
}

/// The operator of BINARY and INPLACE of that number.
pub fn operator_of(op: u8) -> Operator
    requires { op < length binary_signs }
    ensures { result ≡ operator_of op }
{
    match op {
        binary::OR => Operator::Or,
        binary::XOR => Operator::Xor,
        binary::AND => Operator::And,
        binary::SHIFT_LEFT => Operator::ShiftLeft,
        binary::SHIFT_RIGHT => Operator::ShiftRight,
        binary::ADD => Operator::Add,
        binary::SUBTRACT => Operator::Subtract,
        binary::MULTIPLY => Operator::Multiply,
        binary::DIVIDE => Operator::Divide,
        binary::FLOOR_DIVIDE => Operator::FloorDivide,
        binary::REMAINDER => Operator::Remainder,
        binary::POWER => Operator::Power,
        _ => unreachable!(),
    }
}

/// The operator of UNARY of that number.
pub fn sign_of(op: u8) -> Sign
    requires { op < length unary_signs }
    ensures { result ≡ sign_of op }
{
    match op {
        unary::PLUS => Sign::Plus,
        unary::MINUS => Sign::Minus,
        unary::INVERT => Sign::Invert,
        _ => unreachable!(),
    }
}

/// The operator of COMPARE of that number.
pub fn comparison_of(op: u8) -> Comparison
    requires { op < length compare_signs }
    ensures { result ≡ comparison_of op }
{
    match op {
        compare::LESS => Comparison::Less,
        compare::GREATER => Comparison::Greater,
        compare::EQUAL => Comparison::Equal,
        compare::GREATER_EQUAL => Comparison::GreaterEqual,
        compare::LESS_EQUAL => Comparison::LessEqual,
        compare::NOT_EQUAL => Comparison::NotEqual,
        compare::IN => Comparison::In,
        compare::NOT_IN => Comparison::NotIn,
        compare::IS => Comparison::Is,
        compare::IS_NOT => Comparison::IsNot,
        _ => unreachable!(),
    }
}
