//! Operators and their tokens.
ghost use Rattle.std.specs.Prelude.{◌≡◌};
ghost use Rattle.py_grammar.specs.inner.Lines.{assigned_of};
ghost use Rattle.py_atoms.specs.inner.Outcome.{Gives};
ghost use Rattle.py_grammar.specs.inner.Reading.{first, operator_of, operator_rest, sign_of};
ghost use Rattle.py_grammar.specs.Words.{below, assigned};
ghost use Rattle.py_tokens.specs.declared.token.TokenKind.TheVariants as k;
ghost use Rattle.py_tree.specs.declared.expr.Level.TheVariants as level;

use py_atoms::cursor::{Read, keyword_next, rest, take_keyword};
use py_base::split;
use py_tokens::{Token, TokenKind, keyword, operator};
use py_tree::{Level, Operator, Sign};

/// The level of expressions that the operands of a level of operators have.
pub fn below(level: Level) -> u8
    ensures { result ≡ below level }
{
    match level {
        Level::Term => 3,
        Level::Sum => 4,
        Level::Shift => 5,
        Level::BitAnd => 6,
        Level::BitXor => 7,
        Level::BitOr => 8,
        Level::Compare => 9,
        Level::And => 11,
        Level::Or => 12,
    }
}

fn of_keyword(level: Level, word: u8) -> Option<Operator>
    ensures { result ≡ operator_of level (k.Keyword word) }
{
    match level {
        Level::Or => (word == keyword::OR).then_some(Operator::Or),
        Level::And => (word == keyword::AND).then_some(Operator::And),
        Level::Compare => match word {
            keyword::IN => Some(Operator::In),
            keyword::NOT => Some(Operator::NotIn),
            keyword::IS => Some(Operator::Is),
            _ => None,
        },
        _ => None,
    }
}

fn of_comparison(op: u8) -> Option<Operator>
    ensures { result ≡ operator_of level.Compare (k.Op op) }
{
    match op {
        operator::LESS => Some(Operator::Less),
        operator::GREATER => Some(Operator::Greater),
        operator::EQUAL => Some(Operator::Equal),
        operator::GREATER_EQUAL => Some(Operator::GreaterEqual),
        operator::LESS_EQUAL => Some(Operator::LessEqual),
        operator::NOT_EQUAL => Some(Operator::NotEqual),
        _ => None,
    }
}

fn of_term(op: u8) -> Option<Operator>
    ensures { result ≡ operator_of level.Term (k.Op op) }
{
    match op {
        operator::STAR => Some(Operator::Times),
        operator::SLASH => Some(Operator::Divide),
        operator::FLOOR => Some(Operator::Floor),
        operator::PERCENT => Some(Operator::Remainder),
        _ => None,
    }
}

fn of_op(level: Level, op: u8) -> Option<Operator>
    ensures { result ≡ operator_of level (k.Op op) }
{
    match level {
        Level::Compare => of_comparison(op),
        Level::BitOr => (op == operator::BAR).then_some(Operator::BitOr),
        Level::BitXor => (op == operator::CARET).then_some(Operator::BitXor),
        Level::BitAnd => (op == operator::AMPERSAND).then_some(Operator::BitAnd),
        Level::Shift => match op {
            operator::SHIFT_LEFT => Some(Operator::ShiftLeft),
            operator::SHIFT_RIGHT => Some(Operator::ShiftRight),
            _ => None,
        },
        Level::Sum => match op {
            operator::PLUS => Some(Operator::Plus),
            operator::MINUS => Some(Operator::Minus),
            _ => None,
        },
        Level::Term => of_term(op),
        _ => None,
    }
}

fn of_kind(level: Level, kind: &TokenKind) -> Option<Operator>
    ensures { result ≡ operator_of level kind.now }
{
    match kind {
        TokenKind::Keyword(word) => of_keyword(level, *word),
        TokenKind::Op(op) => of_op(level, *op),
        _ => None,
    }
}

/// The operator of this level that comes next, by its first token; `in` may follow `not`, and `not` may follow `is`.
pub fn operator_next(level: Level, tokens: &[Token]) -> Option<Operator>
    ensures { result ≡ operator_of level (first tokens.now) }
{
    match split(tokens) {
        None => None,
        Some((token, _)) => of_kind(level, &token.kind),
    }
}

/// The whole operator, where these tokens come after its first.
pub fn operator_rest<'a>(operator: Operator, tokens: &'a [Token]) -> Read<'a, Operator>
    ensures { Gives (λ x. (x.0, x.1.now)) result (operator_rest operator tokens.now) }
{
    match operator {
        Operator::NotIn => Ok((operator, take_keyword(tokens, keyword::IN)?)),
        Operator::Is => {
            if keyword_next(tokens, keyword::NOT) {
                Ok((Operator::IsNot, rest(tokens)))
            } else {
                Ok((operator, tokens))
            }
        }
        _ => Ok((operator, tokens)),
    }
}

fn sign_of_kind(kind: &TokenKind) -> Option<Sign>
    ensures { result ≡ sign_of kind.now }
{
    match kind {
        TokenKind::Op(operator::PLUS) => Some(Sign::Plus),
        TokenKind::Op(operator::MINUS) => Some(Sign::Minus),
        TokenKind::Op(operator::TILDE) => Some(Sign::Invert),
        _ => None,
    }
}

/// The sign that comes next.
pub fn sign_next(tokens: &[Token]) -> Option<Sign>
    ensures { result ≡ sign_of (first tokens.now) }
{
    match split(tokens) {
        None => None,
        Some((token, _)) => sign_of_kind(&token.kind),
    }
}

fn assigned(op: u8) -> Option<Operator>
    ensures { result ≡ assigned op }
{
    match op {
        operator::POWER_ASSIGN => Some(Operator::Power),
        operator::FLOOR_ASSIGN => Some(Operator::Floor),
        operator::SHIFT_RIGHT_ASSIGN => Some(Operator::ShiftRight),
        operator::SHIFT_LEFT_ASSIGN => Some(Operator::ShiftLeft),
        operator::PLUS_ASSIGN => Some(Operator::Plus),
        operator::MINUS_ASSIGN => Some(Operator::Minus),
        operator::STAR_ASSIGN => Some(Operator::Times),
        operator::SLASH_ASSIGN => Some(Operator::Divide),
        operator::PERCENT_ASSIGN => Some(Operator::Remainder),
        operator::AMPERSAND_ASSIGN => Some(Operator::BitAnd),
        operator::BAR_ASSIGN => Some(Operator::BitOr),
        operator::CARET_ASSIGN => Some(Operator::BitXor),
        _ => None,
    }
}

fn assigned_of_kind(kind: &TokenKind) -> Option<Operator>
    ensures { result ≡ assigned_of kind.now }
{
    match kind {
        TokenKind::Op(op) => assigned(*op),
        _ => None,
    }
}

/// The operator of the augmented assignment, such as `+=`, that comes next.
pub fn assigned_next(tokens: &[Token]) -> Option<Operator>
    ensures { result ≡ assigned_of (first tokens.now) }
{
    match split(tokens) {
        None => None,
        Some((token, _)) => assigned_of_kind(&token.kind),
    }
}
