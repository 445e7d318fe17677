//! Levels of operators.
ghost use Rattle.std.specs.Prelude.{◌≡◌, ◌+◌, ◌<◌, ◌≤◌, [], max, IfOk, nat_lt};
ghost use Rattle.py_grammar.specs.inner.Aiming.{after_rung, grown_at};
ghost use Rattle.py_atoms.specs.inner.Asking.{Answers};
ghost use Rattle.py_atoms.specs.inner.Outcome.{Gives};
ghost use Rattle.py_grammar.specs.inner.Pieces.{negated_at, signed_at};
ghost use Rattle.py_grammar.specs.inner.Reading.{reads, power_at, links_at, chain_at, choice_at, after_at, level_at};
ghost use Rattle.py_grammar.specs.inner.Tall.{plain};
ghost use Rattle.py_grammar.specs.Words.{below};

use crate::operators::{below, operator_next, operator_rest, sign_next};
use crate::rung::rung_of;
use py_atoms::cursor::{Read, keyword_next, op_next, refused, rest, take_keyword};
use py_atoms::tall::{HEIGHT_LIMIT, plain, push_link};
use py_atoms::{ParseError, Reader, Request, TEST, node};
use py_base::Construct;
use py_grammar::{Fault, Rung, Tall};
use py_tokens::{Token, keyword, operator};
use py_tree::{Expr, Level, Link, Sign};
use sqlite_items::Items;
use std::alloc::Global;

/// The level of what a sign stands before, and of an exponent.
const FACTOR: u8 = 3;

/// The level of what `not` stands before.
const NEGATION: u8 = 11;

/// The level of what is chosen, and of what it is chosen by.
const CHOICE: u8 = 13;

/// Whether no node fits on top of anything.
fn is_lowest<F: for<'b> Fn(Request, &'b [Token]) -> Result<(Tall<Expr>, &'b [Token]), ParseError>>(
    reader: &Reader<F>,
) -> bool
    ensures { result ≡ nat_lt (reader.now.budget + 1) 2 }
{
    reader.budget == 0
}

/// After what may be raised to a power.
#[tactic(auto, unfolding(py_grammar::specs::inner::Reading::power_at))]
fn power<'a, F: for<'b> Fn(Request, &'b [Token]) -> Result<(Tall<Expr>, &'b [Token]), ParseError>>(
    reader: &Reader<F>,
    base: Tall<Expr>,
    tokens: &'a [Token],
) -> Read<'a, Tall<Expr>>
    requires calls { F.IsAlwaysCallable reader.now.inner }
    requires answers { Answers (F.post reader.now.inner) reader.now.turns reader.now.budget }
    requires small { reader.now.budget < HEIGHT_LIMIT }
    requires low { base.tall ≤ reader.now.budget + 1 }
    ensures value { Gives (λ x. (x.0, x.1.now)) result
        (power_at (reads reader.now.turns reader.now.budget) (reader.now.budget + 1) (base, tokens.now)) }
    ensures fits { IfOk result (λ x. x.0.tall ≤ reader.now.budget + 1) }
{
    if !op_next(tokens, operator::POWER) {
        return Ok((base, tokens));
    }
    if reader.is_full(base.tall) {
        return refused(tokens, Fault::Deep);
    }
    let (exponent, more) = reader.read(FACTOR, rest(tokens))?;
    Ok((node::power(reader.alloc, base, exponent)?, more))
}

/// A sign, which comes next, and its operand.
fn signed<'a, F: for<'b> Fn(Request, &'b [Token]) -> Result<(Tall<Expr>, &'b [Token]), ParseError>>(
    reader: &Reader<F>,
    sign: Sign,
    tokens: &'a [Token],
) -> Read<'a, Tall<Expr>>
    requires calls { F.IsAlwaysCallable reader.now.inner }
    requires answers { Answers (F.post reader.now.inner) reader.now.turns reader.now.budget }
    requires small { reader.now.budget < HEIGHT_LIMIT }
    ensures value { Gives (λ x. (x.0, x.1.now)) result
        (signed_at (reads reader.now.turns reader.now.budget) (reader.now.budget + 1) sign tokens.now) }
    ensures fits { IfOk result (λ x. x.0.tall ≤ reader.now.budget + 1) }
{
    if is_lowest(reader) {
        return refused(tokens, Fault::Deep);
    }
    let (operand, more) = reader.read(FACTOR, rest(tokens))?;
    Ok((node::unary(reader.alloc, sign, operand)?, more))
}

/// Operators of a level with their operands, as many as come.
#[tactic(auto, unfolding(py_grammar::specs::inner::Reading::links_at))]
fn links<'a, F: for<'b> Fn(Request, &'b [Token]) -> Result<(Tall<Expr>, &'b [Token]), ParseError>>(
    reader: &Reader<F>,
    level: Level,
    tokens: &'a [Token],
) -> Read<'a, Tall<Items<Link>>>
    requires calls { F.IsAlwaysCallable reader.now.inner }
    requires answers { Answers (F.post reader.now.inner) reader.now.turns reader.now.budget }
    ensures value { Gives (λ x. (x.0, x.1.now)) result
        (links_at level ((reads reader.now.turns reader.now.budget).read (below level))
        reader.now.turns (plain [] 0) tokens.now) }
    ensures fits { IfOk result (λ x. x.0.tall ≤ reader.now.budget) }
{
    let mut found = plain(Items::new(reader.alloc), 0);
    let mut more = tokens;
    'turns: for _turn in 0..reader.turns {
        let Some(operator) = operator_next(level, more) else {
            return Ok((found, more));
        };
        let (operator, after) = operator_rest(operator, rest(more))?;
        let (operand, after) = reader.read(below(level), after)?;
        push_link(&mut found, operator, operand)?;
        more = after;
    }
    Ok((found, more))
}

/// After the first operand of a level.
#[tactic(auto, unfolding(py_grammar::specs::inner::Reading::chain_at))]
fn chain<'a, F: for<'b> Fn(Request, &'b [Token]) -> Result<(Tall<Expr>, &'b [Token]), ParseError>>(
    reader: &Reader<F>,
    level: Level,
    first: Tall<Expr>,
    tokens: &'a [Token],
) -> Read<'a, Tall<Expr>>
    requires calls { F.IsAlwaysCallable reader.now.inner }
    requires answers { Answers (F.post reader.now.inner) reader.now.turns reader.now.budget }
    requires small { reader.now.budget < HEIGHT_LIMIT }
    requires low { first.tall ≤ reader.now.budget + 1 }
    ensures value { Gives (λ x. (x.0, x.1.now)) result
        (chain_at level ((reads reader.now.turns reader.now.budget).read (below level))
        reader.now.turns (reader.now.budget + 1) (first, tokens.now)) }
    ensures fits { IfOk result (λ x. x.0.tall ≤ reader.now.budget + 1) }
{
    let None = operator_next(level, tokens) else {
        if reader.is_full(first.tall) {
            return refused(tokens, Fault::Deep);
        }
        let (links, more) = links(reader, level, tokens)?;
        return Ok((node::chain(reader.alloc, level, first, links)?, more));
    };
    Ok((first, tokens))
}

/// `not`, which comes next, and its operand.
fn negated<
    'a,
    F: for<'b> Fn(Request, &'b [Token]) -> Result<(Tall<Expr>, &'b [Token]), ParseError>,
>(reader: &Reader<F>, tokens: &'a [Token]) -> Read<'a, Tall<Expr>>
    requires calls { F.IsAlwaysCallable reader.now.inner }
    requires answers { Answers (F.post reader.now.inner) reader.now.turns reader.now.budget }
    requires small { reader.now.budget < HEIGHT_LIMIT }
    ensures value { Gives (λ x. (x.0, x.1.now)) result
        (negated_at (reads reader.now.turns reader.now.budget) (reader.now.budget + 1) tokens.now) }
    ensures fits { IfOk result (λ x. x.0.tall ≤ reader.now.budget + 1) }
{
    if is_lowest(reader) {
        return refused(tokens, Fault::Deep);
    }
    let (operand, more) = reader.read(NEGATION, rest(tokens))?;
    Ok((node::not(reader.alloc, operand)?, more))
}

/// After what may be chosen.
#[tactic(auto, unfolding(py_grammar::specs::inner::Reading::choice_at))]
fn choice<'a, F: for<'b> Fn(Request, &'b [Token]) -> Result<(Tall<Expr>, &'b [Token]), ParseError>>(
    reader: &Reader<F>,
    value: Tall<Expr>,
    tokens: &'a [Token],
) -> Read<'a, Tall<Expr>>
    requires calls { F.IsAlwaysCallable reader.now.inner }
    requires answers { Answers (F.post reader.now.inner) reader.now.turns reader.now.budget }
    requires small { reader.now.budget < HEIGHT_LIMIT }
    requires low { value.tall ≤ reader.now.budget + 1 }
    ensures value { Gives (λ x. (x.0, x.1.now)) result
        (choice_at (reads reader.now.turns reader.now.budget) (reader.now.budget + 1) (value, tokens.now)) }
    ensures fits { IfOk result (λ x. x.0.tall ≤ reader.now.budget + 1) }
{
    if !keyword_next(tokens, keyword::IF) {
        return Ok((value, tokens));
    }
    if reader.is_full(value.tall) {
        return refused(tokens, Fault::Deep);
    }
    let (condition, more) = reader.read(CHOICE, rest(tokens))?;
    let more = take_keyword(more, keyword::ELSE)?;
    let (other, more) = reader.read(TEST, more)?;
    Ok((node::choice(reader.alloc, value, condition, other)?, more))
}

/// After a test, where a comma makes a tuple.
#[tactic(auto, unfolding(py_grammar::specs::inner::Reading::after_at))]
pub fn after_test<
    'a,
    F: for<'b> Fn(Request, &'b [Token]) -> Result<(Tall<Expr>, &'b [Token]), ParseError>,
>(reader: &Reader<F>, test: Tall<Expr>, tokens: &'a [Token]) -> Read<'a, Tall<Expr>>
    requires calls { F.IsAlwaysCallable reader.now.inner }
    requires answers { Answers (F.post reader.now.inner) reader.now.turns reader.now.budget }
    requires small { reader.now.budget < HEIGHT_LIMIT }
    ensures value { Gives (λ x. (x.0, x.1.now)) result
        (after_at (reads reader.now.turns reader.now.budget) reader.now.turns (reader.now.budget + 1) test tokens.now) }
    ensures fits { IfOk result (λ x. x.0.tall ≤ max (reader.now.budget + 1) test.tall) }
{
    if !op_next(tokens, operator::COMMA) {
        return Ok((test, tokens));
    }
    if reader.is_full(test.tall) {
        return refused(tokens, Fault::Deep);
    }
    let ((tests, _), more) = reader.tests(test, tokens)?;
    Ok((node::tuple(tests), more))
}

/// An expression of a level.
#[tactic(auto, unfolding(py_grammar::specs::inner::Reading::level_at))]
pub fn at_level<
    'a,
    F: for<'b> Fn(Request, &'b [Token]) -> Result<(Tall<Expr>, &'b [Token]), ParseError>,
>(reader: &Reader<F>, level: u8, tokens: &'a [Token]) -> Read<'a, Tall<Expr>>
    requires calls { F.IsAlwaysCallable reader.now.inner }
    requires answers { Answers (F.post reader.now.inner) reader.now.turns reader.now.budget }
    requires small { reader.now.budget < HEIGHT_LIMIT }
    ensures value { Gives (λ x. (x.0, x.1.now)) result
        (level_at (reads reader.now.turns reader.now.budget) reader.now.turns (reader.now.budget + 1) level tokens.now) }
    ensures fits { IfOk result (λ x. x.0.tall ≤ reader.now.budget + 1) }
{
    if level == 0 {
        return reader.atom(tokens);
    }
    match rung_of(level - 1) {
        Rung::Trailed => {
            let (atom, more) = at_level(reader, level - 1, tokens)?;
            reader.trail(atom, more)
        }
        Rung::Powered => {
            let (base, more) = at_level(reader, level - 1, tokens)?;
            power(reader, base, more)
        }
        Rung::Signed => match sign_next(tokens) {
            Some(sign) => signed(reader, sign, tokens),
            None => at_level(reader, level - 1, tokens),
        },
        Rung::Chained(operators) => {
            let (first, more) = at_level(reader, level - 1, tokens)?;
            chain(reader, operators, first, more)
        }
        Rung::Negated => {
            if keyword_next(tokens, keyword::NOT) {
                return negated(reader, tokens);
            }
            at_level(reader, level - 1, tokens)
        }
        Rung::Chosen => {
            if keyword_next(tokens, keyword::LAMBDA) {
                return refused(tokens, Fault::LeftOut(Construct::Lambda));
            }
            let (value, more) = at_level(reader, level - 1, tokens)?;
            choice(reader, value, more)
        }
        Rung::Listed => {
            let (test, more) = at_level(reader, level - 1, tokens)?;
            after_test(reader, test, more)
        }
    }
}

/// What a rung adds after its operand.
fn after_rung<
    'a,
    F: for<'b> Fn(Request, &'b [Token]) -> Result<(Tall<Expr>, &'b [Token]), ParseError>,
>(reader: &Reader<F>, rung: Rung, operand: Tall<Expr>, tokens: &'a [Token]) -> Read<'a, Tall<Expr>>
    requires calls { F.IsAlwaysCallable reader.now.inner }
    requires answers { Answers (F.post reader.now.inner) reader.now.turns reader.now.budget }
    requires small { reader.now.budget < HEIGHT_LIMIT }
    requires low { operand.tall ≤ reader.now.budget + 1 }
    ensures value { Gives (λ x. (x.0, x.1.now)) result
        (after_rung rung (reads reader.now.turns reader.now.budget)
        reader.now.turns (reader.now.budget + 1) (operand, tokens.now)) }
    ensures fits { IfOk result (λ x. x.0.tall ≤ reader.now.budget + 1) }
{
    match rung {
        Rung::Powered => power(reader, operand, tokens),
        Rung::Chained(operators) => chain(reader, operators, operand, tokens),
        Rung::Chosen => choice(reader, operand, tokens),
        _ => Ok((operand, tokens)),
    }
}

/// What so many rungs above the level of targets add after an expression of it, one after another.
#[tactic(auto, unfolding(py_grammar::specs::inner::Aiming::grown_at))]
pub fn grown_rungs<
    'a,
    F: for<'b> Fn(Request, &'b [Token]) -> Result<(Tall<Expr>, &'b [Token]), ParseError>,
>(reader: &Reader<F>, rungs: u8, operand: Tall<Expr>, tokens: &'a [Token]) -> Read<'a, Tall<Expr>>
    requires calls { F.IsAlwaysCallable reader.now.inner }
    requires answers { Answers (F.post reader.now.inner) reader.now.turns reader.now.budget }
    requires small { reader.now.budget < HEIGHT_LIMIT }
    requires low { operand.tall ≤ reader.now.budget + 1 }
    ensures value { Gives (λ x. (x.0, x.1.now)) result
        (grown_at (reads reader.now.turns reader.now.budget)
        reader.now.turns (reader.now.budget + 1) rungs (operand, tokens.now)) }
    ensures fits { IfOk result (λ x. x.0.tall ≤ reader.now.budget + 1) }
{
    if rungs == 0 {
        return Ok((operand, tokens));
    }
    let (grown, more) = grown_rungs(reader, rungs - 1, operand, tokens)?;
    after_rung(reader, rung_of(rungs), grown, more)
}
