//! What stands between the keyword of a compound statement and its block.
ghost use Rattle.std.specs.Prelude.{◌≡◌, ◌-◌, ◌<◌, ◌≤◌, [], false, IfOk};
ghost use Rattle.py_grammar.specs.inner.Lines.{loops_at, loop_at, caught_at, param_at, params_at, base_at};
ghost use Rattle.py_atoms.specs.inner.Outcome.{Gives};
ghost use Rattle.py_grammar.specs.inner.Aiming.{readers};
ghost use Rattle.py_parser.specs.inner.Suites.{parameters_at};
ghost use Rattle.py_grammar.specs.inner.Tall.{start};

use py_atoms::cursor::{Read, comes, keyword_next, op_next, refused, rest, take_name, take_op};
use py_atoms::tall::{HEIGHT_LIMIT, push, start};
use py_atoms::{Request, TARGET, TEST, node, star_next};
use py_base::Construct;
use py_exprs::expression::expression;
use py_grammar::{Fault, Tall};
use py_lines::statement::maybe;
use py_lines::target::{TargetPlace, target};
use py_tokens::{Token, keyword, operator};
use py_tree::{Expr, Param};
use sqlite_items::Items;
use std::alloc::Global;

/// A parameter; `later` says that one before it has a default.
#[tactic(auto, unfolding(py_grammar::specs::inner::Lines::param_at))]
fn param<'a>(
    alloc: Global,
    turns: usize,
    budget: usize,
    later: bool,
    tokens: &'a [Token],
) -> Read<'a, Param>
    requires { budget ≤ HEIGHT_LIMIT }
    ensures { Gives (λ x. (x.0, x.1.now)) result (param_at (readers turns budget) later tokens.now) }
{
    if star_next(tokens) {
        return refused(tokens, Fault::LeftOut(Construct::StarArgument));
    }
    if op_next(tokens, operator::OPEN_ROUND) {
        return refused(tokens, Fault::LeftOut(Construct::TupleArgument));
    }
    let (name, more) = take_name(alloc, tokens)?;
    if op_next(more, operator::ASSIGN) {
        let (default, more) = expression(alloc, turns, budget, Request::Level(TEST), rest(more))?;
        let default = Some(default.tree);
        return Ok((Param { name, default }, more));
    }
    if later {
        return refused(more, Fault::Unexpected);
    }
    let default = None;
    Ok((Param { name, default }, more))
}

/// One parameter or more.
#[tactic(auto, unfolding(py_grammar::specs::inner::Lines::params_at))]
fn params<'a>(
    alloc: Global,
    turns: usize,
    budget: usize,
    tokens: &'a [Token],
) -> Read<'a, Items<Param>>
    requires { budget ≤ HEIGHT_LIMIT }
    ensures { Gives (λ x. (x.0, x.1.now)) result (params_at (readers turns budget) turns false [] tokens.now) }
{
    let mut found = Items::new(alloc);
    let mut later = false;
    let mut more = tokens;
    'turns: for _turn in 0..turns {
        let (param, after) = param(alloc, turns, budget, later, more)?;
        later = param.default.is_some();
        found.push(param)?;
        if !op_next(after, operator::COMMA) {
            return Ok((found, after));
        }
        more = rest(after);
        if op_next(more, operator::CLOSE_ROUND) {
            return Ok((found, more));
        }
    }
    Ok((found, more))
}

/// The parameters of a `def`, up to its closing bracket.
pub fn parameters<'a>(
    alloc: Global,
    turns: usize,
    budget: usize,
    tokens: &'a [Token],
) -> Read<'a, Items<Param>>
    requires { budget ≤ HEIGHT_LIMIT }
    ensures { Gives (λ x. (x.0, x.1.now)) result (parameters_at (readers turns budget) turns tokens.now) }
{
    if op_next(tokens, operator::CLOSE_ROUND) {
        return Ok((Items::new(alloc), tokens));
    }
    params(alloc, turns, budget, tokens)
}

/// What may stand between `except` and its colon: a test, and where what is caught is put.
#[tactic(auto, unfolding(py_grammar::specs::inner::Lines::caught_at))]
pub fn caught<'a>(
    alloc: Global,
    turns: usize,
    budget: usize,
    tokens: &'a [Token],
) -> Read<'a, (Option<Expr>, Option<Expr>)>
    requires { budget ≤ HEIGHT_LIMIT }
    ensures { Gives (λ x. (x.0, x.1.now)) result (caught_at (readers turns budget) tokens.now) }
{
    if !comes(TEST, tokens) {
        return Ok(((None, None), tokens));
    }
    let (test, more) = expression(alloc, turns, budget, Request::Level(TEST), tokens)?;
    if keyword_next(more, keyword::AS) || op_next(more, operator::COMMA) {
        let (target, more) = target(alloc, turns, budget, TargetPlace::Except, rest(more))?;
        return Ok(((Some(test.tree), Some(target.tree)), more));
    }
    Ok(((Some(test.tree), None), more))
}

/// The base of a class, where one stands in brackets.
#[tactic(auto, unfolding(py_grammar::specs::inner::Lines::base_at))]
pub fn base<'a>(
    alloc: Global,
    turns: usize,
    budget: usize,
    tokens: &'a [Token],
) -> Read<'a, Option<Tall<Expr>>>
    requires { budget ≤ HEIGHT_LIMIT }
    ensures { Gives (λ x. (x.0, x.1.now)) result (base_at (readers turns budget) tokens.now) }
{
    if !op_next(tokens, operator::OPEN_ROUND) {
        return Ok((None, tokens));
    }
    let (base, more) = maybe(alloc, turns, budget, TEST, rest(tokens))?;
    if base.is_some() && op_next(more, operator::COMMA) {
        return refused(more, Fault::LeftOut(Construct::MultipleBases));
    }
    let more = take_op(more, operator::CLOSE_ROUND)?;
    Ok((base, more))
}

/// Targets of `for` after the first, each after a comma, which may also trail.
#[tactic(auto, unfolding(py_grammar::specs::inner::Lines::loops_at))]
fn loop_targets<'a>(
    alloc: Global,
    turns: usize,
    budget: usize,
    first: Tall<Expr>,
    tokens: &'a [Token],
) -> Read<'a, Tall<Items<Expr>>>
    requires small { budget ≤ HEIGHT_LIMIT }
    requires low { first.tall ≤ budget }
    ensures value { Gives (λ x. (x.0, x.1.now)) result
        (loops_at (readers turns budget) turns (start first) tokens.now) }
    ensures fits { IfOk result (λ x. x.0.tall ≤ budget) }
{
    let mut found = start(alloc, first)?;
    let mut more = tokens;
    'turns: for _turn in 0..turns {
        if !op_next(more, operator::COMMA) {
            return Ok((found, more));
        }
        more = rest(more);
        if !comes(TARGET, more) {
            return Ok((found, more));
        }
        let (next, after) = target(alloc, turns, budget, TargetPlace::For, more)?;
        push(&mut found, next)?;
        more = after;
    }
    Ok((found, more))
}

/// The targets of `for`. A target is read with the whole budget first, since no comma may follow.
#[tactic(auto, unfolding(py_grammar::specs::inner::Lines::loop_at))]
pub fn loop_target<'a>(
    alloc: Global,
    turns: usize,
    budget: usize,
    tokens: &'a [Token],
) -> Read<'a, Tall<Expr>>
    requires { budget < HEIGHT_LIMIT }
    ensures { Gives (λ x. (x.0, x.1.now)) result
        (loop_at (readers turns budget) (readers turns (budget - 1)) budget turns tokens.now) }
{
    let (first, more) = target(alloc, turns, budget, TargetPlace::For, tokens)?;
    if !op_next(more, operator::COMMA) {
        return Ok((first, more));
    }
    if budget <= first.tall {
        return refused(more, Fault::Deep);
    }
    let (targets, more) = loop_targets(alloc, turns, budget - 1, first, more)?;
    Ok((node::tuple(targets), more))
}
