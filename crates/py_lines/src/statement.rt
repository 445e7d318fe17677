//! Simple statements.
ghost use Rattle.std.specs.Prelude.{◌≡◌, ◌-◌, ◌<◌, ◌≤◌, [], ◌∷◌};
ghost use Rattle.py_grammar.specs.inner.Lines.{maybe_at, names_at, print_at, raise_at, assert_at, worded_at, running_at, simple_at};
ghost use Rattle.py_atoms.specs.inner.Outcome.{Gives};
ghost use Rattle.py_grammar.specs.inner.Aiming.{readers};
ghost use Rattle.py_lines.specs.inner.SimplePieces.{return_at, raise_or_none_at, del_at, global_at, assert_test_at};
ghost use Rattle.py_grammar.specs.inner.Tall.{tree_or};

use crate::assignment::running;
use crate::imports::{from, import};
use crate::target::{TargetPlace, target, targets};
use py_atoms::cursor::{Read, comes, line_of, op_next, refused, rest, take_name};
use py_atoms::tall::HEIGHT_LIMIT;
use py_atoms::{Request, TEST, TESTS};
use py_base::{Bytes, Construct, split};
use py_exprs::expression::{expression, tests};
use py_grammar::{Fault, Tall};
use py_tokens::{Token, TokenKind, keyword, operator};
use py_tree::{Expr, Stmt};
use sqlite_items::Items;
use std::alloc::Global;

/// An expression of this level, where one comes, or what is left out in its place.
#[tactic(auto, unfolding(py_grammar::specs::inner::Lines::maybe_at))]
pub fn maybe<'a>(
    alloc: Global,
    turns: usize,
    budget: usize,
    level: u8,
    tokens: &'a [Token],
) -> Read<'a, Option<Tall<Expr>>>
    requires { budget ≤ HEIGHT_LIMIT }
    ensures { Gives (λ x. (x.0, x.1.now)) result (maybe_at (readers turns budget) level tokens.now) }
{
    if !comes(level, tokens) {
        return Ok((None, tokens));
    }
    let (test, more) = expression(alloc, turns, budget, Request::Level(level), tokens)?;
    Ok((Some(test), more))
}

/// Further names of `global` after the first, each after a comma.
#[tactic(auto, unfolding(py_grammar::specs::inner::Lines::names_at))]
fn names<'a>(
    alloc: Global,
    turns: usize,
    first: Bytes,
    tokens: &'a [Token],
) -> Read<'a, Items<Bytes>>
    ensures { Gives (λ x. (x.0, x.1.now)) result (names_at turns (first ∷ []) tokens.now) }
{
    let mut found = Items::new(alloc);
    found.push(first)?;
    let mut more = tokens;
    'turns: for _turn in 0..turns {
        if !op_next(more, operator::COMMA) {
            return Ok((found, more));
        }
        let (next, after) = take_name(alloc, rest(more))?;
        found.push(next)?;
        more = after;
    }
    Ok((found, more))
}

/// After `print`.
#[tactic(auto, unfolding(py_grammar::specs::inner::Lines::print_at))]
fn print<'a>(
    alloc: Global,
    turns: usize,
    budget: usize,
    line: u32,
    tokens: &'a [Token],
) -> Read<'a, Stmt>
    requires { budget ≤ HEIGHT_LIMIT }
    ensures { Gives (λ x. (x.0, x.1.now)) result (print_at (readers turns budget) turns line tokens.now) }
{
    if op_next(tokens, operator::SHIFT_RIGHT) {
        return refused(tokens, Fault::LeftOut(Construct::PrintTo));
    }
    if !comes(TEST, tokens) {
        return Ok((Stmt::Print(line, Items::new(alloc), false), tokens));
    }
    let (first, more) = expression(alloc, turns, budget, Request::Level(TEST), tokens)?;
    let ((all, trailing), more) = tests(alloc, turns, budget, first, more)?;
    Ok((Stmt::Print(line, all.tree, trailing), more))
}

/// The tree of a test, where there is one.
pub fn tree_or(test: Option<Tall<Expr>>) -> Option<Expr>
    ensures { result ≡ tree_or test }
{
    match test {
        None => None,
        Some(test) => Some(test.tree),
    }
}

/// After `return`.
fn return_value<'a>(
    alloc: Global,
    turns: usize,
    budget: usize,
    line: u32,
    tokens: &'a [Token],
) -> Read<'a, Stmt>
    requires { budget ≤ HEIGHT_LIMIT }
    ensures { Gives (λ x. (x.0, x.1.now)) result (return_at (readers turns budget) line tokens.now) }
{
    let (value, more) = maybe(alloc, turns, budget, TESTS, tokens)?;
    Ok((Stmt::Return(line, tree_or(value)), more))
}

/// After `raise` and a test.
#[tactic(auto, unfolding(py_grammar::specs::inner::Lines::raise_at))]
fn raise_more<'a>(
    alloc: Global,
    turns: usize,
    budget: usize,
    line: u32,
    raised: Tall<Expr>,
    tokens: &'a [Token],
) -> Read<'a, Stmt>
    requires { budget ≤ HEIGHT_LIMIT }
    ensures { Gives (λ x. (x.0, x.1.now)) result (raise_at (readers turns budget) line (raised, tokens.now)) }
{
    if !op_next(tokens, operator::COMMA) {
        return Ok((Stmt::Raise(line, Some(raised.tree), None), tokens));
    }
    let (value, more) = expression(alloc, turns, budget, Request::Level(TEST), rest(tokens))?;
    if op_next(more, operator::COMMA) {
        return refused(more, Fault::LeftOut(Construct::Traceback));
    }
    Ok((Stmt::Raise(line, Some(raised.tree), Some(value.tree)), more))
}

/// After `raise`.
fn raise<'a>(
    alloc: Global,
    turns: usize,
    budget: usize,
    line: u32,
    tokens: &'a [Token],
) -> Read<'a, Stmt>
    requires { budget ≤ HEIGHT_LIMIT }
    ensures { Gives (λ x. (x.0, x.1.now)) result (raise_or_none_at (readers turns budget) line tokens.now) }
{
    if !comes(TEST, tokens) {
        return Ok((Stmt::Raise(line, None, None), tokens));
    }
    let (raised, more) = expression(alloc, turns, budget, Request::Level(TEST), tokens)?;
    raise_more(alloc, turns, budget, line, raised, more)
}

/// After `del`.
fn del<'a>(
    alloc: Global,
    turns: usize,
    budget: usize,
    line: u32,
    tokens: &'a [Token],
) -> Read<'a, Stmt>
    requires { budget ≤ HEIGHT_LIMIT }
    ensures { Gives (λ x. (x.0, x.1.now)) result (del_at (readers turns budget) turns line tokens.now) }
{
    let (first, more) = target(alloc, turns, budget, TargetPlace::Del, tokens)?;
    let (all, more) = targets(alloc, turns, budget, first, more)?;
    Ok((Stmt::Del(line, all.tree), more))
}

/// After `global`.
fn global<'a>(alloc: Global, turns: usize, line: u32, tokens: &'a [Token]) -> Read<'a, Stmt>
    ensures { Gives (λ x. (x.0, x.1.now)) result (global_at turns line tokens.now) }
{
    let (first, more) = take_name(alloc, tokens)?;
    let (all, more) = names(alloc, turns, first, more)?;
    Ok((Stmt::Global(line, all), more))
}

/// After `assert` and a test.
#[tactic(auto, unfolding(py_grammar::specs::inner::Lines::assert_at))]
fn assert_more<'a>(
    alloc: Global,
    turns: usize,
    budget: usize,
    line: u32,
    test: Tall<Expr>,
    tokens: &'a [Token],
) -> Read<'a, Stmt>
    requires { budget ≤ HEIGHT_LIMIT }
    ensures { Gives (λ x. (x.0, x.1.now)) result (assert_at (readers turns budget) line (test, tokens.now)) }
{
    if !op_next(tokens, operator::COMMA) {
        return Ok((Stmt::Assert(line, test.tree, None), tokens));
    }
    let (message, more) = expression(alloc, turns, budget, Request::Level(TEST), rest(tokens))?;
    Ok((Stmt::Assert(line, test.tree, Some(message.tree)), more))
}

/// After `assert`.
fn assert_test<'a>(
    alloc: Global,
    turns: usize,
    budget: usize,
    line: u32,
    tokens: &'a [Token],
) -> Read<'a, Stmt>
    requires { budget ≤ HEIGHT_LIMIT }
    ensures { Gives (λ x. (x.0, x.1.now)) result (assert_test_at (readers turns budget) line tokens.now) }
{
    let (test, more) = expression(alloc, turns, budget, Request::Level(TEST), tokens)?;
    assert_more(alloc, turns, budget, line, test, more)
}

/// A statement that begins with this keyword, which comes next.
fn worded<'a>(
    alloc: Global,
    turns: usize,
    budget: usize,
    word: u8,
    tokens: &'a [Token],
) -> Read<'a, Stmt>
    requires small { budget ≤ HEIGHT_LIMIT }
    requires above { 0 < budget }
    ensures { Gives (λ x. (x.0, x.1.now)) result
        (worded_at (readers turns (budget - 1))
        turns budget word (running_at (readers turns (budget - 1)) turns) tokens.now) }
{
    let under = budget - 1;
    let line = line_of(tokens);
    let more = rest(tokens);
    match word {
        keyword::PRINT => print(alloc, turns, under, line, more),
        keyword::PASS => Ok((Stmt::Pass(line), more)),
        keyword::BREAK => Ok((Stmt::Break(line), more)),
        keyword::CONTINUE => Ok((Stmt::Continue(line), more)),
        keyword::RETURN => return_value(alloc, turns, under, line, more),
        keyword::RAISE => raise(alloc, turns, under, line, more),
        keyword::DEL | keyword::ASSERT if budget < 2 => refused(tokens, Fault::Deep),
        keyword::DEL => del(alloc, turns, under, line, more),
        keyword::ASSERT => assert_test(alloc, turns, under, line, more),
        keyword::GLOBAL => global(alloc, turns, line, more),
        keyword::IMPORT => import(alloc, turns, line, more),
        keyword::FROM => from(alloc, turns, line, more),
        keyword::EXEC => refused(tokens, Fault::LeftOut(Construct::Exec)),
        keyword::YIELD => refused(tokens, Fault::LeftOut(Construct::Generator)),
        _ => running(alloc, turns, under, tokens),
    }
}

/// A simple statement of a height of at most `budget`.
#[tactic(auto, unfolding(py_grammar::specs::inner::Lines::simple_at))]
pub(crate) fn simple<'a>(
    alloc: Global,
    turns: usize,
    budget: usize,
    tokens: &'a [Token],
) -> Read<'a, Stmt>
    requires small { budget ≤ HEIGHT_LIMIT }
    requires above { 0 < budget }
    ensures { Gives (λ x. (x.0, x.1.now)) result (simple_at (readers turns (budget - 1)) turns budget tokens.now) }
{
    let Some((token, _)) = split(tokens) else {
        return running(alloc, turns, budget - 1, tokens);
    };
    match &token.kind {
        TokenKind::Keyword(word) => worded(alloc, turns, budget, *word, tokens),
        _ => running(alloc, turns, budget - 1, tokens),
    }
}
