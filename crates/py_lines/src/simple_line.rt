//! The simple statements of a line.
ghost use Rattle.std.specs.Prelude.{◌-◌, ◌<◌, ◌≤◌, [], ◌∷◌};
ghost use Rattle.py_grammar.specs.inner.Lines.{is_newline, plain_at, simple_at, line_more, line_at};
ghost use Rattle.py_atoms.specs.inner.Outcome.{Gives};
ghost use Rattle.py_grammar.specs.inner.Aiming.{readers};

use crate::statement::simple;
use py_atoms::ParseError;
use py_atoms::cursor::{Read, newline_next, op_next, refused, rest};
use py_atoms::tall::HEIGHT_LIMIT;
use py_grammar::Fault;
use py_tokens::{Token, operator};
use py_tree::Stmt;
use sqlite_items::Items;
use std::alloc::Global;

/// The tokens after the end of a line.
#[tactic(auto, unfolding(py_grammar::specs::inner::Lines::plain_at))]
fn take_newline(tokens: &[Token]) -> Result<&[Token], ParseError>
    ensures { Gives (λ r. (tt, r.now)) result (plain_at is_newline tokens.now) }
{
    if newline_next(tokens) {
        Ok(rest(tokens))
    } else {
        refused(tokens, Fault::Unexpected)
    }
}

/// The simple statements of a line after the first, each after a semicolon, which may also trail; up to the line's end.
#[tactic(auto, unfolding(py_grammar::specs::inner::Lines::line_more))]
fn line_more<'a>(
    alloc: Global,
    turns: usize,
    budget: usize,
    first: Stmt,
    tokens: &'a [Token],
) -> Read<'a, Items<Stmt>>
    requires small { budget ≤ HEIGHT_LIMIT }
    requires above { 0 < budget }
    ensures value { Gives (λ x. (x.0, x.1.now)) result
        (line_more (simple_at (readers turns (budget - 1)) turns budget) turns (first ∷ []) tokens.now) }
{
    let mut found = Items::new(alloc);
    found.push(first)?;
    let mut more = tokens;
    'turns: for _turn in 0..turns {
        if !op_next(more, operator::SEMICOLON) {
            let after = take_newline(more)?;
            return Ok((found, after));
        }
        more = rest(more);
        if newline_next(more) {
            return Ok((found, rest(more)));
        }
        let (next, after) = simple(alloc, turns, budget, more)?;
        found.push(next)?;
        more = after;
    }
    Ok((found, more))
}

/// The simple statements of a line, each of a height of at most `budget`, which is above zero, up to and with the
/// line's end. No loop takes more than so many turns.
#[tactic(auto, unfolding(py_grammar::specs::inner::Lines::line_at))]
pub fn line<'a>(
    alloc: Global,
    turns: usize,
    budget: usize,
    tokens: &'a [Token],
) -> Read<'a, Items<Stmt>>
    requires small { budget ≤ HEIGHT_LIMIT }
    requires above { 0 < budget }
    ensures value { Gives (λ x. (x.0, x.1.now)) result (line_at (readers turns (budget - 1)) turns budget tokens.now) }
{
    let (first, more) = simple(alloc, turns, budget, tokens)?;
    line_more(alloc, turns, budget, first, more)
}
