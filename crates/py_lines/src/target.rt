//! Targets.
ghost use Rattle.std.specs.Prelude.{◌≡◌, ◌≤◌, IfOk};
ghost use Rattle.py_atoms.specs.inner.Outcome.{Gives};
ghost use Rattle.py_grammar.specs.inner.Aiming.{readers};
ghost use Rattle.py_grammar.specs.inner.Reading.{first};
ghost use Rattle.py_grammar.specs.inner.Lines.{checked, target_at, targets_at};
ghost use Rattle.py_lines.specs.inner.Stops.{stop_of};
ghost use Rattle.py_grammar.specs.inner.Tall.{start};

use py_atoms::ParseError;
use py_atoms::cursor::{Read, keyword_next, newline_next, op_next, refused, rest};
use py_atoms::tall::{HEIGHT_LIMIT, is_target, push, start};
use py_base::Construct;
use py_exprs::aiming::aim;
use py_grammar::{Fault, Tall};
use py_tokens::{Token, keyword, operator};
use py_tree::Expr;
use sqlite_items::Items;
use std::alloc::Global;

/// Where a target stands.
#[derive(Clone, Copy, Debug, Drop, PartialEq, Eq)]
pub enum TargetPlace {
    /// After `del`.
    Del,
    /// Between `for` and `in`.
    For,
    /// Behind the test of an `except`.
    Except,
    /// Before the `=` of an assignment.
    Assign,
}

/// Whether what comes next may follow a target that stands there.
fn follows(place: TargetPlace, tokens: &[Token]) -> bool
    ensures { result ≡ stop_of place (first tokens.now) }
{
    match place {
        TargetPlace::Del => {
            op_next(tokens, operator::COMMA)
                || op_next(tokens, operator::SEMICOLON)
                || newline_next(tokens)
        }
        TargetPlace::For => op_next(tokens, operator::COMMA) || keyword_next(tokens, keyword::IN),
        TargetPlace::Except => op_next(tokens, operator::COLON),
        TargetPlace::Assign => op_next(tokens, operator::ASSIGN),
    }
}

/// Refuses what is no target: an expression that was read, with the tokens after it. A slice is left out where these
/// may follow a target; all else is unexpected.
#[tactic(auto, unfolding(py_grammar::specs::inner::Lines::checked))]
pub(crate) fn check_target(
    place: TargetPlace,
    target: &Tall<Expr>,
    tokens: &[Token],
) -> Result<(), ParseError>
    ensures { Gives (λ x. (target.now, tokens.now)) result (checked (stop_of place) (target.now, tokens.now)) }
{
    if is_target(false, target.form) {
        return Ok(());
    }
    if is_target(true, target.form) && follows(place, tokens) {
        return refused(tokens, Fault::LeftOut(Construct::SliceForm));
    }
    refused(tokens, Fault::Unexpected)
}

/// A target of a height of at most `budget`. The first token with which no such target begins is refused.
pub fn target<'a>(
    alloc: Global,
    turns: usize,
    budget: usize,
    place: TargetPlace,
    tokens: &'a [Token],
) -> Read<'a, Tall<Expr>>
    requires { budget ≤ HEIGHT_LIMIT }
    ensures value { Gives (λ x. (x.0, x.1.now)) result (target_at (readers turns budget) (stop_of place) tokens.now) }
    ensures fits { IfOk result (λ x. x.0.tall ≤ budget) }
{
    let (target, more) = aim(alloc, turns, budget, tokens)?;
    check_target(place, &target, more)?;
    Ok((target, more))
}

/// Further targets of `del` after the first, each after a comma.
#[tactic(auto, unfolding(py_grammar::specs::inner::Lines::targets_at))]
pub(crate) fn targets<'a>(
    alloc: Global,
    turns: usize,
    budget: usize,
    first: Tall<Expr>,
    tokens: &'a [Token],
) -> Read<'a, Tall<Items<Expr>>>
    requires { budget ≤ HEIGHT_LIMIT }
    ensures { Gives (λ x. (x.0, x.1.now)) result (targets_at (readers turns budget) turns (start first) tokens.now) }
{
    let mut found = start(alloc, first)?;
    let mut more = tokens;
    'turns: for _turn in 0..turns {
        if !op_next(more, operator::COMMA) {
            return Ok((found, more));
        }
        let (next, after) = target(alloc, turns, budget, TargetPlace::Del, rest(more))?;
        push(&mut found, next)?;
        more = after;
    }
    Ok((found, more))
}
