//! What follows an expression of the level of targets.
ghost use Rattle.std.specs.Prelude.{◌≡◌, ◌+◌, ◌-◌, ◌<◌, ◌≤◌, max, IfOk};
ghost use Rattle.py_grammar.specs.inner.Aiming.{grown_at, grows, risen_at};
ghost use Rattle.py_atoms.specs.inner.Asking.{Answers, requested, held};
ghost use Rattle.py_grammar.specs.inner.Follow.{takes};
ghost use Rattle.py_atoms.specs.inner.Outcome.{Gives};
ghost use Rattle.py_grammar.specs.inner.Reading.{reads, first, trail_at};

use crate::expression::expression;
use crate::level::grown_rungs;
use crate::operators::operator_next;
use crate::rung::rung_of;
use py_atoms::cursor::{Read, comes, keyword_next, op_next, refused};
use py_atoms::tall::HEIGHT_LIMIT;
use py_atoms::{ParseError, Reader, Request, TEST, trailer_next};
use py_grammar::{Fault, Rung, Tall};
use py_tokens::{Token, keyword, operator};
use py_tree::Expr;
use std::alloc::Global;

/// How many rungs stand between the level of targets and that of tests.
const RUNGS: u8 = 13;

/// Whether a rung takes what comes next after its operand.
fn takes(rung: Rung, tokens: &[Token]) -> bool
    ensures { result ≡ takes rung (first tokens.now) }
{
    match rung {
        Rung::Trailed => trailer_next(tokens),
        Rung::Powered => op_next(tokens, operator::POWER),
        Rung::Signed => false,
        Rung::Chained(level) => operator_next(level, tokens).is_some(),
        Rung::Negated => false,
        Rung::Chosen => keyword_next(tokens, keyword::IF),
        Rung::Listed => op_next(tokens, operator::COMMA) || comes(TEST, tokens),
    }
}

/// Whether one of so many rungs above the level of targets takes what comes next.
fn grows(rungs: u8, tokens: &[Token]) -> bool
    ensures { result ≡ grows rungs (first tokens.now) }
{
    if rungs == 0 {
        return false;
    }
    grows(rungs - 1, tokens) || takes(rung_of(rungs), tokens)
}

/// What the rungs add after an expression of the level of targets, where `inner` reads the parts.
fn grown_by<
    'a,
    F: for<'b> Fn(Request, &'b [Token]) -> Result<(Tall<Expr>, &'b [Token]), ParseError> + Drop,
>(
    alloc: Global,
    turns: usize,
    budget: usize,
    inner: F,
    operand: Tall<Expr>,
    tokens: &'a [Token],
) -> Read<'a, Tall<Expr>>
    requires calls { F.IsAlwaysCallable inner }
    requires answers { Answers (F.post inner) turns budget }
    requires small { budget < HEIGHT_LIMIT }
    requires low { operand.tall ≤ budget + 1 }
    ensures value { Gives (λ x. (x.0, x.1.now)) result
        (grown_at (reads turns budget) turns (budget + 1) RUNGS (operand, tokens.now)) }
    ensures fits { IfOk result (λ x. x.0.tall ≤ budget + 1) }
{
    let reader = Reader {
        alloc,
        turns,
        budget,
        inner,
    };
    grown_rungs(&reader, RUNGS, operand, tokens)
}

/// The test that begins with this expression of the level of targets, of a height of at most `budget + 1`.
fn grown<'a>(
    alloc: Global,
    turns: usize,
    budget: usize,
    operand: Tall<Expr>,
    tokens: &'a [Token],
) -> Read<'a, Tall<Expr>>
    requires small { budget < HEIGHT_LIMIT }
    requires low { operand.tall ≤ budget + 1 }
    ensures value { Gives (λ x. (x.0, x.1.now)) result
        (grown_at (reads turns budget) turns (budget + 1) RUNGS (operand, tokens.now)) }
    ensures fits { IfOk result (λ x. x.0.tall ≤ budget + 1) }
{
    grown_by(
        alloc,
        turns,
        budget,
        |request, tokens|
            requires small { budget < HEIGHT_LIMIT }
            ensures value { Gives (λ x. (x.0, x.1.now)) result (requested (reads turns budget) request tokens.now) }
            ensures fits { IfOk result (λ x. x.0.tall ≤ max budget (held request)) }
        { expression(alloc, turns, budget, request, tokens) },
        operand,
        tokens,
    )
}

/// The test that begins with this expression of the level of targets, of a height of at most `budget`; or the
/// expression alone, which may be higher.
#[tactic(auto, unfolding(py_grammar::specs::inner::Aiming::risen_at))]
pub fn risen<'a>(
    alloc: Global,
    turns: usize,
    budget: usize,
    found: Tall<Expr>,
    tokens: &'a [Token],
) -> Read<'a, Tall<Expr>>
    requires small { budget ≤ HEIGHT_LIMIT }
    ensures value { Gives (λ x. (x.0, x.1.now)) result (risen_at turns budget (found, tokens.now)) }
    ensures fits { IfOk result (λ x. x.0.tall ≤ max budget found.tall) }
{
    if budget > 0 && found.tall <= budget {
        return grown(alloc, turns, budget - 1, found, tokens);
    }
    if grows(RUNGS, tokens) {
        return refused(tokens, Fault::Deep);
    }
    Ok((found, tokens))
}

/// The trailers after an atom, where `inner` reads their parts.
fn trailed_by<
    'a,
    F: for<'b> Fn(Request, &'b [Token]) -> Result<(Tall<Expr>, &'b [Token]), ParseError> + Drop,
>(
    alloc: Global,
    turns: usize,
    budget: usize,
    inner: F,
    atom: Tall<Expr>,
    tokens: &'a [Token],
) -> Read<'a, Tall<Expr>>
    requires calls { F.IsAlwaysCallable inner }
    requires answers { Answers (F.post inner) turns budget }
    requires small { budget < HEIGHT_LIMIT }
    requires low { atom.tall ≤ budget + 1 }
    ensures value { Gives (λ x. (x.0, x.1.now)) result
        (trail_at (reads turns budget) turns (budget + 1) (atom, tokens.now)) }
    ensures fits { IfOk result (λ x. x.0.tall ≤ budget + 1) }
{
    let reader = Reader {
        alloc,
        turns,
        budget,
        inner,
    };
    reader.trail(atom, tokens)
}

/// An atom with its trailers, of a height of at most `budget + 1`.
pub fn trailed<'a>(
    alloc: Global,
    turns: usize,
    budget: usize,
    atom: Tall<Expr>,
    tokens: &'a [Token],
) -> Read<'a, Tall<Expr>>
    requires small { budget < HEIGHT_LIMIT }
    requires low { atom.tall ≤ budget + 1 }
    ensures value { Gives (λ x. (x.0, x.1.now)) result
        (trail_at (reads turns budget) turns (budget + 1) (atom, tokens.now)) }
    ensures fits { IfOk result (λ x. x.0.tall ≤ budget + 1) }
{
    trailed_by(
        alloc,
        turns,
        budget,
        |request, tokens|
            requires small { budget < HEIGHT_LIMIT }
            ensures value { Gives (λ x. (x.0, x.1.now)) result (requested (reads turns budget) request tokens.now) }
            ensures fits { IfOk result (λ x. x.0.tall ≤ max budget (held request)) }
        { expression(alloc, turns, budget, request, tokens) },
        atom,
        tokens,
    )
}
