//! Expressions: each budget's reader reads the parts by the reader of a budget one less.
ghost use Rattle.std.specs.Prelude.{◌≡◌, ◌+◌, ◌-◌, ◌<◌, ◌≤◌, max, IfOk};
ghost use Rattle.py_atoms.specs.inner.Asking.{Answers, requested, held};
ghost use Rattle.py_atoms.specs.inner.Outcome.{Gives};
ghost use Rattle.py_atoms.specs.inner.Asking.{too_high};
ghost use Rattle.py_grammar.specs.inner.Reading.{reads, first, tests_at};
ghost use Rattle.py_grammar.specs.inner.Tall.{start};

use crate::level::{after_test, at_level};
use py_atoms::cursor::{Read, no_start, refused, starts};
use py_atoms::tall::HEIGHT_LIMIT;
use py_atoms::{ParseError, Reader, Request, TEST};
use py_grammar::{Fault, Tall};
use py_tokens::Token;
use py_tree::Expr;
use sqlite_items::Items;
use std::alloc::Global;

/// Why nothing is read where no height is left.
fn too_high(request: &Request, tokens: &[Token]) -> Fault
    ensures { result ≡ too_high request.now (first tokens.now) }
{
    match request {
        Request::Level(level) => {
            if starts(*level, tokens) {
                Fault::Deep
            } else {
                no_start(*level, tokens)
            }
        }
        Request::After(_) => Fault::Deep,
    }
}

/// What is asked for, whose parts `inner` reads, of a height of at most `budget`.
fn read_by<
    'a,
    F: for<'b> Fn(Request, &'b [Token]) -> Result<(Tall<Expr>, &'b [Token]), ParseError> + Drop,
>(
    alloc: Global,
    turns: usize,
    budget: usize,
    inner: F,
    request: Request,
    tokens: &'a [Token],
) -> Read<'a, Tall<Expr>>
    requires calls { F.IsAlwaysCallable inner }
    requires answers { Answers (F.post inner) turns budget }
    requires small { budget < HEIGHT_LIMIT }
    ensures value { Gives (λ x. (x.0, x.1.now)) result (requested (reads turns (budget + 1)) request tokens.now) }
    ensures fits { IfOk result (λ x. x.0.tall ≤ max (budget + 1) (held request)) }
{
    let reader = Reader {
        alloc,
        turns,
        budget,
        inner,
    };
    match request {
        Request::Level(level) => at_level(&reader, level, tokens),
        Request::After(test) => after_test(&reader, test, tokens),
    }
}

/// What is asked for, of a height of at most `budget`. No loop takes more than so many turns.
pub fn expression<'a>(
    alloc: Global,
    turns: usize,
    budget: usize,
    request: Request,
    tokens: &'a [Token],
) -> Read<'a, Tall<Expr>>
    requires { budget ≤ HEIGHT_LIMIT }
    ensures value { Gives (λ x. (x.0, x.1.now)) result (requested (reads turns budget) request tokens.now) }
    ensures fits { IfOk result (λ x. x.0.tall ≤ max budget (held request)) }
{
    if budget == 0 {
        return refused(tokens, too_high(&request, tokens));
    }
    read_by(
        alloc,
        turns,
        budget - 1,
        |request, tokens|
            requires above { 0 < budget }
            requires small { budget ≤ HEIGHT_LIMIT }
            ensures value { Gives (λ x. (x.0, x.1.now)) result
                (requested (reads turns (budget - 1)) request tokens.now) }
            ensures fits { IfOk result (λ x. x.0.tall ≤ max (budget - 1) (held request)) }
        { expression(alloc, turns, budget - 1, request, tokens) },
        request,
        tokens,
    )
}

/// Further tests after the first, each after a comma, whose parts `inner` reads.
fn tests_by<
    'a,
    F: for<'b> Fn(Request, &'b [Token]) -> Result<(Tall<Expr>, &'b [Token]), ParseError> + Drop,
>(
    alloc: Global,
    turns: usize,
    budget: usize,
    inner: F,
    first: Tall<Expr>,
    tokens: &'a [Token],
) -> Read<'a, (Tall<Items<Expr>>, bool)>
    requires calls { F.IsAlwaysCallable inner }
    requires answers { Answers (F.post inner) turns budget }
    requires low { first.tall ≤ budget }
    ensures value { Gives (λ x. (x.0, x.1.now)) result
        (tests_at ((reads turns budget).read TEST) turns (start first) tokens.now) }
{
    let reader = Reader {
        alloc,
        turns,
        budget,
        inner,
    };
    reader.tests(first, tokens)
}

/// Further tests after the first, each after a comma; the truth value says that a comma trails.
pub fn tests<'a>(
    alloc: Global,
    turns: usize,
    budget: usize,
    first: Tall<Expr>,
    tokens: &'a [Token],
) -> Read<'a, (Tall<Items<Expr>>, bool)>
    requires small { budget ≤ HEIGHT_LIMIT }
    requires low { first.tall ≤ budget }
    ensures value { Gives (λ x. (x.0, x.1.now)) result
        (tests_at ((reads turns budget).read TEST) turns (start first) tokens.now) }
{
    tests_by(
        alloc,
        turns,
        budget,
        |request, tokens|
            requires small { budget ≤ HEIGHT_LIMIT }
            ensures value { Gives (λ x. (x.0, x.1.now)) result (requested (reads turns budget) request tokens.now) }
            ensures fits { IfOk result (λ x. x.0.tall ≤ max budget (held request)) }
        { expression(alloc, turns, budget, request, tokens) },
        first,
        tokens,
    )
}
