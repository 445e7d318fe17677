//! Assignments, and expressions as statements.
ghost use Rattle.std.specs.Prelude.{◌≡◌, ◌≤◌, [], None, Some};
ghost use Rattle.py_grammar.specs.inner.Lines.{equals_at, run_or_assign, run_at, running_at};
ghost use Rattle.py_atoms.specs.inner.Outcome.{Gives};
ghost use Rattle.py_grammar.specs.inner.Aiming.{readers};

use crate::target::{TargetPlace, check_target};
use py_atoms::cursor::{Read, keyword_next, line_of, op_next, refused, rest};
use py_atoms::tall::{HEIGHT_LIMIT, is_single};
use py_atoms::{Request, TESTS};
use py_base::Construct;
use py_exprs::expression::expression;
use py_exprs::operators::assigned_next;
use py_grammar::{Fault, Tall};
use py_tokens::{Token, keyword, operator};
use py_tree::{Expr, Operator, Stmt};
use sqlite_items::Items;
use std::alloc::Global;

/// After an expression, where `=` may follow: the targets, and the value.
#[tactic(auto, unfolding(py_grammar::specs::inner::Lines::equals_at))]
fn equals<'a>(
    alloc: Global,
    turns: usize,
    budget: usize,
    first: Tall<Expr>,
    tokens: &'a [Token],
) -> Read<'a, (Items<Expr>, Expr)>
    requires { budget ≤ HEIGHT_LIMIT }
    ensures { Gives (λ x. (x.0, x.1.now)) result (equals_at (readers turns budget) turns [] (first, tokens.now)) }
{
    let mut targets = Items::new(alloc);
    let mut value = first;
    let mut more = tokens;
    'turns: for _turn in 0..turns {
        if !op_next(more, operator::ASSIGN) {
            return Ok(((targets, value.tree), more));
        }
        check_target(TargetPlace::Assign, &value, more)?;
        more = rest(more);
        if keyword_next(more, keyword::YIELD) {
            return refused(more, Fault::LeftOut(Construct::Generator));
        }
        let (next, after) = expression(alloc, turns, budget, Request::Level(TESTS), more)?;
        targets.push(value.tree)?;
        value = next;
        more = after;
    }
    Ok(((targets, value.tree), more))
}

fn run_or_assign(line: u32, targets: Items<Expr>, value: Expr) -> Stmt
    ensures { result ≡ run_or_assign line targets value }
{
    if targets.is_empty() {
        Stmt::Do(line, value)
    } else {
        Stmt::Assign(line, targets, value)
    }
}

/// After the first expression of a statement that began on this line, where no augmented assignment follows.
#[tactic(auto, unfolding(py_grammar::specs::inner::Lines::run_at))]
fn assign<'a>(
    alloc: Global,
    turns: usize,
    budget: usize,
    line: u32,
    first: Tall<Expr>,
    tokens: &'a [Token],
) -> Read<'a, Stmt>
    requires { budget ≤ HEIGHT_LIMIT }
    ensures { Gives (λ x. (x.0, x.1.now)) result (run_at (readers turns budget) turns line (first, tokens.now) None) }
{
    let ((targets, value), more) = equals(alloc, turns, budget, first, tokens)?;
    Ok((run_or_assign(line, targets, value), more))
}

/// After the first expression of a statement that began on this line, where the augmented assignment with this operator
/// comes next.
#[tactic(auto, unfolding(py_grammar::specs::inner::Lines::run_at))]
fn augment<'a>(
    alloc: Global,
    turns: usize,
    budget: usize,
    line: u32,
    target: Tall<Expr>,
    operator: Operator,
    tokens: &'a [Token],
) -> Read<'a, Stmt>
    requires { budget ≤ HEIGHT_LIMIT }
    ensures { Gives (λ x. (x.0, x.1.now)) result
        (run_at (readers turns budget) turns line (target, tokens.now) (Some operator)) }
{
    if !is_single(false, target.form) {
        if is_single(true, target.form) {
            return refused(tokens, Fault::LeftOut(Construct::SliceForm));
        }
        return refused(tokens, Fault::Unexpected);
    }
    let more = rest(tokens);
    if keyword_next(more, keyword::YIELD) {
        return refused(more, Fault::LeftOut(Construct::Generator));
    }
    let (value, more) = expression(alloc, turns, budget, Request::Level(TESTS), more)?;
    Ok((Stmt::Augment(line, target.tree, operator, value.tree), more))
}

/// A statement that begins with an expression: the expression alone, an assignment or an augmented one.
#[tactic(auto, unfolding(py_grammar::specs::inner::Lines::running_at))]
pub fn running<'a>(
    alloc: Global,
    turns: usize,
    budget: usize,
    tokens: &'a [Token],
) -> Read<'a, Stmt>
    requires { budget ≤ HEIGHT_LIMIT }
    ensures { Gives (λ x. (x.0, x.1.now)) result (running_at (readers turns budget) turns tokens.now) }
{
    let (first, more) = expression(alloc, turns, budget, Request::Level(TESTS), tokens)?;
    match assigned_next(more) {
        Some(operator) => augment(alloc, turns, budget, line_of(tokens), first, operator, more),
        None => assign(alloc, turns, budget, line_of(tokens), first, more),
    }
}
