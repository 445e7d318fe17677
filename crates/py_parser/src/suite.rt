//! Statements with their blocks, and modules: the statements of a block have a budget two less than the statement
//! around it.
ghost use Rattle.std.specs.Prelude.{◌≡◌, ◌+◌, ◌-◌, ◌<◌, ◌≤◌, [], length};
ghost use Rattle.py_grammar.specs.inner.Lines.{statement_at, statements_at, body_more, module_at};
ghost use Rattle.py_atoms.specs.inner.Outcome.{Gives};
ghost use Rattle.py_parser.specs.inner.Suites.{AnswersStatements, parts_of};

use crate::compound::Compound;
use py_atoms::ParseError;
use py_atoms::cursor::{Read, end_next, newline_next, refused, rest};
use py_atoms::tall::HEIGHT_LIMIT;
use py_grammar::Fault;
use py_tokens::Token;
use py_tree::{Module, Stmt};
use sqlite_items::Items;
use std::alloc::Global;

/// A statement, or the simple ones of a line, of a height of at most `budget + 1`. The statements of its block are read
/// by `statement`.
fn statement_by<
    'a,
    F: for<'b> Fn(&'b [Token]) -> Result<(Items<Stmt>, &'b [Token]), ParseError> + Drop,
>(
    alloc: Global,
    turns: usize,
    budget: usize,
    statement: F,
    tokens: &'a [Token],
) -> Read<'a, Items<Stmt>>
    requires calls { F.IsAlwaysCallable statement }
    requires answers { AnswersStatements (F.post statement) turns (budget - 1) }
    requires small { budget < HEIGHT_LIMIT }
    ensures { Gives (λ x. (x.0, x.1.now)) result (statement_at (parts_of turns budget) turns (budget + 1) tokens.now) }
{
    let compound = Compound {
        alloc,
        turns,
        budget,
        statement,
    };
    compound.statement(tokens)
}

/// A statement, or the simple ones of a line, of a height of at most `budget`. No loop takes more than so many turns.
fn statement<'a>(
    alloc: Global,
    turns: usize,
    budget: usize,
    tokens: &'a [Token],
) -> Read<'a, Items<Stmt>>
    requires { budget ≤ HEIGHT_LIMIT }
    ensures { Gives (λ x. (x.0, x.1.now)) result (statements_at turns budget tokens.now) }
{
    if budget == 0 {
        return refused(tokens, Fault::Deep);
    }
    statement_by(
        alloc,
        turns,
        budget - 1,
        |tokens|
            requires above { 0 < budget }
            requires small { budget ≤ HEIGHT_LIMIT }
            ensures { Gives (λ x. (x.0, x.1.now)) result (statements_at turns (budget - 1 - 1) tokens.now) }
        { statement(alloc, turns, (budget - 1).saturating_sub(1), tokens) },
        tokens,
    )
}

/// The statements of a module, up to its end.
#[tactic(auto, unfolding(py_grammar::specs::inner::Lines::body_more))]
fn body<'a>(alloc: Global, turns: usize, tokens: &'a [Token]) -> Read<'a, Items<Stmt>>
    ensures { Gives (λ x. (x.0, x.1.now)) result (body_more (statements_at turns 99) turns [] tokens.now) }
{
    let mut found = Items::new(alloc);
    let mut more = tokens;
    'turns: for _turn in 0..turns {
        if end_next(more) {
            return Ok((found, rest(more)));
        }
        if newline_next(more) {
            more = rest(more);
        } else {
            let (statements, after) = statement(alloc, turns, HEIGHT_LIMIT - 1, more)?;
            found.append(statements)?;
            more = after;
        }
    }
    refused(more, Fault::Unexpected)
}

/// A module.
#[tactic(auto, unfolding(py_grammar::specs::inner::Lines::module_at))]
pub fn module<'a>(alloc: Global, tokens: &'a [Token]) -> Read<'a, Module>
    ensures { Gives (λ x. (x.0, x.1.now)) result (module_at (length tokens.now) tokens.now) }
{
    let (body, more) = body(alloc, tokens.len(), tokens)?;
    Ok((Module { body }, more))
}
