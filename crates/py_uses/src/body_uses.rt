//! What statements use of strings, global names and keyword lists, in the order of the text.
ghost use Rattle.std.specs.Prelude.{◌≡◌, ◌++◌, [], IfOk, OnOk, true, false};
ghost use Rattle.py_uses.specs.inner.Tallies.{Listed, arm_uses, arms_uses, block_uses, clause_uses, done, handler_uses, handlers_uses, inside, locals_in, tally};
ghost use Rattle.py_templates.specs.Uses.{body_used, cells_from, import_use, module_uses, name_bound, read, read_defaults, read_some, stmt_uses, target, target_all, texts_from};

use crate::tally::{Place, Tally};
use crate::uses::{Role, expression, expressions, some};
use py_base::{Bytes, NameSet, NoMemory, split};
use py_templates::bound_name;
use py_tree::{Arm, Clause, Expr, Handler, Imported, Param, Stmt};
use sqlite_items::Items;
use std::alloc::Global;

/// What the defaults of parameters use.
#[tactic(auto, using(crate::proofs::Tallying::tally_append))]
fn defaults<'a>(
    out: &mut Tally<'a>,
    all: &[NameSet],
    b: Place,
    items: &'a [Param],
) -> Result<(), NoMemory>
    ensures { OnOk result (out.new ≡ tally out.old (read_defaults (inside all.now b) items.now)) }
{
    let mut rest = items;
    'items: while let Some((x, more)) = split(rest) {
        some(out, all, b, Role::Read, &x.default)?;
        rest = more;
    }
    Ok(())
}

/// What an import uses.
#[tactic(auto, using(crate::proofs::Tallying::tally_append))]
fn imports<'a>(
    out: &mut Tally<'a>,
    all: &[NameSet],
    b: Place,
    items: &'a [Imported],
) -> Result<(), NoMemory>
    ensures { OnOk result (out.new ≡ tally out.old (import_use (inside all.now b) items.now)) }
{
    let mut rest = items;
    'items: while let Some((x, more)) = split(rest) {
        out.bind_name(all, b, bound_name(x))?;
        rest = more;
    }
    Ok(())
}

/// What an assignment uses.
#[tactic(auto, using(crate::proofs::Tallying::tally_append))]
fn assigned<'a>(
    out: &mut Tally<'a>,
    all: &[NameSet],
    b: Place,
    targets: &'a [Expr],
    e: &'a Expr,
) -> Result<(), NoMemory>
    ensures { OnOk result (out.new
        ≡ tally out.old (target_all (inside all.now b) targets.now ++ read (inside all.now b) e.now)) }
{
    expressions(out, all, b, Role::Target, targets)?;
    expression(out, all, b, Role::Read, e)?;
    Ok(())
}

/// What an augmented assignment uses.
#[tactic(auto, using(crate::proofs::Tallying::tally_append))]
fn augmented<'a>(
    out: &mut Tally<'a>,
    all: &[NameSet],
    b: Place,
    x: &'a Expr,
    e: &'a Expr,
) -> Result<(), NoMemory>
    ensures { OnOk result (out.new ≡ tally out.old
        (read (inside all.now b) x.now ++ target (inside all.now b) x.now ++ read (inside all.now b) e.now)) }
{
    expression(out, all, b, Role::Read, x)?;
    expression(out, all, b, Role::Target, x)?;
    expression(out, all, b, Role::Read, e)?;
    Ok(())
}

/// What a `raise` uses.
#[tactic(auto, using(crate::proofs::Tallying::tally_append))]
fn raised<'a>(
    out: &mut Tally<'a>,
    all: &[NameSet],
    b: Place,
    e: &'a Option<Expr>,
    value: &'a Option<Expr>,
) -> Result<(), NoMemory>
    ensures { OnOk result (out.new
        ≡ tally out.old (read_some (inside all.now b) e.now ++ read_some (inside all.now b) value.now)) }
{
    some(out, all, b, Role::Read, e)?;
    some(out, all, b, Role::Read, value)?;
    Ok(())
}

/// What an `assert` uses.
#[tactic(auto, using(crate::proofs::Tallying::tally_append))]
fn asserted<'a>(
    out: &mut Tally<'a>,
    all: &[NameSet],
    b: Place,
    e: &'a Expr,
    message: &'a Option<Expr>,
) -> Result<(), NoMemory>
    ensures { OnOk result (out.new
        ≡ tally out.old (read (inside all.now b) e.now ++ read_some (inside all.now b) message.now)) }
{
    expression(out, all, b, Role::Read, e)?;
    some(out, all, b, Role::Read, message)?;
    Ok(())
}

/// What a statement uses.
#[cycle(statements)]
#[tactic(auto, using(crate::proofs::UsedStatements::stmt_rules))]
fn statement<'a>(
    out: &mut Tally<'a>,
    all: &[NameSet],
    b: Place,
    x: &'a Stmt,
) -> Result<(), NoMemory>
    ensures { OnOk result (out.new ≡ done out.old (inside all.now b) (stmt_uses (locals_in all.now) x.now)) }
{
    match x {
        Stmt::Do(_, e) => expression(out, all, b, Role::Read, e),
        Stmt::Assign(_, targets, e) => assigned(out, all, b, targets.as_slice(), e),
        Stmt::Augment(_, target, _, e) => augmented(out, all, b, target, e),
        Stmt::Print(_, items, _) => expressions(out, all, b, Role::Read, items.as_slice()),
        Stmt::Pass(_) => Ok(()),
        Stmt::Break(_) => Ok(()),
        Stmt::Continue(_) => Ok(()),
        Stmt::Return(_, e) => some(out, all, b, Role::Read, e),
        Stmt::Raise(_, e, value) => raised(out, all, b, e, value),
        Stmt::Del(_, targets) => expressions(out, all, b, Role::Target, targets.as_slice()),
        Stmt::Global(_, _) => Ok(()),
        Stmt::Assert(_, e, message) => asserted(out, all, b, e, message),
        Stmt::Import(_, items) => imports(out, all, b, items.as_slice()),
        Stmt::From(_, _, items) => imports(out, all, b, items.as_slice()),
        Stmt::If(items, otherwise) => {
            arms(out, all, b, items.as_slice())?;
            clause(out, all, b, otherwise)
        }
        Stmt::While(x, otherwise) => {
            arm(out, all, b, x)?;
            clause(out, all, b, otherwise)
        }
        Stmt::For(_, target, e, body, otherwise) => {
            expression(out, all, b, Role::Target, target)?;
            expression(out, all, b, Role::Read, e)?;
            block(out, all, b, body.as_slice())?;
            clause(out, all, b, otherwise)
        }
        Stmt::Try(x, items, otherwise, last) => {
            block(out, all, b, x.body.as_slice())?;
            handlers(out, all, b, items.as_slice())?;
            clause(out, all, b, otherwise)?;
            clause(out, all, b, last)
        }
        Stmt::Def(_, name, params, body) => def(out, all, b, name, params, body),
        Stmt::Class(_, name, base, body) => class(out, all, b, name, base, body),
    }
}

/// What a `def` uses.
#[cycle(statements)]
fn def<'a>(
    out: &mut Tally<'a>,
    all: &[NameSet],
    b: Place,
    name: &'a Bytes,
    params: &'a Items<Param>,
    body: &'a Items<Stmt>,
) -> Result<(), NoMemory>
    ensures { OnOk result (out.new ≡ done out.old (inside all.now b) (body_used (locals_in all.now)
        (λ p. name_bound p name.now ++ read_defaults p params.now) false (block_uses all.now body.now))) }
{
    out.bind_name(all, b, name.as_slice())?;
    defaults(out, all, b, params.as_slice())?;
    let place = out.enter(false)?;
    block(out, all, place, body.as_slice())
}

/// What a `class` uses.
#[cycle(statements)]
fn class<'a>(
    out: &mut Tally<'a>,
    all: &[NameSet],
    b: Place,
    name: &'a Bytes,
    base: &'a Option<Expr>,
    body: &'a Items<Stmt>,
) -> Result<(), NoMemory>
    ensures { OnOk result (out.new ≡ done out.old (inside all.now b) (body_used (locals_in all.now)
        (λ p. name_bound p name.now ++ read_some p base.now) true (block_uses all.now body.now))) }
{
    out.bind_name(all, b, name.as_slice())?;
    some(out, all, b, Role::Read, base)?;
    let place = out.enter(true)?;
    block(out, all, place, body.as_slice())
}

/// What the statements of a block use.
#[cycle(statements)]
#[tactic(auto, using(crate::proofs::Tallying::tally_append))]
pub fn block<'a>(
    out: &mut Tally<'a>,
    all: &[NameSet],
    b: Place,
    items: &'a [Stmt],
) -> Result<(), NoMemory>
    ensures { OnOk result (out.new ≡ done out.old (inside all.now b) (block_uses all.now items.now)) }
{
    let mut rest = items;
    'items: while let Some((x, more)) = split(rest) {
        statement(out, all, b, x)?;
        rest = more;
    }
    Ok(())
}

/// What an `if`, `elif` or `while` uses.
#[cycle(statements)]
#[tactic(auto, using(crate::proofs::Tallying::tally_append))]
fn arm<'a>(out: &mut Tally<'a>, all: &[NameSet], b: Place, x: &'a Arm) -> Result<(), NoMemory>
    ensures { OnOk result (out.new ≡ done out.old (inside all.now b) (arm_uses all.now x.now)) }
{
    expression(out, all, b, Role::Read, &x.test)?;
    block(out, all, b, x.body.as_slice())?;
    Ok(())
}

/// What the arms of an `if` use.
#[cycle(statements)]
#[tactic(auto, using(crate::proofs::Tallying::tally_append))]
fn arms<'a>(
    out: &mut Tally<'a>,
    all: &[NameSet],
    b: Place,
    items: &'a [Arm],
) -> Result<(), NoMemory>
    ensures { OnOk result (out.new ≡ done out.old (inside all.now b) (arms_uses all.now items.now)) }
{
    let mut rest = items;
    'items: while let Some((x, more)) = split(rest) {
        arm(out, all, b, x)?;
        rest = more;
    }
    Ok(())
}

/// What an `else` or `finally` uses, if there is one.
#[cycle(statements)]
fn clause<'a>(
    out: &mut Tally<'a>,
    all: &[NameSet],
    b: Place,
    x: &'a Option<Clause>,
) -> Result<(), NoMemory>
    ensures { OnOk result (out.new ≡ done out.old (inside all.now b) (clause_uses all.now x.now)) }
{
    match x {
        Some(x) => block(out, all, b, x.body.as_slice()),
        None => Ok(()),
    }
}

/// What `except` clauses use.
#[cycle(statements)]
#[tactic(auto, using(crate::proofs::Tallying::tally_append))]
fn handlers<'a>(
    out: &mut Tally<'a>,
    all: &[NameSet],
    b: Place,
    items: &'a [Handler],
) -> Result<(), NoMemory>
    ensures { OnOk result (out.new ≡ done out.old (inside all.now b) (handlers_uses all.now items.now)) }
{
    let mut rest = items;
    'items: while let Some((x, more)) = split(rest) {
        handler(out, all, b, x)?;
        rest = more;
    }
    Ok(())
}

/// What an `except` clause uses.
#[cycle(statements)]
#[tactic(auto, using(crate::proofs::Tallying::tally_append))]
fn handler<'a>(
    out: &mut Tally<'a>,
    all: &[NameSet],
    b: Place,
    x: &'a Handler,
) -> Result<(), NoMemory>
    ensures { OnOk result (out.new ≡ done out.old (inside all.now b) (handler_uses all.now x.now)) }
{
    some(out, all, b, Role::Read, &x.test)?;
    some(out, all, b, Role::Target, &x.target)?;
    block(out, all, b, x.body.as_slice())?;
    Ok(())
}

/// What a module uses, whose bodies bind these names and are so many.
pub fn module<'a>(
    alloc: Global,
    all: &[NameSet],
    count: usize,
    items: &'a [Stmt],
) -> Result<Tally<'a>, NoMemory>
    ensures texts { IfOk result (λ t. t.texts ≡ texts_from [] (module_uses (locals_in all.now) items.now)) }
    ensures cells { IfOk result (λ t. t.cells ≡ cells_from [] (module_uses (locals_in all.now) items.now)) }
    ensures keys { IfOk result (λ t. Listed count t.keys (module_uses (locals_in all.now) items.now)) }
{
    let mut out = Tally::new(alloc, count)?;
    let place = out.enter(false)?;
    block(&mut out, all, place, items)?;
    Ok(out)
}
