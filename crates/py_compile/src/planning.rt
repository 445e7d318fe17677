//! Planning: the statements of a body that have code, with the numbers of their own bodies. It goes once over the text
//! of the body; what stands in a `def` or a `class` is counted for each round it, of which there are at most 100.
ghost use Rattle.std.specs.Prelude.{◌≡◌, ◌+◌, List, IfOk, OnOk};
ghost use Rattle.py_templates.specs.inner.Compounds.{finally_code, for_code, if_code, otherwise, tried_of, while_code};
ghost use Rattle.py_templates.specs.Names.{Known, home};
ghost use Rattle.py_templates.specs.Expressions.{all_deleted, values};
ghost use Rattle.py_compile.specs.inner.Plans.{AddPlans, ArePlans, planned_arms, planned_handlers, simple_stmt};
ghost use Rattle.py_templates.specs.Statements.{all_stated, armed, armed_count, base, count, defaults, deletion, handled, handled_count, stated, stated_arms, stated_block, stated_handlers};
ghost use Rattle.py_templates.specs.Table.{Around, class, def};

use crate::deletion::single_targets;
use crate::plan::{Plan, PlanArm, PlanHandler, Simple};
use py_base::{Bytes, NoMemory, split};
use py_templates::sum;
use py_tree::{Arm, Clause, Expr, Handler, Param, Stmt};
use py_uses::{bodies_in_block, clause_body};
use sqlite_items::Items;
use std::alloc::Global;

/// Adds a statement without blocks, which has no bodies.
fn simple<'a>(out: &mut Items<Plan<'a>>, s: Simple<'a>, first: u32) -> Result<u32, NoMemory>
    ensures plans { OnOk result (AddPlans out.old out.new (λ n c. (stated (simple_stmt s.entry)).code n c first)) }
    ensures number { IfOk result (λ k. k ≡ first + (stated (simple_stmt s.entry)).bodies) }
{
    out.push(Plan::Simple(s))?;
    Ok(first)
}

/// Adds a `del`, if there is something that it deletes.
fn delete<'a>(
    alloc: Global,
    out: &mut Items<Plan<'a>>,
    line: u32,
    targets: &'a [Expr],
    first: u32,
) -> Result<u32, NoMemory>
    ensures plans { OnOk result (AddPlans out.old out.new (λ n c. deletion line (all_deleted n line targets.now))) }
    ensures number { IfOk result (λ k. k ≡ first) }
{
    let single = single_targets(alloc, targets)?;
    if single.is_empty() {
        return Ok(first);
    }
    out.push(Plan::Delete(line, single))?;
    Ok(first)
}

/// The number behind a body with that number and those inside of it.
fn behind(body: &[Stmt], first: u32) -> Result<u32, NoMemory>
    ensures { IfOk result (λ k. k ≡ first + (1 + count (all_stated body.now))) }
{
    let inside = bodies_in_block(body)?;
    let all = sum(1, inside)?;
    let number = sum(first, all)?;
    Ok(number)
}

/// The parameters from the first with a default on.
fn from_default(params: &[Param]) -> &[Param]
    ensures { defaults result.now ≡ defaults params.now }
{
    let mut rest = params;
    'params: while let Some((p, more)) = split(rest) {
        if p.default.is_some() {
            return rest;
        }
        rest = more;
    }
    rest
}

/// Adds a `def`.
fn def<'a>(
    out: &mut Items<Plan<'a>>,
    line: u32,
    name: &'a Bytes,
    params: &'a [Param],
    body: &'a [Stmt],
    first: u32,
) -> Result<u32, NoMemory>
    ensures plans { OnOk result (AddPlans out.old out.new
        (λ n c. def line (values n line (defaults params.now)) first (home n name.now))) }
    ensures number { IfOk result (λ k. k ≡ first + (1 + count (all_stated body.now))) }
{
    let number = behind(body, first)?;
    out.push(Plan::Def(line, name, from_default(params), first))?;
    Ok(number)
}

/// Adds a `class`.
fn class<'a>(
    out: &mut Items<Plan<'a>>,
    line: u32,
    name: &'a Bytes,
    x: &'a Option<Expr>,
    body: &'a [Stmt],
    first: u32,
) -> Result<u32, NoMemory>
    ensures plans { OnOk result (AddPlans out.old out.new
        (λ n c. class line (base n line x.now) first (home n name.now))) }
    ensures number { IfOk result (λ k. k ≡ first + (1 + count (all_stated body.now))) }
{
    let number = behind(body, first)?;
    out.push(Plan::Class(line, name, x, first))?;
    Ok(number)
}

/// The plans of statements whose own bodies are numbered from that number on, and the number behind those.
#[cycle(planning)]
pub fn block<'a>(
    alloc: Global,
    items: &'a [Stmt],
    first: u32,
) -> Result<(Items<Plan<'a>>, u32), NoMemory>
    ensures plans { IfOk result (λ r. ArePlans r.0 (λ n c. (stated_block items.now).code n c first)) }
    ensures number { IfOk result (λ r. r.1 ≡ first + count (all_stated items.now)) }
{
    let mut out = Items::new(alloc);
    let number = add_block(alloc, &mut out, items, first)?;
    Ok((out, number))
}

/// Adds the plans of statements; the number behind their bodies.
#[cycle(planning)]
fn add_block<'a>(
    alloc: Global,
    out: &mut Items<Plan<'a>>,
    items: &'a [Stmt],
    first: u32,
) -> Result<u32, NoMemory>
    ensures plans { OnOk result (AddPlans out.old out.new (λ n c. (stated_block items.now).code n c first)) }
    ensures number { IfOk result (λ k. k ≡ first + count (all_stated items.now)) }
{
    let mut number = first;
    let mut rest = items;
    'items: while let Some((x, more)) = split(rest) {
        number = statement(alloc, out, x, number)?;
        rest = more;
    }
    Ok(number)
}

/// Adds an `if`.
#[cycle(planning)]
fn if_else<'a>(
    alloc: Global,
    out: &mut Items<Plan<'a>>,
    items: &'a [Arm],
    other: &'a Option<Clause>,
    first: u32,
) -> Result<u32, NoMemory>
    ensures plans { OnOk result (AddPlans out.old out.new (λ n c. if_code n c first items.now other.now)) }
    ensures number { IfOk result
        (λ k. k ≡ first + (armed_count (stated_arms items.now) + (otherwise other.now).bodies)) }
{
    let (arms, behind) = arms(alloc, items, first)?;
    let (otherwise, number) = block(alloc, clause_body(other), behind)?;
    out.push(Plan::If(arms, otherwise))?;
    Ok(number)
}

/// The plans of the arms of an `if`, and the number behind their bodies.
#[cycle(planning)]
fn arms<'a>(
    alloc: Global,
    items: &'a [Arm],
    first: u32,
) -> Result<(Items<PlanArm<'a>>, u32), NoMemory>
    ensures plans { IfOk result (λ r. (n : Known) (c : List Around)
        → planned_arms r.0 n c ≡ armed (stated_arms items.now) n c first) }
    ensures number { IfOk result (λ r. r.1 ≡ first + armed_count (stated_arms items.now)) }
{
    let mut out = Items::new(alloc);
    let mut number = first;
    let mut rest = items;
    'items: while let Some((arm, more)) = split(rest) {
        let (body, behind) = block(alloc, arm.body.as_slice(), number)?;
        out.push(PlanArm { arm, body })?;
        number = behind;
        rest = more;
    }
    Ok((out, number))
}

/// Adds a `while`.
#[cycle(planning)]
fn while_loop<'a>(
    alloc: Global,
    out: &mut Items<Plan<'a>>,
    arm: &'a Arm,
    other: &'a Option<Clause>,
    first: u32,
) -> Result<u32, NoMemory>
    ensures plans { OnOk result (AddPlans out.old out.new (λ n c. while_code n c first arm.now other.now)) }
    ensures number { IfOk result (λ k. k ≡ first + (count (all_stated arm.now.body) + (otherwise other.now).bodies)) }
{
    let (body, behind) = block(alloc, arm.body.as_slice(), first)?;
    let (otherwise, number) = block(alloc, clause_body(other), behind)?;
    out.push(Plan::While(arm, body, otherwise))?;
    Ok(number)
}

/// Adds a `for`.
#[cycle(planning)]
fn for_loop<'a>(
    alloc: Global,
    out: &mut Items<Plan<'a>>,
    line: u32,
    target: &'a Expr,
    x: &'a Expr,
    body: &'a [Stmt],
    other: &'a Option<Clause>,
    first: u32,
) -> Result<u32, NoMemory>
    ensures plans { OnOk result (AddPlans out.old out.new
        (λ n c. for_code n c first line target.now x.now body.now other.now)) }
    ensures number { IfOk result (λ k. k ≡ first + (count (all_stated body.now) + (otherwise other.now).bodies)) }
{
    let (body, behind) = block(alloc, body, first)?;
    let (otherwise, number) = block(alloc, clause_body(other), behind)?;
    out.push(Plan::For(line, target, x, body, otherwise))?;
    Ok(number)
}

/// The plans of except clauses, and the number behind their bodies.
#[cycle(planning)]
fn handlers<'a>(
    alloc: Global,
    items: &'a [Handler],
    first: u32,
) -> Result<(Items<PlanHandler<'a>>, u32), NoMemory>
    ensures plans { IfOk result (λ r. (n : Known) (c : List Around)
        → planned_handlers r.0 n c ≡ handled (stated_handlers items.now) n c first) }
    ensures number { IfOk result (λ r. r.1 ≡ first + handled_count (stated_handlers items.now)) }
{
    let mut out = Items::new(alloc);
    let mut number = first;
    let mut rest = items;
    'items: while let Some((handler, more)) = split(rest) {
        let (body, behind) = block(alloc, handler.body.as_slice(), number)?;
        out.push(PlanHandler { handler, body })?;
        number = behind;
        rest = more;
    }
    Ok((out, number))
}

/// Adds a `try` without its finally. Without except clauses it is its block.
#[cycle(planning)]
fn tried<'a>(
    alloc: Global,
    out: &mut Items<Plan<'a>>,
    x: &'a Clause,
    items: &'a [Handler],
    other: &'a Option<Clause>,
    first: u32,
) -> Result<u32, NoMemory>
    ensures plans { OnOk result (AddPlans out.old out.new
        (λ n c. (tried_of x.now items.now other.now).code n c first)) }
    ensures number { IfOk result (λ k. k ≡ first + (tried_of x.now items.now other.now).bodies) }
{
    match split(items) {
        None => add_block(alloc, out, x.body.as_slice(), first),
        Some(_) => {
            let (body, inside) = block(alloc, x.body.as_slice(), first)?;
            let (clauses, after) = handlers(alloc, items, inside)?;
            let (otherwise, number) = block(alloc, clause_body(other), after)?;
            out.push(Plan::Try(x.line, body, clauses, otherwise))?;
            Ok(number)
        }
    }
}

/// Adds a `try` with its finally.
#[cycle(planning)]
fn tried_finally<'a>(
    alloc: Global,
    out: &mut Items<Plan<'a>>,
    x: &'a Clause,
    items: &'a [Handler],
    other: &'a Option<Clause>,
    last: &'a Clause,
    first: u32,
) -> Result<u32, NoMemory>
    ensures plans { OnOk result (AddPlans out.old out.new
        (λ n c. finally_code n c first x.now items.now other.now last.now)) }
    ensures number { IfOk result
        (λ k. k ≡ first + ((tried_of x.now items.now other.now).bodies + count (all_stated last.now.body))) }
{
    let mut inner = Items::new(alloc);
    let behind = tried(alloc, &mut inner, x, items, other, first)?;
    let (last, number) = block(alloc, last.body.as_slice(), behind)?;
    out.push(Plan::Finally(x.line, inner, last))?;
    Ok(number)
}

/// Adds a statement, if it has code; the number behind its bodies.
#[cycle(planning)]
fn statement<'a>(
    alloc: Global,
    out: &mut Items<Plan<'a>>,
    s: &'a Stmt,
    first: u32,
) -> Result<u32, NoMemory>
    ensures plans { OnOk result (AddPlans out.old out.new (λ n c. (stated s.now).code n c first)) }
    ensures number { IfOk result (λ k. k ≡ first + (stated s.now).bodies) }
{
    match s {
        Stmt::Do(line, x) => simple(out, Simple::Do(*line, x), first),
        Stmt::Assign(line, targets, x) => simple(out, Simple::Assign(*line, targets, x), first),
        Stmt::Augment(line, x, o, y) => simple(out, Simple::Augment(*line, x, *o, y), first),
        Stmt::Print(line, items, comma) => simple(out, Simple::Print(*line, items, *comma), first),
        Stmt::Pass(_) => Ok(first),
        Stmt::Break(line) => simple(out, Simple::Break(*line), first),
        Stmt::Continue(line) => simple(out, Simple::Continue(*line), first),
        Stmt::Return(line, x) => simple(out, Simple::Return(*line, x), first),
        Stmt::Raise(line, x, v) => simple(out, Simple::Raise(*line, x, v), first),
        Stmt::Del(line, targets) => delete(alloc, out, *line, targets.as_slice(), first),
        Stmt::Global(_, _) => Ok(first),
        Stmt::Assert(line, x, message) => simple(out, Simple::Assert(*line, x, message), first),
        Stmt::Import(line, items) => simple(out, Simple::Import(*line, items), first),
        Stmt::From(line, m, items) => simple(out, Simple::From(*line, m, items), first),
        Stmt::If(items, other) => if_else(alloc, out, items.as_slice(), other, first),
        Stmt::While(arm, other) => while_loop(alloc, out, arm, other, first),
        Stmt::For(line, target, x, body, other) => {
            for_loop(alloc, out, *line, target, x, body.as_slice(), other, first)
        }
        Stmt::Try(x, items, other, last) => match last {
            None => tried(alloc, out, x, items.as_slice(), other, first),
            Some(fin) => tried_finally(alloc, out, x, items.as_slice(), other, fin, first),
        },
        Stmt::Def(line, name, params, body) => {
            def(out, *line, name, params.as_slice(), body.as_slice(), first)
        }
        Stmt::Class(line, name, x, body) => class(out, *line, name, x, body.as_slice(), first),
    }
}
