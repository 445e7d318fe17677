//! The bodies of a module, in the order of the text, and how many stand in a block.
ghost use Rattle.std.specs.Prelude.{◌≡◌, ◌+◌, ◌++◌, IfOk, OnOk, length, [], ◌∷◌};
ghost use Rattle.py_templates.specs.inner.Compounds.{otherwise, tried_of};
ghost use Rattle.py_uses.specs.inner.Gathered.{numbered};
ghost use Rattle.py_templates.specs.Statements.{all_stated, armed_count, armed_inner, count, handled_count, handled_inner, inners, stated, stated_arms, stated_block, stated_handlers};
ghost use Rattle.py_templates.specs.inner.Weights.{weights, weights_some};

use py_base::{NoMemory, split};
use py_templates::{sum, to_u32};
use py_tree::{Arm, Clause, Handler, Stmt};
use sqlite_items::Items;

/// The body of a module, a function or a class.
#[derive(Drop)]
pub struct Body<'a> {
    /// That of its `def` or `class`; 1 for a module.
    pub line: u32,
    /// That of its `def` or `class`; empty for a module.
    pub name: &'a [u8],
    pub is_class: bool,
    /// How many parameters it has.
    pub params: u32,
    pub block: &'a [Stmt],
}

/// The statements of a clause, if there is one.
pub fn clause_body(x: &Option<Clause>) -> &[Stmt]
    ensures same { otherwise x.now ≡ stated_block result.now }
    ensures weight { weights_some x.now ≡ weights result.now }
{
    match x {
        Some(c) => c.body.as_slice(),
        None => &[],
    }
}

/// How many bodies stand in a statement.
#[cycle(counts)]
#[tactic(auto, using(py_templates::proofs::Stateds::body_rules))]
fn bodies_in(x: &Stmt) -> Result<u32, NoMemory>
    ensures { IfOk result (λ n. n ≡ (stated x.now).bodies) }
{
    match x {
        Stmt::If(arms, other) => {
            let a = bodies_in_arms(arms.as_slice())?;
            let b = bodies_in_block(clause_body(other))?;
            let n = sum(a, b)?;
            Ok(n)
        }
        Stmt::While(arm, other) => bodies_in_both(arm.body.as_slice(), other),
        Stmt::For(_, _, _, body, other) => bodies_in_both(body.as_slice(), other),
        Stmt::Try(block, handlers, other, last) => {
            let a = bodies_in_try(block, handlers.as_slice(), other)?;
            let b = bodies_in_block(clause_body(last))?;
            let n = sum(a, b)?;
            Ok(n)
        }
        Stmt::Def(_, _, _, body) => bodies_with(body.as_slice()),
        Stmt::Class(_, _, _, body) => bodies_with(body.as_slice()),
        Stmt::Do(_, _)
        | Stmt::Assign(_, _, _)
        | Stmt::Augment(_, _, _, _)
        | Stmt::Print(_, _, _)
        | Stmt::Pass(_)
        | Stmt::Break(_)
        | Stmt::Continue(_)
        | Stmt::Return(_, _)
        | Stmt::Raise(_, _, _)
        | Stmt::Del(_, _)
        | Stmt::Global(_, _)
        | Stmt::Assert(_, _, _)
        | Stmt::Import(_, _)
        | Stmt::From(_, _, _) => Ok(0),
    }
}

/// How many stand in a block and the clause behind it.
#[cycle(counts)]
fn bodies_in_both(items: &[Stmt], other: &Option<Clause>) -> Result<u32, NoMemory>
    ensures { IfOk result (λ n. n ≡ count (all_stated items.now) + (otherwise other.now).bodies) }
{
    let a = bodies_in_block(items)?;
    let b = bodies_in_block(clause_body(other))?;
    let n = sum(a, b)?;
    Ok(n)
}

/// A body, with those that stand in its block.
#[cycle(counts)]
fn bodies_with(items: &[Stmt]) -> Result<u32, NoMemory>
    ensures { IfOk result (λ n. n ≡ 1 + count (all_stated items.now)) }
{
    let a = bodies_in_block(items)?;
    let n = sum(1, a)?;
    Ok(n)
}

/// How many stand in a `try` without its finally. Without except clauses it has no else.
#[cycle(counts)]
fn bodies_in_try(
    block: &Clause,
    handlers: &[Handler],
    other: &Option<Clause>,
) -> Result<u32, NoMemory>
    ensures { IfOk result (λ n. n ≡ (tried_of block.now handlers.now other.now).bodies) }
{
    let a = bodies_in_block(block.body.as_slice())?;
    match split(handlers) {
        None => Ok(a),
        Some(_) => {
            let b = bodies_in_handlers(handlers)?;
            let c = bodies_in_block(clause_body(other))?;
            let behind = sum(b, c)?;
            let n = sum(a, behind)?;
            Ok(n)
        }
    }
}

/// How many stand in a block.
#[cycle(counts)]
pub fn bodies_in_block(items: &[Stmt]) -> Result<u32, NoMemory>
    ensures { IfOk result (λ n. n ≡ count (all_stated items.now)) }
{
    let mut n = 0;
    let mut rest = items;
    'items: while let Some((x, more)) = split(rest) {
        let a = bodies_in(x)?;
        n = sum(n, a)?;
        rest = more;
    }
    Ok(n)
}

/// How many stand in the arms of an `if`.
#[cycle(counts)]
fn bodies_in_arms(items: &[Arm]) -> Result<u32, NoMemory>
    ensures { IfOk result (λ n. n ≡ armed_count (stated_arms items.now)) }
{
    let mut n = 0;
    let mut rest = items;
    'items: while let Some((x, more)) = split(rest) {
        let a = bodies_in_block(x.body.as_slice())?;
        n = sum(n, a)?;
        rest = more;
    }
    Ok(n)
}

/// How many stand in except clauses.
#[cycle(counts)]
fn bodies_in_handlers(items: &[Handler]) -> Result<u32, NoMemory>
    ensures { IfOk result (λ n. n ≡ handled_count (stated_handlers items.now)) }
{
    let mut n = 0;
    let mut rest = items;
    'items: while let Some((x, more)) = split(rest) {
        let a = bodies_in_block(x.body.as_slice())?;
        n = sum(n, a)?;
        rest = more;
    }
    Ok(n)
}

/// Adds the bodies in these statements, in the order of the text, outer ones before inner ones.
#[cycle(gatherings)]
pub fn gather<'a>(out: &mut Items<Body<'a>>, items: &'a [Stmt]) -> Result<(), NoMemory>
    ensures bodies { OnOk result (numbered 0 out.new ≡ numbered 0 out.old
        ++ (stated_block items.now).inner (length out.old)) }
    ensures more { OnOk result (length out.new ≡ length out.old + count (all_stated items.now)) }
{
    let mut rest = items;
    'items: while let Some((x, more)) = split(rest) {
        gather_one(out, x)?;
        rest = more;
    }
    Ok(())
}

/// Adds the bodies in a statement.
#[cycle(gatherings)]
#[tactic(auto, using(py_templates::proofs::Stateds::body_rules, crate::proofs::Gathers::inner_none))]
fn gather_one<'a>(out: &mut Items<Body<'a>>, x: &'a Stmt) -> Result<(), NoMemory>
    ensures bodies { OnOk result (numbered 0 out.new ≡ numbered 0 out.old ++ (stated x.now).inner (length out.old)) }
    ensures more { OnOk result (length out.new ≡ length out.old + (stated x.now).bodies) }
{
    match x {
        Stmt::If(arms, other) => {
            gather_arms(out, arms.as_slice())?;
            gather(out, clause_body(other))?;
            Ok(())
        }
        Stmt::While(arm, other) => gather_both(out, arm.body.as_slice(), other),
        Stmt::For(_, _, _, body, other) => gather_both(out, body.as_slice(), other),
        Stmt::Try(block, handlers, other, last) => {
            gather_try(out, block, handlers.as_slice(), other)?;
            gather(out, clause_body(last))?;
            Ok(())
        }
        Stmt::Def(line, name, params, body) => {
            let params = to_u32(params.len())?;
            let body = body.as_slice();
            add(out, *line, name.as_slice(), false, params, body)?;
            gather(out, body)?;
            Ok(())
        }
        Stmt::Class(line, name, _, body) => {
            let body = body.as_slice();
            add(out, *line, name.as_slice(), true, 0, body)?;
            gather(out, body)?;
            Ok(())
        }
        Stmt::Do(_, _)
        | Stmt::Assign(_, _, _)
        | Stmt::Augment(_, _, _, _)
        | Stmt::Print(_, _, _)
        | Stmt::Pass(_)
        | Stmt::Break(_)
        | Stmt::Continue(_)
        | Stmt::Return(_, _)
        | Stmt::Raise(_, _, _)
        | Stmt::Del(_, _)
        | Stmt::Global(_, _)
        | Stmt::Assert(_, _, _)
        | Stmt::Import(_, _)
        | Stmt::From(_, _, _) => Ok(()),
    }
}

/// Adds the bodies in a block and in the clause behind it.
#[cycle(gatherings)]
fn gather_both<'a>(
    out: &mut Items<Body<'a>>,
    items: &'a [Stmt],
    other: &'a Option<Clause>,
) -> Result<(), NoMemory>
    ensures bodies { OnOk result (numbered 0 out.new ≡ numbered 0 out.old
        ++ (inners (all_stated items.now) (length out.old)
        ++ (otherwise other.now).inner (length out.old + count (all_stated items.now)))) }
    ensures more { OnOk result (length out.new
        ≡ length out.old + (count (all_stated items.now) + (otherwise other.now).bodies)) }
{
    gather(out, items)?;
    gather(out, clause_body(other))?;
    Ok(())
}

/// Adds a body.
fn add<'a>(
    out: &mut Items<Body<'a>>,
    line: u32,
    name: &'a [u8],
    is_class: bool,
    params: u32,
    block: &'a [Stmt],
) -> Result<(), NoMemory>
    ensures bodies { OnOk result (numbered 0 out.new ≡ numbered 0 out.old
        ++ record {
          line = line;
          name = name.now;
          is_class = is_class;
          params = params;
          block = λ n. (stated_block block.now).code n [] (length out.old + 1);
        } ∷ []) }
    ensures more { OnOk result (length out.new ≡ length out.old + 1) }
{
    out.push(Body {
        line,
        name,
        is_class,
        params,
        block,
    })?;
    Ok(())
}

/// Adds the bodies in the arms of an `if`.
#[cycle(gatherings)]
fn gather_arms<'a>(out: &mut Items<Body<'a>>, items: &'a [Arm]) -> Result<(), NoMemory>
    ensures bodies { OnOk result (numbered 0 out.new ≡ numbered 0 out.old
        ++ armed_inner (stated_arms items.now) (length out.old)) }
    ensures more { OnOk result (length out.new ≡ length out.old + armed_count (stated_arms items.now)) }
{
    let mut rest = items;
    'items: while let Some((x, more)) = split(rest) {
        gather(out, x.body.as_slice())?;
        rest = more;
    }
    Ok(())
}

/// Adds the bodies in except clauses.
#[cycle(gatherings)]
fn gather_handlers<'a>(out: &mut Items<Body<'a>>, items: &'a [Handler]) -> Result<(), NoMemory>
    ensures bodies { OnOk result (numbered 0 out.new ≡ numbered 0 out.old
        ++ handled_inner (stated_handlers items.now) (length out.old)) }
    ensures more { OnOk result (length out.new ≡ length out.old + handled_count (stated_handlers items.now)) }
{
    let mut rest = items;
    'items: while let Some((x, more)) = split(rest) {
        gather(out, x.body.as_slice())?;
        rest = more;
    }
    Ok(())
}

/// Adds the bodies in a `try` without its finally. Without except clauses it has no else.
#[cycle(gatherings)]
fn gather_try<'a>(
    out: &mut Items<Body<'a>>,
    block: &'a Clause,
    handlers: &'a [Handler],
    other: &'a Option<Clause>,
) -> Result<(), NoMemory>
    ensures bodies { OnOk result (numbered 0 out.new ≡ numbered 0 out.old
        ++ (tried_of block.now handlers.now other.now).inner (length out.old)) }
    ensures more { OnOk result (length out.new ≡ length out.old + (tried_of block.now handlers.now other.now).bodies) }
{
    match split(handlers) {
        None => {
            gather(out, block.body.as_slice())?;
            Ok(())
        }
        Some(_) => {
            gather(out, block.body.as_slice())?;
            gather_handlers(out, handlers)?;
            gather(out, clause_body(other))?;
            Ok(())
        }
    }
}
