//! What expressions say about names.
ghost use Rattle.std.specs.Prelude.{◌≡◌, ◌++◌, ◌∷◌, [], MatchOption, OnOk};
ghost use Rattle.py_names.specs.Outline.{read_keywords, read_links, read_pairs, read_some, read_trailers, said_trailer};
ghost use Rattle.py_names.specs.inner.Roles.{told, told_all};

use crate::outline::Outline;
use py_base::{NameSet, NoMemory, split};
use py_tree::{Expr, Link, Named, Pair, Trailer};
use sqlite_items::Boxed;

/// How an expression stands in a statement.
#[derive(Clone, Copy, Debug, Drop)]
pub enum Role {
    Read,
    Target,
}

/// Adds what an expression says.
#[cycle(expressions)]
#[tactic(auto, using(crate::proofs::Said::saids))]
pub fn expression(out: &mut Outline, line: u32, role: Role, x: &Expr) -> Result<(), NoMemory>
    ensures { OnOk result (out.new ≡ out.old ++ told role line x.now) }
{
    match x {
        Expr::Name(name) => match role {
            Role::Read => out.used_name(line, name),
            Role::Target => out.bound_name(line, name),
        },
        Expr::Int(_) => Ok(()),
        Expr::Str(_) => Ok(()),
        Expr::Group(a) => expression(out, line, role, a.get()),
        Expr::Tuple(items) => expressions(out, line, role, items.as_slice()),
        Expr::List(items) => expressions(out, line, role, items.as_slice()),
        Expr::Dict(items) => pairs(out, line, items.as_slice()),
        Expr::Trail(a, items) => {
            expression(out, line, Role::Read, a.get())?;
            trailers(out, line, items.as_slice())?;
            Ok(())
        }
        Expr::Power(a, b) => {
            expression(out, line, Role::Read, a.get())?;
            expression(out, line, Role::Read, b.get())?;
            Ok(())
        }
        Expr::Unary(_, a) => expression(out, line, Role::Read, a.get()),
        Expr::Chain(_, a, items) => {
            expression(out, line, Role::Read, a.get())?;
            links(out, line, items.as_slice())?;
            Ok(())
        }
        Expr::Not(a) => expression(out, line, Role::Read, a.get()),
        Expr::Choice(a, c, b) => {
            expression(out, line, Role::Read, a.get())?;
            expression(out, line, Role::Read, c.get())?;
            expression(out, line, Role::Read, b.get())?;
            Ok(())
        }
    }
}

/// Adds what these say, one after another.
#[cycle(expressions)]
pub fn expressions(out: &mut Outline, line: u32, role: Role, items: &[Expr]) -> Result<(), NoMemory>
    ensures { OnOk result (out.new ≡ out.old ++ told_all role line items.now) }
{
    let mut rest = items;
    'items: while let Some((x, more)) = split(rest) {
        expression(out, line, role, x)?;
        rest = more;
    }
    Ok(())
}

/// Adds what the keys and values of a dictionary say.
#[cycle(expressions)]
fn pairs(out: &mut Outline, line: u32, items: &[Pair]) -> Result<(), NoMemory>
    ensures { OnOk result (out.new ≡ out.old ++ read_pairs line items.now) }
{
    let mut rest = items;
    'items: while let Some((x, more)) = split(rest) {
        expression(out, line, Role::Read, &x.key)?;
        expression(out, line, Role::Read, &x.value)?;
        rest = more;
    }
    Ok(())
}

/// Adds what the operands behind operators say.
#[cycle(expressions)]
fn links(out: &mut Outline, line: u32, items: &[Link]) -> Result<(), NoMemory>
    ensures { OnOk result (out.new ≡ out.old ++ read_links line items.now) }
{
    let mut rest = items;
    'items: while let Some((x, more)) = split(rest) {
        expression(out, line, Role::Read, &x.operand)?;
        rest = more;
    }
    Ok(())
}

/// Adds what trailers say.
#[cycle(expressions)]
fn trailers(out: &mut Outline, line: u32, items: &[Trailer]) -> Result<(), NoMemory>
    ensures { OnOk result (out.new ≡ out.old ++ read_trailers line items.now) }
{
    let mut rest = items;
    'items: while let Some((x, more)) = split(rest) {
        trailer(out, line, x)?;
        rest = more;
    }
    Ok(())
}

/// Adds what a trailer says.
#[cycle(expressions)]
#[tactic(auto, using(crate::proofs::Said::saids))]
fn trailer(out: &mut Outline, line: u32, x: &Trailer) -> Result<(), NoMemory>
    ensures { OnOk result (out.new ≡ out.old ++ said_trailer line x.now) }
{
    match x {
        Trailer::Attribute(name) => out.label(line, name),
        Trailer::Index(a) => expression(out, line, Role::Read, a.get()),
        Trailer::Slice(a, b) => {
            bound(out, line, a)?;
            bound(out, line, b)?;
            Ok(())
        }
        Trailer::Call(items, named) => {
            expressions(out, line, Role::Read, items.as_slice())?;
            keywords(out, line, named.as_slice())?;
            Ok(())
        }
    }
}

/// Adds what a slice's bound says.
#[cycle(expressions)]
fn bound(out: &mut Outline, line: u32, x: &Option<Boxed<Expr>>) -> Result<(), NoMemory>
    ensures { OnOk result (out.new ≡ out.old ++ read_some line x.now) }
{
    match x {
        Some(a) => expression(out, line, Role::Read, a.get()),
        None => Ok(()),
    }
}

/// Adds what keyword arguments say.
#[cycle(expressions)]
fn keywords(out: &mut Outline, line: u32, items: &[Named]) -> Result<(), NoMemory>
    ensures { OnOk result (out.new ≡ out.old ++ read_keywords line [] items.now) }
{
    let mut before = NameSet::new(out.alloc());
    let mut rest = items;
    'items: while let Some((x, more)) = split(rest) {
        out.label(line, &x.name)?;
        out.repeated(line, &before, &x.name)?;
        before.note(x.name.as_slice())?;
        expression(out, line, Role::Read, &x.value)?;
        rest = more;
    }
    Ok(())
}
