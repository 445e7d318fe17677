//! What expressions use of strings, global names and keyword lists, in the order of the text.
ghost use Rattle.std.specs.Prelude.{◌≡◌, ◌++◌, OnOk};
ghost use Rattle.py_templates.specs.inner.Reads.{read_links, read_named, read_pairs, read_trailers};
ghost use Rattle.py_uses.specs.inner.Tallies.{inside, tally, told, told_all, told_some};
ghost use Rattle.py_templates.specs.Uses.{read_some, used_trailer};

use crate::tally::{Place, Tally};
use py_base::{NameSet, NoMemory, split};
use py_tree::{Expr, Link, Named, Pair, Trailer};
use sqlite_items::Boxed;

/// How an expression stands in a statement.
#[derive(Clone, Copy, Debug, Drop)]
pub enum Role {
    Read,
    Target,
}

/// What an expression uses.
#[cycle(uses)]
#[tactic(auto, using(py_templates::proofs::Used::used_rules, crate::proofs::Told::told_rules, crate::proofs::Tallying::tally_append))]
pub fn expression<'a>(
    out: &mut Tally<'a>,
    all: &[NameSet],
    b: Place,
    role: Role,
    x: &'a Expr,
) -> Result<(), NoMemory>
    ensures { OnOk result (out.new ≡ tally out.old (told role (inside all.now b) x.now)) }
{
    match x {
        Expr::Name(name) => match role {
            Role::Read => out.read_name(all, b, name.as_slice()),
            Role::Target => out.bind_name(all, b, name.as_slice()),
        },
        Expr::Int(_) => Ok(()),
        Expr::Str(s) => out.text(s.as_slice()),
        Expr::Group(a) => expression(out, all, b, role, a.get()),
        Expr::Tuple(items) => expressions(out, all, b, role, items.as_slice()),
        Expr::List(items) => expressions(out, all, b, role, items.as_slice()),
        Expr::Dict(items) => pairs(out, all, b, items.as_slice()),
        Expr::Trail(a, items) => {
            expression(out, all, b, Role::Read, a.get())?;
            trailers(out, all, b, items.as_slice())?;
            Ok(())
        }
        Expr::Power(x, y) => {
            expression(out, all, b, Role::Read, x.get())?;
            expression(out, all, b, Role::Read, y.get())?;
            Ok(())
        }
        Expr::Unary(_, x) => expression(out, all, b, Role::Read, x.get()),
        Expr::Chain(_, x, items) => {
            expression(out, all, b, Role::Read, x.get())?;
            links(out, all, b, items.as_slice())?;
            Ok(())
        }
        Expr::Not(x) => expression(out, all, b, Role::Read, x.get()),
        Expr::Choice(x, c, y) => {
            expression(out, all, b, Role::Read, x.get())?;
            expression(out, all, b, Role::Read, c.get())?;
            expression(out, all, b, Role::Read, y.get())?;
            Ok(())
        }
    }
}

/// What these use, one after another.
#[cycle(uses)]
#[tactic(auto, using(crate::proofs::Tallying::tally_append, crate::proofs::Told::told_all_cons))]
pub fn expressions<'a>(
    out: &mut Tally<'a>,
    all: &[NameSet],
    b: Place,
    role: Role,
    items: &'a [Expr],
) -> Result<(), NoMemory>
    ensures { OnOk result (out.new ≡ tally out.old (told_all role (inside all.now b) items.now)) }
{
    let mut rest = items;
    'items: while let Some((x, more)) = split(rest) {
        expression(out, all, b, role, x)?;
        rest = more;
    }
    Ok(())
}

/// What the keys and values of a dictionary use.
#[cycle(uses)]
#[tactic(auto, using(crate::proofs::Tallying::tally_append))]
fn pairs<'a>(
    out: &mut Tally<'a>,
    all: &[NameSet],
    b: Place,
    items: &'a [Pair],
) -> Result<(), NoMemory>
    ensures { OnOk result (out.new ≡ tally out.old (read_pairs (inside all.now b) items.now)) }
{
    let mut rest = items;
    'items: while let Some((x, more)) = split(rest) {
        expression(out, all, b, Role::Read, &x.key)?;
        expression(out, all, b, Role::Read, &x.value)?;
        rest = more;
    }
    Ok(())
}

/// What the operands behind operators use.
#[cycle(uses)]
#[tactic(auto, using(crate::proofs::Tallying::tally_append))]
fn links<'a>(
    out: &mut Tally<'a>,
    all: &[NameSet],
    b: Place,
    items: &'a [Link],
) -> Result<(), NoMemory>
    ensures { OnOk result (out.new ≡ tally out.old (read_links (inside all.now b) items.now)) }
{
    let mut rest = items;
    'items: while let Some((x, more)) = split(rest) {
        expression(out, all, b, Role::Read, &x.operand)?;
        rest = more;
    }
    Ok(())
}

/// What trailers use.
#[cycle(uses)]
#[tactic(auto, using(crate::proofs::Tallying::tally_append))]
fn trailers<'a>(
    out: &mut Tally<'a>,
    all: &[NameSet],
    b: Place,
    items: &'a [Trailer],
) -> Result<(), NoMemory>
    ensures { OnOk result (out.new ≡ tally out.old (read_trailers (inside all.now b) items.now)) }
{
    let mut rest = items;
    'items: while let Some((x, more)) = split(rest) {
        trailer(out, all, b, x)?;
        rest = more;
    }
    Ok(())
}

/// What a trailer uses.
#[cycle(uses)]
#[tactic(auto, using(py_templates::proofs::Used::used_rules, crate::proofs::Told::told_rules, crate::proofs::Tallying::tally_append))]
fn trailer<'a>(
    out: &mut Tally<'a>,
    all: &[NameSet],
    b: Place,
    x: &'a Trailer,
) -> Result<(), NoMemory>
    ensures { OnOk result (out.new ≡ tally out.old (used_trailer (inside all.now b) x.now)) }
{
    match x {
        Trailer::Attribute(name) => out.text(name.as_slice()),
        Trailer::Index(i) => expression(out, all, b, Role::Read, i.get()),
        Trailer::Slice(i, j) => {
            bound(out, all, b, i)?;
            bound(out, all, b, j)?;
            Ok(())
        }
        Trailer::Call(args, named) => {
            expressions(out, all, b, Role::Read, args.as_slice())?;
            keywords(out, all, b, named.as_slice())?;
            out.note_keys(b, named.as_slice())?;
            Ok(())
        }
    }
}

/// What a slice's bound uses.
#[cycle(uses)]
fn bound<'a>(
    out: &mut Tally<'a>,
    all: &[NameSet],
    b: Place,
    x: &'a Option<Boxed<Expr>>,
) -> Result<(), NoMemory>
    ensures { OnOk result (out.new ≡ tally out.old (read_some (inside all.now b) x.now)) }
{
    match x {
        Some(a) => expression(out, all, b, Role::Read, a.get()),
        None => Ok(()),
    }
}

/// What keyword arguments use.
#[cycle(uses)]
#[tactic(auto, using(crate::proofs::Tallying::tally_append))]
fn keywords<'a>(
    out: &mut Tally<'a>,
    all: &[NameSet],
    b: Place,
    items: &'a [Named],
) -> Result<(), NoMemory>
    ensures { OnOk result (out.new ≡ tally out.old (read_named (inside all.now b) items.now)) }
{
    let mut rest = items;
    'items: while let Some((x, more)) = split(rest) {
        out.text(x.name.as_slice())?;
        expression(out, all, b, Role::Read, &x.value)?;
        rest = more;
    }
    Ok(())
}

/// What an expression uses, if there is one.
pub fn some<'a>(
    out: &mut Tally<'a>,
    all: &[NameSet],
    b: Place,
    role: Role,
    x: &'a Option<Expr>,
) -> Result<(), NoMemory>
    ensures { OnOk result (out.new ≡ tally out.old (told_some role (inside all.now b) x.now)) }
{
    match x {
        Some(x) => expression(out, all, b, role, x),
        None => Ok(()),
    }
}
