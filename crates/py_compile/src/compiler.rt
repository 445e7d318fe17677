//! The program of a module.
ghost use Rattle.std.specs.Prelude.{◌≡◌, [], IfOk, OnOk};
ghost use Rattle.std.specs.List.{IsDistinct, list_any};
ghost use Rattle.std.specs.Str.{bytes_eq};
ghost use Rattle.py_templates.specs.Compiles.{Compiles, bound_in};
ghost use Rattle.py_compile.specs.inner.Bodies.{NamedOnce, Padded};
ghost use Rattle.py_uses.specs.inner.Gathered.{numbered};
ghost use Rattle.py_templates.specs.Resolved.{IsResolved};
ghost use Rattle.py_templates.specs.Whole.{bodies, is_long};

use crate::codes::codes;
use crate::roots::roots;
use py_base::{Bytes, NameSet, NoMemory, split};
use py_code::Program;
use py_names::Scopes;
use py_templates::{CompileError, too_large};
use py_tree::{Module, Stmt};
use py_uses::{Body, gather, module};
use sqlite_items::Items;
use std::alloc::Global;

/// How many codes and roots a program may have.
const MOST: usize = 65535;

/// How many bytes a string among the roots may have.
const LONGEST: usize = 1_048_576;

/// These names, none of which stands twice.
fn set_of<'a>(alloc: Global, names: &'a [Bytes]) -> Result<NameSet<'a>, NoMemory>
    requires { IsDistinct bytes_eq names.now }
    ensures { IfOk result (λ set. set ≡ names.now) }
{
    let mut set = NameSet::new(alloc);
    let mut rest = names;
    'names: while let Some((x, more)) = split(rest) {
        set.note(x.as_slice())?;
        rest = more;
    }
    Ok(set)
}

/// The names that the bodies bind, by their scopes.
#[tactic(auto, unfolding(crate::specs::inner::Bodies::NamedOnce))]
fn bound<'a>(alloc: Global, scopes: &'a Scopes) -> Result<Vec<NameSet<'a>>, NoMemory>
    requires { NamedOnce scopes.now }
    ensures { IfOk result (λ sets. sets.items ≡ bound_in scopes.now) }
{
    let mut sets = Vec::new(alloc);
    let mut rest = scopes.as_slice();
    'scopes: while let Some((x, more)) = split(rest) {
        let set = set_of(alloc, x.locals.as_slice())?;
        sets.push(set)?;
        rest = more;
    }
    Ok(sets)
}

/// As many sets, where there are fewer: a body without a scope binds no name.
fn pad<'a>(alloc: Global, sets: &mut Vec<NameSet<'a>>, count: usize) -> Result<(), NoMemory>
    ensures { OnOk result (Padded count sets.old.items sets.new.items) }
{
    'sets: while sets.len() < count {
        sets.push(NameSet::new(alloc))?;
    }
    Ok(())
}

/// The module's own body, and then the others.
fn all_bodies<'a>(alloc: Global, items: &'a [Stmt]) -> Result<Items<Body<'a>>, NoMemory>
    ensures { IfOk result (λ all. numbered 0 all ≡ bodies items.now) }
{
    let mut all = Items::new(alloc);
    all.push(Body {
        line: 1,
        name: b"".as_slice(),
        is_class: false,
        params: 0,
        block: items,
    })?;
    gather(&mut all, items)?;
    Ok(all)
}

/// Whether one of these is too long.
fn has_long(texts: &NameSet) -> bool
    ensures { result ≡ list_any is_long texts.now }
{
    for text in texts.as_slice() {
        if text.len() > LONGEST {
            return true;
        }
    }
    false
}

/// The program of a text's tree and its scopes, by the table of templates (`docs/LANGUAGE.md`, "Code of a tree").
///
/// The condition says that the tree is one of some tokens by the grammar, and that the scopes are those that `resolve`
/// answers for it. So the program is ready for the machine: what is tested of a program before it runs holds of it, by
/// `right_law` of `compiler_laws`.
///
/// Refused is `TooLarge`: with the line of its `def` or `class` (1 for the module) a body with more than 65,535
/// instructions, and with line 1 more than 65,535 bodies or roots, or a string of more than 1,048,576 bytes; of several
/// lines the least. `OutOfMemory` says that there was no memory for the program.
pub fn compile(alloc: Global, m: &Module, scopes: &Scopes) -> Result<Program, CompileError>
    requires resolved { IsResolved m.now scopes.now }
    ensures { Compiles m.now scopes.now result }
{
    let bodies = all_bodies(alloc, m.body.as_slice())?;
    if bodies.len() > MOST {
        return Err(too_large(1));
    }
    let mut locals = bound(alloc, scopes)?;
    let used = module(alloc, locals.as_slice(), bodies.len(), m.body.as_slice())?;
    let roots = roots(alloc, &used.texts, &used.cells)?;
    if roots.len() > MOST {
        return Err(too_large(1));
    }
    if has_long(&used.texts) {
        return Err(too_large(1));
    }
    pad(alloc, &mut locals, bodies.len())?;
    match codes(alloc, bodies.as_slice(), locals.as_slice(), &used) {
        Ok(codes) => Ok(Program { codes, roots }),
        Err(e) => Err(e),
    }
}
