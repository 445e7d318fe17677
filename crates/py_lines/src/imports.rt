//! Imports: the modules that may be imported, their members, and the statements.
ghost use Rattle.std.specs.Prelude.{◌≡◌, [], ◌∷◌, codes};
ghost use Rattle.std.specs.Str.{bytes_eq};
ghost use Rattle.py_grammar.specs.inner.Lines.{import_name_at, renamed_at, imported_at, imports_at, from_at};
ghost use Rattle.py_atoms.specs.inner.Outcome.{Gives};
ghost use Rattle.py_lines.specs.inner.SimplePieces.{may_import, import_at};
ghost use Rattle.py_grammar.specs.Words.{is_module, is_member};

use py_atoms::cursor::{Read, keyword_next, op_next, refused, rest, take_keyword, take_name};
use py_base::{Bytes, Construct};
use py_grammar::Fault;
use py_tokens::{Token, keyword, operator};
use py_tree::{Imported, Stmt};
use sqlite_items::Items;
use std::alloc::Global;

fn same(a: &[u8], b: &[u8]) -> bool
    ensures { result ≡ bytes_eq a.now b.now }
{
    a == b
}

/// Whether this is the name of a module that may be imported.
pub fn is_module(name: &[u8]) -> bool
    ensures { result ≡ is_module name.now }
{
    same(name, b"thread") || same(name, b"threading")
}

fn in_thread(name: &[u8]) -> bool
    ensures { result ≡ is_member (codes "thread") name.now }
{
    same(name, b"start_new_thread") || same(name, b"allocate_lock") || same(name, b"error")
}

fn in_threading(name: &[u8]) -> bool
    ensures { result ≡ is_member (codes "threading") name.now }
{
    same(name, b"Thread") || same(name, b"Lock")
}

/// Whether this may be imported from that module.
pub fn is_member(owner: &[u8], name: &[u8]) -> bool
    ensures { result ≡ is_member owner.now name.now }
{
    (same(owner, b"thread") && in_thread(name)) || (same(owner, b"threading") && in_threading(name))
}

/// Which names may come in an import.
#[derive(Debug, Drop)]
pub enum Importable {
    /// Modules.
    Module,
    /// Members of this module.
    Member(Bytes),
}

/// Whether this name may come.
fn may_import(what: &Importable, name: &[u8]) -> bool
    ensures { result ≡ may_import what.now name.now }
{
    match what {
        Importable::Module => is_module(name),
        Importable::Member(owner) => is_member(owner.as_slice(), name),
    }
}

/// A name that may come; another is left out.
#[tactic(auto, unfolding(py_grammar::specs::inner::Lines::import_name_at))]
fn import_name<'a>(alloc: Global, what: &Importable, tokens: &'a [Token]) -> Read<'a, Bytes>
    ensures { Gives (λ x. (x.0, x.1.now)) result (import_name_at (may_import what.now) tokens.now) }
{
    let (name, more) = take_name(alloc, tokens)?;
    if !may_import(what, name.as_slice()) {
        return refused(tokens, Fault::LeftOut(Construct::Import));
    }
    Ok((name, more))
}

/// The name after `as`, where `as` comes.
#[tactic(auto, unfolding(py_grammar::specs::inner::Lines::renamed_at))]
fn renamed<'a>(alloc: Global, tokens: &'a [Token]) -> Read<'a, Option<Bytes>>
    ensures { Gives (λ x. (x.0, x.1.now)) result (renamed_at tokens.now) }
{
    if !keyword_next(tokens, keyword::AS) {
        return Ok((None, tokens));
    }
    let (name, more) = take_name(alloc, rest(tokens))?;
    Ok((Some(name), more))
}

/// A name that may come, and the name after `as`.
#[tactic(auto, unfolding(py_grammar::specs::inner::Lines::imported_at))]
fn imported<'a>(alloc: Global, what: &Importable, tokens: &'a [Token]) -> Read<'a, Imported>
    ensures { Gives (λ x. (x.0, x.1.now)) result (imported_at (may_import what.now) tokens.now) }
{
    let (name, more) = import_name(alloc, what, tokens)?;
    let (bound, more) = renamed(alloc, more)?;
    Ok((Imported { name, bound }, more))
}

/// What is imported after the first, each after a comma.
#[tactic(auto, unfolding(py_grammar::specs::inner::Lines::imports_at))]
fn imports<'a>(
    alloc: Global,
    turns: usize,
    what: &Importable,
    first: Imported,
    tokens: &'a [Token],
) -> Read<'a, Items<Imported>>
    ensures { Gives (λ x. (x.0, x.1.now)) result (imports_at (may_import what.now) turns (first ∷ []) tokens.now) }
{
    let mut found = Items::new(alloc);
    found.push(first)?;
    let mut more = tokens;
    'turns: for _turn in 0..turns {
        if !op_next(more, operator::COMMA) {
            return Ok((found, more));
        }
        let (next, after) = imported(alloc, what, rest(more))?;
        found.push(next)?;
        more = after;
    }
    Ok((found, more))
}

/// After `import`, in a statement that began on this line.
pub fn import<'a>(alloc: Global, turns: usize, line: u32, tokens: &'a [Token]) -> Read<'a, Stmt>
    ensures { Gives (λ x. (x.0, x.1.now)) result (import_at turns line tokens.now) }
{
    let modules = Importable::Module;
    let (first, more) = imported(alloc, &modules, tokens)?;
    let (all, more) = imports(alloc, turns, &modules, first, more)?;
    Ok((Stmt::Import(line, all), more))
}

/// After `from`, in a statement that began on this line.
#[tactic(auto, unfolding(py_grammar::specs::inner::Lines::from_at))]
pub fn from<'a>(alloc: Global, turns: usize, line: u32, tokens: &'a [Token]) -> Read<'a, Stmt>
    ensures { Gives (λ x. (x.0, x.1.now)) result (from_at turns line tokens.now) }
{
    let (owner, more) = import_name(alloc, &Importable::Module, tokens)?;
    let more = take_keyword(more, keyword::IMPORT)?;
    let members = Importable::Member(owner.copy(alloc)?);
    let (first, more) = imported(alloc, &members, more)?;
    let (all, more) = imports(alloc, turns, &members, first, more)?;
    Ok((Stmt::From(line, owner, all), more))
}
