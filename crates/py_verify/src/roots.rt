//! The tests of a list of roots.
ghost use Rattle.std.specs.Prelude.{◌≡◌, ◌+◌, ◌≤◌, ◌∷◌, [], false, true, IfOk, length, MatchOption, option_map, None, Some, IsTrue, ◌↔◌};
ghost use Rattle.std.specs.List.{last_or};
ghost use Rattle.py_base.specs.NameLists.{has};
ghost use Rattle.py_code.specs.Right.{cells_of, differ, HasRoots, main_name, names_of, own_name, texts_of};
ghost use Rattle.py_verify.specs.inner.Tests.{any_long, are_cells, are_classes, are_roots, are_texts, is_cell_by, is_class_by, is_empty, is_long_by, is_text_by, IsFormed};

use py_base::{Kind, NameSet, NoMemory, exception, split};
use py_code::Root;
use std::alloc::Global;

/// The greatest length of a string, in bytes.
const LONGEST: usize = 1_048_576;

fn is_cell(r: &Root) -> bool
    ensures { result ≡ is_cell_by r.now.kind r.now.number }
{
    match r.kind {
        Kind::Cell => r.number == 0,
        _ => false,
    }
}

fn is_text(r: &Root) -> bool
    ensures { result ≡ is_text_by r.now.kind r.now.number }
{
    match r.kind {
        Kind::Str => r.number == 0,
        _ => false,
    }
}

/// Whether there are no bytes.
fn is_empty(bytes: &[u8]) -> bool
    ensures { result ≡ is_empty bytes.now }
{
    match bytes {
        [] => true,
        _ => false,
    }
}

fn is_class(c: u8, r: &Root) -> bool
    ensures { result ≡ is_class_by c r.now.kind r.now.number r.now.bytes }
{
    match r.kind {
        Kind::Class => r.number == c && is_empty(r.bytes.as_slice()),
        _ => false,
    }
}

/// Whether these are the cells of global names.
fn are_cells(roots: &[Root]) -> bool
    ensures { result ≡ are_cells roots.now }
{
    let mut rest = roots;
    'roots: while let Some((r, more)) = split(rest) {
        if !is_cell(r) {
            return false;
        }
        rest = more;
    }
    true
}

/// Whether these are strings, and then cells.
fn are_texts(roots: &[Root]) -> bool
    ensures { result ≡ are_texts roots.now }
{
    let mut rest = roots;
    'roots: while let Some((r, more)) = split(rest) {
        if !is_text(r) {
            return are_cells(rest);
        }
        rest = more;
    }
    true
}

/// Whether these are the classes, and then strings and cells.
fn are_classes(roots: &[Root]) -> bool
    ensures { result ≡ are_classes 20 0 roots.now }
{
    let mut rest = roots;
    for c in 0..exception::COUNT {
        match split(rest) {
            None => return false,
            Some((r, more)) => {
                if !is_class(c, r) {
                    return false;
                }
                rest = more;
            }
        }
    }
    are_texts(rest)
}

/// Whether these are the cell of the count of threads, the classes, strings and cells.
fn are_roots(roots: &[Root]) -> bool
    ensures { result ≡ are_roots roots.now }
{
    match split(roots) {
        None => false,
        Some((r, more)) => is_cell(r) && is_empty(r.bytes.as_slice()) && are_classes(more),
    }
}

fn is_long(r: &Root) -> bool
    ensures { result ≡ is_long_by r.now.kind r.now.bytes }
{
    match r.kind {
        Kind::Str => r.bytes.len() > LONGEST,
        _ => false,
    }
}

/// Whether a string is too long.
fn any_long(roots: &[Root]) -> bool
    ensures { result ≡ any_long roots.now }
{
    let mut rest = roots;
    'roots: while let Some((r, more)) = split(rest) {
        if is_long(r) {
            return true;
        }
        rest = more;
    }
    false
}

/// How many strings there are.
#[tactic(auto, unfolding(py_code::specs::Right::texts_of))]
pub fn count_texts(roots: &[Root]) -> usize
    ensures count { result ≡ length (texts_of roots.now) }
    ensures within { result ≤ length roots.now }
{
    let mut rest = roots;
    let mut n = 0;
    'roots: while let Some((r, more)) = split(rest) {
        if matches!(r.kind, Kind::Str) {
            n += 1;
        }
        rest = more;
    }
    n
}

/// The last string.
#[tactic(auto, unfolding(py_code::specs::Right::texts_of))]
fn last_text(roots: &[Root]) -> Option<&[u8]>
    ensures { option_map (λ x. x.now) result ≡ last_or None (texts_of roots.now) }
{
    let mut rest = roots;
    let mut last: Option<&[u8]> = None;
    'roots: while let Some((r, more)) = split(rest) {
        if matches!(r.kind, Kind::Str) {
            last = Some(r.bytes.as_slice());
        }
        rest = more;
    }
    last
}

/// The names of the cells, if no two are one.
#[tactic(auto, unfolding(py_code::specs::Right::cells_of))]
fn names_in<'a>(alloc: Global, roots: &'a [Root]) -> Result<Option<NameSet<'a>>, NoMemory>
    ensures { IfOk result (λ v. MatchOption v (differ [] (cells_of roots.now) ≡ false)
        (λ s. (s ≡ cells_of roots.now) × (differ [] (cells_of roots.now) ≡ true))) }
{
    let mut rest = roots;
    let mut names = NameSet::new(alloc);
    'roots: while let Some((r, more)) = split(rest) {
        if matches!(r.kind, Kind::Cell) {
            if names.has(r.bytes.as_slice()) {
                return Ok(None);
            }
            names.note(r.bytes.as_slice())?;
        }
        rest = more;
    }
    Ok(Some(names))
}

/// Whether the roots have their form and order, and none is too long and there are not too many.
fn is_formed(roots: &[Root]) -> bool
    ensures { IsTrue result ↔ IsFormed roots.now }
{
    if !are_roots(roots) {
        return false;
    }
    if roots.len() > 65535 {
        return false;
    }
    !any_long(roots)
}

/// Whether it is the name of the module that is run.
fn is_main(text: Option<&[u8]>) -> bool
    ensures { IsTrue result ↔ (option_map (λ x. x.now) text.entry ≡ Some main_name) }
{
    match text {
        Some(text) => text == b"__main__".as_slice(),
        None => false,
    }
}

/// Whether the last string is that name, where `__name__` is among these names.
fn ends_in_main(names: &NameSet<'_>, roots: &[Root]) -> bool
    ensures { IsTrue result ↔ (IsTrue (has own_name names.now) → last_or None (texts_of roots.now) ≡ Some main_name) }
{
    !names.has(b"__name__") || is_main(last_text(roots))
}

/// The global names among the roots, where the roots are right.
pub fn right_roots<'a>(alloc: Global, roots: &'a [Root]) -> Result<Option<NameSet<'a>>, NoMemory>
    ensures { IfOk result (λ v. MatchOption v (HasRoots roots.now → ⊥)
        (λ s. (s ≡ names_of roots.now) × HasRoots roots.now)) }
{
    if !is_formed(roots) {
        return Ok(None);
    }
    let Some((_, rest)) = split(roots) else {
        return Ok(None);
    };
    let Some(names) = names_in(alloc, rest)? else {
        return Ok(None);
    };
    if !ends_in_main(&names, roots) {
        return Ok(None);
    }
    Ok(Some(names))
}
