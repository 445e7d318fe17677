//! What a program has at a number.
ghost use Rattle.std.specs.Prelude.{◌≡◌, [], drop, length, get_or, IfOk};
ghost use Rattle.py_base.specs.Numbers.{number_from};
ghost use Rattle.py_code.specs.Right.{cells_of, texts_of};
ghost use Rattle.py_frames.specs.Binding as binding;
ghost use Rattle.py_frames.specs.GlobalRows as globals;
ghost use Rattle.py_frames.specs.State as state;

use py_base::exception::COUNT;
use py_base::{Bytes, Kind, NoMemory, first, split};
use py_code::{Keys, Program, Root};
use std::alloc::AllocError;

/// The name of a global, an attribute or a keyword that is a root.
pub fn root_name(p: &Program, n: u32) -> &[u8]
    ensures { result.now ≡ state.root_name p.now n }
{
    match p.roots.get(n as usize) {
        Some(root) => root.bytes.as_slice(),
        None => &[],
    }
}

/// The name of a code.
pub fn code_name(p: &Program, n: u32) -> &[u8]
    ensures { result.now ≡ (state.code_at p.now n).name }
{
    match p.codes.get(n as usize) {
        Some(code) => code.name.as_slice(),
        None => &[],
    }
}

/// The names of the slots of a code.
pub fn slots_at(p: &Program, n: u32) -> &[Bytes]
    ensures { result.now ≡ (state.code_at p.now n).slots }
{
    match p.codes.get(n as usize) {
        Some(code) => code.slots.as_slice(),
        None => &[],
    }
}

/// The name of a slot among these.
fn name_in(names: &[Bytes], i: u32) -> &[u8]
    ensures { result.now ≡ get_or names.now i [] }
{
    match names.get(i as usize) {
        Some(name) => name.as_slice(),
        None => &[],
    }
}

/// The name of a slot of a code.
pub fn slot_name(p: &Program, n: u32, i: u32) -> &[u8]
    ensures { result.now ≡ get_or (state.code_at p.now n).slots i [] }
{
    name_in(slots_at(p, n), i)
}

/// The keyword lists of a code.
fn key_lists(p: &Program, n: u32) -> &[Keys]
    ensures { result.now ≡ (state.code_at p.now n).keys }
{
    match p.codes.get(n as usize) {
        Some(code) => code.keys.as_slice(),
        None => &[],
    }
}

/// The keyword list of a number among these.
fn keys_in(lists: &[Keys], l: u32) -> &[u32]
    ensures { result.now ≡ get_or lists.now l [] }
{
    match lists.get(l as usize) {
        Some(keys) => keys.as_slice(),
        None => &[],
    }
}

/// A keyword list of a code.
pub fn keys_at(p: &Program, n: u32, l: u32) -> &[u32]
    ensures { result.now ≡ get_or (state.code_at p.now n).keys l [] }
{
    keys_in(key_lists(p, n), l)
}

/// How many parameters a code has.
pub fn params_at(p: &Program, n: u32) -> usize
    ensures { result ≡ (state.code_at p.now n).params }
{
    match p.codes.get(n as usize) {
        Some(code) => code.params as usize,
        None => 0,
    }
}

/// The names of the parameters of a code.
pub fn parameters(p: &Program, n: u32) -> &[Bytes]
    ensures { result.now ≡ binding.parameters (state.code_at p.now n) }
{
    first(slots_at(p, n), params_at(p, n))
}

/// The place of a string among those of these roots. No list in memory is so long that the number wouldn't fit.
#[tactic(auto, unfolding(py_code::specs::Right::texts_of))]
fn text_from(roots: &[Root], start: usize, text: &[u8]) -> Result<Option<usize>, NoMemory>
    ensures { IfOk result (λ o. o ≡ number_from start (texts_of roots.now) text.now) }
{
    let mut rest = roots;
    let mut n = start;
    'roots: while let Some((r, more)) = split(rest) {
        if matches!(r.kind, Kind::Str) {
            if r.bytes.as_slice() == text {
                return Ok(Some(n));
            }
            match n.checked_add(1) {
                Some(next) => n = next,
                None => return Err(AllocError),
            }
        }
        rest = more;
    }
    Ok(None)
}

/// The root that is the first string: the cell of the count of threads and the classes stand before it.
const FIRST_TEXT: usize = 1 + COUNT as usize;

/// The number of the string of these bytes among the roots.
pub fn text_number(p: &Program, text: &[u8]) -> Result<Option<usize>, NoMemory>
    ensures { IfOk result (λ o. o ≡ globals.text_number p.now text.now) }
{
    text_from(p.roots.as_slice(), FIRST_TEXT, text)
}

/// How many strings these roots have. No list in memory is so long that the number wouldn't fit.
#[tactic(auto, unfolding(py_code::specs::Right::texts_of))]
fn count_texts(roots: &[Root]) -> Result<u32, NoMemory>
    ensures { IfOk result (λ n. n ≡ length (texts_of roots.now)) }
{
    let mut rest = roots;
    let mut n: u32 = 0;
    'roots: while let Some((r, more)) = split(rest) {
        if matches!(r.kind, Kind::Str) {
            match n.checked_add(1) {
                Some(next) => n = next,
                None => return Err(AllocError),
            }
        }
        rest = more;
    }
    Ok(n)
}

/// The roots behind the first cell.
#[tactic(auto, unfolding(py_code::specs::Right::cells_of))]
fn after_cell(roots: &[Root]) -> &[Root]
    ensures { cells_of result.now ≡ drop 1 (cells_of roots.now) }
{
    let mut rest = roots;
    'roots: while let Some((r, more)) = split(rest) {
        if matches!(r.kind, Kind::Cell) {
            return more;
        }
        rest = more;
    }
    rest
}

/// The place of the cell of a name among those of these roots.
#[tactic(auto, unfolding(py_code::specs::Right::cells_of))]
fn cell_from(roots: &[Root], start: u32, name: &[u8]) -> Result<Option<u32>, NoMemory>
    ensures { IfOk result (λ o. o ≡ number_from start (cells_of roots.now) name.now) }
{
    let mut rest = roots;
    let mut n = start;
    'roots: while let Some((r, more)) = split(rest) {
        if matches!(r.kind, Kind::Cell) {
            if r.bytes.as_slice() == name {
                return Ok(Some(n));
            }
            match n.checked_add(1) {
                Some(next) => n = next,
                None => return Err(AllocError),
            }
        }
        rest = more;
    }
    Ok(None)
}

/// The number of the first cell of a global name.
pub fn first_cell(p: &Program) -> Result<u32, NoMemory>
    ensures { IfOk result (λ n. n ≡ globals.first_cell p.now) }
{
    count_texts(p.roots.as_slice())?
        .checked_add(FIRST_TEXT as u32)
        .ok_or(AllocError)
}

/// The number of the cell of a global name among the roots.
pub fn cell_number(p: &Program, name: &[u8]) -> Result<Option<u32>, NoMemory>
    ensures { IfOk result (λ o. o ≡ globals.cell_number p.now name.now) }
{
    let first = first_cell(p)?;
    cell_from(after_cell(p.roots.as_slice()), first, name)
}
