//! Programs made of their parts, and whether they pass.
use crate::joined_texts::texts;
use py_base::{Bytes, Kind, exception};
use py_code::{Code, Codes, Instr, Instrs, KeyLists, Keys, Lines, Program, Root, Roots};
use py_verify::verify;
use std::alloc::{AllocError, Global};

/// The first string among the roots.
pub const TEXT: u32 = 21;

/// The first cell of a global name, where there is one string.
pub const CELL: u32 = 22;

/// Adds a root.
pub fn add_root(
    alloc: Global,
    roots: &mut Roots,
    kind: Kind,
    number: u8,
    bytes: &[u8],
) -> Result<(), AllocError> {
    let bytes = Bytes::from_slice(alloc, bytes)?;
    roots.push(Root {
        kind,
        number,
        bytes,
    })
}

/// Adds a root of that kind for each text.
pub fn add_roots(
    alloc: Global,
    roots: &mut Roots,
    kind: Kind,
    joined: &[u8],
) -> Result<(), AllocError> {
    let all = texts(alloc, joined)?;
    for text in all.as_slice() {
        add_root(alloc, roots, kind, 0, text.as_slice())?;
    }
    Ok(())
}

/// The cell of the count of threads, and so many classes.
pub fn first_roots(alloc: Global, classes: u8) -> Result<Roots, AllocError> {
    let mut roots = Roots::new(alloc);
    add_root(alloc, &mut roots, Kind::Cell, 0, b"")?;
    for c in 0..classes {
        add_root(alloc, &mut roots, Kind::Class, c, b"")?;
    }
    Ok(roots)
}

/// The roots of a program with these strings and global names.
pub fn roots(alloc: Global, strings: &[u8], names: &[u8]) -> Result<Roots, AllocError> {
    let mut roots = first_roots(alloc, exception::COUNT)?;
    add_roots(alloc, &mut roots, Kind::Str, strings)?;
    add_roots(alloc, &mut roots, Kind::Cell, names)?;
    Ok(roots)
}

/// A line for each instruction.
fn lines(alloc: Global, count: usize) -> Result<Lines, AllocError> {
    let mut lines = Lines::new(alloc);
    for _ in 0..count {
        lines.push(1)?;
    }
    Ok(lines)
}

/// The empty keyword list, one of the first string, and one of the first class.
fn key_lists(alloc: Global) -> Result<KeyLists, AllocError> {
    let mut keys = KeyLists::new(alloc);
    keys.push(Keys::new(alloc))?;
    keys.push(Keys::from_slice(alloc, &[TEXT])?)?;
    keys.push(Keys::from_slice(alloc, &[1])?)?;
    Ok(keys)
}

/// A code with so many parameters and two slots.
pub fn code(alloc: Global, params: u32, instrs: &[Instr]) -> Result<Code, AllocError> {
    let lines = lines(alloc, instrs.len())?;
    let slots = texts(alloc, b"a;b;")?;
    let keys = key_lists(alloc)?;
    Ok(Code {
        name: Bytes::new(alloc),
        instrs: Instrs::from_slice(alloc, instrs)?,
        lines,
        slots,
        params,
        keys,
    })
}

/// Whether a program passes.
pub fn passes(alloc: Global, codes: Codes, roots: Roots) -> Result<bool, AllocError> {
    let verified = verify(alloc, Program { codes, roots })?;
    Ok(verified.is_some())
}

/// Whether a program of that module alone passes, with the string `n` and the global name `g`.
pub fn is_module(alloc: Global, instrs: &[Instr]) -> Result<bool, AllocError> {
    let mut codes = Codes::new(alloc);
    codes.push(code(alloc, 0, instrs)?)?;
    passes(alloc, codes, roots(alloc, b"n;", b"g;")?)
}

/// Whether a program of that module and another code passes, with the string `n` and these global names.
pub fn is_program(
    alloc: Global,
    module: &[Instr],
    params: u32,
    other: &[Instr],
    names: &[u8],
) -> Result<bool, AllocError> {
    let mut codes = Codes::new(alloc);
    codes.push(code(alloc, 0, module)?)?;
    codes.push(code(alloc, params, other)?)?;
    passes(alloc, codes, roots(alloc, b"n;", names)?)
}
