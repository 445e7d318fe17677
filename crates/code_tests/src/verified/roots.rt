//! The form and the order of the roots, and how many and how long they are.
use super::made::{add_root, code, first_roots, passes};
use py_base::{Bytes, Kind, exception};
use py_code::{Codes, Constant, Instr, Root, Roots};
use std::alloc::{AllocError, Global};
use std::test;

type Tested = Result<(), test::Fail>;

/// Whether an empty module passes with these roots.
fn rooted(alloc: Global, roots: Roots) -> Result<bool, AllocError> {
    let instrs = [Instr::Setup, Instr::Const(Constant::None), Instr::Return];
    let mut codes = Codes::new(alloc);
    codes.push(code(alloc, 0, instrs.as_slice())?)?;
    passes(alloc, codes, roots)
}

/// The same with one more root behind the classes.
fn with_root(alloc: Global, kind: Kind, number: u8, bytes: &[u8]) -> Result<bool, AllocError> {
    let mut roots = first_roots(alloc, exception::COUNT)?;
    add_root(alloc, &mut roots, kind, number, bytes)?;
    rooted(alloc, roots)
}

#[test]
fn first_of_them(rt: HostRuntime) -> Tested {
    let alloc = rt.alloc();
    assert!(rt; rooted(alloc, first_roots(alloc, exception::COUNT)?)?);
    assert!(rt; !rooted(alloc, Roots::new(alloc))?);
    // a class is missing
    assert!(rt; !rooted(alloc, first_roots(alloc, exception::COUNT - 1)?)?);
    // one class too many
    assert!(rt; !rooted(alloc, first_roots(alloc, exception::COUNT + 1)?)?);
    Ok(())
}

#[test]
fn kinds(rt: HostRuntime) -> Tested {
    let alloc = rt.alloc();
    assert!(rt; with_root(alloc, Kind::Str, 0, b"a")?);
    assert!(rt; with_root(alloc, Kind::Cell, 0, b"a")?);
    assert!(rt; !with_root(alloc, Kind::Tuple, 0, b"")?);
    // a number that the kind doesn't use
    assert!(rt; !with_root(alloc, Kind::Str, 1, b"a")?);
    assert!(rt; !with_root(alloc, Kind::Cell, 1, b"a")?);
    Ok(())
}

/// Whether roots pass that begin with this one, in place of the cell of the count of threads.
fn begun(alloc: Global, kind: Kind, bytes: &[u8]) -> Result<bool, AllocError> {
    let mut roots = Roots::new(alloc);
    add_root(alloc, &mut roots, kind, 0, bytes)?;
    for c in 0..exception::COUNT {
        add_root(alloc, &mut roots, Kind::Class, c, b"")?;
    }
    rooted(alloc, roots)
}

#[test]
fn count_of_threads(rt: HostRuntime) -> Tested {
    let alloc = rt.alloc();
    assert!(rt; begun(alloc, Kind::Cell, b"")?);
    assert!(rt; !begun(alloc, Kind::Cell, b"a")?);
    assert!(rt; !begun(alloc, Kind::Str, b"")?);
    Ok(())
}

/// Whether roots pass whose last class is this one.
fn ended(alloc: Global, number: u8, bytes: &[u8]) -> Result<bool, AllocError> {
    let mut roots = first_roots(alloc, exception::COUNT - 1)?;
    add_root(alloc, &mut roots, Kind::Class, number, bytes)?;
    rooted(alloc, roots)
}

#[test]
fn last_class(rt: HostRuntime) -> Tested {
    let alloc = rt.alloc();
    assert!(rt; ended(alloc, 19, b"")?);
    assert!(rt; !ended(alloc, 18, b"")?);
    assert!(rt; !ended(alloc, 19, b"error")?);
    Ok(())
}

#[test]
fn string_behind_a_cell(rt: HostRuntime) -> Tested {
    let alloc = rt.alloc();
    let mut roots = first_roots(alloc, exception::COUNT)?;
    add_root(alloc, &mut roots, Kind::Cell, 0, b"a")?;
    add_root(alloc, &mut roots, Kind::Str, 0, b"a")?;
    assert!(rt; !rooted(alloc, roots)?);
    Ok(())
}

/// A text of 1,048,576 bytes.
fn long_text(alloc: Global) -> Result<Bytes, AllocError> {
    let mut text = Bytes::from_slice(alloc, b"a")?;
    for _ in 0..20 {
        let half = text.copy(alloc)?;
        text.extend_from_slice(half.as_slice())?;
    }
    Ok(text)
}

/// Whether roots pass that end with this string.
fn texted(alloc: Global, bytes: Bytes) -> Result<bool, AllocError> {
    let mut roots = first_roots(alloc, exception::COUNT)?;
    roots.push(Root {
        kind: Kind::Str,
        number: 0,
        bytes,
    })?;
    rooted(alloc, roots)
}

#[test]
fn long_strings(rt: HostRuntime) -> Tested {
    let alloc = rt.alloc();
    assert!(rt; texted(alloc, long_text(alloc)?)?);
    let mut longer = long_text(alloc)?;
    longer.push(b'a')?;
    assert!(rt; !texted(alloc, longer)?);
    Ok(())
}

/// Whether so many empty strings pass.
fn many(alloc: Global, count: usize) -> Result<bool, AllocError> {
    let mut roots = first_roots(alloc, exception::COUNT)?;
    for _ in 0..count {
        roots.push(Root {
            kind: Kind::Str,
            number: 0,
            bytes: Bytes::new(alloc),
        })?;
    }
    rooted(alloc, roots)
}

#[test]
fn many_roots(rt: HostRuntime) -> Tested {
    let alloc = rt.alloc();
    assert!(rt; many(alloc, 65_514)?);
    assert!(rt; !many(alloc, 65_515)?);
    Ok(())
}
