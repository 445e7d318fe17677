//! The strings and the global names among the roots.
use super::made::{code, passes, roots};
use py_code::{Codes, Constant, Instr};
use std::alloc::{AllocError, Global};
use std::test;

type Tested = Result<(), test::Fail>;

/// Whether an empty module passes with these strings and global names.
fn named(alloc: Global, strings: &[u8], names: &[u8]) -> Result<bool, AllocError> {
    let instrs = [Instr::Setup, Instr::Const(Constant::None), Instr::Return];
    let mut codes = Codes::new(alloc);
    codes.push(code(alloc, 0, instrs.as_slice())?)?;
    passes(alloc, codes, roots(alloc, strings, names)?)
}

#[test]
fn names_differ(rt: HostRuntime) -> Tested {
    let alloc = rt.alloc();
    assert!(rt; named(alloc, b"", b"")?);
    assert!(rt; named(alloc, b"a;b;", b"a;b;")?);
    assert!(rt; !named(alloc, b"", b"a;b;a;")?);
    Ok(())
}

#[test]
fn name_of_the_main_module(rt: HostRuntime) -> Tested {
    let alloc = rt.alloc();
    assert!(rt; named(alloc, b"a;__main__;", b"a;__name__;")?);
    assert!(rt; named(alloc, b"__main__;a;__main__;", b"__name__;")?);
    assert!(rt; !named(alloc, b"", b"__name__;")?);
    assert!(rt; !named(alloc, b"__main__;a;", b"__name__;")?);
    assert!(rt; named(alloc, b"__main__;a;", b"name;")?);
    Ok(())
}
