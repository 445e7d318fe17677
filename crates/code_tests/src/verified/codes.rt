//! Programs of two codes: functions, class bodies and what each code is by itself.
use super::made::{TEXT, code, is_program, passes, roots};
use py_code::{Codes, Constant, Instr, Lines};
use std::alloc::{AllocError, Global};
use std::test;

type Tested = Result<(), test::Fail>;

const NONE: Instr = Instr::Const(Constant::None);

/// A module that makes code 1 a function with so many defaults.
fn function(
    alloc: Global,
    defaults: u32,
    params: u32,
    other: &[Instr],
) -> Result<bool, AllocError> {
    let module = [
        Instr::Setup,
        NONE,
        NONE,
        NONE,
        Instr::MakeFunction(1, defaults),
        Instr::Return,
    ];
    is_program(alloc, module.as_slice(), params, other, b"n;")
}

/// A module that makes code 1 a class, where these are the global names.
fn class(alloc: Global, other: &[Instr], names: &[u8]) -> Result<bool, AllocError> {
    let module = [Instr::Setup, NONE, Instr::ClassBody(1), Instr::Return];
    is_program(alloc, module.as_slice(), 0, other, names)
}

#[test]
fn functions(rt: HostRuntime) -> Tested {
    let alloc = rt.alloc();
    assert!(rt; function(alloc, 2, 2, &[Instr::LoadLocal(0), Instr::Return])?);
    // more defaults than parameters
    assert!(rt; !function(alloc, 2, 1, &[Instr::LoadLocal(0), Instr::Return])?);
    // more parameters than slots
    assert!(rt; !function(alloc, 0, 3, &[Instr::LoadLocal(0), Instr::Return])?);
    // the other code isn't right
    assert!(rt; !function(alloc, 0, 0, &[Instr::Return])?);
    // a jump to its first place is no jump to SETUP
    assert!(rt; function(alloc, 0, 0, &[Instr::Jump(0)])?);
    // SETUP in another code
    assert!(rt; !function(alloc, 0, 0, &[NONE, Instr::Return, Instr::Setup])?);
    Ok(())
}

#[test]
fn names_of_functions(rt: HostRuntime) -> Tested {
    let alloc = rt.alloc();
    // a class body's dictionary is used in a function, reached or not
    assert!(rt; !function(alloc, 0, 0, &[Instr::LoadName(TEXT), Instr::Return])?);
    assert!(rt;
        !function(
            alloc,
            0,
            0,
            &[NONE, Instr::StoreName(TEXT), NONE, Instr::Return]
        )?
    );
    assert!(rt; !function(alloc, 0, 0, &[NONE, Instr::Return, Instr::DelName(TEXT)])?);
    Ok(())
}

#[test]
fn class_bodies(rt: HostRuntime) -> Tested {
    let alloc = rt.alloc();
    let loads = [Instr::LoadName(TEXT), Instr::Return];
    let stores = [
        NONE,
        Instr::StoreName(TEXT),
        Instr::DelName(TEXT),
        NONE,
        Instr::Return,
    ];
    assert!(rt; class(alloc, loads.as_slice(), b"g;n;")?);
    assert!(rt; class(alloc, stores.as_slice(), b"g;")?);
    // the name that is loaded has no cell
    assert!(rt; !class(alloc, loads.as_slice(), b"g;")?);
    // the name isn't a string
    assert!(rt; !class(alloc, &[Instr::LoadName(TEXT + 1), Instr::Return], b"g;n;")?);
    // a function of a class body
    assert!(rt; !class(alloc, &[Instr::MakeFunction(1, 0), Instr::Return], b"g;")?);
    assert!(rt;
        !class(
            alloc,
            &[NONE, Instr::Return, Instr::MakeFunction(1, 0)],
            b"g;"
        )?
    );
    Ok(())
}

#[test]
fn dead_class_body(rt: HostRuntime) -> Tested {
    let alloc = rt.alloc();
    // CLASS_BODY makes a class body of its code also where it isn't reached
    let module = [Instr::Setup, NONE, Instr::Return, Instr::ClassBody(1)];
    let body = [NONE, Instr::StoreName(TEXT), NONE, Instr::Return];
    assert!(rt; is_program(alloc, module.as_slice(), 0, body.as_slice(), b"")?);
    Ok(())
}

/// Whether a module passes that has so many lines for its three instructions.
fn lined(alloc: Global, lines: &[u32]) -> Result<bool, AllocError> {
    let mut module = code(alloc, 0, &[Instr::Setup, NONE, Instr::Return])?;
    module.lines = Lines::from_slice(alloc, lines)?;
    let mut codes = Codes::new(alloc);
    codes.push(module)?;
    passes(alloc, codes, roots(alloc, b"", b"")?)
}

#[test]
fn lines(rt: HostRuntime) -> Tested {
    let alloc = rt.alloc();
    assert!(rt; lined(alloc, &[7, 1, 7])?);
    assert!(rt; !lined(alloc, &[1, 1])?);
    assert!(rt; !lined(alloc, &[1, 1, 1, 1])?);
    Ok(())
}

#[test]
fn no_code(rt: HostRuntime) -> Tested {
    let alloc = rt.alloc();
    assert!(rt; !passes(alloc, Codes::new(alloc), roots(alloc, b"", b"")?)?);
    Ok(())
}
