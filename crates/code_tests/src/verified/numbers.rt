//! What operands name: slots, roots of a kind, operators, builtins and keyword lists.
use super::made::{CELL, TEXT, is_module};
use py_base::builtin;
use py_code::{Constant, Instr};
use std::alloc::{AllocError, Global};
use std::test;

type Tested = Result<(), test::Fail>;

const NONE: Instr = Instr::Const(Constant::None);

/// Whether a module passes where the instruction stands over four values, and is the last but a jump that stays.
fn fits(alloc: Global, i: Instr) -> Result<bool, AllocError> {
    let instrs = [Instr::Setup, NONE, NONE, NONE, NONE, i, Instr::Jump(6)];
    is_module(alloc, instrs.as_slice())
}

#[test]
fn slots(rt: HostRuntime) -> Tested {
    let alloc = rt.alloc();
    assert!(rt; fits(alloc, Instr::LoadLocal(1))?);
    assert!(rt; !fits(alloc, Instr::LoadLocal(2))?);
    assert!(rt; !fits(alloc, Instr::StoreLocal(2))?);
    assert!(rt; !fits(alloc, Instr::DelLocal(2))?);
    Ok(())
}

#[test]
fn cells(rt: HostRuntime) -> Tested {
    let alloc = rt.alloc();
    assert!(rt; fits(alloc, Instr::LoadGlobal(CELL))?);
    // the cell of the count of threads
    assert!(rt; !fits(alloc, Instr::LoadGlobal(0))?);
    // a string
    assert!(rt; !fits(alloc, Instr::StoreGlobal(TEXT))?);
    // one past the roots
    assert!(rt; !fits(alloc, Instr::DelGlobal(CELL + 1))?);
    Ok(())
}

#[test]
fn strings(rt: HostRuntime) -> Tested {
    let alloc = rt.alloc();
    assert!(rt; fits(alloc, Instr::LoadAttr(TEXT))?);
    // a cell
    assert!(rt; !fits(alloc, Instr::LoadAttr(CELL))?);
    assert!(rt; !fits(alloc, Instr::StoreAttr(CELL))?);
    // a class
    assert!(rt; !fits(alloc, Instr::DelAttr(TEXT - 1))?);
    assert!(rt; !fits(alloc, Instr::LoadMethod(TEXT - 1))?);
    Ok(())
}

#[test]
fn constants(rt: HostRuntime) -> Tested {
    let alloc = rt.alloc();
    assert!(rt; fits(alloc, Instr::Const(Constant::Root(TEXT)))?);
    assert!(rt; fits(alloc, Instr::Const(Constant::Root(1)))?);
    assert!(rt; !fits(alloc, Instr::Const(Constant::Root(0)))?);
    assert!(rt; !fits(alloc, Instr::Const(Constant::Root(CELL)))?);
    assert!(rt; fits(alloc, Instr::Const(Constant::Builtin(builtin::THREAD_JOIN)))?);
    assert!(rt; !fits(alloc, Instr::Const(Constant::Builtin(builtin::COUNT)))?);
    Ok(())
}

#[test]
fn operators(rt: HostRuntime) -> Tested {
    let alloc = rt.alloc();
    assert!(rt; !fits(alloc, Instr::Unary(3))?);
    assert!(rt; fits(alloc, Instr::Binary(11))?);
    assert!(rt; !fits(alloc, Instr::Binary(12))?);
    assert!(rt; !fits(alloc, Instr::InPlace(12))?);
    assert!(rt; fits(alloc, Instr::Compare(9))?);
    assert!(rt; !fits(alloc, Instr::Compare(10))?);
    assert!(rt; !fits(alloc, Instr::MakeRaised(2))?);
    Ok(())
}

#[test]
fn keyword_lists(rt: HostRuntime) -> Tested {
    let alloc = rt.alloc();
    assert!(rt; fits(alloc, Instr::Call(2, 1))?);
    // its value is missing
    assert!(rt; !fits(alloc, Instr::Call(3, 1))?);
    assert!(rt; !fits(alloc, Instr::CallMethod(2, 1))?);
    // a list that names a class
    assert!(rt; !fits(alloc, Instr::Call(1, 2))?);
    // no list
    assert!(rt; !fits(alloc, Instr::CallMethod(0, 3))?);
    Ok(())
}

#[test]
fn codes(rt: HostRuntime) -> Tested {
    let alloc = rt.alloc();
    assert!(rt; !fits(alloc, Instr::MakeFunction(1, 0))?);
    assert!(rt; !fits(alloc, Instr::ClassBody(1))?);
    // one leads back to SETUP
    assert!(rt; !fits(alloc, Instr::MakeFunction(0, 0))?);
    assert!(rt; !fits(alloc, Instr::ClassBody(0))?);
    Ok(())
}
