//! Places that are reached: the stack, the blocks and the jumps.
use super::made::is_module;
use py_code::{Constant, Instr};
use std::test;

type Tested = Result<(), test::Fail>;

const NONE: Instr = Instr::Const(Constant::None);

#[test]
fn right_modules(rt: HostRuntime) -> Tested {
    let alloc = rt.alloc();
    assert!(rt; is_module(alloc, &[Instr::Setup, NONE, Instr::Return])?);
    // a loop over nothing that ends
    assert!(rt; is_module(alloc, &[Instr::Setup, Instr::Jump(1)])?);
    // for: the iterator is let go at its end
    let each = [
        Instr::Setup,
        NONE,
        Instr::Iter,
        Instr::Next(6),
        Instr::Pop,
        Instr::Jump(3),
        NONE,
        Instr::Return,
    ];
    assert!(rt; is_module(alloc, each.as_slice())?);
    // code that is not reached is free
    let dead = [
        Instr::Setup,
        NONE,
        Instr::Return,
        Instr::Pop,
        Instr::Jump(99),
    ];
    assert!(rt; is_module(alloc, dead.as_slice())?);
    Ok(())
}

#[test]
fn right_blocks(rt: HostRuntime) -> Tested {
    let alloc = rt.alloc();
    // the handler finds the exception above what stood there
    let handled = [
        Instr::Setup,
        NONE,
        Instr::Try(7),
        NONE,
        Instr::Pop,
        Instr::PopTry,
        Instr::Return,
        Instr::Pop,
        Instr::Return,
    ];
    assert!(rt; is_module(alloc, handled.as_slice())?);
    // a jump out of a block that is ended first
    let left = [
        Instr::Setup,
        Instr::Try(4),
        Instr::PopTry,
        Instr::Jump(5),
        Instr::Pop,
        NONE,
        Instr::Return,
    ];
    assert!(rt; is_module(alloc, left.as_slice())?);
    Ok(())
}

#[test]
fn wrong_ends(rt: HostRuntime) -> Tested {
    let alloc = rt.alloc();
    // the code is empty
    assert!(rt; !is_module(alloc, &[])?);
    // the first instruction is POP
    assert!(rt; !is_module(alloc, &[Instr::Pop, NONE, Instr::Return])?);
    // a jump one past the end
    assert!(rt; !is_module(alloc, &[Instr::Setup, Instr::Jump(2)])?);
    // the code goes on past its end
    assert!(rt; !is_module(alloc, &[Instr::Setup])?);
    assert!(rt; !is_module(alloc, &[Instr::Setup, NONE, Instr::JumpFalse(1)])?);
    Ok(())
}

#[test]
fn wrong_setup(rt: HostRuntime) -> Tested {
    let alloc = rt.alloc();
    // SETUP is missing
    assert!(rt; !is_module(alloc, &[NONE, Instr::Return])?);
    // it stands twice
    assert!(rt; !is_module(alloc, &[Instr::Setup, Instr::Setup, NONE, Instr::Return])?);
    // it stands once more where nothing leads
    assert!(rt; !is_module(alloc, &[Instr::Setup, NONE, Instr::Return, Instr::Setup])?);
    // a jump leads back to it
    assert!(rt; !is_module(alloc, &[Instr::Setup, Instr::Jump(0)])?);
    // a jump back to SETUP that isn't reached
    assert!(rt; !is_module(alloc, &[Instr::Setup, NONE, Instr::Return, Instr::Jump(0)])?);
    Ok(())
}

#[test]
fn wrong_heights(rt: HostRuntime) -> Tested {
    let alloc = rt.alloc();
    // nothing is on the stack
    assert!(rt; !is_module(alloc, &[Instr::Setup, Instr::Pop, NONE, Instr::Return])?);
    assert!(rt; !is_module(alloc, &[Instr::Setup, Instr::Return])?);
    // one item too few
    assert!(rt; !is_module(alloc, &[Instr::Setup, NONE, Instr::Rot2, Instr::Return])?);
    assert!(rt;
        !is_module(
            alloc,
            &[Instr::Setup, NONE, Instr::BuildDict(1), Instr::Return]
        )?
    );
    // two ways to one place, with other heights
    let joined = [
        Instr::Setup,
        NONE,
        Instr::JumpFalse(4),
        NONE,
        NONE,
        Instr::Return,
    ];
    assert!(rt; !is_module(alloc, joined.as_slice())?);
    // the value that KEEP_TRUE keeps isn't there on the other way
    let kept = [Instr::Setup, NONE, Instr::KeepTrue(3), Instr::Return];
    assert!(rt; !is_module(alloc, kept.as_slice())?);
    Ok(())
}

#[test]
fn too_high(rt: HostRuntime) -> Tested {
    let alloc = rt.alloc();
    let high = [
        Instr::Setup,
        NONE,
        Instr::Unpack(4_294_967_295),
        NONE,
        Instr::Return,
    ];
    assert!(rt; !is_module(alloc, high.as_slice())?);
    let less = [
        Instr::Setup,
        NONE,
        Instr::Unpack(4_294_967_292),
        NONE,
        Instr::Return,
    ];
    assert!(rt; is_module(alloc, less.as_slice())?);
    Ok(())
}

#[test]
fn wrong_blocks(rt: HostRuntime) -> Tested {
    let alloc = rt.alloc();
    // no block is open
    assert!(rt; !is_module(alloc, &[Instr::Setup, Instr::PopTry, NONE, Instr::Return])?);
    // what is taken stands below the block
    let below = [
        Instr::Setup,
        NONE,
        Instr::Try(5),
        Instr::Pop,
        Instr::Jump(4),
        Instr::Return,
    ];
    assert!(rt; !is_module(alloc, below.as_slice())?);
    // two ways to one place, with and without a block
    let joined = [
        Instr::Setup,
        NONE,
        Instr::JumpFalse(4),
        Instr::Try(6),
        NONE,
        Instr::Return,
        Instr::Return,
    ];
    assert!(rt; !is_module(alloc, joined.as_slice())?);
    // the handler's place is reached without an exception too
    let handler = [
        Instr::Setup,
        Instr::Try(3),
        Instr::PopTry,
        NONE,
        Instr::Return,
    ];
    assert!(rt; !is_module(alloc, handler.as_slice())?);
    Ok(())
}
