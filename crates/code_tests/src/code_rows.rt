//! Each instruction and each type of a program, made and printed.
use py_base::{Bytes, Kind, builtin, exception, operator};
use py_code::{
    Code, Codes, Constant, Instr, Instrs, KeyLists, Keys, Lines, Program, Root, Roots, Texts,
};
use std::alloc::{AllocError, Global};
use std::process::Abort;
use std::test;

type Tested = Result<(), test::Fail>;

/// The instructions as `{:?}` writes them.
fn printed(alloc: Global, instrs: &[Instr]) -> Result<String, AllocError> {
    format!(in alloc; "{instrs:?}")
}

#[test]
fn instructions_of_the_stack_and_names(rt: HostRuntime) -> Tested {
    let instrs = [
        Instr::Setup,
        Instr::Const(Constant::None),
        Instr::Const(Constant::Truth(true)),
        Instr::Const(Constant::Int(-7)),
        Instr::Const(Constant::Builtin(builtin::ABS)),
        Instr::Const(Constant::Root(21)),
        Instr::Pop,
        Instr::Dup,
        Instr::Rot2,
        Instr::Dup2,
        Instr::Rot3,
        Instr::LoadLocal(1),
        Instr::StoreLocal(2),
        Instr::DelLocal(3),
        Instr::LoadGlobal(4),
        Instr::StoreGlobal(5),
        Instr::DelGlobal(6),
        Instr::LoadName(7),
        Instr::StoreName(8),
        Instr::DelName(9),
        Instr::LoadAttr(10),
        Instr::StoreAttr(11),
        Instr::DelAttr(12),
    ];
    let want =
        "[Setup, Const(None), Const(Truth(true)), Const(Int(-7)), Const(Builtin(13)), Const(Root(21)), Pop, Dup, Rot2, \
         Dup2, Rot3, LoadLocal(1), StoreLocal(2), DelLocal(3), LoadGlobal(4), StoreGlobal(5), DelGlobal(6), \
         LoadName(7), StoreName(8), DelName(9), LoadAttr(10), StoreAttr(11), DelAttr(12)]";
    assert_eq!(rt; printed(rt.alloc(), instrs.as_slice())?.as_str(), want);
    Ok(())
}

#[test]
fn instructions_of_values_and_places(rt: HostRuntime) -> Tested {
    let instrs = [
        Instr::LoadMethod(13),
        Instr::LoadItem,
        Instr::StoreItem,
        Instr::DelItem,
        Instr::Slice,
        Instr::Unary(14),
        Instr::Not,
        Instr::Binary(15),
        Instr::InPlace(16),
        Instr::Compare(17),
        Instr::Jump(18),
        Instr::JumpFalse(19),
        Instr::KeepFalse(20),
        Instr::KeepTrue(21),
        Instr::BuildTuple(22),
        Instr::BuildList(23),
        Instr::BuildDict(24),
        Instr::Unpack(25),
    ];
    let want =
        "[LoadMethod(13), LoadItem, StoreItem, DelItem, Slice, Unary(14), Not, Binary(15), InPlace(16), Compare(17), \
         Jump(18), JumpFalse(19), KeepFalse(20), KeepTrue(21), BuildTuple(22), BuildList(23), BuildDict(24), \
         Unpack(25)]";
    assert_eq!(rt; printed(rt.alloc(), instrs.as_slice())?.as_str(), want);
    Ok(())
}

#[test]
fn instructions_of_calls_and_blocks(rt: HostRuntime) -> Tested {
    let instrs = [
        Instr::Iter,
        Instr::Next(26),
        Instr::Call(27, 28),
        Instr::CallMethod(29, 30),
        Instr::Return,
        Instr::MakeFunction(31, 32),
        Instr::ClassBody(33),
        Instr::Try(34),
        Instr::PopTry,
        Instr::ExcMatch,
        Instr::MakeRaised(35),
        Instr::Raise,
        Instr::PrintItem,
        Instr::PrintNewline,
    ];
    let want =
        "[Iter, Next(26), Call(27, 28), CallMethod(29, 30), Return, MakeFunction(31, 32), ClassBody(33), Try(34), \
         PopTry, ExcMatch, MakeRaised(35), Raise, PrintItem, PrintNewline]";
    assert_eq!(rt; printed(rt.alloc(), instrs.as_slice())?.as_str(), want);
    Ok(())
}

/// The code of a function that negates its parameter, with a hidden slot.
fn code(alloc: Global) -> Result<Code, AllocError> {
    let mut instrs = Instrs::new(alloc);
    instrs.push(Instr::LoadLocal(0))?;
    instrs.push(Instr::Unary(operator::unary::MINUS))?;
    instrs.push(Instr::Return)?;
    let mut lines = Lines::new(alloc);
    for _ in 0..3 {
        lines.push(2)?;
    }
    let mut slots = Texts::new(alloc);
    slots.push(Bytes::from_slice(alloc, b"a")?)?;
    slots.push(Bytes::new(alloc))?;
    let mut keys = KeyLists::new(alloc);
    keys.push(Keys::new(alloc))?;
    Ok(Code {
        name: Bytes::from_slice(alloc, b"f")?,
        instrs,
        lines,
        slots,
        params: 1,
        keys,
    })
}

#[test]
fn programs(rt: HostRuntime) -> Tested {
    let alloc = rt.alloc();
    let mut codes = Codes::new(alloc);
    codes.push(code(alloc)?)?;
    let mut roots = Roots::new(alloc);
    roots.push(Root {
        kind: Kind::Class,
        number: exception::KEY_ERROR,
        bytes: Bytes::new(alloc),
    })?;
    let program = Program { codes, roots };
    let want =
        "Program { codes: Items { items: [Code { name: Items { items: [102] }, instrs: Items { items: [LoadLocal(0), \
         Unary(1), Return] }, lines: Items { items: [2, 2, 2] }, slots: Items { items: [Items { items: [97] }, Items { \
         items: [] }] }, params: 1, keys: Items { items: [Items { items: [] }] } }] }, roots: Items { items: [Root { \
         kind: Class, number: 17, bytes: Items { items: [] } }] } }";
    assert_eq!(rt; format!(in alloc; "{program:?}")?.as_str(), want);
    Ok(())
}

#[test]
fn numbers(rt: HostRuntime) -> Tested {
    let operators = [
        operator::unary::INVERT,
        operator::binary::POWER,
        operator::compare::IS_NOT,
    ];
    assert_eq!(rt; operators, [2, 11, 9]);
    let builtins = [
        builtin::RAW_INPUT,
        builtin::LOCK,
        builtin::THREAD_JOIN,
        builtin::COUNT,
    ];
    assert_eq!(rt; builtins, [18, 24, 52, 53]);
    Ok(())
}
