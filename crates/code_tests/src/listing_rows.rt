//! Programs built by hand, and their listings written by hand.
use crate::joined_texts::texts;
use py_base::{Bytes, Kind, builtin, operator};
use py_code::{
    Code, Codes, Constant, Instr, Instrs, KeyLists, Keys, Lines, Program, Root, Roots, listing,
};
use std::alloc::{AllocError, Global};
use std::test;

type Tested = Result<(), test::Fail>;

fn root(alloc: Global, kind: Kind, number: u8, bytes: &[u8]) -> Result<Root, AllocError> {
    Ok(Root {
        kind,
        number,
        bytes: Bytes::from_slice(alloc, bytes)?,
    })
}

/// The cell of the count of threads, two classes, of which one is none, two strings and a global.
fn roots(alloc: Global) -> Result<Roots, AllocError> {
    let mut all = Roots::new(alloc);
    all.push(root(alloc, Kind::Cell, 0, b"")?)?;
    all.push(root(alloc, Kind::Class, 17, b"")?)?;
    all.push(root(alloc, Kind::Class, 20, b"")?)?;
    all.push(root(alloc, Kind::Str, 0, b"key")?)?;
    all.push(root(alloc, Kind::Str, 0, b"it's\n")?)?;
    all.push(root(alloc, Kind::Cell, 0, b"total")?)?;
    Ok(all)
}

const ROOTS: &str = "Roots:
     0 Cell <threads>
     1 Class KeyError
     2 Class 20
     3 Str 'key'
     4 Str \"it's\\n\"
     5 Cell total
";

/// A code whose instructions have the lines, with an empty keyword list.
fn code(
    alloc: Global,
    name: &[u8],
    slots: &[u8],
    instrs: &[Instr],
    lines: &[u32],
) -> Result<Code, AllocError> {
    let mut keys = KeyLists::new(alloc);
    keys.push(Keys::new(alloc))?;
    Ok(Code {
        name: Bytes::from_slice(alloc, name)?,
        instrs: Instrs::from_slice(alloc, instrs)?,
        lines: Lines::from_slice(alloc, lines)?,
        slots: texts(alloc, slots)?,
        params: 1,
        keys,
    })
}

/// Whether the program of these codes has that listing, behind that of the roots.
fn is_listed(alloc: Global, codes: Codes, want: &str) -> Result<bool, AllocError> {
    let program = Program {
        codes,
        roots: roots(alloc)?,
    };
    let text = listing(alloc, &program)?;
    let mut whole = Bytes::from_slice(alloc, ROOTS.as_bytes())?;
    whole.extend_from_slice(want.as_bytes())?;
    Ok(text.as_slice() == whole.as_slice())
}

/// The same of a program of one code.
fn is_code_listed(alloc: Global, code: Code, want: &str) -> Result<bool, AllocError> {
    let mut codes = Codes::new(alloc);
    codes.push(code)?;
    is_listed(alloc, codes, want)
}

#[test]
fn no_code(rt: HostRuntime) -> Tested {
    let alloc = rt.alloc();
    assert!(rt; is_listed(alloc, Codes::new(alloc), "")?);
    Ok(())
}

/// The listing of constants, and of what moves values.
const CONSTANTS: &str = "
Code 0: <module>
  Parameters: 1
  Slots:
  Keywords 0:
     1           0 SETUP
                 1 CONST          None
     2           2 CONST          True
                 3 CONST          False
                 4 CONST          -70
     1           5 CONST          builtin 21 (thread.start_new_thread)
     4           6 CONST          builtin 53
                 7 CONST          root 1 (KeyError)
                 8 CONST          root 6
                 9 POP
                10 DUP
                11 ROT2
                12 DUP2
                13 ROT3
   120          14 RETURN
";

#[test]
fn constants(rt: HostRuntime) -> Tested {
    let alloc = rt.alloc();
    let instrs = [
        Instr::Setup,
        Instr::Const(Constant::None),
        Instr::Const(Constant::Truth(true)),
        Instr::Const(Constant::Truth(false)),
        Instr::Const(Constant::Int(-70)),
        Instr::Const(Constant::Builtin(21)),
        Instr::Const(Constant::Builtin(53)),
        Instr::Const(Constant::Root(1)),
        Instr::Const(Constant::Root(6)),
        Instr::Pop,
        Instr::Dup,
        Instr::Rot2,
        Instr::Dup2,
        Instr::Rot3,
        Instr::Return,
    ];
    let lines = [1, 1, 2, 2, 2, 1, 4, 4, 4, 4, 4, 4, 4, 4, 120];
    let module = code(alloc, b"", b"", instrs.as_slice(), lines.as_slice())?;
    assert!(rt; is_code_listed(alloc, module, CONSTANTS)?);
    Ok(())
}

#[test]
fn names(rt: HostRuntime) -> Tested {
    let alloc = rt.alloc();
    let instrs = [
        Instr::LoadLocal(0),
        Instr::StoreLocal(1),
        Instr::DelLocal(2),
        Instr::LoadGlobal(5),
        Instr::StoreGlobal(0),
        Instr::DelGlobal(7),
        Instr::LoadName(3),
        Instr::StoreName(4),
        Instr::DelName(2),
        Instr::LoadAttr(3),
        Instr::StoreAttr(3),
        Instr::DelAttr(3),
        Instr::LoadMethod(3),
    ];
    let body = code(alloc, b"f", b"a;;", instrs.as_slice(), &[8, 9])?;
    let want = "
Code 0: f
  Parameters: 1
  Slots: a <hidden>
  Keywords 0:
     8           0 LOAD_LOCAL     0 (a)
     9           1 STORE_LOCAL    1 (<hidden>)
                 2 DEL_LOCAL      2
                 3 LOAD_GLOBAL    5 (total)
                 4 STORE_GLOBAL   0 (<threads>)
                 5 DEL_GLOBAL     7
                 6 LOAD_NAME      3 ('key')
                 7 STORE_NAME     4 (\"it's\\n\")
                 8 DEL_NAME       2 (20)
                 9 LOAD_ATTR      3 ('key')
                10 STORE_ATTR     3 ('key')
                11 DEL_ATTR       3 ('key')
                12 LOAD_METHOD    3 ('key')
";
    assert!(rt; is_code_listed(alloc, body, want)?);
    Ok(())
}

/// The listing of operators, and of what builds values.
const OPERATORS: &str = "
Code 0: operators
  Parameters: 1
  Slots: a b
  Keywords 0:
                 0 LOAD_ITEM
                 1 STORE_ITEM
                 2 DEL_ITEM
                 3 SLICE
                 4 UNARY          1 (-)
                 5 UNARY          3
                 6 NOT
                 7 BINARY         9 (//)
                 8 INPLACE        5 (+)
                 9 INPLACE        12
                10 COMPARE        9 (is not)
                11 COMPARE        10
                12 BUILD_TUPLE    2
                13 BUILD_LIST     1
                14 BUILD_DICT     10
                15 UNPACK         0
";

#[test]
fn operators(rt: HostRuntime) -> Tested {
    let alloc = rt.alloc();
    let instrs = [
        Instr::LoadItem,
        Instr::StoreItem,
        Instr::DelItem,
        Instr::Slice,
        Instr::Unary(1),
        Instr::Unary(3),
        Instr::Not,
        Instr::Binary(9),
        Instr::InPlace(5),
        Instr::InPlace(12),
        Instr::Compare(9),
        Instr::Compare(10),
        Instr::BuildTuple(2),
        Instr::BuildList(1),
        Instr::BuildDict(10),
        Instr::Unpack(0),
    ];
    let body = code(alloc, b"operators", b"a;b;", instrs.as_slice(), &[])?;
    assert!(rt; is_code_listed(alloc, body, OPERATORS)?);
    Ok(())
}

#[test]
fn jumps(rt: HostRuntime) -> Tested {
    let alloc = rt.alloc();
    let instrs = [
        Instr::Jump(4),
        Instr::JumpFalse(4),
        Instr::KeepFalse(0),
        Instr::KeepTrue(8),
        Instr::Iter,
        Instr::Next(7),
        Instr::Try(7),
        Instr::PopTry,
    ];
    let lines = [3, 3, 3, 3, 4, 4, 4, 4];
    let body = code(alloc, b"jumps", b"", instrs.as_slice(), lines.as_slice())?;
    let want = "
Code 0: jumps
  Parameters: 1
  Slots:
  Keywords 0:
     3   L1:     0 JUMP           4 (to L2)
                 1 JUMP_FALSE     4 (to L2)
                 2 KEEP_FALSE     0 (to L1)
                 3 KEEP_TRUE      8
     4   L2:     4 ITER
                 5 NEXT           7 (to L3)
                 6 TRY            7 (to L3)
         L3:     7 POP_TRY
";
    assert!(rt; is_code_listed(alloc, body, want)?);
    Ok(())
}

/// A module that makes a function and a class.
fn calling(alloc: Global) -> Result<Codes, AllocError> {
    let instrs = [
        Instr::MakeFunction(1, 2),
        Instr::ClassBody(2),
        Instr::Call(2, 1),
        Instr::CallMethod(0, 0),
        Instr::Call(1, 2),
        Instr::MakeFunction(3, 0),
    ];
    let mut module = code(alloc, b"", b"", instrs.as_slice(), &[5])?;
    module.keys.push(Keys::from_slice(alloc, &[3, 4, 9])?)?;
    let faults = [
        Instr::ExcMatch,
        Instr::MakeRaised(1),
        Instr::Raise,
        Instr::PrintItem,
        Instr::PrintNewline,
    ];
    let mut codes = Codes::new(alloc);
    codes.push(module)?;
    codes.push(code(alloc, b"f", b"a;", faults.as_slice(), &[1, 2, 2])?)?;
    codes.push(code(alloc, b"C", b"", &[], &[])?)?;
    Ok(codes)
}

#[test]
fn calls(rt: HostRuntime) -> Tested {
    let alloc = rt.alloc();
    let want = "
Code 0: <module>
  Parameters: 1
  Slots:
  Keywords 0:
  Keywords 1: 'key' \"it's\\n\" 9
     5           0 MAKE_FUNCTION  1 (f) defaults 2
                 1 CLASS_BODY     2 (C)
                 2 CALL           2 keywords 1 'key' \"it's\\n\" 9
                 3 CALL_METHOD    0 keywords 0
                 4 CALL           1 keywords 2
                 5 MAKE_FUNCTION  3 defaults 0

Code 1: f
  Parameters: 1
  Slots: a
  Keywords 0:
     1           0 EXC_MATCH
     2           1 MAKE_RAISED    1
                 2 RAISE
                 3 PRINT_ITEM
                 4 PRINT_NEWLINE

Code 2: C
  Parameters: 1
  Slots:
  Keywords 0:
";
    assert!(rt; is_listed(alloc, calling(alloc)?, want)?);
    Ok(())
}

#[test]
fn numbers_by_their_names(rt: HostRuntime) -> Tested {
    let alloc = rt.alloc();
    let instrs = [
        Instr::Const(Constant::Builtin(builtin::LEN)),
        Instr::Const(Constant::Builtin(builtin::RAW_INPUT)),
        Instr::Const(Constant::Builtin(builtin::THREAD_MODULE)),
        Instr::Const(Constant::Builtin(builtin::STR_REPLACE)),
        Instr::Const(Constant::Builtin(builtin::LIST_SORT)),
        Instr::Const(Constant::Builtin(builtin::DICT_POP)),
        Instr::Const(Constant::Builtin(builtin::LOCK_LOCKED)),
        Instr::Const(Constant::Builtin(builtin::THREAD_JOIN)),
        Instr::Unary(operator::unary::INVERT),
        Instr::Binary(operator::binary::POWER),
        Instr::InPlace(operator::binary::OR),
        Instr::Compare(operator::compare::NOT_IN),
    ];
    let body = code(alloc, b"numbers", b"", instrs.as_slice(), &[1])?;
    let want = "
Code 0: numbers
  Parameters: 1
  Slots:
  Keywords 0:
     1           0 CONST          builtin 0 (len)
                 1 CONST          builtin 18 (raw_input)
                 2 CONST          builtin 19 (thread)
                 3 CONST          builtin 33 (str.replace)
                 4 CONST          builtin 41 (list.sort)
                 5 CONST          builtin 47 (dict.pop)
                 6 CONST          builtin 50 (lock.locked)
                 7 CONST          builtin 52 (thread.join)
                 8 UNARY          2 (~)
                 9 BINARY         11 (**)
                10 INPLACE        0 (|)
                11 COMPARE        7 (not in)
";
    assert!(rt; is_code_listed(alloc, body, want)?);
    Ok(())
}
