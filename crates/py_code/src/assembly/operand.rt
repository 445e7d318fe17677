//! What instructions are called, and what their operands name.
ghost use Rattle.std.specs.Prelude.{◌≡◌};
ghost use Rattle.py_code.specs.Operands.{mnemonic, operand_of};

use crate::instr::{Constant, Instr};

/// What the operands of an instruction name.
#[derive(Clone, Copy, Debug, Drop)]
pub enum Operand {
    /// It has none.
    Nothing,
    Pushed(Constant),
    Slot(u32),
    Record(u32),
    /// A code.
    Body(u32),
    UnarySign(u8),
    BinarySign(u8),
    CompareSign(u8),
    /// A place of the same code.
    Place(u32),
    /// How many there are of something.
    Count(u32),
    /// So many arguments, and a keyword list.
    Arguments(u32, u32),
    /// A code, and so many defaults.
    Defaults(u32, u32),
}

/// What the operands of an instruction name.
pub fn operand_of(i: &Instr) -> Operand
    ensures { result ≡ operand_of i.now }
{
    match *i {
        Instr::Const(c) => Operand::Pushed(c),
        Instr::LoadLocal(s) | Instr::StoreLocal(s) | Instr::DelLocal(s) => Operand::Slot(s),
        Instr::LoadGlobal(r) | Instr::StoreGlobal(r) | Instr::DelGlobal(r) => Operand::Record(r),
        Instr::LoadName(r) | Instr::StoreName(r) | Instr::DelName(r) => Operand::Record(r),
        Instr::LoadAttr(r) | Instr::StoreAttr(r) | Instr::DelAttr(r) => Operand::Record(r),
        Instr::LoadMethod(r) => Operand::Record(r),
        Instr::Unary(o) => Operand::UnarySign(o),
        Instr::Binary(o) | Instr::InPlace(o) => Operand::BinarySign(o),
        Instr::Compare(o) => Operand::CompareSign(o),
        Instr::Jump(t) | Instr::JumpFalse(t) => Operand::Place(t),
        Instr::KeepFalse(t) | Instr::KeepTrue(t) => Operand::Place(t),
        Instr::Next(t) | Instr::Try(t) => Operand::Place(t),
        Instr::BuildTuple(n) | Instr::BuildList(n) | Instr::BuildDict(n) => Operand::Count(n),
        Instr::Unpack(n) => Operand::Count(n),
        Instr::MakeRaised(n) => Operand::Count(n as u32),
        Instr::Call(n, l) | Instr::CallMethod(n, l) => Operand::Arguments(n, l),
        Instr::MakeFunction(f, n) => Operand::Defaults(f, n),
        Instr::ClassBody(f) => Operand::Body(f),
        _ => Operand::Nothing,
    }
}

/// What an instruction is called.
pub fn mnemonic(i: &Instr) -> &'static [u8]
    ensures { result.now ≡ mnemonic i.now }
{
    match i {
        Instr::Setup => b"SETUP",
        Instr::Const(_) => b"CONST",
        Instr::Pop => b"POP",
        Instr::Dup => b"DUP",
        Instr::Rot2 => b"ROT2",
        Instr::Dup2 => b"DUP2",
        Instr::Rot3 => b"ROT3",
        Instr::LoadLocal(_) => b"LOAD_LOCAL",
        Instr::StoreLocal(_) => b"STORE_LOCAL",
        Instr::DelLocal(_) => b"DEL_LOCAL",
        Instr::LoadGlobal(_) => b"LOAD_GLOBAL",
        Instr::StoreGlobal(_) => b"STORE_GLOBAL",
        Instr::DelGlobal(_) => b"DEL_GLOBAL",
        Instr::LoadName(_) => b"LOAD_NAME",
        Instr::StoreName(_) => b"STORE_NAME",
        Instr::DelName(_) => b"DEL_NAME",
        Instr::LoadAttr(_) => b"LOAD_ATTR",
        Instr::StoreAttr(_) => b"STORE_ATTR",
        Instr::DelAttr(_) => b"DEL_ATTR",
        Instr::LoadMethod(_) => b"LOAD_METHOD",
        Instr::LoadItem => b"LOAD_ITEM",
        Instr::StoreItem => b"STORE_ITEM",
        Instr::DelItem => b"DEL_ITEM",
        Instr::Slice => b"SLICE",
        Instr::Unary(_) => b"UNARY",
        Instr::Not => b"NOT",
        Instr::Binary(_) => b"BINARY",
        Instr::InPlace(_) => b"INPLACE",
        Instr::Compare(_) => b"COMPARE",
        Instr::Jump(_) => b"JUMP",
        Instr::JumpFalse(_) => b"JUMP_FALSE",
        Instr::KeepFalse(_) => b"KEEP_FALSE",
        Instr::KeepTrue(_) => b"KEEP_TRUE",
        Instr::BuildTuple(_) => b"BUILD_TUPLE",
        Instr::BuildList(_) => b"BUILD_LIST",
        Instr::BuildDict(_) => b"BUILD_DICT",
        Instr::Unpack(_) => b"UNPACK",
        Instr::Iter => b"ITER",
        Instr::Next(_) => b"NEXT",
        Instr::Call(_, _) => b"CALL",
        Instr::CallMethod(_, _) => b"CALL_METHOD",
        Instr::Return => b"RETURN",
        Instr::MakeFunction(_, _) => b"MAKE_FUNCTION",
        Instr::ClassBody(_) => b"CLASS_BODY",
        Instr::Try(_) => b"TRY",
        Instr::PopTry => b"POP_TRY",
        Instr::ExcMatch => b"EXC_MATCH",
        Instr::MakeRaised(_) => b"MAKE_RAISED",
        Instr::Raise => b"RAISE",
        Instr::PrintItem => b"PRINT_ITEM",
        Instr::PrintNewline => b"PRINT_NEWLINE",
    }
}
