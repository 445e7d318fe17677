//! How many operands an instruction takes.
ghost use Rattle.std.specs.Prelude.{◌≡◌};
ghost use Rattle.py_frames.specs.State as state;
ghost use Rattle.py_states.specs.Innermost.{innermost};

use py_code::{Instr, Program};
use py_parts::keys_at;
use py_states::ThreadState;

/// How many operands an instruction takes, in the innermost frame of a thread.
#[inline(always)]
pub fn pops(p: &Program, s: &ThreadState, i: Instr) -> usize
    ensures { result ≡ state.pops p.now (innermost s.now.frames) i }
{
    match i {
        Instr::Setup | Instr::PrintNewline => 0,
        Instr::Const(_) | Instr::LoadLocal(_) | Instr::DelLocal(_) => 0,
        Instr::LoadGlobal(_) | Instr::DelGlobal(_) => 0,
        Instr::LoadName(_) | Instr::DelName(_) => 0,
        Instr::Jump(_) | Instr::Try(_) | Instr::PopTry => 0,
        Instr::Pop | Instr::Dup | Instr::PrintItem => 1,
        Instr::StoreLocal(_) | Instr::StoreGlobal(_) | Instr::StoreName(_) => 1,
        Instr::LoadAttr(_) | Instr::DelAttr(_) | Instr::LoadMethod(_) => 1,
        Instr::Unary(_) | Instr::Not | Instr::Iter | Instr::Next(_) => 1,
        Instr::JumpFalse(_) | Instr::KeepFalse(_) | Instr::KeepTrue(_) => 1,
        Instr::Unpack(_) | Instr::ClassBody(_) => 1,
        Instr::Return | Instr::Raise => 1,
        Instr::Rot2 | Instr::Dup2 | Instr::StoreAttr(_) => 2,
        Instr::LoadItem | Instr::DelItem | Instr::ExcMatch => 2,
        Instr::Binary(_) | Instr::InPlace(_) | Instr::Compare(_) => 2,
        Instr::Rot3 | Instr::StoreItem | Instr::Slice => 3,
        Instr::BuildTuple(n) | Instr::BuildList(n) => n as usize,
        Instr::MakeFunction(_, n) => n as usize,
        Instr::BuildDict(n) => n as usize + n as usize,
        Instr::MakeRaised(n) => 1 + n as usize,
        Instr::Call(n, l) => 1 + (n as usize + keys_at(p, s.code(), l).len()),
        Instr::CallMethod(n, l) => 2 + (n as usize + keys_at(p, s.code(), l).len()),
    }
}
