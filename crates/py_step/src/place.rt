//! Where a thread stands.
ghost use Rattle.std.specs.Prelude.{◌≡◌, ◌<◌, drop, length, slice_get};
ghost use Rattle.py_frames.specs.Raising as raising;
ghost use Rattle.py_frames.specs.State as state;
ghost use Rattle.py_frames.specs.Steps.{site_of};
ghost use Rattle.py_states.specs.Innermost.{innermost};

use crate::prepared::Prepared;
use py_code::{Code, Instr, Program};
use py_data::Addr;
use py_parts::Site;
use py_states::ThreadState;

/// The address, or else 0.
pub fn place_of(a: Option<Addr>) -> Addr
    ensures { result.0 ≡ raising.place_of a }
{
    match a {
        Some(a) => a,
        None => Addr(0),
    }
}

/// Where a thread stands that has a frame.
pub fn site<'a>(p: &'a Prepared, s: &ThreadState) -> Site<'a>
    requires { 0 < length s.now.frames }
    ensures { result ≡ site_of p.now s.now (drop 1 s.now.frames) }
{
    p.site(place_of(s.roots()), s.thread(), s.depth())
}

/// The instruction of a code at a place.
fn instr_in(code: &Code, pc: u32) -> Option<Instr>
    ensures { result ≡ slice_get code.now.instrs pc }
{
    code.instrs.get(pc as usize).copied()
}

/// The next instruction of a thread that has a frame.
pub fn instr_at(p: &Program, s: &ThreadState) -> Option<Instr>
    ensures { result ≡ state.instr_at p.now (innermost s.now.frames) }
{
    match p.codes.get(s.code() as usize) {
        Some(code) => instr_in(code, s.pc()),
        None => None,
    }
}
