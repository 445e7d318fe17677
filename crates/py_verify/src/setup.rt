//! Where SETUP stands.
ghost use Rattle.std.specs.Prelude.{◌≡◌, ◌↔◌, IsTrue};
ghost use Rattle.py_code.specs.Right.{first_place, SetsUp};
ghost use Rattle.py_code.specs.Typing.{HasNoSetup};
ghost use Rattle.py_verify.specs.inner.Tests.{is_setup, no_setup};

use py_base::split;
use py_code::Instr;

/// The first place of a code that a jump may name.
pub fn first_place(n: usize) -> usize
    ensures { result ≡ first_place n }
{
    if n == 0 { 1 } else { 0 }
}

fn is_setup(i: &Instr) -> bool
    ensures { result ≡ is_setup i.now }
{
    matches!(*i, Instr::Setup)
}

/// Whether none of these is SETUP.
fn no_setup(instrs: &[Instr]) -> bool
    ensures { result ≡ no_setup instrs.now }
{
    let mut rest = instrs;
    'instrs: while let Some((i, more)) = split(rest) {
        if is_setup(i) {
            return false;
        }
        rest = more;
    }
    true
}

/// Whether SETUP is none of these.
fn has_no_setup(instrs: &[Instr]) -> bool
    ensures { IsTrue result ↔ HasNoSetup instrs.now }
{
    no_setup(instrs)
}

/// Whether SETUP begins the first code, and stands nowhere else.
pub fn sets_up(n: usize, instrs: &[Instr]) -> bool
    ensures { IsTrue result ↔ SetsUp n instrs.now }
{
    if n > 0 {
        return has_no_setup(instrs);
    }
    match split(instrs) {
        None => false,
        Some((i, more)) => is_setup(i) && has_no_setup(more),
    }
}
