//! Programs that passed the test.
ghost use Rattle.std.specs.Prelude.{◌≡◌, ◌↔◌, IfOk, IsTrue, MatchOption};
ghost use Rattle.py_code.specs.Right.{IsRightProgram};

use crate::bodies::bodies_of;
use crate::context::Context;
use crate::roots::right_roots;
use py_base::NoMemory;
use py_code::Program;
use std::alloc::Global;
use std::marker::Model;

/// A program that is right: a machine that runs it lacks no operand, no slot, no place to go on at and no root. Only
/// `verify` makes one.
#[derive(Drop)]
pub struct Verified {
    program: Program,
}

impl Model for Verified {
    ghost use Rattle.py_code.specs.declared.program.Program.{Program};
    ghost use Rattle.py_code.specs.Right.{IsRightProgram};

    ghost Value = { Program };

    ghost view = { λ v. v.program };

    ghost invariant = { λ v. IsRightProgram v.program };
}

impl Verified {
    /// The program.
    pub fn program(&self) -> &Program
        ensures same { result.now ≡ self.now }
        ensures right { IsRightProgram self.now }
    {
        &self.program
    }
}

/// Whether a program is right.
fn is_right_program(alloc: Global, p: &Program) -> Result<bool, NoMemory>
    ensures { IfOk result (λ yes. IsTrue yes ↔ IsRightProgram p.now) }
{
    let codes = p.codes.as_slice();
    let roots = p.roots.as_slice();
    if codes.len() == 0 {
        return Ok(false);
    }
    let Some(names) = right_roots(alloc, roots)? else {
        return Ok(false);
    };
    let bodies = bodies_of(alloc, codes)?;
    let right = Context::new(codes, roots, &names, &bodies).are_right(alloc)?;
    Ok(right)
}

/// Tests a program before a machine runs it. It is handed back where it is right, and let go with None where it isn't.
/// The language's document says what is tested, under "Right programs". The one error is want of memory, and then it is
/// let go too.
pub fn verify(alloc: Global, p: Program) -> Result<Option<Verified>, NoMemory>
    ensures { IfOk result (λ v. MatchOption v (IsRightProgram p → ⊥) (λ w. (w ≡ p) × IsRightProgram p)) }
{
    if !is_right_program(alloc, &p)? {
        return Ok(None);
    }
    Ok(Some(Verified { program: p }))
}
