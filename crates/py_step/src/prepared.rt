//! A program that passed the test, with what is looked up in it once.
ghost use Rattle.std.specs.Prelude.{◌≡◌, IfSome, Some};
ghost use Rattle.py_frames.specs.GlobalRows as globals;
ghost use Rattle.py_frames.specs.State as state;
ghost use Rattle.py_step.specs.inner.Builtins.{AreBuiltins};

use py_code::{Constant, Program};
use py_data::Addr;
use py_instrs::builtin_named;
use py_parts::{InitNumber, Site, init_number, root_name};
use py_verify::Verified;
use std::alloc::Global;
use std::marker::Model;

/// What the names of a program's roots stand for where nothing is bound to them, in the order of the roots. Where there
/// is no memory it ends before the last.
fn builtins_of(alloc: Global, p: &Program) -> Vec<Option<Constant>>
    ensures { AreBuiltins p.now result.items }
{
    let mut found = Vec::new(alloc);
    let count = p.roots.len().min(u32::MAX as usize) as u32;
    'roots: for n in 0..count {
        match builtin_named(p, root_name(p, n)) {
            Ok(o) => match found.push(o) {
                Ok(()) => (),
                Err(_) => return found,
            },
            Err(_) => return found,
        }
    }
    found
}

/// A program that passed the test. What steps ask of all its roots was looked up when it was made: the number of the
/// string `__init__` among them, for the call of a class, and what each of their names stands for where nothing is bound
/// to it.
#[derive(Drop)]
pub struct Prepared {
    program: Verified,
    init: InitNumber,
    builtins: Vec<Option<Constant>>,
}

impl Model for Prepared {
    ghost use Rattle.std.specs.Prelude.{◌≡◌, codes, IfSome};
    ghost use Rattle.py_code.specs.declared.program.Program.{Program};
    ghost use Rattle.py_frames.specs.GlobalRows as globals;
    ghost use Rattle.py_parts.specs.inner.Init.{known};
    ghost use Rattle.py_step.specs.inner.Builtins.{AreBuiltins};

    ghost Value = { Program };

    ghost view = { λ p. p.program };

    ghost invariant = { λ p. IfSome (known p.init) (λ o. o ≡ globals.text_number p.program (codes "__init__"))
        × AreBuiltins p.program p.builtins.items };
}

impl Prepared {
    /// The program, with what is looked up in it once.
    pub fn new(alloc: Global, program: Verified) -> Prepared
        ensures { result ≡ program }
    {
        let init = init_number(program.program());
        let builtins = builtins_of(alloc, program.program());
        Prepared {
            program,
            init,
            builtins,
        }
    }

    /// The program.
    #[inline(always)]
    pub fn program(&self) -> &Program
        ensures { result.now ≡ self.now }
    {
        self.program.program()
    }

    /// What stands for the name of a root where nothing is bound to it, if it was found.
    pub fn builtin(&self, n: u32) -> Option<Constant>
        ensures { IfSome result (λ c. globals.builtin_named self.now (state.root_name self.now n) ≡ Some c) }
    {
        match self.builtins.get(n as usize) {
            Some(o) => *o,
            None => None,
        }
    }

    /// Where a thread stands: the place of the roots, its Thread record, and how many frames it has.
    pub fn site(&self, roots: Addr, thread: Option<Addr>, depth: usize) -> Site<'_>
        ensures { result ≡ record { program = self.now; roots = roots.0; thread = thread; depth = depth } }
    {
        Site {
            program: self.program.program(),
            init: &self.init,
            roots,
            thread,
            depth,
        }
    }
}
