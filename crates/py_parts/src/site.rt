//! What a call gives, and where it happens.
ghost use Rattle.std.specs.Prelude.{◌≡◌, ◌++◌, length, codes, OnOk, IfOk, IfSome};
ghost use Rattle.py_frames.specs.GlobalRows as globals;
ghost use Rattle.py_parts.specs.inner.Init.{known};

use crate::programs::text_number;
use py_code::Program;
use py_data::{Addr, NoMemory, Value, Values};
use std::alloc::AllocError;
use std::marker::Model;

/// What a call gives: the arguments without a keyword, and for each keyword the number of its name among the roots,
/// and its value.
#[derive(Drop)]
pub struct Given<'a> {
    pub args: &'a [Value],
    pub names: &'a [u32],
    pub values: &'a [Value],
}

impl<'a> Model for Given<'a> {
    ghost use Rattle.py_frames.specs.Binding as binding;

    ghost Value = { binding.Given };

    ghost view = { λ g. record { args = g.args.now; names = g.names.now; values = g.values.now } };
}

/// What a call passes on to a function: what it gives, where other arguments may stand before all that it has.
#[derive(Drop)]
pub struct Passed<'b, 'a> {
    pub before: &'b [Value],
    pub args: &'a [Value],
    pub names: &'a [u32],
    pub values: &'a [Value],
}

impl<'b, 'a> Model for Passed<'b, 'a> {
    ghost use Rattle.std.specs.Prelude.{◌++◌};
    ghost use Rattle.py_frames.specs.Binding as binding;

    ghost Value = { binding.Given };

    ghost view = { λ p. record {
      args = p.before.now ++ p.args.now;
      names = p.names.now;
      values = p.values.now;
    } };
}

impl<'b, 'a> Passed<'b, 'a> {
    /// What a call gives, with these arguments before all others.
    pub fn new(before: &'b [Value], g: &Given<'a>) -> Passed<'b, 'a>
        ensures { result ≡ record g.now { args = before.now ++ g.now.args } }
    {
        Passed {
            before,
            args: g.args,
            names: g.names,
            values: g.values,
        }
    }

    /// How many arguments without a keyword there are. No list in memory is so long that the number wouldn't fit.
    pub fn count(&self) -> Result<usize, NoMemory>
        ensures { IfOk result (λ n. n ≡ length self.now.args) }
    {
        self.before
            .len()
            .checked_add(self.args.len())
            .ok_or(AllocError)
    }

    /// Adds the arguments without a keyword.
    pub fn push_args(&self, out: &mut Values) -> Result<(), NoMemory>
        ensures { OnOk result (out.new ≡ out.old ++ self.now.args) }
    {
        out.extend_from_slice(self.before)?;
        out.extend_from_slice(self.args)
    }
}

/// What is known of the number of the string `__init__` among the roots of a program.
#[derive(Clone, Copy, Debug, Drop)]
pub enum InitNumber {
    /// The program doesn't name it.
    Missing,
    /// It is the root of this number.
    At(usize),
    /// It wasn't looked up: the number wouldn't fit, which no list in memory is long enough for.
    Unknown,
}

/// The number of the string `__init__` among the roots of a program, looked up once for all calls.
pub fn init_number(p: &Program) -> InitNumber
    ensures { IfSome (known result) (λ o. o ≡ globals.text_number p.now (codes "__init__")) }
{
    match text_number(p, b"__init__") {
        Ok(Some(n)) => InitNumber::At(n),
        Ok(None) => InitNumber::Missing,
        Err(_) => InitNumber::Unknown,
    }
}

/// Where a call happens: the program and its roots, the Thread record of the thread, and how many frames it has. Beside
/// them stands what is known of the number of the string `__init__` among the roots (`init_number`).
#[derive(Drop)]
pub struct Site<'a> {
    pub program: &'a Program,
    pub init: &'a InitNumber,
    pub roots: Addr,
    pub thread: Option<Addr>,
    pub depth: usize,
}

impl<'a> Model for Site<'a> {
    ghost use Rattle.std.specs.Prelude.{◌≡◌, codes, IfSome};
    ghost use Rattle.py_frames.specs.ClassCalls as class_calls;
    ghost use Rattle.py_frames.specs.GlobalRows as globals;
    ghost use Rattle.py_parts.specs.inner.Init.{known};

    ghost Value = { class_calls.Site };

    ghost view = { λ s. record { program = s.program.now; roots = s.roots.0; thread = s.thread; depth = s.depth } };

    ghost invariant = { λ s. IfSome (known s.init.now)
        (λ o. o ≡ globals.text_number s.program.now (codes "__init__")) };
}

impl<'a> Site<'a> {
    /// The number of the string `__init__` among the roots, None where the program doesn't name it. It is looked up
    /// only where it wasn't before.
    pub fn init_number(&self) -> Result<Option<usize>, NoMemory>
        ensures { IfOk result (λ o. o ≡ globals.text_number self.now.program (codes "__init__")) }
    {
        match *self.init {
            InitNumber::Missing => Ok(None),
            InitNumber::At(n) => Ok(Some(n)),
            InitNumber::Unknown => text_number(self.program, b"__init__"),
        }
    }
}
