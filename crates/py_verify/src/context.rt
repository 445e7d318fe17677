//! A program as the test of one of its codes sees it.
ghost use Rattle.std.specs.Prelude.{◌≡◌, ◌↔◌, ◌<◌, ℕ, All, IfOk, IsTrue, length, nat_eq, slice_get};
ghost use Rattle.indexmap.specs.IndexSet.{contains};
ghost use Rattle.py_code.specs.Effects.{effect, Forward};
ghost use Rattle.py_code.specs.Typing.{AllForward};
ghost use Rattle.py_code.specs.Right.{AreRight, Belongs, first_place, HasCellAt, is_body, IsRightCode, limits_of, names_of};

use crate::bounds::{Bounds, FIRST_TEXT};
use crate::effect::effect_in;
use crate::roots::count_texts;
use crate::setup::{first_place, sets_up};
use crate::typing::is_right;
use indexmap::IndexSet;
use py_base::{Kind, NameSet, NoMemory, split};
use py_code::{Code, Instr, Root};
use std::alloc::Global;
use std::marker::Model;

/// The codes and the roots of a program, with the global names, the numbers of the codes that are those of class
/// bodies, and the first root that is a global's cell.
#[derive(Drop)]
pub struct Context<'s, 'a> {
    codes: &'s [Code],
    roots: &'a [Root],
    names: &'s NameSet<'a>,
    bodies: &'s IndexSet<usize>,
    first_cell: usize,
}

impl<'s, 'a> Model for Context<'s, 'a> {
    ghost use Rattle.std.specs.Prelude.{◌≡◌, ◌+◌, ℕ, length, nat_eq};
    ghost use Rattle.indexmap.specs.IndexSet.{contains};
    ghost use Rattle.py_code.specs.Right.{first_text, is_body, names_of, texts_of};
    ghost use Rattle.py_verify.specs.inner.Whole.{Around};

    ghost Value = { Around };

    ghost view = { λ w. record { codes = w.codes.now; roots = w.roots.now } };

    ghost invariant = { λ w. (w.names.now ≡ names_of w.roots.now)
        × ((f : ℕ) → contains nat_eq w.bodies.now f ≡ is_body w.codes.now f)
        × (w.first_cell ≡ first_text + length (texts_of w.roots.now)) };
}

/// Whether an instruction names no place before the first that a jump may name.
fn is_forward(bounds: &Bounds<'_>, i: Instr) -> bool
    ensures { IsTrue result ↔ Forward bounds.now.first (effect bounds.now i).flow }
{
    effect_in(bounds, i).flow.is_forward(bounds.first())
}

/// Whether none of these instructions names a place before the first that a jump may name.
fn all_forward(bounds: &Bounds<'_>, instrs: &[Instr]) -> bool
    ensures { IsTrue result ↔ AllForward bounds.now instrs.now }
{
    for i in instrs {
        if !is_forward(bounds, *i) {
            return false;
        }
    }
    true
}

impl<'s, 'a> Context<'s, 'a> {
    /// A program by its parts.
    pub fn new(
        codes: &'s [Code],
        roots: &'a [Root],
        names: &'s NameSet<'a>,
        bodies: &'s IndexSet<usize>,
    ) -> Context<'s, 'a>
        requires names { names.now ≡ names_of roots.now }
        requires bodies { (f : ℕ) → contains nat_eq bodies.now f ≡ is_body codes.now f }
        ensures { result ≡ record { codes = codes.now; roots = roots.now } }
    {
        Context {
            codes,
            roots,
            names,
            bodies,
            first_cell: FIRST_TEXT + count_texts(roots),
        }
    }

    /// Whether a code is that of a class body.
    fn is_body(&self, f: usize) -> bool
        ensures { result ≡ is_body self.now.codes f }
    {
        self.bodies.contains(&f)
    }

    /// Whether the string that is that root, if it is one, is a global name too.
    fn has_cell(&self, r: u32) -> bool
        ensures { IsTrue result ↔ HasCellAt (names_of self.now.roots) (slice_get self.now.roots r) }
    {
        match self.roots.get(r as usize) {
            Some(root) => match root.kind {
                Kind::Str => self.names.has(root.bytes.as_slice()),
                _ => true,
            },
            None => true,
        }
    }

    /// Whether an instruction may stand in that code, reached or not.
    fn belongs(&self, n: usize, i: &Instr) -> bool
        ensures { IsTrue result ↔ Belongs self.now.codes self.now.roots n i.now }
    {
        match *i {
            Instr::LoadName(r) => self.is_body(n) && self.has_cell(r),
            Instr::StoreName(_) | Instr::DelName(_) => self.is_body(n),
            Instr::MakeFunction(f, _) => 0 < f && !self.is_body(f as usize),
            Instr::ClassBody(f) => 0 < f,
            _ => true,
        }
    }

    /// Whether each of these instructions may stand in that code.
    fn all_belong(&self, n: usize, instrs: &[Instr]) -> bool
        ensures { IsTrue result ↔ All (Belongs self.now.codes self.now.roots n) instrs.now }
    {
        for i in instrs {
            if !self.belongs(n, i) {
                return false;
            }
        }
        true
    }

    /// What the instructions of a code may name.
    fn bounds(&self, n: usize, code: &'s Code) -> Bounds<'s>
        ensures { result ≡ limits_of self.now.codes self.now.roots n code.now }
    {
        Bounds::new(
            code,
            self.codes,
            self.first_cell,
            self.roots.len(),
            first_place(n),
        )
    }

    /// Whether no instruction of a code names a place before the first that a jump may name.
    fn goes_forward(&self, n: usize, code: &'s Code) -> bool
        ensures { IsTrue result ↔ AllForward (limits_of self.now.codes self.now.roots n code.now) code.now.instrs }
    {
        all_forward(&self.bounds(n, code), code.instrs.as_slice())
    }

    /// Whether a code is right.
    fn is_right_code(&self, alloc: Global, n: usize, code: &'s Code) -> Result<bool, NoMemory>
        ensures { IfOk result (λ yes. IsTrue yes ↔ IsRightCode self.now.codes self.now.roots n code.now) }
    {
        let instrs = code.instrs.as_slice();
        if code.lines.len() != instrs.len() {
            return Ok(false);
        }
        if code.params as usize > code.slots.len() {
            return Ok(false);
        }
        if !sets_up(n, instrs) {
            return Ok(false);
        }
        if !self.all_belong(n, instrs) {
            return Ok(false);
        }
        if !self.goes_forward(n, code) {
            return Ok(false);
        }
        let typed = is_right(alloc, &self.bounds(n, code), instrs)?;
        Ok(typed)
    }

    /// Whether each code is right.
    pub fn are_right(&self, alloc: Global) -> Result<bool, NoMemory>
        ensures { IfOk result (λ yes. IsTrue yes ↔ AreRight self.now.codes self.now.roots 0 self.now.codes) }
    {
        let mut rest = self.codes;
        let mut n = 0;
        'codes: while let Some((code, more)) = split(rest) {
            if !self.is_right_code(alloc, n, code)? {
                return Ok(false);
            }
            rest = more;
            n += 1;
        }
        Ok(true)
    }
}
