//! What the instructions of a code may name.
ghost use Rattle.std.specs.Prelude.{◌≡◌, ◌↔◌, ◌<◌, ◌≤◌, [], All, get_or, IsTrue, length, map, slice_get};
ghost use Rattle.py_code.specs.Effects.{IsCell, IsConstant, IsKeys, IsKnown, IsText};
ghost use Rattle.py_code.specs.Right.{first_text};

use py_base::{builtin, exception};
use py_code::{Code, Constant, Instr, Keys};
use std::marker::Model;

/// The root that is the first string: the cell of the count of threads and the classes stand before it.
pub const FIRST_TEXT: usize = 1 + exception::COUNT as usize;

/// What the instructions of a code may name: its slots and keyword lists, the codes, and the roots by their kinds.
#[derive(Drop)]
pub struct Bounds<'a> {
    code: &'a Code,
    codes: &'a [Code],
    cells: usize,
    roots: usize,
    first: usize,
}

impl<'a> Model for Bounds<'a> {
    ghost use Rattle.std.specs.Prelude.{length, map};
    ghost use Rattle.py_code.specs.Effects.{Limits};
    ghost use Rattle.py_code.specs.Right.{first_text};

    ghost Value = { Limits };

    ghost view = { λ b. record {
      slots = length b.code.now.slots;
      keys = b.code.now.keys;
      strings = first_text;
      cells = b.cells;
      roots = b.roots;
      params = map (λ x. x.params) b.codes.now;
      first = b.first;
    } };
}

impl<'a> Bounds<'a> {
    /// Those of a code of a program of these codes: the number of the first root that is a global's cell, how many
    /// roots there are, and the first place that a jump may name.
    pub fn new(
        code: &'a Code,
        codes: &'a [Code],
        cells: usize,
        roots: usize,
        first: usize,
    ) -> Bounds<'a>
        ensures { result ≡ record {
          slots = length code.now.slots;
          keys = code.now.keys;
          strings = first_text;
          cells = cells;
          roots = roots;
          params = map (λ x. x.params) codes.now;
          first = first;
        } }
    {
        Bounds {
            code,
            codes,
            cells,
            roots,
            first,
        }
    }

    /// The first place that a jump may name.
    pub fn first(&self) -> usize
        ensures { result ≡ self.now.first }
    {
        self.first
    }

    /// The keyword list of that number; none where it isn't there.
    pub fn keys_at(&self, l: u32) -> &'a [u32]
        ensures { result.now ≡ get_or self.now.keys l [] }
    {
        match self.code.keys.as_slice().get(l as usize) {
            Some(keys) => keys.as_slice(),
            None => &[],
        }
    }

    fn is_text(&self, n: u32) -> bool
        ensures { IsTrue result ↔ IsText self.now n }
    {
        FIRST_TEXT <= n as usize && (n as usize) < self.cells
    }

    fn is_cell(&self, n: u32) -> bool
        ensures { IsTrue result ↔ IsCell self.now n }
    {
        self.cells <= n as usize && (n as usize) < self.roots
    }

    fn is_constant(&self, c: Constant) -> bool
        ensures { IsTrue result ↔ IsConstant self.now c }
    {
        match c {
            Constant::Builtin(b) => b < builtin::COUNT,
            Constant::Root(r) => 0 < r && (r as usize) < self.cells,
            _ => true,
        }
    }

    fn are_texts(&self, keys: &[u32]) -> bool
        ensures { IsTrue result ↔ All (IsText self.now) keys.now }
    {
        for k in keys {
            if !self.is_text(*k) {
                return false;
            }
        }
        true
    }

    fn are_keys(&self, l: u32) -> bool
        ensures { IsTrue result ↔ IsKeys self.now l }
    {
        (l as usize) < self.code.keys.len() && self.are_texts(self.keys_at(l))
    }

    fn has_slot(&self, s: u32) -> bool
        ensures { IsTrue result ↔ (s < self.now.slots) }
    {
        (s as usize) < self.code.slots.len()
    }

    fn has_code(&self, f: u32) -> bool
        ensures { IsTrue result ↔ (f < length self.now.params) }
    {
        (f as usize) < self.codes.len()
    }

    /// Whether that code is there, and has so many parameters.
    fn has_defaults(&self, f: u32, n: u32) -> bool
        ensures { IsTrue result ↔ ((f < length self.now.params) × (n ≤ get_or self.now.params f 0)) }
    {
        match self.codes.get(f as usize) {
            Some(code) => n <= code.params,
            None => false,
        }
    }

    /// Whether what the operands name is there, and of the kind that the instruction needs.
    pub fn is_known(&self, i: Instr) -> bool
        ensures { IsTrue result ↔ IsKnown self.now i }
    {
        match i {
            Instr::Const(c) => self.is_constant(c),
            Instr::LoadLocal(s) | Instr::StoreLocal(s) | Instr::DelLocal(s) => self.has_slot(s),
            Instr::LoadGlobal(g) | Instr::StoreGlobal(g) | Instr::DelGlobal(g) => self.is_cell(g),
            Instr::LoadName(n) | Instr::StoreName(n) | Instr::DelName(n) => self.is_text(n),
            Instr::LoadAttr(n) | Instr::StoreAttr(n) | Instr::DelAttr(n) => self.is_text(n),
            Instr::LoadMethod(n) => self.is_text(n),
            Instr::Unary(o) => o < 3,
            Instr::Binary(o) | Instr::InPlace(o) => o < 12,
            Instr::Compare(o) => o < 10,
            Instr::Call(_, l) | Instr::CallMethod(_, l) => self.are_keys(l),
            Instr::MakeFunction(f, n) => self.has_defaults(f, n),
            Instr::ClassBody(f) => self.has_code(f),
            Instr::MakeRaised(n) => n <= 1,
            _ => true,
        }
    }
}
