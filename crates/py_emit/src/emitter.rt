//! The list of drafts that grows.

ghost use Rattle.std.specs.Prelude.{◌≡◌, ◌<◌, ◌≤◌, ◌+◌, ◌^◌, IfOk, length, Err, get_or};
ghost use Rattle.py_emit.specs.inner.State.{St, fresh, put, marked, opened, done, done_one, places_of, jump_of};

use crate::draft::{Draft, Far};
use crate::fault::Fault;
use py_code::{Instr, Instrs, Lines};
use sqlite_items::Items;
use std::alloc::Global;
use std::marker::Model;

/// The drafts and their lines, the places of the labels so far, and the next hidden slot.
#[derive(Drop)]
pub struct Emitter {
    alloc: Global,
    code: Items<Draft>,
    lines: Lines,
    labels: Vec<Option<u32>>,
    slots: u32,
}

impl Model for Emitter {
    ghost Value = { St };

    ghost view = { λ e. record { code = e.code; lines = e.lines; labels = e.labels.items; slots = e.slots } };

    ghost invariant = { λ e. length e.code ≤ 65535 };
}

impl Emitter {
    /// Nothing yet.
    pub fn new(alloc: Global, slots: u32) -> Self
        ensures { result ≡ fresh slots }
    {
        Emitter {
            alloc,
            code: Items::new(alloc),
            lines: Lines::new(alloc),
            labels: Vec::new(alloc),
            slots,
        }
    }

    /// What its lists are made with.
    pub fn alloc(&self) -> Global {
        self.alloc
    }

    /// The next hidden slot.
    pub fn slots(&self) -> u32
        ensures { result ≡ self.now.slots }
    {
        self.slots
    }

    /// One more instruction, of this line.
    pub fn put(&mut self, line: u32, draft: Draft) -> Result<(), Fault>
        ensures done { IfOk result (λ _. self.new ≡ put self.old line draft) }
        ensures longer { IfOk result (λ _. length self.new.code ≡ length self.old.code + 1) }
        ensures large { result ≡ Err Fault.TooLarge → 65535 ≤ length self.old.code }
    {
        if self.code.len() >= 65535 {
            return Err(Fault::TooLarge);
        }
        self.code.push(draft)?;
        self.lines.push(line)?;
        Ok(())
    }

    /// A template with so many labels and hidden slots begins: its first label, and its slot.
    pub fn begin(&mut self, count: usize, own: u32) -> Result<(usize, u32), Fault>
        requires { count ≤ 3 }
        ensures base { IfOk result (λ p. p.0 ≡ length self.old.labels) }
        ensures fits { IfOk result (λ p. p.0 + 3 < 2 ^ 64) }
        ensures slot { IfOk result (λ p. p.1 ≡ self.old.slots) }
        ensures done { IfOk result (λ _. self.new ≡ opened self.old count own) }
        ensures same { IfOk result (λ _. length self.new.code ≡ length self.old.code) }
        ensures small { result ≡ Err Fault.TooLarge → ⊥ }
    {
        let base = self.labels.len();
        let slot = self.slots;
        match slot.checked_add(own) {
            Some(slots) => self.slots = slots,
            None => return Err(Fault::OutOfMemory),
        }
        self.labels.resize(base + count, None)?;
        Ok((base, slot))
    }

    /// The label stands here. A number that no label has changes nothing.
    pub fn mark(&mut self, label: usize)
        ensures done { self.new ≡ marked self.old label }
        ensures same { length self.new.code ≡ length self.old.code }
    {
        if label < self.labels.len() {
            self.labels[label] = Some(self.code.len() as u32);
        }
    }

    /// The instructions and their lines: one pass over the drafts puts the places in.
    pub fn finish(self) -> Result<(Instrs, Lines), Fault>
        ensures done { IfOk result (λ p. p.0 ≡ done (places_of self.labels) self.code) }
        ensures lines { IfOk result (λ p. p.1 ≡ self.lines) }
        ensures small { result ≡ Err Fault.TooLarge → ⊥ }
        ensures short { IfOk result (λ _. length self.code ≤ 65535) }
    {
        let Emitter {
            alloc,
            code,
            lines,
            labels,
            slots: _,
        } = self;
        let instrs = resolve_all(alloc, code.as_slice(), labels.as_slice())?;
        Ok((instrs, lines))
    }
}

fn resolve_all(alloc: Global, code: &[Draft], labels: &[Option<u32>]) -> Result<Instrs, Fault>
    ensures done { IfOk result (λ out. out ≡ done (places_of labels.now) code.now) }
    ensures small { result ≡ Err Fault.TooLarge → ⊥ }
{
    let mut out = Instrs::new(alloc);
    for draft in code {
        out.push(resolve(labels, *draft))?;
    }
    Ok(out)
}

fn resolve(labels: &[Option<u32>], draft: Draft) -> Instr
    ensures { result ≡ done_one (places_of labels.now) draft }
{
    match draft {
        Draft::Op(i) => i,
        Draft::To(far, l) => jump(far, place(labels, l)),
    }
}

fn jump(far: Far, place: u32) -> Instr
    ensures { result ≡ jump_of far place }
{
    match far {
        Far::Always => Instr::Jump(place),
        Far::IfFalse => Instr::JumpFalse(place),
        Far::KeepingFalse => Instr::KeepFalse(place),
        Far::KeepingTrue => Instr::KeepTrue(place),
        Far::Nexting => Instr::Next(place),
        Far::Trying => Instr::Try(place),
    }
}

fn place(labels: &[Option<u32>], l: usize) -> u32
    ensures { result ≡ get_or (places_of labels.now) l 0 }
{
    if l < labels.len() {
        match labels[l] {
            Some(p) => p,
            None => 0,
        }
    } else {
        0
    }
}
