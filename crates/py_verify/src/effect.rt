//! What an instruction takes from the stack and leaves there, and where it goes on.
ghost use Rattle.std.specs.Prelude.{◌≡◌, ◌↔◌, ◌<◌, ◌≤◌, ◌^◌, IsTrue};
ghost use Rattle.py_code.specs.Effects.{effect, Forward, jumps, plain, pushed_there, target_of};
ghost use Rattle.py_verify.specs.inner.Flows.{effect_of, flow_of, next_of};

use crate::bounds::Bounds;
use py_code::Instr;

/// Where an instruction goes on.
#[derive(Clone, Copy, Debug, Drop)]
pub enum Flow {
    /// At the next place.
    On,
    /// Nowhere in this code.
    Ends,
    /// At this place.
    Over(u32),
    /// At the next place, or at this one, with so many values pushed there.
    Fork(u32, u32),
    /// At the next place, with one more block, whose handler stands at this place.
    Opens(u32),
    /// At the next place, with one block less.
    Closes,
}

/// How many values an instruction takes from the stack, how many it then pushes where the next place follows, and what
/// follows.
#[derive(Clone, Copy, Debug, Drop)]
pub struct Effect {
    pub pops: u64,
    pub pushes: u64,
    pub flow: Flow,
}

/// So many values are taken, and then so many pushed; the next place follows.
fn plain(pops: u64, pushes: u64) -> Effect
    ensures { effect_of result ≡ plain pops pushes }
{
    Effect {
        pops,
        pushes,
        flow: Flow::On,
    }
}

/// The same, where another place follows or may follow.
fn leads(pops: u64, pushes: u64, flow: Flow) -> Effect
    ensures { effect_of result ≡ jumps pops pushes (flow_of flow) }
{
    Effect { pops, pushes, flow }
}

/// What an instruction does to the stack.
pub fn effect_in(k: &Bounds<'_>, i: Instr) -> Effect
    ensures { effect_of result ≡ effect k.now i }
{
    match i {
        Instr::Setup | Instr::PrintNewline => plain(0, 0),
        Instr::DelLocal(_) | Instr::DelGlobal(_) | Instr::DelName(_) => plain(0, 0),
        Instr::Const(_) | Instr::LoadLocal(_) => plain(0, 1),
        Instr::LoadGlobal(_) | Instr::LoadName(_) => plain(0, 1),
        Instr::Pop | Instr::PrintItem | Instr::DelAttr(_) => plain(1, 0),
        Instr::StoreLocal(_) | Instr::StoreGlobal(_) | Instr::StoreName(_) => plain(1, 0),
        Instr::LoadAttr(_) | Instr::Unary(_) | Instr::Not => plain(1, 1),
        Instr::Iter | Instr::ClassBody(_) => plain(1, 1),
        Instr::Dup | Instr::LoadMethod(_) => plain(1, 2),
        Instr::StoreAttr(_) | Instr::DelItem => plain(2, 0),
        Instr::LoadItem | Instr::Binary(_) | Instr::InPlace(_) => plain(2, 1),
        Instr::Compare(_) | Instr::ExcMatch => plain(2, 1),
        Instr::Rot2 => plain(2, 2),
        Instr::Dup2 => plain(2, 4),
        Instr::StoreItem => plain(3, 0),
        Instr::Slice => plain(3, 1),
        Instr::Rot3 => plain(3, 3),
        Instr::BuildTuple(n) | Instr::BuildList(n) => plain(n as u64, 1),
        Instr::MakeFunction(_, n) => plain(n as u64, 1),
        Instr::BuildDict(n) => plain(n as u64 + n as u64, 1),
        Instr::Unpack(n) => plain(1, n as u64),
        Instr::MakeRaised(n) => plain(1 + n as u64, 1),
        Instr::Call(n, l) => plain(1 + (n as u64 + k.keys_at(l).len() as u64), 1),
        Instr::CallMethod(n, l) => plain(2 + (n as u64 + k.keys_at(l).len() as u64), 1),
        Instr::Jump(t) => leads(0, 0, Flow::Over(t)),
        Instr::JumpFalse(t) => leads(1, 0, Flow::Fork(t, 0)),
        Instr::KeepFalse(t) | Instr::KeepTrue(t) => leads(1, 0, Flow::Fork(t, 1)),
        Instr::Next(t) => leads(1, 2, Flow::Fork(t, 0)),
        Instr::Return | Instr::Raise => leads(1, 0, Flow::Ends),
        Instr::Try(t) => leads(0, 0, Flow::Opens(t)),
        Instr::PopTry => leads(0, 0, Flow::Closes),
    }
}

impl Flow {
    /// The place that it names.
    pub fn target(self) -> Option<usize>
        ensures { result ≡ target_of (flow_of self) }
    {
        match self {
            Flow::Over(t) | Flow::Fork(t, _) | Flow::Opens(t) => Some(t as usize),
            _ => None,
        }
    }

    /// Whether the place that it names, if it names one, is none before that place.
    pub fn is_forward(self, first: usize) -> bool
        ensures { IsTrue result ↔ Forward first (flow_of self) }
    {
        match self.target() {
            Some(t) => first <= t,
            None => true,
        }
    }

    /// The place of the next instruction, where it may follow.
    pub fn next(self, place: usize) -> Option<usize>
        requires { place < 2 ^ 63 }
        ensures { result ≡ next_of (flow_of self) place }
    {
        match self {
            Flow::Ends | Flow::Over(_) => None,
            _ => Some(place + 1),
        }
    }

    /// How many values are pushed at the place that it names.
    pub fn pushed_there(self) -> u32
        ensures { result ≡ pushed_there (flow_of self) }
    {
        match self {
            Flow::Fork(_, n) => n,
            Flow::Opens(_) => 1,
            _ => 0,
        }
    }
}
