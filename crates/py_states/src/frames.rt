//! The frames of a thread, one behind the other in three lists.
ghost use Rattle.std.specs.Prelude.{◌≡◌, ◌+◌, ◌-◌, ◌<◌, ◌≤◌, [], ◌∷◌, ◌++◌, length, drop, slice_get, OnOk, IfOk, IsTrue, ◌↔◌};
ghost use Rattle.py_states.specs.Innermost.{innermost};
ghost use Rattle.py_states.specs.inner.Changes.{on_top, restacked, placed, catching};
ghost use Rattle.py_states.specs.inner.Framed.{HasRoom};
ghost use Rattle.py_states.specs.inner.Laid.{opening};
ghost use Rattle.py_frames.specs.Binding.{entered, unset_slots};
ghost use Rattle.py_frames.specs.State.{advanced, pushed, stored, opened, operands, closed};

use crate::head::Head;
use crate::pile::Pile;
use crate::same::same_lists;
use crate::track::Track;
use py_base::NoMemory;
use py_data::{Addr, Value};
use py_frames::{Block, Frame};
use std::alloc::Global;
use std::marker::Model;

/// Frames, the innermost first. Their values lie in one list, those of the innermost frame last: its slots, and
/// behind them its stack. Their blocks lie in one pile, those of the innermost frame on top.
#[derive(Debug, Drop)]
pub struct Frames {
    heads: Pile<Head>,
    values: Track<Value>,
    blocks: Pile<Block>,
}

impl Model for Frames {
    ghost use Rattle.py_states.specs.inner.Framed.{Framed};

    ghost Value = { Framed };

    ghost use Rattle.py_states.specs.inner.Laid.{laid, IsLaid};

    ghost view = { λ a. record {
      frames = laid a.heads.entries a.values.entries a.blocks.entries;
      more_values = a.values.room;
      more_frames = a.heads.room;
      more_blocks = a.blocks.room;
    } };

    ghost invariant = { λ a. IsLaid a.heads.entries a.values.entries a.blocks.entries };
}

/// The place of the first head from `first` on that has a block.
#[tactic(auto, using(crate::proofs::PileLemmas::left_at, crate::proofs::LaidLemmas::opening_here, crate::proofs::LaidLemmas::opening_next))]
fn first_open(heads: &Pile<Head>, first: usize) -> Option<usize>
    ensures { result ≡ opening first (drop first heads.now.entries) }
{
    for i in first..heads.len() {
        if heads.at(i).blocks != 0 {
            return Some(i);
        }
    }
    None
}

/// How many of so many values stay where the top `n` above a floor go, or all above it where there are fewer.
fn left_above(floor: usize, values: usize, n: usize) -> usize
    requires { floor ≤ values }
    ensures { result ≡ floor + (values - floor - n) }
{
    if n < values - floor {
        values - n
    } else {
        floor
    }
}

impl Frames {
    /// No frames. It takes no memory.
    pub fn new(alloc: Global) -> Frames
        ensures { result.frames ≡ [] }
    {
        Frames {
            heads: Pile::new(alloc),
            values: Track::new(alloc),
            blocks: Pile::new(alloc),
        }
    }

    /// How many frames there are.
    #[tactic(auto, using(crate::proofs::LaidLemmas::length_laid))]
    pub fn len(&self) -> usize
        ensures { result ≡ length self.now.frames }
    {
        self.heads.len()
    }

    /// The number of the innermost frame's code.
    pub fn code(&self) -> u32
        ensures { let f = innermost self.now.frames in result ≡ f.code }
    {
        match self.heads.top() {
            Some(head) => head.code,
            None => 0,
        }
    }

    /// The place of the innermost frame's next instruction.
    pub fn pc(&self) -> u32
        ensures { let f = innermost self.now.frames in result ≡ f.pc }
    {
        match self.heads.top() {
            Some(head) => head.pc,
            None => 0,
        }
    }

    /// What the innermost frame makes.
    pub fn made(&self) -> Value
        ensures { let f = innermost self.now.frames in result ≡ f.made }
    {
        match self.heads.top() {
            Some(head) => head.made,
            None => Value::Unset,
        }
    }

    /// The innermost frame's Dict of names.
    pub fn names(&self) -> Option<Addr>
        ensures { let f = innermost self.now.frames in result ≡ f.names }
    {
        match self.heads.top() {
            Some(head) => head.names,
            None => None,
        }
    }

    /// The innermost frame's slots.
    pub fn slots(&self) -> &[Value]
        ensures { let f = innermost self.now.frames in result.now ≡ f.slots }
    {
        match self.heads.top() {
            Some(head) => &self.values.as_slice()[head.base..head.base + head.slots],
            None => &[],
        }
    }

    /// The innermost frame's stack, the top last.
    pub fn stack(&self) -> &[Value]
        ensures { let f = innermost self.now.frames in result.now ≡ f.stack }
    {
        match self.heads.top() {
            Some(head) => &self.values.as_slice()[head.base + head.slots..],
            None => &[],
        }
    }

    /// How high the innermost frame's stack is.
    pub fn height(&self) -> usize
        ensures { let f = innermost self.now.frames in result ≡ length f.stack }
    {
        self.stack().len()
    }

    /// The innermost frame's innermost block.
    pub fn block(&self) -> Option<Block>
        ensures { let f = innermost self.now.frames in result ≡ slice_get f.blocks 0 }
    {
        match self.heads.top() {
            Some(head) => {
                if head.blocks == 0 {
                    None
                } else {
                    self.blocks.top()
                }
            }
            None => None,
        }
    }

    /// The place of the first frame that has an open block, counted from the innermost one, where so many are left out.
    #[tactic(auto, using(crate::proofs::LaidLemmas::opening_laid))]
    pub fn catcher(&self, first: usize) -> Option<usize>
        ensures { result ≡ catching first (drop first self.now.frames) }
    {
        first_open(&self.heads, first)
    }

    /// Makes room for so many values, frames and blocks more.
    pub fn make_room(&mut self, values: usize, frames: usize, blocks: usize) -> Result<(), NoMemory>
        ensures same { self.new.frames ≡ self.old.frames }
        ensures ok { OnOk result (HasRoom values frames blocks self.new) }
    {
        self.values.reserve(values)?;
        self.heads.reserve(frames)?;
        self.blocks.reserve(blocks)
    }

    /// Whether there is room for one value more.
    pub fn has_room_for_value(&self) -> bool
        ensures { IsTrue result → 0 < self.now.more_values }
    {
        self.values.has_room()
    }

    /// Makes room for so many values more.
    pub fn make_room_for_values(&mut self, values: usize) -> Result<(), NoMemory>
        ensures same { self.new.frames ≡ self.old.frames }
        ensures ok { OnOk result (values ≤ self.new.more_values) }
    {
        self.values.reserve(values)
    }

    /// Cuts the innermost frame's stack to its first `m` values, and puts these on top.
    #[tactic(auto, using(crate::proofs::LaidLemmas::restacked_laid))]
    pub fn restack(&mut self, m: usize, ys: &[Value])
        requires { length ys.now ≤ self.old.more_values }
        ensures frames { self.new.frames ≡ on_top (restacked m ys.now) self.old.frames }
        ensures values { self.old.more_values ≤ self.new.more_values + length ys.now }
        ensures others { (self.old.more_frames ≤ self.new.more_frames) × (self.old.more_blocks ≤ self.new.more_blocks) }
    {
        if let Some(head) = self.heads.top() {
            let height = self.values.len() - head.base - head.slots;
            let left = self.values.len() - height.saturating_sub(m);
            self.values.truncate(left);
            self.values.extend(ys);
        }
    }

    /// Puts a value on the innermost frame's stack, for which there is room.
    #[tactic(auto, using(crate::proofs::LaidLemmas::pushed_laid))]
    pub fn push_value(&mut self, x: Value)
        requires { 0 < self.old.more_values }
        ensures { self.new.frames ≡ on_top (pushed x) self.old.frames }
    {
        if let Some(_) = self.heads.top() {
            self.values.push(x);
        }
    }

    /// The innermost frame goes on at a place, without its `n` operands.
    #[tactic(auto, using(crate::proofs::LaidLemmas::passed_laid))]
    pub fn pass(&mut self, n: usize, pc: u32)
        ensures frames { self.new.frames ≡ on_top (advanced n [] pc) self.old.frames }
        ensures values { self.old.more_values ≤ self.new.more_values }
        ensures others { (self.old.more_frames ≤ self.new.more_frames) × (self.old.more_blocks ≤ self.new.more_blocks) }
    {
        if let Some(head) = self.heads.top() {
            let values = self.values.len();
            self.values
                .truncate(left_above(head.base + head.slots, values, n));
            self.heads.move_top(pc);
        }
    }

    /// The innermost frame goes on at a place, with a value in the place of its `n` operands, for which there is room.
    #[tactic(auto, using(crate::proofs::LaidLemmas::advanced_laid))]
    pub fn give(&mut self, n: usize, x: Value, pc: u32)
        requires { 0 < self.old.more_values }
        ensures frames { self.new.frames ≡ on_top (advanced n (x ∷ []) pc) self.old.frames }
        ensures values { self.old.more_values ≤ self.new.more_values + 1 }
    {
        if let Some(head) = self.heads.top() {
            let values = self.values.len();
            self.values
                .truncate(left_above(head.base + head.slots, values, n));
            self.heads.move_top(pc);
            self.values.push(x);
        }
    }

    /// The innermost frame goes on at a place, without its `n` operands, and with a value in a slot, if it has that
    /// slot.
    #[tactic(auto, using(crate::proofs::LaidLemmas::kept_laid))]
    pub fn keep(&mut self, n: usize, i: usize, x: Value, pc: u32)
        ensures { self.new.frames ≡ on_top (λ f. stored i x (advanced n [] pc f)) self.old.frames }
    {
        if let Some(head) = self.heads.top() {
            let values = self.values.len();
            self.values
                .truncate(left_above(head.base + head.slots, values, n));
            self.heads.move_top(pc);
            if i < head.slots {
                self.values.set(head.base + i, x);
            }
        }
    }

    /// The innermost frame goes on at that place.
    pub fn place(&mut self, pc: u32)
        ensures frames { self.new.frames ≡ on_top (placed pc) self.old.frames }
        ensures values { self.old.more_values ≤ self.new.more_values }
        ensures others { (self.old.more_frames ≤ self.new.more_frames) × (self.old.more_blocks ≤ self.new.more_blocks) }
    {
        if self.heads.len() > 0 {
            self.heads.move_top(pc);
        }
    }

    /// Opens a block in the innermost frame.
    pub fn open(&mut self, block: Block)
        requires { 0 < self.old.more_blocks }
        ensures { self.new.frames ≡ on_top (opened block.handler block.height) self.old.frames }
    {
        if let Some(head) = self.heads.top() {
            let others = self.blocks.len() - head.blocks;
            self.blocks.push(block);
            self.heads.set_top(Head {
                blocks: self.blocks.len() - others,
                ..head
            });
        }
    }

    /// Closes the innermost frame's innermost block, if it has one.
    pub fn close(&mut self)
        ensures frames { self.new.frames ≡ on_top closed self.old.frames }
    {
        if let Some(head) = self.heads.top() {
            if head.blocks > 0 {
                self.blocks.cut(1);
                self.heads.set_top(Head {
                    blocks: head.blocks - 1,
                    ..head
                });
            }
        }
    }

    /// Enters a frame, for which there is room.
    pub fn push(&mut self, g: &Frame)
        requires values { length g.now.slots + length g.now.stack ≤ self.old.more_values }
        requires frames { 0 < self.old.more_frames }
        requires blocks { length g.now.blocks ≤ self.old.more_blocks }
        ensures { self.new.frames ≡ g.now ∷ self.old.frames }
    {
        let base = self.values.len();
        self.values.extend(g.slots.as_slice());
        self.values.extend(g.stack.as_slice());
        self.blocks.push_all(g.blocks.as_slice());
        self.heads.push(Head {
            code: g.code,
            pc: g.pc,
            made: g.made,
            names: g.names,
            base,
            slots: g.slots.len(),
            blocks: g.blocks.len(),
        });
    }

    /// Enters a frame at the start of a code, whose slots are the top `m` values of the innermost frame's stack and
    /// `k` more that hold nothing. The frame round it goes on at a place, without these values and the one below them.
    pub fn enter(&mut self, m: usize, k: usize, code: u32, place: u32)
        requires there { let f = innermost self.old.frames in m < length f.stack }
        requires values { k ≤ self.old.more_values }
        requires frames { 0 < self.old.more_frames }
        ensures { self.new.frames ≡ entered code (operands m (innermost self.old.frames) ++ unset_slots k) ∷
            on_top (advanced (m + 1) [] place) self.old.frames }
    {
        if let Some(_) = self.heads.top() {
            let base = self.values.len() - m - 1;
            self.values.remove(base);
            self.values.fill(k, Value::Unset);
            self.heads.move_top(place);
            self.heads.push(Head {
                code,
                pc: 0,
                made: Value::Unset,
                names: None,
                base,
                slots: self.values.len() - base,
                blocks: 0,
            });
        }
    }

    /// Leaves the innermost frame.
    pub fn pop(&mut self)
        ensures frames { self.new.frames ≡ drop 1 self.old.frames }
        ensures values { self.old.more_values ≤ self.new.more_values }
    {
        if let Some(head) = self.heads.top() {
            self.values.truncate(head.base);
            self.blocks.cut(head.blocks);
            self.heads.cut(1);
        }
    }

    /// Equal frames in memory of their own.
    pub fn copy(&self, alloc: Global) -> Result<Frames, NoMemory>
        ensures { IfOk result (λ a. a.frames ≡ self.now.frames) }
    {
        let heads = self.heads.copy(alloc)?;
        let values = self.values.copy(alloc)?;
        let blocks = self.blocks.copy(alloc)?;
        Ok(Frames {
            heads,
            values,
            blocks,
        })
    }

    /// Two threads have equal frames.
    pub fn same(&self, other: &Frames) -> bool
        ensures { IsTrue result ↔ (self.now.frames ≡ other.now.frames) }
    {
        if !same_lists(self.heads.as_slice(), other.heads.as_slice()) {
            return false;
        }
        if !same_lists(self.values.as_slice(), other.values.as_slice()) {
            return false;
        }
        same_lists(self.blocks.as_slice(), other.blocks.as_slice())
    }
}
