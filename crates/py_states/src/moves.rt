//! What the frames of a thread do, of changes of the innermost one.
ghost use Rattle.std.specs.Prelude.{◌≡◌, ◌+◌, ◌-◌, ◌≤◌, [], ◌∷◌, length, drop, OnOk, OnErr, IfOk};
ghost use Rattle.py_states.specs.Innermost.{innermost};
ghost use Rattle.py_states.specs.inner.Framed.{HasRoom};
ghost use Rattle.py_states.specs.inner.Changes.{on_top, caught, IsThrown};
ghost use Rattle.py_frames.specs.State.{advanced, pushed, unwound};

use crate::frames::Frames;
use py_base::NoMemory;
use py_data::Value;
use py_frames::Frame;
use std::alloc::AllocError;

impl Frames {
    /// The place behind the innermost frame's next instruction. Where it can't be told, there is no memory for it.
    pub fn next_place(&self) -> Result<u32, NoMemory>
        ensures { IfOk result (λ t. let f = innermost self.now.frames in t ≡ f.pc + 1) }
    {
        self.pc().checked_add(1).ok_or(AllocError)
    }

    /// How high the innermost frame's stack is without `n` operands. Where it can't be told, there is no memory for it.
    pub fn height_below(&self, n: usize) -> Result<u32, NoMemory>
        ensures { IfOk result (λ m. let f = innermost self.now.frames in m ≡ length f.stack - n) }
    {
        u32::try_from(self.height().saturating_sub(n)).map_err(|_| AllocError)
    }

    /// Makes room for a frame.
    pub fn make_room_for(&mut self, g: &Frame) -> Result<(), NoMemory>
        ensures same { self.new.frames ≡ self.old.frames }
        ensures ok { OnOk result (HasRoom (length g.now.slots + length g.now.stack) 1 (length g.now.blocks) self.new) }
    {
        let values = g.slots.len().checked_add(g.stack.len()).ok_or(AllocError)?;
        self.make_room(values, 1, g.blocks.len())
    }

    /// The innermost frame goes on at a place, with a value in the place of its `n` operands, for which room has to be
    /// made.
    #[cold]
    #[inline(never)]
    fn give_beyond(&mut self, n: usize, x: Value, place: u32) -> Result<(), NoMemory>
        ensures ok { OnOk result (self.new.frames ≡ on_top (advanced n (x ∷ []) place) self.old.frames) }
        ensures err { OnErr result (self.new.frames ≡ self.old.frames) }
    {
        self.make_room_for_values(1)?;
        self.give(n, x, place);
        Ok(())
    }

    /// The same with two values, the second on top.
    #[inline(never)]
    #[tactic(auto, using(crate::proofs::TopLemmas::both_is))]
    fn advance_by_two(&mut self, n: usize, x: Value, y: Value, place: u32) -> Result<(), NoMemory>
        ensures ok { OnOk result (self.new.frames ≡ on_top (advanced n (x ∷ y ∷ []) place) self.old.frames) }
        ensures err { OnErr result (self.new.frames ≡ self.old.frames) }
    {
        self.make_room_for_values(2)?;
        self.give(n, x, place);
        self.push_value(y);
        Ok(())
    }

    /// The same with several values.
    #[inline(never)]
    #[tactic(auto, using(crate::proofs::TopLemmas::go_on_is))]
    fn advance_by_more(&mut self, n: usize, ys: &[Value], place: u32) -> Result<(), NoMemory>
        ensures ok { OnOk result (self.new.frames ≡ on_top (advanced n ys.now place) self.old.frames) }
        ensures err { OnErr result (self.new.frames ≡ self.old.frames) }
    {
        self.make_room_for_values(ys.len())?;
        let left = self.height().saturating_sub(n);
        self.restack(left, ys);
        self.place(place);
        Ok(())
    }

    /// The innermost frame goes on at a place, with these values in the place of its `n` operands.
    #[inline(always)]
    pub fn advance(&mut self, n: usize, ys: &[Value], place: u32) -> Result<(), NoMemory>
        ensures ok { OnOk result (self.new.frames ≡ on_top (advanced n ys.now place) self.old.frames) }
        ensures err { OnErr result (self.new.frames ≡ self.old.frames) }
    {
        match ys {
            [] => {
                self.pass(n, place);
                Ok(())
            }
            [x] if self.has_room_for_value() => {
                self.give(n, *x, place);
                Ok(())
            }
            [x] => self.give_beyond(n, *x, place),
            [x, y] => self.advance_by_two(n, *x, *y, place),
            _ => self.advance_by_more(n, ys, place),
        }
    }

    /// Leaves the innermost frame; the one round it gets its value.
    pub fn leave(&mut self, x: Value) -> Result<(), NoMemory>
        ensures ok { OnOk result (self.new.frames ≡ on_top (pushed x) (drop 1 self.old.frames)) }
        ensures err { OnErr result (self.new.frames ≡ self.old.frames) }
    {
        self.make_room_for_values(1)?;
        self.pop();
        self.push_value(x);
        Ok(())
    }

    /// Leaves so many frames.
    pub fn drop_frames(&mut self, n: usize)
        ensures frames { self.new.frames ≡ drop n self.old.frames }
        ensures values { self.old.more_values ≤ self.new.more_values }
    {
        'turns: for _turn in 0..n {
            self.pop();
        }
    }

    /// Leaves all frames.
    pub fn clear(&mut self)
        ensures { self.new.frames ≡ [] }
    {
        let n = self.len();
        self.drop_frames(n);
    }

    /// The innermost frame's innermost block takes an exception, if there is one.
    #[tactic(auto, using(crate::proofs::TopLemmas::caught_is, crate::proofs::TopLemmas::uncaught_is))]
    pub fn catch(&mut self, x: Value)
        requires { 1 ≤ self.old.more_values }
        ensures { self.new.frames ≡ on_top (caught x) self.old.frames }
    {
        if let Some(block) = self.block() {
            self.restack(block.height as usize, &[x]);
            self.close();
            self.place(block.handler);
        }
    }

    /// An exception is raised in the innermost frame, where so many are left out. The first frame that has an open
    /// block takes it. Where there is none, the answer is false, and the frames stay.
    #[tactic(auto, using(crate::proofs::TopLemmas::thrown_none, crate::proofs::TopLemmas::thrown_some))]
    pub fn raise(&mut self, first: usize, x: Value) -> Result<bool, NoMemory>
        ensures ok { IfOk result (IsThrown (unwound x (drop first self.old.frames)) self.old.frames self.new.frames) }
        ensures err { OnErr result (self.new.frames ≡ self.old.frames) }
    {
        let Some(place) = self.catcher(first) else {
            return Ok(false);
        };
        self.make_room(1, 0, 0)?;
        self.drop_frames(place);
        self.catch(x);
        Ok(true)
    }
}
