//! What an instruction leads to that asks nothing of the heap, done to the state of the thread.
ghost use Rattle.std.specs.Prelude.{[], ◌∷◌, ◌+◌, ◌++◌};
ghost use Rattle.py_frames.specs.Binding.{entered, unset_slots};
ghost use Rattle.py_frames.specs.declared.next.Next.TheVariants.{Closes, Enters, Goes, Jumps, Leaves, Opens, Stores};
ghost use Rattle.py_frames.specs.State.{operands};
ghost use Rattle.py_states.specs.Innermost.{innermost, Follows};

use super::ThreadState;
use py_data::Value;

/// Each call does what an instruction that takes `n` operands leads to, and answers whether it was done: at want of
/// memory the state stays as it is, and so it does where the thread has no frame.
impl ThreadState {
    /// Nothing is pushed, and the next place follows.
    pub fn passes_on(&mut self, n: usize) -> bool
        ensures { Follows self.old n (Goes []) result self.new }
    {
        self.has_frame() && self.goes(n, &[]).is_ok()
    }

    /// A value is pushed, and the next place follows.
    pub fn gives(&mut self, n: usize, x: Value) -> bool
        ensures { Follows self.old n (Goes (x ∷ [])) result self.new }
    {
        self.has_frame() && self.goes(n, &[x]).is_ok()
    }

    /// Two values are pushed, the second on top, and the next place follows.
    pub fn gives_two(&mut self, n: usize, x: Value, y: Value) -> bool
        ensures { Follows self.old n (Goes (x ∷ y ∷ [])) result self.new }
    {
        self.has_frame() && self.goes(n, &[x, y]).is_ok()
    }

    /// A place follows.
    pub fn jumps_on(&mut self, n: usize, place: u32) -> bool
        ensures { Follows self.old n (Jumps place []) result self.new }
    {
        self.has_frame() && self.jumps(n, place, &[]).is_ok()
    }

    /// A slot holds a value, and the next place follows.
    pub fn keeps(&mut self, n: usize, i: u32, x: Value) -> bool
        ensures { Follows self.old n (Stores i x) result self.new }
    {
        self.has_frame() && self.stores(n, i, x).is_ok()
    }

    /// A block begins, and the next place follows.
    pub fn tries(&mut self, n: usize, handler: u32) -> bool
        ensures { Follows self.old n (Opens handler) result self.new }
    {
        self.has_frame() && self.opens(n, handler).is_ok()
    }

    /// The innermost block ends, and the next place follows.
    pub fn has_tried(&mut self, n: usize) -> bool
        ensures { Follows self.old n Closes result self.new }
    {
        self.has_frame() && self.closes(n).is_ok()
    }

    /// A frame at the start of a code is entered: its slots are the top `m` values of the stack and `k` more that hold
    /// nothing. The frame round it stands on the next place, without these values and the one below them.
    pub fn calls(&mut self, m: usize, k: usize, code: u32) -> bool
        ensures { let f = innermost self.old.frames in
            Follows self.old (m + 1) (Enters (entered code (operands m f ++ unset_slots k))) result self.new }
    {
        m < self.height() && self.enters_over(m, k, code).is_ok()
    }

    /// The innermost of several frames is left with a value.
    pub fn returns(&mut self, n: usize, x: Value) -> bool
        ensures { Follows self.old n (Leaves x) result self.new }
    {
        self.depth() > 1 && self.leaves(x).is_ok()
    }
}
