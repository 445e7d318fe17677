//! The state of a thread.
ghost use Rattle.std.specs.Prelude.{◌≡◌, ◌<◌, ◌↔◌, [], ◌∷◌, length, Some, None, IsTrue, IfOk};
ghost use Rattle.py_data.specs.Heap.{value_at};
ghost use Rattle.py_frames.specs.State.{life_of, operands, with_frames};
ghost use Rattle.py_states.specs.Innermost.{innermost, from_top};

mod at_once;
mod settle;

use crate::frames::Frames;
use lock_run::Life;
use py_base::NoMemory;
use py_data::{Addr, Value, value_or_unset};
use py_frames::{Dying, Frame};
use std::alloc::Global;
use std::marker::Model;

/// The state of a thread. In memory it is three lists, so that a copy is three plain copies at any depth, and a step
/// costs what it changes.
#[derive(Debug, Drop)]
pub struct ThreadState {
    number: u32,
    roots: Option<Addr>,
    thread: Option<Addr>,
    frames: Frames,
    dying: Option<Dying>,
}

impl Model for ThreadState {
    ghost use Rattle.py_frames.specs.State.{State};

    ghost Value = { State };

    ghost view = { λ a. record {
      number = a.number;
      roots = a.roots;
      thread = a.thread;
      frames = a.frames.frames;
      dying = a.dying;
    } };
}

impl ThreadState {
    /// The state of a thread before its first step: no frames, no roots, no Thread record. It takes no memory.
    pub fn new(alloc: Global, number: u32) -> ThreadState
        ensures { result ≡ record { number = number; roots = None; thread = None; frames = []; dying = None } }
    {
        ThreadState {
            number,
            roots: None,
            thread: None,
            frames: Frames::new(alloc),
            dying: None,
        }
    }

    /// The state of a thread that has entered a frame.
    pub fn entered(
        alloc: Global,
        number: u32,
        roots: Option<Addr>,
        thread: Option<Addr>,
        frame: &Frame,
    ) -> Result<ThreadState, NoMemory>
        ensures { IfOk result (λ s. s ≡
            record { number = number; roots = roots; thread = thread; frames = frame.now ∷ []; dying = None }) }
    {
        let mut frames = Frames::new(alloc);
        frames.make_room_for(frame)?;
        frames.push(frame);
        Ok(ThreadState {
            number,
            roots,
            thread,
            frames,
            dying: None,
        })
    }

    /// The number of the thread, from 0.
    pub fn number(&self) -> u32
        ensures { result ≡ self.now.number }
    {
        self.number
    }

    /// The list of roots, once it is made.
    pub fn roots(&self) -> Option<Addr>
        ensures { result ≡ self.now.roots }
    {
        self.roots
    }

    /// Its Thread record, if it has one.
    pub fn thread(&self) -> Option<Addr>
        ensures { result ≡ self.now.thread }
    {
        self.thread
    }

    /// The exception that it ends with.
    pub fn dying(&self) -> Option<Dying>
        ensures { result ≡ self.now.dying }
    {
        self.dying
    }

    /// Whether it lives, and how it ended.
    pub fn life(&self) -> Life
        ensures { result ≡ life_of self.now }
    {
        if self.frames.len() > 0 {
            return Life::Lives;
        }
        match self.dying {
            Some(_) => Life::Failed,
            None => Life::Ended,
        }
    }

    /// How many frames it has.
    pub fn depth(&self) -> usize
        ensures { result ≡ length self.now.frames }
    {
        self.frames.len()
    }

    /// Whether it has a frame.
    pub fn has_frame(&self) -> bool
        ensures { IsTrue result ↔ (0 < length self.now.frames) }
    {
        self.frames.len() > 0
    }

    /// The number of the innermost frame's code.
    pub fn code(&self) -> u32
        ensures { let f = innermost self.now.frames in result ≡ f.code }
    {
        self.frames.code()
    }

    /// The place of the innermost frame's next instruction.
    pub fn pc(&self) -> u32
        ensures { let f = innermost self.now.frames in result ≡ f.pc }
    {
        self.frames.pc()
    }

    /// The instance whose `__init__` the innermost frame runs, or the base of its class body, or Unset.
    pub fn made(&self) -> Value
        ensures { let f = innermost self.now.frames in result ≡ f.made }
    {
        self.frames.made()
    }

    /// The Dict of the innermost frame's class body.
    pub fn names(&self) -> Option<Addr>
        ensures { let f = innermost self.now.frames in result ≡ f.names }
    {
        self.frames.names()
    }

    /// The innermost frame's slots.
    pub fn slots(&self) -> &[Value]
        ensures { let f = innermost self.now.frames in result.now ≡ f.slots }
    {
        self.frames.slots()
    }

    /// How many slots the innermost frame has.
    pub fn slot_count(&self) -> usize
        ensures { let f = innermost self.now.frames in result ≡ length f.slots }
    {
        self.frames.slots().len()
    }

    /// A slot of the innermost frame; Unset where it has no such slot.
    pub fn slot(&self, i: usize) -> Value
        ensures { let f = innermost self.now.frames in result ≡ value_at f.slots i }
    {
        value_or_unset(self.frames.slots(), i)
    }

    /// How high the innermost frame's stack is.
    pub fn height(&self) -> usize
        ensures { let f = innermost self.now.frames in result ≡ length f.stack }
    {
        self.frames.height()
    }

    /// The top `n` values of the innermost frame's stack, the top last; all, where there are fewer.
    pub fn operands(&self, n: usize) -> &[Value]
        ensures { result.now ≡ operands n (innermost self.now.frames) }
    {
        let stack = self.frames.stack();
        if n < stack.len() {
            &stack[stack.len() - n..]
        } else {
            stack
        }
    }

    /// One of the top `n` values of the innermost frame's stack, the lowest of them at 0; Unset where there is none.
    pub fn operand(&self, n: usize, i: usize) -> Value
        ensures { result ≡ value_at (operands n (innermost self.now.frames)) i }
    {
        value_or_unset(self.operands(n), i)
    }

    /// A value of the innermost frame's stack, counted from its top; Unset where there are not so many.
    pub fn from_top(&self, i: usize) -> Value
        ensures { let f = innermost self.now.frames in result ≡ from_top i f.stack }
    {
        let stack = self.frames.stack();
        let n = stack.len();
        if i < n {
            stack[n - 1 - i]
        } else {
            Value::Unset
        }
    }

    /// The thread has no frame any more.
    pub fn end(&mut self)
        ensures { self.new ≡ with_frames self.old [] }
    {
        self.frames.clear();
    }

    /// An equal state in memory of its own: three plain copies.
    pub fn copy(&self, alloc: Global) -> Result<ThreadState, NoMemory>
        ensures { IfOk result (λ s. s ≡ self.now) }
    {
        let frames = self.frames.copy(alloc)?;
        Ok(ThreadState {
            number: self.number,
            roots: self.roots,
            thread: self.thread,
            frames,
            dying: self.dying,
        })
    }

    /// Two states are equal.
    pub fn same(&self, other: &ThreadState) -> bool
        ensures { IsTrue result ↔ (self.now ≡ other.now) }
    {
        self.number == other.number
            && self.roots == other.roots
            && self.thread == other.thread
            && self.dying == other.dying
            && self.frames.same(&other.frames)
    }
}
