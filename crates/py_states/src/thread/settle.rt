//! What an instruction leads to, done to the state of the thread.
ghost use Rattle.std.specs.Prelude.{◌≡◌, ◌+◌, ◌-◌, ◌<◌, ◌∷◌, ◌++◌, length, drop, get_or, Some, IfOk, OnErr};
ghost use Rattle.lock_run.specs.declared.client.Outcome.TheVariants.{Done};
ghost use Rattle.py_frames.specs.Binding.{entered, unset_slots};
ghost use Rattle.py_frames.specs.State.{advanced, closed, code_at, line_at as line_of, opened, operands, passed, returned, stored, thrown_to, unwound, with_frames};
ghost use Rattle.py_states.specs.Innermost.{innermost, settled_in, Settles};
ghost use Rattle.py_states.specs.inner.Changes.{on_top, with_top};

use super::ThreadState;
use lock_run::Outcome;
use py_base::NoMemory;
use py_code::{Code, Program};
use py_data::{Addr, Value};
use py_frames::{Block, Dying, Frame, Next};

/// The line of an instruction of a code.
#[tactic(auto, using(crate::proofs::PileLemmas::nothing_at))]
fn line_in(code: &Code, pc: u32) -> u32
    ensures { result ≡ get_or code.now.lines pc 0 }
{
    match code.lines.get(pc as usize) {
        Some(line) => *line,
        None => 0,
    }
}

/// The line of an instruction of a program.
#[tactic(auto, using(crate::proofs::PileLemmas::nothing_at))]
fn line_at(program: &Program, code: u32, pc: u32) -> u32
    ensures { let c = code_at program.now code in result ≡ get_or c.lines pc 0 }
{
    match program.codes.get(code as usize) {
        Some(code) => line_in(code, pc),
        None => 0,
    }
}

impl ThreadState {
    /// Values are pushed, and the next place follows.
    pub(super) fn goes(&mut self, n: usize, ys: &[Value]) -> Result<Outcome, NoMemory>
        ensures ok { IfOk result (λ o. Settles (Done, with_top self.old (λ f. advanced n ys.now (f.pc + 1) f)) o
            self.new) }
        ensures err { OnErr result (self.new ≡ self.old) }
    {
        let place = self.frames.next_place()?;
        self.frames.advance(n, ys, place)?;
        Ok(Outcome::Done)
    }

    /// Values are pushed, and a place follows.
    pub(super) fn jumps(&mut self, n: usize, place: u32, ys: &[Value]) -> Result<Outcome, NoMemory>
        ensures ok { IfOk result (λ o. Settles (Done, with_top self.old (advanced n ys.now place)) o self.new) }
        ensures err { OnErr result (self.new ≡ self.old) }
    {
        self.frames.advance(n, ys, place)?;
        Ok(Outcome::Done)
    }

    /// A slot holds a value, and the next place follows.
    pub(super) fn stores(&mut self, n: usize, i: u32, x: Value) -> Result<Outcome, NoMemory>
        ensures ok { IfOk result (λ o. Settles (Done, with_top self.old (λ f. stored i x (passed n f))) o self.new) }
        ensures err { OnErr result (self.new ≡ self.old) }
    {
        let place = self.frames.next_place()?;
        self.frames.keep(n, i as usize, x, place);
        Ok(Outcome::Done)
    }

    /// A block begins, and the next place follows.
    #[inline(never)]
    pub(super) fn opens(&mut self, n: usize, handler: u32) -> Result<Outcome, NoMemory>
        ensures ok { IfOk result (λ o. Settles
            (Done, with_top self.old (λ f. opened handler (length f.stack - n) (passed n f))) o self.new) }
        ensures err { OnErr result (self.new ≡ self.old) }
    {
        let place = self.frames.next_place()?;
        let height = self.frames.height_below(n)?;
        self.frames.make_room(0, 0, 1)?;
        self.frames.pass(n, place);
        self.frames.open(Block { handler, height });
        Ok(Outcome::Done)
    }

    /// The innermost block ends, and the next place follows.
    #[inline(never)]
    pub(super) fn closes(&mut self, n: usize) -> Result<Outcome, NoMemory>
        ensures ok { IfOk result (λ o. Settles (Done, with_top self.old (λ f. closed (passed n f))) o self.new) }
        ensures err { OnErr result (self.new ≡ self.old) }
    {
        let place = self.frames.next_place()?;
        self.frames.pass(n, place);
        self.frames.close();
        Ok(Outcome::Done)
    }

    /// A frame is entered. The one round it stands on the next place.
    #[inline(never)]
    fn enters(&mut self, n: usize, frame: &Frame) -> Result<Outcome, NoMemory>
        ensures ok { IfOk result (λ o. Settles
            (Done, with_frames self.old (frame.now ∷ on_top (passed n) self.old.frames)) o self.new) }
        ensures err { OnErr result (self.new ≡ self.old) }
    {
        let place = self.frames.next_place()?;
        self.frames.make_room_for(frame)?;
        self.frames.pass(n, place);
        self.frames.push(frame);
        Ok(Outcome::Done)
    }

    /// A frame at the start of a code is entered, whose slots are the top `m` values of the stack and `k` more that
    /// hold nothing. The one round it stands on the next place, without these values and the one below them.
    pub(super) fn enters_over(&mut self, m: usize, k: usize, code: u32) -> Result<Outcome, NoMemory>
        requires { let f = innermost self.old.frames in m < length f.stack }
        ensures ok { IfOk result (λ o. Settles (
          Done,
          with_frames self.old
              (entered code (operands m (innermost self.old.frames) ++ unset_slots k) ∷
              on_top (passed (m + 1)) self.old.frames),
        ) o self.new) }
        ensures err { OnErr result (self.new ≡ self.old) }
    {
        let place = self.frames.next_place()?;
        self.frames.make_room(k, 1, 0)?;
        self.frames.enter(m, k, code, place);
        Ok(Outcome::Done)
    }

    /// The innermost frame is left with a value.
    #[inline(never)]
    pub(super) fn leaves(&mut self, x: Value) -> Result<Outcome, NoMemory>
        ensures ok { IfOk result (λ o. Settles (returned self.old x (drop 1 self.old.frames)) o self.new) }
        ensures err { OnErr result (self.new ≡ self.old) }
    {
        self.frames.leave(x)?;
        if self.frames.len() == 0 {
            Ok(Outcome::Ended)
        } else {
            Ok(Outcome::Done)
        }
    }

    /// The program's roots stand there, and the next place follows.
    #[inline(never)]
    fn begins(&mut self, n: usize, roots: Addr) -> Result<Outcome, NoMemory>
        ensures ok { IfOk result (λ o. Settles (Done, record (with_top self.old (passed n)) { roots = Some roots }) o
            self.new) }
        ensures err { OnErr result (self.new ≡ self.old) }
    {
        let place = self.frames.next_place()?;
        self.frames.pass(n, place);
        self.roots = Some(roots);
        Ok(Outcome::Done)
    }

    /// An exception is raised at a line, in the innermost frame, where so many are left out.
    fn throws(&mut self, first: usize, x: Value, line: u32) -> Result<Outcome, NoMemory>
        ensures ok { IfOk result (λ o. Settles
            (Done, thrown_to self.old x line (unwound x (drop first self.old.frames))) o self.new) }
        ensures err { OnErr result (self.new ≡ self.old) }
    {
        let caught = self.frames.raise(first, x)?;
        if !caught {
            self.dying = Some(Dying { exc: x, line });
        }
        Ok(Outcome::Done)
    }

    /// The same, at the line of the innermost frame's instruction.
    #[inline(never)]
    fn raises(&mut self, program: &Program, first: usize, x: Value) -> Result<Outcome, NoMemory>
        ensures ok { IfOk result (λ o. Settles (
          Done,
          thrown_to self.old x (line_of program.now (innermost self.old.frames))
              (unwound x (drop first self.old.frames)),
        ) o self.new) }
        ensures err { OnErr result (self.new ≡ self.old) }
    {
        let line = line_at(program, self.frames.code(), self.frames.pc());
        self.throws(first, x, line)
    }

    /// What an instruction that takes `n` operands leads to, done in time of what it changes; only an exception that
    /// no block takes, once in the life of a thread, looks through all frames. At want of memory the state stays as
    /// it is, and so it does where it has no frame.
    #[inline(always)]
    pub fn settle(&mut self, program: &Program, n: usize, next: Next) -> Result<Outcome, NoMemory>
        ensures ok { IfOk result (λ o. Settles (settled_in program.now self.old n next self.old.frames) o self.new) }
        ensures err { OnErr result (self.new ≡ self.old) }
    {
        if self.frames.len() == 0 {
            return Ok(Outcome::Waits);
        }
        match next {
            Next::Goes(ys) => self.goes(n, ys.as_slice()),
            Next::Jumps(place, ys) => self.jumps(n, place, ys.as_slice()),
            Next::Stores(i, x) => self.stores(n, i, x),
            Next::Opens(handler) => self.opens(n, handler),
            Next::Closes => self.closes(n),
            Next::Enters(entered) => self.enters(n, entered.frame()),
            Next::Leaves(x) => self.leaves(x),
            Next::Fails(x) => self.raises(program, 1, x),
            Next::Begins(roots) => self.begins(n, roots),
            Next::Throws(x) => self.raises(program, 0, x),
            Next::Waits => Ok(Outcome::Waits),
        }
    }
}
