//! How a step ends that goes by a fast path: what it gives is given to the frame at once.
ghost use Rattle.std.specs.Prelude.{◌≡◌, ◌+◌, ◌<◌, [], ◌∷◌, ◌++◌, length, IfOk, IfErr, OnErr};
ghost use Rattle.py_data.specs.declared.stop.Stop.TheVariants.{OutOfMemory};
ghost use Rattle.py_data.specs.Sense.{Safe, IsLive};
ghost use Rattle.py_code.specs.declared.program.Program.{Program as Prog};
ghost use Rattle.py_frames.specs.declared.next.Next.TheVariants.{Enters, Goes, Jumps};
ghost use Rattle.py_frames.specs.Binding.{entered, unset_slots};
ghost use Rattle.py_frames.specs.Raising as raising;
ghost use Rattle.py_frames.specs.State as state;
ghost use Rattle.py_states.specs.Innermost.{innermost, settled_in, Settles};
ghost use Rattle.py_step.specs.inner.FastPath.{ended};
ghost use Rattle.py_step.specs.inner.Moves.{Moves};

use crate::place::place_of;
use crate::prepared::Prepared;
use lock_run::Outcome;
use py_data::{Fault, Got, Stop, Value, View};
use py_frames::Next;
use py_parts::raise_row;
use py_states::ThreadState;
use std::alloc::Global;

/// What an instruction leads to that takes `n` operands, where it has no call of its own.
pub fn settle(p: &Prepared, s: &mut ThreadState, n: usize, next: Next) -> Result<Outcome, Stop>
    requires some { 0 < length s.old.frames }
    ensures ok { IfOk result (λ o. Settles (settled_in p.now s.old n next s.old.frames) o s.new) }
    ensures cause { IfErr result (λ e. e ≡ OutOfMemory) }
    ensures err { OnErr result (s.new ≡ s.old) }
{
    let outcome = s.settle(p.program(), n, next)?;
    Ok(outcome)
}

/// A value is pushed in the place of `n` operands.
pub fn give_one(s: &mut ThreadState, n: usize, x: Value) -> Result<Outcome, Stop>
    requires some { 0 < length s.old.frames }
    ensures ok { IfOk result (λ o. (p : Prog) → Settles (settled_in p s.old n (Goes (x ∷ [])) s.old.frames) o s.new) }
    ensures cause { IfErr result (λ e. e ≡ OutOfMemory) }
    ensures err { OnErr result (s.new ≡ s.old) }
{
    if s.gives(n, x) {
        Ok(Outcome::Done)
    } else {
        Err(Stop::OutOfMemory)
    }
}

/// Two values are pushed in the place of `n` operands, the second on top.
pub fn give_two(s: &mut ThreadState, n: usize, x: Value, y: Value) -> Result<Outcome, Stop>
    requires some { 0 < length s.old.frames }
    ensures ok { IfOk result (λ o. (p : Prog) →
        Settles (settled_in p s.old n (Goes (x ∷ y ∷ [])) s.old.frames) o s.new) }
    ensures cause { IfErr result (λ e. e ≡ OutOfMemory) }
    ensures err { OnErr result (s.new ≡ s.old) }
{
    if s.gives_two(n, x, y) {
        Ok(Outcome::Done)
    } else {
        Err(Stop::OutOfMemory)
    }
}

/// Nothing is pushed in the place of `n` operands.
pub fn give_none(s: &mut ThreadState, n: usize) -> Result<Outcome, Stop>
    requires some { 0 < length s.old.frames }
    ensures ok { IfOk result (λ o. (p : Prog) → Settles (settled_in p s.old n (Goes []) s.old.frames) o s.new) }
    ensures cause { IfErr result (λ e. e ≡ OutOfMemory) }
    ensures err { OnErr result (s.new ≡ s.old) }
{
    if s.passes_on(n) {
        Ok(Outcome::Done)
    } else {
        Err(Stop::OutOfMemory)
    }
}

/// Nothing is pushed in the place of the one operand, and a place follows.
pub fn jump(s: &mut ThreadState, place: u32) -> Result<Outcome, Stop>
    requires some { 0 < length s.old.frames }
    ensures ok { IfOk result (λ o. (p : Prog) → Settles (settled_in p s.old 1 (Jumps place []) s.old.frames) o s.new) }
    ensures cause { IfErr result (λ e. e ≡ OutOfMemory) }
    ensures err { OnErr result (s.new ≡ s.old) }
{
    if s.jumps_on(1, place) {
        Ok(Outcome::Done)
    } else {
        Err(Stop::OutOfMemory)
    }
}

/// A frame of a code is entered, whose slots are the top `m` values of the stack and `k` more that hold nothing, in the
/// place of these values and the one below them.
pub fn enter_plain(s: &mut ThreadState, m: usize, k: usize, code: u32) -> Result<Outcome, Stop>
    requires some { 0 < length s.old.frames }
    ensures ok { let f = innermost s.old.frames in IfOk result (λ o. (p : Prog) → Settles (settled_in p s.old (m + 1)
        (Enters (entered code (state.operands m f ++ unset_slots k))) s.old.frames) o s.new) }
    ensures cause { IfErr result (λ e. e ≡ OutOfMemory) }
    ensures err { OnErr result (s.new ≡ s.old) }
{
    if s.calls(m, k, code) {
        Ok(Outcome::Done)
    } else {
        Err(Stop::OutOfMemory)
    }
}

/// An exception is raised where an instruction has taken `n` operands.
#[cold]
#[inline(never)]
pub fn raised<V: View<ThreadState>>(
    alloc: Global,
    v: &mut V,
    p: &Prepared,
    s: &mut ThreadState,
    n: usize,
    e: &Fault,
) -> Result<Outcome, Stop>
    requires some { 0 < length s.old.frames }
    requires live { IsLive V.sense v.old }
    requires safe { Safe V.sense.partial (raising.raise_row {S = state.State} (raising.place_of s.old.roots) e.now) (V.sense.heap v.old) }
    ensures { Moves V.sense (ended p.now s.old n (raising.raise_row (raising.place_of s.old.roots) e.now))
        v.old s.old v.new s.new result }
{
    let next = raise_row(alloc, v, place_of(s.roots()), e)?;
    settle(p, s, n, next)
}

/// The value that was got is pushed in the place of `n` operands, or the exception is raised.
pub fn given<V: View<ThreadState>>(
    alloc: Global,
    v: &mut V,
    p: &Prepared,
    s: &mut ThreadState,
    n: usize,
    got: Got<Value>,
) -> Result<Outcome, Stop>
    requires some { 0 < length s.old.frames }
    requires live { IsLive V.sense v.old }
    requires safe { Safe V.sense.partial (raising.give {S = state.State} (raising.place_of s.old.roots) got) (V.sense.heap v.old) }
    ensures { Moves V.sense (ended p.now s.old n (raising.give (raising.place_of s.old.roots) got))
        v.old s.old v.new s.new result }
{
    match got {
        Got::Is(x) => give_one(s, n, x),
        Got::Raise(e) => raised(alloc, v, p, s, n, &e),
    }
}

/// What was to be done to `n` operands was done, or the exception is raised.
pub fn done<V: View<ThreadState>>(
    alloc: Global,
    v: &mut V,
    p: &Prepared,
    s: &mut ThreadState,
    n: usize,
    got: Got<()>,
) -> Result<Outcome, Stop>
    requires some { 0 < length s.old.frames }
    requires live { IsLive V.sense v.old }
    requires safe { Safe V.sense.partial (raising.done {S = state.State} (raising.place_of s.old.roots) got) (V.sense.heap v.old) }
    ensures { Moves V.sense (ended p.now s.old n (raising.done (raising.place_of s.old.roots) got))
        v.old s.old v.new s.new result }
{
    match got {
        Got::Is(_) => give_none(s, n),
        Got::Raise(e) => raised(alloc, v, p, s, n, &e),
    }
}
