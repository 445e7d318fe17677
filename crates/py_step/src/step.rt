//! A step of a thread.
ghost use Rattle.std.specs.Prelude.{◌≡◌, ◌<◌, [], true, false, Some, drop, length};
ghost use Rattle.lock_run.specs.declared.client.Life.TheVariants.{Lives};
ghost use Rattle.lock_run.specs.declared.client.Outcome.TheVariants.{Done, Ended};
ghost use Rattle.py_data.specs.Row.{Ret};
ghost use Rattle.py_data.specs.Sense.{Meets, Safe, IsLive};
ghost use Rattle.py_frames.specs.State as state;
ghost use Rattle.py_frames.specs.Steps as steps;
ghost use Rattle.py_states.specs.Innermost.{innermost};
ghost use Rattle.py_step.specs.inner.Moves.{Moves, dying_step, dying_words};
ghost use Rattle.py_step.specs.inner.Operators.{HasOperator, IsOperable};

use crate::at_once::do_at_once;
use crate::ends::settle;
use crate::fast::go;
use crate::guard::guarded_row;
use crate::operands::pops;
use crate::place::{instr_at, place_of, site};
use crate::prepared::Prepared;
use lock_run::Outcome;
use py_code::{Instr, Program};
use py_data::{Stop, View};
use py_frames::{Dying, Next};
use py_raises::dying_row;
use py_states::ThreadState;
use std::alloc::Global;

/// Does the instruction at hand of a thread that has a frame, over its `n` operands.
#[tactic(auto, using(py_data::proofs::Rows::row_steps))]
fn next_of<V: View<ThreadState>>(
    alloc: Global,
    v: &mut V,
    p: &Prepared,
    s: &ThreadState,
    n: usize,
    i: Instr,
) -> Result<Next, Stop>
    requires some { 0 < length s.now.frames }
    requires operator { HasOperator i }
    requires live { IsLive V.sense v.old }
    requires safe { let f = innermost s.now.frames in
        Safe V.sense.partial (steps.guarded_row (steps.site_of p.now s.now (drop 1 s.now.frames)) f
        (state.operands n f) i) (V.sense.heap v.old) }
    ensures { let f = innermost s.now.frames in
        Meets V.sense (steps.guarded_row (steps.site_of p.now s.now (drop 1 s.now.frames)) f
        (state.operands n f) i) v.old v.new result }
{
    let site = site(p, s);
    guarded_row(alloc, v, &site, s, s.operands(n), i)
}

/// The step of a thread that has a frame: does the instruction at hand by its row, and what it leads to.
pub(crate) fn go_by_row<V: View<ThreadState>>(
    alloc: Global,
    v: &mut V,
    p: &Prepared,
    s: &mut ThreadState,
    i: Instr,
) -> Result<Outcome, Stop>
    requires some { 0 < length s.old.frames }
    requires operator { HasOperator i }
    requires live { IsLive V.sense v.old }
    requires safe { Safe V.sense.partial (steps.step_at p.now s.old (innermost s.old.frames) (drop 1 s.old.frames)
        (Some i)) (V.sense.heap v.old) }
    ensures { Moves V.sense (steps.step_at p.now s.old (innermost s.old.frames) (drop 1 s.old.frames) (Some i)) v.old
        s.old v.new s.new result }
{
    let program = p.program();
    let n = pops(program, s, i);
    let next = next_of(alloc, v, p, s, n, i)?;
    settle(p, s, n, next)
}

/// The step of a thread that lives, if it is of an instruction that asks nothing of the heap and raises nothing:
/// whether it was done. That the thread has a frame is tested once, so that no look at its frame tests it again.
#[inline(always)]
pub fn step_at_once(p: &Program, s: &mut ThreadState) -> bool
    requires lives { state.life_of s.old ≡ Lives }
    ensures done { result ≡ true → steps.step_row p.now s.old ≡ Ret (Done, s.new) }
    ensures not { result ≡ false → s.new ≡ s.old }
{
    if s.dying().is_some() || !s.has_frame() {
        return false;
    }
    match instr_at(p, s) {
        Some(i) => do_at_once(s, i),
        None => false,
    }
}

/// The last words of a thread that dies.
#[tactic(auto, using(py_data::proofs::Rows::row_steps))]
fn last_words<S, V: View<S>>(
    alloc: Global,
    v: &mut V,
    s: &ThreadState,
    d: Dying,
) -> Result<(), Stop>
    requires live { IsLive V.sense v.old }
    requires safe { Safe V.sense.partial (dying_words {S = S} s.now d) (V.sense.heap v.old) }
    ensures { Meets V.sense (dying_words s.now d) v.old v.new result }
{
    dying_row(alloc, v, place_of(s.roots()), s.number(), s.thread(), d)
}

/// The thread has no frame any more, and has ended.
fn end(s: &mut ThreadState) -> Outcome
    ensures outcome { result ≡ Ended }
    ensures state { s.new ≡ state.with_frames s.old [] }
{
    s.end();
    Outcome::Ended
}

/// The step of a thread that dies: it writes its last line, and has ended.
fn die<V: View<ThreadState>>(
    alloc: Global,
    v: &mut V,
    s: &mut ThreadState,
    d: Dying,
) -> Result<Outcome, Stop>
    requires live { IsLive V.sense v.old }
    requires safe { Safe V.sense.partial (dying_step s.old d) (V.sense.heap v.old) }
    ensures { Moves V.sense (dying_step s.old d) v.old s.old v.new s.new result }
{
    last_words(alloc, v, s, d)?;
    Ok(end(s))
}

/// A step of a thread that lives. At a Stop its state is as before.
pub fn step_row<V: View<ThreadState>>(
    alloc: Global,
    v: &mut V,
    p: &Prepared,
    s: &mut ThreadState,
) -> Result<Outcome, Stop>
    requires lives { state.life_of s.old ≡ Lives }
    requires operable { IsOperable p.now s.old }
    requires live { IsLive V.sense v.old }
    requires safe { Safe V.sense.partial (steps.step_row p.now s.old) (V.sense.heap v.old) }
    ensures { Moves V.sense (steps.step_row p.now s.old) v.old s.old v.new s.new result }
{
    if let Some(d) = s.dying() {
        return die(alloc, v, s, d);
    }
    match instr_at(p.program(), s) {
        Some(i) => go(alloc, v, p, s, i),
        None => Ok(end(s)),
    }
}
