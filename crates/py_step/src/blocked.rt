//! Whether a thread's next step would wait: only the calls of `acquire` and `join` can.
ghost use Rattle.std.specs.Prelude.{◌≡◌, ℕ, List, [], take, drop, get_or, true, false};
ghost use Rattle.py_data.specs.Closed.{Refers};
ghost use Rattle.py_data.specs.Every.{Every};
ghost use Rattle.py_data.specs.Heap.{value_at};
ghost use Rattle.py_code.specs.declared.instr.Instr.TheVariants as instrs;
ghost use Rattle.lock_run.specs.Client.{Standing, Waiting, Going};
ghost use Rattle.lock_run.specs.declared.client.Life.TheVariants.{Lives};
ghost use Rattle.py_frames.specs.declared.state.Frame as frames;
ghost use Rattle.py_frames.specs.Binding.{plainly, with_own};
ghost use Rattle.py_frames.specs.ClassCalls.{Site};
ghost use Rattle.py_frames.specs.Sound.{Sound};
ghost use Rattle.py_frames.specs.State.{code_at, life_of, operands, pops as taken};
ghost use Rattle.py_frames.specs.Steps as steps;
ghost use Rattle.py_states.specs.Innermost.{innermost};
ghost use Rattle.py_step.specs.inner.Peeked.{AreClosed, LeadsToWait, Tells};

mod builtins;
mod calls;
mod truths;

use crate::guard::lacks_operand;
use crate::operands::pops;
use crate::place::instr_at;
use calls::value_waits;
use py_base::{first, skip};
use py_code::{Instr, Program};
use py_data::{Addr, Peek, Value, value_or_unset};
use py_parts::keys_at;
use py_states::ThreadState;

/// So many arguments of CALL_METHOD, behind its object, if there is one.
fn with_object(own: Value, operands: &[Value], m: u32) -> &[Value]
    requires { own ≡ value_at operands.now 1 }
    ensures { let g = with_own own (plainly (take m (drop 2 operands.now))) in result.now ≡ g.args }
{
    let n = m as usize;
    match own {
        Value::Unset => first(skip(operands, 2), n),
        Value::None | Value::Bool(_) | Value::Int(_) | Value::Ref(_) | Value::Builtin(_) => first(
            skip(operands, 1),
            n + 1,
        ),
    }
}

/// Whether CALL would wait over these operands, without keywords. `me` is the Thread record of the thread that calls,
/// if it has one.
fn call_waits<P: Peek>(heap: &P, me: Option<Addr>, xs: &[Value], m: u32) -> bool
    requires closed { AreClosed (P.image heap.now) }
    requires refer { Every (Refers (P.image heap.now)) xs.now }
    ensures { (s : Site) (f : frames.Frame) (l : ℕ) → s.thread ≡ me → get_or (code_at s.program f.code).keys l [] ≡ []
        → Tells result LeadsToWait (P.image heap.now) (steps.instr_row s f xs.now (instrs.Call m l)) }
{
    let args = first(skip(xs, 1), m as usize);
    value_waits(heap, me, Value::Unset, value_or_unset(xs, 0), args, args)
}

/// Whether CALL_METHOD would wait over these operands, without keywords.
fn method_waits<P: Peek>(heap: &P, me: Option<Addr>, xs: &[Value], m: u32) -> bool
    requires closed { AreClosed (P.image heap.now) }
    requires refer { Every (Refers (P.image heap.now)) xs.now }
    ensures { (s : Site) (f : frames.Frame) (l : ℕ) → s.thread ≡ me → get_or (code_at s.program f.code).keys l [] ≡ []
        → Tells result LeadsToWait (P.image heap.now) (steps.instr_row s f xs.now (instrs.CallMethod m l)) }
{
    let own = value_or_unset(xs, 1);
    let args = first(skip(xs, 2), m as usize);
    let all = with_object(own, xs, m);
    value_waits(heap, me, own, value_or_unset(xs, 0), args, all)
}

/// Whether an instruction would wait over these operands.
fn instr_waits<P: Peek>(p: &Program, s: &ThreadState, heap: &P, xs: &[Value], i: Instr) -> bool
    requires closed { AreClosed (P.image heap.now) }
    requires refer { Every (Refers (P.image heap.now)) xs.now }
    ensures { (fs : List frames.Frame) → let f = innermost s.now.frames in
        Tells result LeadsToWait (P.image heap.now) (steps.instr_row (steps.site_of p.now s.now fs) f xs.now i) }
{
    match i {
        Instr::Call(m, l) => match keys_at(p, s.code(), l) {
            [] => call_waits(heap, s.thread(), xs, m),
            _ => false,
        },
        Instr::CallMethod(m, l) => match keys_at(p, s.code(), l) {
            [] => method_waits(heap, s.thread(), xs, m),
            _ => false,
        },
        _ => false,
    }
}

/// Whether an instruction would wait over the operands that it takes. It raises where one of them is Unset that may
/// not be.
fn guarded_waits<P: Peek>(p: &Program, s: &ThreadState, heap: &P, i: Instr) -> bool
    requires closed { AreClosed (P.image heap.now) }
    requires refer { let f = innermost s.now.frames in Every (Refers (P.image heap.now)) f.stack }
    ensures { (fs : List frames.Frame) → let f = innermost s.now.frames in
        Tells result LeadsToWait (P.image heap.now) (steps.guarded_row (steps.site_of p.now s.now fs) f (operands (taken p.now f i) f) i) }
{
    let xs = s.operands(pops(p, s, i));
    if lacks_operand(i, xs) {
        false
    } else {
        instr_waits(p, s, heap, xs, i)
    }
}

/// The thread's next step over that heap would wait.
pub fn would_wait<P: Peek>(program: &Program, s: &ThreadState, heap: &P) -> bool
    requires stands { Standing (Sound program.now (P.image heap.now)) s.now }
    requires lives { life_of s.now ≡ Lives }
    ensures yes { result ≡ true → Waiting (steps.step_row program.now s.now) (P.image heap.now) }
    ensures not { result ≡ false → Going (steps.step_row program.now s.now) (P.image heap.now) }
{
    match s.dying() {
        Some(_) => false,
        None => match instr_at(program, s) {
            Some(i) => guarded_waits(program, s, heap, i),
            None => false,
        },
    }
}
