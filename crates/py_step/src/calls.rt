//! The fast path of calls without keywords whose arguments hold something: what a builtin answers is given to the frame
//! at once, and the arguments of a function are the slots of its frame where they lie.
ghost use Rattle.std.specs.Prelude.{◌≡◌, ◌+◌, ◌^◌, ◌<◌, ◌≤◌, List, ◌++◌, drop, length, Some, IfSome};
ghost use Rattle.py_base.specs.declared.kind.Kind.TheVariants.{Function};
ghost use Rattle.py_data.specs.Sense.{Meets, Safe, IsLive};
ghost use Rattle.py_data.specs.declared.record.Got.TheVariants.{Is};
ghost use Rattle.py_data.specs.declared.value.Value.{Value};
ghost use Rattle.py_code.specs.declared.instr.Instr.TheVariants.{Call, CallMethod};
ghost use Rattle.py_frames.specs.Binding.{bound_to, defaulted_row, entered, unset_slots};
ghost use Rattle.py_frames.specs.CallRows as calls;
ghost use Rattle.py_frames.specs.ClassCalls.{entered_row, MOST_FRAMES};
ghost use Rattle.py_frames.specs.State as state;
ghost use Rattle.py_frames.specs.Steps as steps;
ghost use Rattle.py_states.specs.Innermost.{innermost};
ghost use Rattle.py_step.specs.inner.FastPath.{arguments, builtin_row, called, called_as, called_builtin, called_code, called_with, code_row, ended, function_row, site, IsCallee};
ghost use Rattle.py_step.specs.inner.Moves.{Moves};

use crate::ends::{enter_plain, give_one, settle};
use crate::guard::has_unset;
use crate::place::{place_of, site};
use crate::prepared::Prepared;
use lock_run::Outcome;
use obj_threads::Answer;
use py_base::split;
use py_calls::{MOST_FRAMES, count_in, plain_slots, record_call};
use py_data::{Addr, Got, Kind, Stop, Value, View, kind, look, size};
use py_frames::{Frame, Next};
use py_parts::{Given, Passed, keys_at, place_in};
use py_states::ThreadState;
use std::alloc::Global;

/// What is called.
#[derive(Clone, Copy, Drop)]
pub enum Callee {
    /// The record at an address.
    Record(Addr),
    /// A builtin, by its number.
    Builtin(u8),
}

/// What stands below the top `n` values of the stack, if they are all that is passed to it: no keyword of the list `l`
/// is, and each of them holds something.
pub fn find_callee(p: &Prepared, s: &ThreadState, n: usize, l: u32) -> Option<Callee>
    ensures { IfSome result (IsCallee p.now s.now n l) }
{
    if !keys_at(p.program(), s.code(), l).is_empty() {
        return None;
    }
    let Some(all) = n.checked_add(1) else {
        return None;
    };
    match split(s.operands(all)) {
        Some((f, args)) if args.len() == n && !has_unset(args) => match *f {
            Value::Ref(a) => Some(Callee::Record(a)),
            Value::Builtin(b) => Some(Callee::Builtin(b)),
            _ => None,
        },
        _ => None,
    }
}

/// What the call of a record leads to, by its row.
#[tactic(auto, using(py_data::proofs::Rows::row_steps))]
fn record_next<V: View<ThreadState>>(
    alloc: Global,
    v: &mut V,
    p: &Prepared,
    s: &ThreadState,
    n: usize,
    a: Addr,
    kind: Kind,
) -> Result<Next, Stop>
    requires some { 0 < length s.now.frames }
    requires live { IsLive V.sense v.old }
    requires safe { Safe V.sense.partial (calls.record_call (site p.now s.now) (arguments s.now n) a.0 kind)
        (V.sense.heap v.old) }
    ensures { Meets V.sense (calls.record_call (site p.now s.now) (arguments s.now n) a.0 kind) v.old v.new result }
{
    let given = Given {
        args: s.operands(n),
        names: &[],
        values: &[],
    };
    record_call(alloc, v, &site(p, s), &given, a, kind)
}

/// The call of a record that isn't a Function.
fn call_by_kind<V: View<ThreadState>>(
    alloc: Global,
    v: &mut V,
    p: &Prepared,
    s: &mut ThreadState,
    n: usize,
    a: Addr,
    kind: Kind,
) -> Result<Outcome, Stop>
    requires some { 0 < length s.old.frames }
    requires few { n ≤ 2 ^ 32 }
    requires live { IsLive V.sense v.old }
    requires safe { Safe V.sense.partial (called_as p.now s.old n a.0 kind) (V.sense.heap v.old) }
    ensures { Moves V.sense (called_as p.now s.old n a.0 kind) v.old s.old v.new s.new result }
{
    let next = record_next(alloc, v, p, s, n, a, kind)?;
    settle(p, s, n + 1, next)
}

/// The frame of a call of a function, or TypeError, by the number of its code and the place of its defaults.
#[tactic(auto, using(py_data::proofs::Rows::row_steps))]
fn bound_frame<S, V: View<S>>(
    alloc: Global,
    v: &mut V,
    p: &Prepared,
    s: &ThreadState,
    n: usize,
    code: u32,
    d: Addr,
) -> Result<Got<Frame>, Stop>
    requires live { IsLive V.sense v.old }
    requires safe { Safe V.sense.partial (defaulted_row {S = S} p.now (arguments s.now n) code d.0) (V.sense.heap v.old) }
    ensures { Meets V.sense (defaulted_row p.now (arguments s.now n) code d.0) v.old v.new result }
{
    let given = Passed {
        before: &[],
        args: s.operands(n),
        names: &[],
        values: &[],
    };
    py_calls::defaulted_row(alloc, v, p.program(), &given, code, d)
}

/// What the frame of a call leads to.
#[tactic(auto, using(py_data::proofs::Rows::row_steps))]
fn frame_next<S, V: View<S>>(
    alloc: Global,
    v: &mut V,
    p: &Prepared,
    s: &ThreadState,
    frame: Got<Frame>,
) -> Result<Next, Stop>
    requires some { 0 < length s.now.frames }
    requires live { IsLive V.sense v.old }
    requires safe { Safe V.sense.partial (entered_row {S = S} (site p.now s.now) frame) (V.sense.heap v.old) }
    ensures { Meets V.sense (entered_row (site p.now s.now) frame) v.old v.new result }
{
    py_calls::entered_row(alloc, v, &site(p, s), frame)
}

/// What the call of a function leads to, by its row.
#[tactic(auto, using(py_data::proofs::Rows::row_steps, py_data::proofs::Steps::call_steps))]
fn function_next<S, V: View<S>>(
    alloc: Global,
    v: &mut V,
    p: &Prepared,
    s: &ThreadState,
    n: usize,
    code: u32,
    d: Addr,
) -> Result<Next, Stop>
    requires some { 0 < length s.now.frames }
    requires live { IsLive V.sense v.old }
    requires safe { Safe V.sense.partial (function_row {S = S} p.now s.now n code d.0) (V.sense.heap v.old) }
    ensures { Meets V.sense (function_row p.now s.now n code d.0) v.old v.new result }
{
    let frame = bound_frame(alloc, v, p, s, n, code, d)?;
    frame_next(alloc, v, p, s, frame)
}

/// The call of a function that takes other arguments, or defaults, or where frames stand too deep.
#[inline(never)]
fn call_by_row<V: View<ThreadState>>(
    alloc: Global,
    v: &mut V,
    p: &Prepared,
    s: &mut ThreadState,
    n: usize,
    code: u32,
    d: Addr,
) -> Result<Outcome, Stop>
    requires some { 0 < length s.old.frames }
    requires few { n ≤ 2 ^ 32 }
    requires live { IsLive V.sense v.old }
    requires safe { Safe V.sense.partial (called_with p.now s.old n code d.0) (V.sense.heap v.old) }
    ensures { Moves V.sense (called_with p.now s.old n code d.0) v.old s.old v.new s.new result }
{
    let next = function_next(alloc, v, p, s, n, code, d)?;
    settle(p, s, n + 1, next)
}

/// The call of a function whose arguments are all that it takes: its defaults are only looked at.
fn call_plainly<V: View<ThreadState>>(
    v: &mut V,
    p: &Prepared,
    s: &mut ThreadState,
    n: usize,
    k: usize,
    code: u32,
    d: Addr,
) -> Result<Outcome, Stop>
    requires some { 0 < length s.old.frames }
    requires few { length s.old.frames < MOST_FRAMES }
    requires plain { (ds : List Value) → bound_to p.now (arguments s.old n) code ds ≡
        Is (entered code (state.operands n (innermost s.old.frames) ++ unset_slots k)) }
    requires live { IsLive V.sense v.old }
    requires safe { Safe V.sense.partial (called_with p.now s.old n code d.0) (V.sense.heap v.old) }
    ensures { Moves V.sense (called_with p.now s.old n code d.0) v.old s.old v.new s.new result }
{
    let _count = size(v, d)?;
    enter_plain(s, n, k, code)
}

/// The call of a function, by the number of its code and the place of its defaults.
fn call_with<V: View<ThreadState>>(
    alloc: Global,
    v: &mut V,
    p: &Prepared,
    s: &mut ThreadState,
    n: usize,
    code: u32,
    d: Addr,
) -> Result<Outcome, Stop>
    requires some { 0 < length s.old.frames }
    requires few { n ≤ 2 ^ 32 }
    requires count { length (state.operands n (innermost s.old.frames)) ≡ n }
    requires live { IsLive V.sense v.old }
    requires safe { Safe V.sense.partial (called_with p.now s.old n code d.0) (V.sense.heap v.old) }
    ensures { Moves V.sense (called_with p.now s.old n code d.0) v.old s.old v.new s.new result }
{
    if s.depth() < MOST_FRAMES {
        if let Some(k) = plain_slots(p.program(), code, n) {
            return call_plainly(v, p, s, n, k, code, d);
        }
    }
    call_by_row(alloc, v, p, s, n, code, d)
}

/// The call of a Function, by the number of its code.
fn call_code<V: View<ThreadState>>(
    alloc: Global,
    v: &mut V,
    p: &Prepared,
    s: &mut ThreadState,
    n: usize,
    a: Addr,
    code: u32,
) -> Result<Outcome, Stop>
    requires some { 0 < length s.old.frames }
    requires few { n ≤ 2 ^ 32 }
    requires count { length (state.operands n (innermost s.old.frames)) ≡ n }
    requires live { IsLive V.sense v.old }
    requires safe { Safe V.sense.partial (called_code p.now s.old n a.0 code) (V.sense.heap v.old) }
    ensures { Moves V.sense (called_code p.now s.old n a.0 code) v.old s.old v.new s.new result }
{
    let d = look(v, a, 2)?;
    call_with(alloc, v, p, s, n, code, place_in(d))
}

/// The number of a Function's code.
#[tactic(auto, using(py_data::proofs::Rows::row_steps, py_data::proofs::Steps::call_steps))]
fn code_of<S, V: View<S>>(v: &mut V, a: Addr) -> Result<u32, Stop>
    requires live { IsLive V.sense v.old }
    requires safe { Safe V.sense.partial (code_row {S = S} a.0) (V.sense.heap v.old) }
    ensures { Meets V.sense (code_row a.0) v.old v.new result }
{
    let x = look(v, a, 1)?;
    Ok(count_in(x)?)
}

/// The call of a Function.
fn call_function<V: View<ThreadState>>(
    alloc: Global,
    v: &mut V,
    p: &Prepared,
    s: &mut ThreadState,
    n: usize,
    a: Addr,
) -> Result<Outcome, Stop>
    requires some { 0 < length s.old.frames }
    requires few { n ≤ 2 ^ 32 }
    requires count { length (state.operands n (innermost s.old.frames)) ≡ n }
    requires live { IsLive V.sense v.old }
    requires safe { Safe V.sense.partial (called_as p.now s.old n a.0 Function) (V.sense.heap v.old) }
    ensures { Moves V.sense (called_as p.now s.old n a.0 Function) v.old s.old v.new s.new result }
{
    let code = code_of(v, a)?;
    call_code(alloc, v, p, s, n, a, code)
}

/// The call of a record of a kind.
fn call_as<V: View<ThreadState>>(
    alloc: Global,
    v: &mut V,
    p: &Prepared,
    s: &mut ThreadState,
    n: usize,
    a: Addr,
    kind: Kind,
) -> Result<Outcome, Stop>
    requires some { 0 < length s.old.frames }
    requires few { n ≤ 2 ^ 32 }
    requires count { length (state.operands n (innermost s.old.frames)) ≡ n }
    requires live { IsLive V.sense v.old }
    requires safe { Safe V.sense.partial (called_as p.now s.old n a.0 kind) (V.sense.heap v.old) }
    ensures { Moves V.sense (called_as p.now s.old n a.0 kind) v.old s.old v.new s.new result }
{
    match kind {
        Kind::Function => call_function(alloc, v, p, s, n, a),
        _ => call_by_kind(alloc, v, p, s, n, a, kind),
    }
}

/// The call of a record that stands below `n` arguments.
fn call_record<V: View<ThreadState>>(
    alloc: Global,
    v: &mut V,
    p: &Prepared,
    s: &mut ThreadState,
    n: usize,
    a: Addr,
) -> Result<Outcome, Stop>
    requires some { 0 < length s.old.frames }
    requires few { n ≤ 2 ^ 32 }
    requires count { length (state.operands n (innermost s.old.frames)) ≡ n }
    requires live { IsLive V.sense v.old }
    requires safe { Safe V.sense.partial (called p.now s.old n a.0) (V.sense.heap v.old) }
    ensures { Moves V.sense (called p.now s.old n a.0) v.old s.old v.new s.new result }
{
    let kind = kind(v, a)?;
    call_as(alloc, v, p, s, n, a, kind)
}

/// What the answer of a builtin leads to, by its row.
#[tactic(auto, using(py_data::proofs::Rows::row_steps))]
fn answered_next<V: View<ThreadState>>(
    alloc: Global,
    v: &mut V,
    p: &Prepared,
    s: &ThreadState,
    got: Got<Answer>,
) -> Result<Next, Stop>
    requires some { 0 < length s.now.frames }
    requires live { IsLive V.sense v.old }
    requires safe { Safe V.sense.partial (calls.answered (site p.now s.now) got) (V.sense.heap v.old) }
    ensures { Meets V.sense (calls.answered (site p.now s.now) got) v.old v.new result }
{
    py_calls::answered(alloc, v, &site(p, s), got)
}

/// What a builtin leads to that waits, lets a thread start or raises.
#[cold]
#[inline(never)]
fn answered_by_row<V: View<ThreadState>>(
    alloc: Global,
    v: &mut V,
    p: &Prepared,
    s: &mut ThreadState,
    n: usize,
    got: Got<Answer>,
) -> Result<Outcome, Stop>
    requires some { 0 < length s.old.frames }
    requires live { IsLive V.sense v.old }
    requires safe { Safe V.sense.partial (calls.answered (site p.now s.old) got) (V.sense.heap v.old) }
    ensures { Moves V.sense (ended p.now s.old n (calls.answered (site p.now s.old) got)) v.old s.old v.new s.new
        result }
{
    let next = answered_next(alloc, v, p, s, got)?;
    settle(p, s, n, next)
}

/// What a builtin leads to that raises nothing.
fn answered_with<V: View<ThreadState>>(
    alloc: Global,
    v: &mut V,
    p: &Prepared,
    s: &mut ThreadState,
    n: usize,
    answer: Answer,
) -> Result<Outcome, Stop>
    requires some { 0 < length s.old.frames }
    requires live { IsLive V.sense v.old }
    requires safe { Safe V.sense.partial (calls.answered (site p.now s.old) (Is answer)) (V.sense.heap v.old) }
    ensures { Moves V.sense (ended p.now s.old n (calls.answered (site p.now s.old) (Is answer))) v.old s.old v.new
        s.new result }
{
    match answer {
        Answer::Value(x) => give_one(s, n, x),
        _ => answered_by_row(alloc, v, p, s, n, Got::Is(answer)),
    }
}

/// What the answer of a builtin leads to.
fn answered<V: View<ThreadState>>(
    alloc: Global,
    v: &mut V,
    p: &Prepared,
    s: &mut ThreadState,
    n: usize,
    got: Got<Answer>,
) -> Result<Outcome, Stop>
    requires some { 0 < length s.old.frames }
    requires live { IsLive V.sense v.old }
    requires safe { Safe V.sense.partial (calls.answered (site p.now s.old) got) (V.sense.heap v.old) }
    ensures { Moves V.sense (ended p.now s.old n (calls.answered (site p.now s.old) got)) v.old s.old v.new s.new
        result }
{
    match got {
        Got::Is(answer) => answered_with(alloc, v, p, s, n, answer),
        Got::Raise(_) => answered_by_row(alloc, v, p, s, n, got),
    }
}

/// What a builtin answers, with its own object or Unset, of which the top `m` values of the stack are the arguments.
#[tactic(auto, using(py_data::proofs::Rows::row_steps))]
fn builtin_got<S, V: View<S>>(
    alloc: Global,
    v: &mut V,
    s: &ThreadState,
    m: usize,
    own: Value,
    b: u8,
) -> Result<Got<Answer>, Stop>
    requires live { IsLive V.sense v.old }
    requires safe { Safe V.sense.partial (builtin_row {S = S} s.now m own b) (V.sense.heap v.old) }
    ensures { Meets V.sense (builtin_row s.now m own b) v.old v.new result }
{
    let roots = place_of(s.roots());
    obj_builtins::call(alloc, v, roots, s.thread(), b, own, s.operands(m), &[])
}

/// The call of a builtin that takes `n` operands.
fn call_builtin<V: View<ThreadState>>(
    alloc: Global,
    v: &mut V,
    p: &Prepared,
    s: &mut ThreadState,
    n: usize,
    m: usize,
    own: Value,
    b: u8,
) -> Result<Outcome, Stop>
    requires some { 0 < length s.old.frames }
    requires live { IsLive V.sense v.old }
    requires safe { Safe V.sense.partial (called_builtin p.now s.old n m own b) (V.sense.heap v.old) }
    ensures { Moves V.sense (called_builtin p.now s.old n m own b) v.old s.old v.new s.new result }
{
    let got = builtin_got(alloc, v, s, m, own, b)?;
    answered(alloc, v, p, s, n, got)
}

/// CALL of what stands below its `m` arguments.
pub fn call<V: View<ThreadState>>(
    alloc: Global,
    v: &mut V,
    p: &Prepared,
    s: &mut ThreadState,
    m: u32,
    l: u32,
    f: Callee,
) -> Result<Outcome, Stop>
    requires some { 0 < length s.old.frames }
    requires callee { IsCallee p.now s.old m l f }
    requires live { IsLive V.sense v.old }
    requires safe { Safe V.sense.partial (steps.step_at p.now s.old (innermost s.old.frames) (drop 1 s.old.frames)
        (Some (Call m l))) (V.sense.heap v.old) }
    ensures { Moves V.sense (steps.step_at p.now s.old (innermost s.old.frames) (drop 1 s.old.frames)
        (Some (Call m l))) v.old s.old v.new s.new result }
{
    let n = m as usize;
    match f {
        Callee::Record(a) => call_record(alloc, v, p, s, n, a),
        Callee::Builtin(b) => call_builtin(alloc, v, p, s, n + 1, n, Value::Unset, b),
    }
}

/// CALL_METHOD of what stands below an object and `m` arguments.
pub fn call_method<V: View<ThreadState>>(
    alloc: Global,
    v: &mut V,
    p: &Prepared,
    s: &mut ThreadState,
    m: u32,
    l: u32,
    f: Callee,
) -> Result<Outcome, Stop>
    requires some { 0 < length s.old.frames }
    requires callee { IsCallee p.now s.old (m + 1) l f }
    requires live { IsLive V.sense v.old }
    requires safe { Safe V.sense.partial (steps.step_at p.now s.old (innermost s.old.frames) (drop 1 s.old.frames)
        (Some (CallMethod m l))) (V.sense.heap v.old) }
    ensures { Moves V.sense (steps.step_at p.now s.old (innermost s.old.frames) (drop 1 s.old.frames)
        (Some (CallMethod m l))) v.old s.old v.new s.new result }
{
    let n = m as usize;
    match f {
        Callee::Record(a) => call_record(alloc, v, p, s, n + 1, a),
        Callee::Builtin(b) => call_builtin(alloc, v, p, s, n + 2, n, s.operand(n + 1, 0), b),
    }
}
