//! The fast path: instructions that look at the heap or change it, and give their values to the frame at once, without a
//! large answer (`Next`) on the way. They do their row, as `instrs` would. Calls stand in `calls`.
ghost use Rattle.std.specs.Prelude.{◌≡◌, ◌≢◌, ◌<◌, [], ◌∷◌, Some, None, drop, length, IfOk, IfErr, IfSome, OnErr};
ghost use Rattle.py_data.specs.declared.stop.Stop.TheVariants.{OutOfMemory};
ghost use Rattle.py_data.specs.declared.value.Value.TheVariants.{Ref, Unset};
ghost use Rattle.py_data.specs.Sense.{Meets, Safe, IsLive};
ghost use Rattle.py_code.specs.declared.instr.Constant.TheVariants.{Root};
ghost use Rattle.py_code.specs.declared.instr.Instr.TheVariants.{Const, LoadAttr, LoadGlobal, LoadItem, LoadMethod, Next, StoreAttr, StoreGlobal, StoreItem};
ghost use Rattle.py_code.specs.declared.program.Program.{Program as Prog};
ghost use Rattle.py_frames.specs.declared.next.Next.TheVariants.{Goes, Jumps};
ghost use Rattle.py_frames.specs.AttrInstrs.{found_method};
ghost use Rattle.py_frames.specs.BuildRows as builds;
ghost use Rattle.py_frames.specs.GlobalRows as globals;
ghost use Rattle.py_frames.specs.LocalRows as locals;
ghost use Rattle.py_frames.specs.Raising as raising;
ghost use Rattle.py_frames.specs.State as state;
ghost use Rattle.py_frames.specs.Steps as steps;
ghost use Rattle.py_states.specs.Innermost.{innermost, settled_in, Settles};
ghost use Rattle.py_step.specs.inner.Directly.{constant_value};
ghost use Rattle.py_step.specs.inner.Moves.{Moves};
ghost use Rattle.py_step.specs.inner.Operators.{HasOperator};
ghost use Rattle.py_step.specs.inner.FastPath.{attr_method, ended, global_value, found_values, item_end, kind_method, method_by, named_attr, set_cell, set_global, set_named_attr};

use crate::at_once::value_of;
use crate::calls::{call, call_method, find_callee};
use crate::ends::{done, give_none, give_one, give_two, given, jump, raised, settle};
use crate::place::place_of;
use crate::prepared::Prepared;
use crate::step::go_by_row;
use lock_run::Outcome;
use obj_class::{Found, attr, find_attr, method_of, set_attr};
use obj_seq::next;
use py_code::{Constant, Instr};
use py_data::{Addr, Got, Stop, Value, View, kind, look};
use py_instrs::{bound_row, item_of, set_item};
use py_parts::{place_in, root_name};
use py_states::ThreadState;
use std::alloc::Global;

/// The operand of a thread's instruction, if it holds something.
fn operand(s: &ThreadState) -> Option<Value>
    ensures { IfSome result (λ x. (state.operands 1 (innermost s.now.frames) ≡ x ∷ []) × (x ≢ Unset)) }
{
    match s.operands(1) {
        [Value::Unset] => None,
        [x] => Some(*x),
        _ => None,
    }
}

/// Both operands of a thread's instruction, if each holds something.
fn two_operands(s: &ThreadState) -> Option<(Value, Value)>
    ensures { IfSome result (λ z. (state.operands 2 (innermost s.now.frames) ≡ z.0 ∷ z.1 ∷ [])
        × (z.0 ≢ Unset) × (z.1 ≢ Unset)) }
{
    match s.operands(2) {
        [Value::Unset, _] | [_, Value::Unset] => None,
        [x, y] => Some((*x, *y)),
        _ => None,
    }
}

/// All three operands of a thread's instruction, if each holds something.
fn three_operands(s: &ThreadState) -> Option<(Value, Value, Value)>
    ensures { IfSome result (λ z. (state.operands 3 (innermost s.now.frames) ≡ z.0 ∷ z.1 ∷ z.2 ∷ [])
        × (z.0 ≢ Unset) × (z.1 ≢ Unset) × (z.2 ≢ Unset)) }
{
    match s.operands(3) {
        [Value::Unset, _, _] | [_, Value::Unset, _] | [_, _, Value::Unset] => None,
        [x, y, z] => Some((*x, *y, *z)),
        _ => None,
    }
}

/// What the cell of a global name holds, by its number among the roots.
#[tactic(auto, using(py_data::proofs::Rows::row_steps, py_data::proofs::Steps::call_steps))]
fn global_value<S, V: View<S>>(v: &mut V, roots: Addr, g: u32) -> Result<Value, Stop>
    requires live { IsLive V.sense v.old }
    requires safe { Safe V.sense.partial (global_value {S = S} roots.0 g) (V.sense.heap v.old) }
    ensures { Meets V.sense (global_value roots.0 g) v.old v.new result }
{
    let cell = look(v, roots, g as usize)?;
    look(v, place_in(cell), 0)
}

/// A value in a cell.
#[tactic(auto, using(py_data::proofs::Rows::change_steps))]
fn set_cell<S, V: View<S>>(v: &mut V, a: Addr, x: Value) -> Result<(), Stop>
    requires live { IsLive V.sense v.old }
    requires safe { Safe V.sense.partial (set_cell {S = S} a.0 x) (V.sense.heap v.old) }
    ensures { Meets V.sense (set_cell a.0 x) v.old v.new result }
{
    v.set_val(a, 0, x)
}

/// A value in the cell of a global name, by its number among the roots.
#[tactic(auto, using(py_data::proofs::Rows::row_steps, py_data::proofs::Steps::call_steps))]
fn set_global<S, V: View<S>>(v: &mut V, roots: Addr, g: u32, x: Value) -> Result<(), Stop>
    requires live { IsLive V.sense v.old }
    requires safe { Safe V.sense.partial (set_global {S = S} roots.0 g x) (V.sense.heap v.old) }
    ensures { Meets V.sense (set_global roots.0 g x) v.old v.new result }
{
    let cell = look(v, roots, g as usize)?;
    set_cell(v, place_in(cell), x)
}

/// An attribute, by the number of its name among the roots.
#[tactic(auto, using(py_data::proofs::Rows::row_steps, py_data::proofs::Steps::call_steps))]
fn named_attr<S, V: View<S>>(
    alloc: Global,
    v: &mut V,
    roots: Addr,
    n: u32,
    o: Value,
) -> Result<Got<Value>, Stop>
    requires live { IsLive V.sense v.old }
    requires safe { Safe V.sense.partial (named_attr {S = S} roots.0 n o) (V.sense.heap v.old) }
    ensures { Meets V.sense (named_attr roots.0 n o) v.old v.new result }
{
    let name = look(v, roots, n as usize)?;
    attr(alloc, v, roots, o, place_in(name))
}

/// Changes an attribute, by the number of its name among the roots.
#[tactic(auto, using(py_data::proofs::Rows::row_steps, py_data::proofs::Steps::call_steps))]
fn set_named_attr<S, V: View<S>>(
    alloc: Global,
    v: &mut V,
    roots: Addr,
    n: u32,
    x: Value,
    o: Value,
) -> Result<Got<()>, Stop>
    requires live { IsLive V.sense v.old }
    requires safe { Safe V.sense.partial (set_named_attr {S = S} roots.0 n x o) (V.sense.heap v.old) }
    ensures { Meets V.sense (set_named_attr roots.0 n x o) v.old v.new result }
{
    let name = look(v, roots, n as usize)?;
    set_attr(alloc, v, o, place_in(name), x)
}

/// A next item is pushed on its iterator, the one operand; where there is none, a place follows.
fn end_by_item(s: &mut ThreadState, place: u32, o: Option<Value>) -> Result<Outcome, Stop>
    requires some { 0 < length s.old.frames }
    ensures ok { IfOk result (λ r. (p : Prog) → Settles (item_end p s.old place o) r s.new) }
    ensures cause { IfErr result (λ e. e ≡ OutOfMemory) }
    ensures err { OnErr result (s.new ≡ s.old) }
{
    match o {
        Some(x) => give_one(s, 0, x),
        None => jump(s, place),
    }
}

/// An iterator's next item is pushed on it; a place follows where it is at its end.
fn next_or_end<V: View<ThreadState>>(
    alloc: Global,
    v: &mut V,
    p: &Prepared,
    s: &mut ThreadState,
    place: u32,
    it: Value,
    got: Got<Option<Value>>,
) -> Result<Outcome, Stop>
    requires some { 0 < length s.old.frames }
    requires operand { state.operands 1 (innermost s.old.frames) ≡ it ∷ [] }
    requires live { IsLive V.sense v.old }
    requires safe { Safe V.sense.partial (builds.next_or_end {S = state.State} (raising.place_of s.old.roots) place it got)
        (V.sense.heap v.old) }
    ensures { Moves V.sense (ended p.now s.old 1 (builds.next_or_end (raising.place_of s.old.roots) place it got))
        v.old s.old v.new s.new result }
{
    match got {
        Got::Is(o) => end_by_item(s, place, o),
        Got::Raise(e) => raised(alloc, v, p, s, 1, &e),
    }
}

/// The number of a constant that is a root.
fn root_in(c: Constant) -> u32
    requires { constant_value c ≡ None }
    ensures { c ≡ Root result }
{
    match c {
        Constant::Root(n) => n,
        Constant::None | Constant::Truth(_) | Constant::Int(_) | Constant::Builtin(_) => {
            unreachable!()
        }
    }
}

/// A root is pushed.
fn give_root<V: View<ThreadState>>(
    v: &mut V,
    p: &Prepared,
    s: &mut ThreadState,
    n: u32,
) -> Result<Outcome, Stop>
    requires some { 0 < length s.old.frames }
    requires live { IsLive V.sense v.old }
    requires safe { Safe V.sense.partial (locals.const_row {S = state.State} (raising.place_of s.old.roots) (Root n))
        (V.sense.heap v.old) }
    ensures { Moves V.sense (ended p.now s.old 0 (locals.const_row (raising.place_of s.old.roots) (Root n)))
        v.old s.old v.new s.new result }
{
    let x = look(v, place_of(s.roots()), n as usize)?;
    give_one(s, 0, x)
}

/// A constant is pushed.
fn give_constant<V: View<ThreadState>>(
    v: &mut V,
    p: &Prepared,
    s: &mut ThreadState,
    c: Constant,
) -> Result<Outcome, Stop>
    requires some { 0 < length s.old.frames }
    requires live { IsLive V.sense v.old }
    requires safe { Safe V.sense.partial (locals.const_row {S = state.State} (raising.place_of s.old.roots) c)
        (V.sense.heap v.old) }
    ensures { Moves V.sense (ended p.now s.old 0 (locals.const_row (raising.place_of s.old.roots) c))
        v.old s.old v.new s.new result }
{
    match value_of(c) {
        Some(value) => give_one(s, 0, value),
        None => give_root(v, p, s, root_in(c)),
    }
}

/// A global name holds nothing, and no builtin was found for it: its row pushes one, or raises the exception.
#[cold]
#[inline(never)]
fn unbound_by_row<V: View<ThreadState>>(
    alloc: Global,
    v: &mut V,
    p: &Prepared,
    s: &mut ThreadState,
    g: u32,
) -> Result<Outcome, Stop>
    requires some { 0 < length s.old.frames }
    requires live { IsLive V.sense v.old }
    requires safe { let name = state.root_name p.now g in Safe V.sense.partial
        (globals.bound_row {S = state.State} (raising.place_of s.old.roots) name (globals.builtin_named p.now name) Unset)
        (V.sense.heap v.old) }
    ensures { let name = state.root_name p.now g in Moves V.sense (ended p.now s.old 0
        (globals.bound_row (raising.place_of s.old.roots) name (globals.builtin_named p.now name) Unset))
        v.old s.old v.new s.new result }
{
    let program = p.program();
    let name = root_name(program, g);
    let next = bound_row(alloc, v, place_of(s.roots()), program, name, Value::Unset)?;
    settle(p, s, 0, next)
}

/// A global name holds nothing: the builtin of that name is pushed, or the exception is raised.
fn unbound<V: View<ThreadState>>(
    alloc: Global,
    v: &mut V,
    p: &Prepared,
    s: &mut ThreadState,
    g: u32,
) -> Result<Outcome, Stop>
    requires some { 0 < length s.old.frames }
    requires live { IsLive V.sense v.old }
    requires safe { let name = state.root_name p.now g in Safe V.sense.partial
        (globals.bound_row {S = state.State} (raising.place_of s.old.roots) name (globals.builtin_named p.now name) Unset)
        (V.sense.heap v.old) }
    ensures { let name = state.root_name p.now g in Moves V.sense (ended p.now s.old 0
        (globals.bound_row (raising.place_of s.old.roots) name (globals.builtin_named p.now name) Unset))
        v.old s.old v.new s.new result }
{
    match p.builtin(g) {
        Some(c) => give_constant(v, p, s, c),
        None => unbound_by_row(alloc, v, p, s, g),
    }
}

/// A global name's value is pushed, or, where it holds nothing, what stands for it.
fn bound<V: View<ThreadState>>(
    alloc: Global,
    v: &mut V,
    p: &Prepared,
    s: &mut ThreadState,
    g: u32,
    x: Value,
) -> Result<Outcome, Stop>
    requires some { 0 < length s.old.frames }
    requires live { IsLive V.sense v.old }
    requires safe { let name = state.root_name p.now g in Safe V.sense.partial
        (globals.bound_row {S = state.State} (raising.place_of s.old.roots) name (globals.builtin_named p.now name) x)
        (V.sense.heap v.old) }
    ensures { let name = state.root_name p.now g in Moves V.sense (ended p.now s.old 0
        (globals.bound_row (raising.place_of s.old.roots) name (globals.builtin_named p.now name) x))
        v.old s.old v.new s.new result }
{
    match x {
        Value::Unset => unbound(alloc, v, p, s, g),
        _ => give_one(s, 0, x),
    }
}

/// CONST of a root; the other constants are pushed at once.
fn constant<V: View<ThreadState>>(
    v: &mut V,
    p: &Prepared,
    s: &mut ThreadState,
    c: Constant,
) -> Result<Outcome, Stop>
    requires some { 0 < length s.old.frames }
    requires live { IsLive V.sense v.old }
    requires safe { Safe V.sense.partial (steps.step_at p.now s.old (innermost s.old.frames) (drop 1 s.old.frames)
        (Some (Const c))) (V.sense.heap v.old) }
    ensures { Moves V.sense (steps.step_at p.now s.old (innermost s.old.frames) (drop 1 s.old.frames) (Some (Const c)))
        v.old s.old v.new s.new result }
{
    give_constant(v, p, s, c)
}

/// LOAD_GLOBAL.
fn load_global<V: View<ThreadState>>(
    alloc: Global,
    v: &mut V,
    p: &Prepared,
    s: &mut ThreadState,
    g: u32,
) -> Result<Outcome, Stop>
    requires some { 0 < length s.old.frames }
    requires live { IsLive V.sense v.old }
    requires safe { Safe V.sense.partial (steps.step_at p.now s.old (innermost s.old.frames) (drop 1 s.old.frames)
        (Some (LoadGlobal g))) (V.sense.heap v.old) }
    ensures { Moves V.sense (steps.step_at p.now s.old (innermost s.old.frames) (drop 1 s.old.frames) (Some (LoadGlobal g)))
        v.old s.old v.new s.new result }
{
    let x = global_value(v, place_of(s.roots()), g)?;
    bound(alloc, v, p, s, g, x)
}

/// LOAD_ITEM of an object by an index or a key.
fn load_item<V: View<ThreadState>>(
    alloc: Global,
    v: &mut V,
    p: &Prepared,
    s: &mut ThreadState,
    o: Value,
    i: Value,
) -> Result<Outcome, Stop>
    requires some { 0 < length s.old.frames }
    requires operands { state.operands 2 (innermost s.old.frames) ≡ o ∷ i ∷ [] }
    requires set { (o ≢ Unset) × (i ≢ Unset) }
    requires live { IsLive V.sense v.old }
    requires safe { Safe V.sense.partial (steps.step_at p.now s.old (innermost s.old.frames) (drop 1 s.old.frames)
        (Some LoadItem)) (V.sense.heap v.old) }
    ensures { Moves V.sense (steps.step_at p.now s.old (innermost s.old.frames) (drop 1 s.old.frames) (Some LoadItem))
        v.old s.old v.new s.new result }
{
    let got = item_of(alloc, v, o, i)?;
    given(alloc, v, p, s, 2, got)
}

/// STORE_ITEM of a value in an object by an index or a key.
fn store_item<V: View<ThreadState>>(
    alloc: Global,
    v: &mut V,
    p: &Prepared,
    s: &mut ThreadState,
    x: Value,
    o: Value,
    i: Value,
) -> Result<Outcome, Stop>
    requires some { 0 < length s.old.frames }
    requires operands { state.operands 3 (innermost s.old.frames) ≡ x ∷ o ∷ i ∷ [] }
    requires set { (x ≢ Unset) × (o ≢ Unset) × (i ≢ Unset) }
    requires live { IsLive V.sense v.old }
    requires safe { Safe V.sense.partial (steps.step_at p.now s.old (innermost s.old.frames) (drop 1 s.old.frames)
        (Some StoreItem)) (V.sense.heap v.old) }
    ensures { Moves V.sense (steps.step_at p.now s.old (innermost s.old.frames) (drop 1 s.old.frames) (Some StoreItem))
        v.old s.old v.new s.new result }
{
    let got = set_item(alloc, v, o, i, x)?;
    done(alloc, v, p, s, 3, got)
}

/// LOAD_ATTR of an object.
fn load_attr<V: View<ThreadState>>(
    alloc: Global,
    v: &mut V,
    p: &Prepared,
    s: &mut ThreadState,
    n: u32,
    o: Value,
) -> Result<Outcome, Stop>
    requires some { 0 < length s.old.frames }
    requires operands { state.operands 1 (innermost s.old.frames) ≡ o ∷ [] }
    requires set { o ≢ Unset }
    requires live { IsLive V.sense v.old }
    requires safe { Safe V.sense.partial (steps.step_at p.now s.old (innermost s.old.frames) (drop 1 s.old.frames)
        (Some (LoadAttr n))) (V.sense.heap v.old) }
    ensures { Moves V.sense (steps.step_at p.now s.old (innermost s.old.frames) (drop 1 s.old.frames) (Some (LoadAttr n)))
        v.old s.old v.new s.new result }
{
    let got = named_attr(alloc, v, place_of(s.roots()), n, o)?;
    given(alloc, v, p, s, 1, got)
}

/// STORE_ATTR of a value in an object.
fn store_attr<V: View<ThreadState>>(
    alloc: Global,
    v: &mut V,
    p: &Prepared,
    s: &mut ThreadState,
    n: u32,
    x: Value,
    o: Value,
) -> Result<Outcome, Stop>
    requires some { 0 < length s.old.frames }
    requires operands { state.operands 2 (innermost s.old.frames) ≡ x ∷ o ∷ [] }
    requires set { (x ≢ Unset) × (o ≢ Unset) }
    requires live { IsLive V.sense v.old }
    requires safe { Safe V.sense.partial (steps.step_at p.now s.old (innermost s.old.frames) (drop 1 s.old.frames)
        (Some (StoreAttr n))) (V.sense.heap v.old) }
    ensures { Moves V.sense (steps.step_at p.now s.old (innermost s.old.frames) (drop 1 s.old.frames) (Some (StoreAttr n)))
        v.old s.old v.new s.new result }
{
    let got = set_named_attr(alloc, v, place_of(s.roots()), n, x, o)?;
    done(alloc, v, p, s, 2, got)
}

/// LOAD_METHOD finds nothing, and raises.
#[cold]
#[inline(never)]
fn no_method<V: View<ThreadState>>(
    alloc: Global,
    v: &mut V,
    p: &Prepared,
    s: &mut ThreadState,
    o: Value,
    name: Addr,
) -> Result<Outcome, Stop>
    requires some { 0 < length s.old.frames }
    requires live { IsLive V.sense v.old }
    requires safe { Safe V.sense.partial (found_method {S = state.State} (raising.place_of s.old.roots) o name.0 None)
        (V.sense.heap v.old) }
    ensures { Moves V.sense (ended p.now s.old 1 (found_method (raising.place_of s.old.roots) o name.0 None))
        v.old s.old v.new s.new result }
{
    let next = py_instrs::found_method(alloc, v, place_of(s.roots()), o, name, None)?;
    settle(p, s, 1, next)
}

/// What was found is pushed in the place of the one operand: what is bound and its object, or any other attribute and
/// nothing.
fn give_found(s: &mut ThreadState, o: Value, found: Found) -> Result<Outcome, Stop>
    requires some { 0 < length s.old.frames }
    ensures ok { IfOk result (λ r. (p : Prog) →
        Settles (settled_in p s.old 1 (Goes (found_values o found)) s.old.frames) r s.new) }
    ensures cause { IfErr result (λ e. e ≡ OutOfMemory) }
    ensures err { OnErr result (s.new ≡ s.old) }
{
    match found {
        Found::Plain(x) => give_two(s, 1, x, Value::Unset),
        Found::Bound(f) => give_two(s, 1, f, o),
    }
}

/// What was found is pushed, or it raises.
fn found_method<V: View<ThreadState>>(
    alloc: Global,
    v: &mut V,
    p: &Prepared,
    s: &mut ThreadState,
    o: Value,
    name: Addr,
    found: Option<Found>,
) -> Result<Outcome, Stop>
    requires some { 0 < length s.old.frames }
    requires live { IsLive V.sense v.old }
    requires safe { Safe V.sense.partial (found_method {S = state.State} (raising.place_of s.old.roots) o name.0 found)
        (V.sense.heap v.old) }
    ensures { Moves V.sense (ended p.now s.old 1 (found_method (raising.place_of s.old.roots) o name.0 found))
        v.old s.old v.new s.new result }
{
    match found {
        Some(found) => give_found(s, o, found),
        None => no_method(alloc, v, p, s, o, name),
    }
}

/// LOAD_METHOD, by the address of the name.
fn method_by<V: View<ThreadState>>(
    alloc: Global,
    v: &mut V,
    p: &Prepared,
    s: &mut ThreadState,
    o: Value,
    name: Addr,
) -> Result<Outcome, Stop>
    requires some { 0 < length s.old.frames }
    requires live { IsLive V.sense v.old }
    requires safe { Safe V.sense.partial (method_by p.now s.old o name.0) (V.sense.heap v.old) }
    ensures { Moves V.sense (method_by p.now s.old o name.0) v.old s.old v.new s.new result }
{
    let found = find_attr(alloc, v, place_of(s.roots()), o, name)?;
    found_method(alloc, v, p, s, o, name, found)
}

/// LOAD_METHOD of a name that is no builtin method of the object's kind, by the name's string.
fn attr_method<V: View<ThreadState>>(
    alloc: Global,
    v: &mut V,
    p: &Prepared,
    s: &mut ThreadState,
    n: u32,
    o: Value,
) -> Result<Outcome, Stop>
    requires some { 0 < length s.old.frames }
    requires live { IsLive V.sense v.old }
    requires safe { Safe V.sense.partial (attr_method p.now s.old n o) (V.sense.heap v.old) }
    ensures { Moves V.sense (attr_method p.now s.old n o) v.old s.old v.new s.new result }
{
    let name = look(v, place_of(s.roots()), n as usize)?;
    method_by(alloc, v, p, s, o, place_in(name))
}

/// LOAD_METHOD of a name that is the builtin method of this number, or none of the object's kind.
fn method_or_attr<V: View<ThreadState>>(
    alloc: Global,
    v: &mut V,
    p: &Prepared,
    s: &mut ThreadState,
    n: u32,
    o: Value,
    method: Option<u8>,
) -> Result<Outcome, Stop>
    requires some { 0 < length s.old.frames }
    requires live { IsLive V.sense v.old }
    requires safe { Safe V.sense.partial (kind_method p.now s.old n o method) (V.sense.heap v.old) }
    ensures { Moves V.sense (kind_method p.now s.old n o method) v.old s.old v.new s.new result }
{
    match method {
        Some(b) => give_two(s, 1, Value::Builtin(b), o),
        None => attr_method(alloc, v, p, s, n, o),
    }
}

/// LOAD_METHOD of a record.
fn load_method<V: View<ThreadState>>(
    alloc: Global,
    v: &mut V,
    p: &Prepared,
    s: &mut ThreadState,
    n: u32,
    a: Addr,
) -> Result<Outcome, Stop>
    requires some { 0 < length s.old.frames }
    requires operand { state.operands 1 (innermost s.old.frames) ≡ Ref a ∷ [] }
    requires live { IsLive V.sense v.old }
    requires safe { Safe V.sense.partial (steps.step_at p.now s.old (innermost s.old.frames) (drop 1 s.old.frames)
        (Some (LoadMethod n))) (V.sense.heap v.old) }
    ensures { Moves V.sense (steps.step_at p.now s.old (innermost s.old.frames) (drop 1 s.old.frames)
        (Some (LoadMethod n))) v.old s.old v.new s.new result }
{
    let kind = kind(v, a)?;
    let method = method_of(kind, root_name(p.program(), n));
    method_or_attr(alloc, v, p, s, n, Value::Ref(a), method)
}

/// STORE_GLOBAL of a value.
fn store_global<V: View<ThreadState>>(
    v: &mut V,
    p: &Prepared,
    s: &mut ThreadState,
    g: u32,
    x: Value,
) -> Result<Outcome, Stop>
    requires some { 0 < length s.old.frames }
    requires operands { state.operands 1 (innermost s.old.frames) ≡ x ∷ [] }
    requires set { x ≢ Unset }
    requires live { IsLive V.sense v.old }
    requires safe { Safe V.sense.partial (steps.step_at p.now s.old (innermost s.old.frames) (drop 1 s.old.frames)
        (Some (StoreGlobal g))) (V.sense.heap v.old) }
    ensures { Moves V.sense (steps.step_at p.now s.old (innermost s.old.frames) (drop 1 s.old.frames)
        (Some (StoreGlobal g))) v.old s.old v.new s.new result }
{
    let _set = set_global(v, place_of(s.roots()), g, x)?;
    give_none(s, 1)
}

/// NEXT of a record.
fn next_of<V: View<ThreadState>>(
    alloc: Global,
    v: &mut V,
    p: &Prepared,
    s: &mut ThreadState,
    place: u32,
    a: Addr,
) -> Result<Outcome, Stop>
    requires some { 0 < length s.old.frames }
    requires operand { state.operands 1 (innermost s.old.frames) ≡ Ref a ∷ [] }
    requires live { IsLive V.sense v.old }
    requires safe { Safe V.sense.partial (steps.step_at p.now s.old (innermost s.old.frames) (drop 1 s.old.frames)
        (Some (Next place))) (V.sense.heap v.old) }
    ensures { Moves V.sense (steps.step_at p.now s.old (innermost s.old.frames) (drop 1 s.old.frames)
        (Some (Next place))) v.old s.old v.new s.new result }
{
    let got = next(alloc, v, a)?;
    next_or_end(alloc, v, p, s, place, Value::Ref(a), got)
}

/// The step of a thread that has a frame: does the instruction at hand, by a fast path where its operands hold
/// something, or by its row, and what it leads to.
pub fn go<V: View<ThreadState>>(
    alloc: Global,
    v: &mut V,
    p: &Prepared,
    s: &mut ThreadState,
    i: Instr,
) -> Result<Outcome, Stop>
    requires some { 0 < length s.old.frames }
    requires operator { HasOperator i }
    requires live { IsLive V.sense v.old }
    requires safe { Safe V.sense.partial (steps.step_at p.now s.old (innermost s.old.frames) (drop 1 s.old.frames)
        (Some i)) (V.sense.heap v.old) }
    ensures { Moves V.sense (steps.step_at p.now s.old (innermost s.old.frames) (drop 1 s.old.frames) (Some i)) v.old
        s.old v.new s.new result }
{
    match i {
        Instr::Const(c) => return constant(v, p, s, c),
        Instr::LoadGlobal(g) => return load_global(alloc, v, p, s, g),
        Instr::StoreGlobal(g) => {
            if let Some(x) = operand(s) {
                return store_global(v, p, s, g, x);
            }
        }
        Instr::LoadItem => {
            if let Some((o, key)) = two_operands(s) {
                return load_item(alloc, v, p, s, o, key);
            }
        }
        Instr::StoreItem => {
            if let Some((x, o, key)) = three_operands(s) {
                return store_item(alloc, v, p, s, x, o, key);
            }
        }
        Instr::LoadAttr(n) => {
            if let Some(o) = operand(s) {
                return load_attr(alloc, v, p, s, n, o);
            }
        }
        Instr::StoreAttr(n) => {
            if let Some((x, o)) = two_operands(s) {
                return store_attr(alloc, v, p, s, n, x, o);
            }
        }
        Instr::LoadMethod(n) => {
            if let Some(Value::Ref(a)) = operand(s) {
                return load_method(alloc, v, p, s, n, a);
            }
        }
        Instr::Next(place) => {
            if let Some(Value::Ref(a)) = operand(s) {
                return next_of(alloc, v, p, s, place, a);
            }
        }
        Instr::Call(m, l) => {
            if let Some(f) = find_callee(p, s, m as usize, l) {
                return call(alloc, v, p, s, m, l, f);
            }
        }
        Instr::CallMethod(m, l) => {
            if let Some(f) = find_callee(p, s, m as usize + 1, l) {
                return call_method(alloc, v, p, s, m, l, f);
            }
        }
        _ => (),
    }
    go_by_row(alloc, v, p, s, i)
}
