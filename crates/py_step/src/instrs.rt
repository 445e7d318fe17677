//! The row of every instruction.
ghost use Rattle.std.specs.Prelude.{◌≡◌, ◌-◌, drop, IfOk};
ghost use Rattle.py_base.specs.declared.kind.Kind.{Kind};
ghost use Rattle.py_data.specs.Heap.{value_at};
ghost use Rattle.py_data.specs.Sense.{Meets, Safe, IsLive};
ghost use Rattle.py_data.specs.declared.value.Value.TheVariants.{Unset};
ghost use Rattle.py_frames.specs.declared.next.Next.TheVariants.{Goes};
ghost use Rattle.py_frames.specs.AttrInstrs as attrs;
ghost use Rattle.py_frames.specs.Binding.{with_own};
ghost use Rattle.py_frames.specs.BuildRows as builds;
ghost use Rattle.py_frames.specs.CallRows as calls;
ghost use Rattle.py_frames.specs.FunctionRows as functions;
ghost use Rattle.py_frames.specs.GlobalRows as globals;
ghost use Rattle.py_frames.specs.LocalRows as locals;
ghost use Rattle.py_frames.specs.Raising as raising;
ghost use Rattle.py_frames.specs.State as state;
ghost use Rattle.py_frames.specs.Steps as steps;
ghost use Rattle.py_states.specs.Innermost.{innermost};
ghost use Rattle.py_step.specs.inner.Operators.{HasOperator};

use crate::place::place_of;
use py_base::{first, skip};
use py_calls::value_call;
use py_code::Instr;
use py_data::{Kind, NoMemory, Stop, Value, Values, View, value_or_unset};
use py_frames::{Next, Pushed};
use py_instrs::{
    binary_instr, build_dict_row, compare_instr, const_row, del_attr_instr, del_global_row,
    del_item_instr, in_place_instr, iter_instr, jump_false_row, keep_false_row, keep_true_row,
    load_attr_row, load_item_row, load_method_row, next_instr, not_row, setup_row, slice_instr,
    store_attr_row, store_global_row, store_item_row, store_name_row, unary_instr, unpack_row,
};
use py_parts::{Given, Site, code_name, keys_at, pass, push_two, root_name, slot_name};
use py_raises::{
    class_body_row, exc_match_row, made_alone, made_valued, make_function_row, print_item_row,
    print_newline_row, raise_value,
};
use py_states::ThreadState;
use std::alloc::Global;

/// An operand, from the lowest one on, which is at 0; Unset where there are not so many. Each instruction takes out
/// those that it wants.
#[inline(always)]
fn at(xs: &[Value], i: usize) -> Value
    ensures { result ≡ value_at xs.now i }
{
    value_or_unset(xs, i)
}

/// These values are pushed, the last on top.
fn push_all(alloc: Global, xs: &[Value]) -> Result<Next, NoMemory>
    ensures { IfOk result (λ n. n ≡ Goes xs.now) }
{
    Ok(Next::Goes(Pushed::from_slice(alloc, xs)?))
}

/// LOAD_LOCAL.
#[tactic(auto, using(py_data::proofs::Rows::row_steps))]
fn load_local<S, V: View<S>>(
    alloc: Global,
    v: &mut V,
    s: &Site<'_>,
    t: &ThreadState,
    i: u32,
) -> Result<Next, Stop>
    requires live { IsLive V.sense v.old }
    requires safe { let f = innermost t.now.frames in Safe V.sense.partial
        (locals.load_local_row {S = S} s.now.roots (state.slot_name s.now.program f i) (value_at f.slots i))
        (V.sense.heap v.old) }
    ensures { let f = innermost t.now.frames in Meets V.sense
        (locals.load_local_row s.now.roots (state.slot_name s.now.program f i) (value_at f.slots i)) v.old v.new
        result }
{
    let name = slot_name(s.program, t.code(), i);
    py_instrs::load_local_row(alloc, v, s.roots, name, t.slot(i as usize))
}

/// DEL_LOCAL.
#[tactic(auto, using(py_data::proofs::Rows::row_steps))]
fn del_local<S, V: View<S>>(
    alloc: Global,
    v: &mut V,
    s: &Site<'_>,
    t: &ThreadState,
    i: u32,
) -> Result<Next, Stop>
    requires live { IsLive V.sense v.old }
    requires safe { let f = innermost t.now.frames in Safe V.sense.partial
        (locals.del_local_row {S = S} s.now.roots (state.slot_name s.now.program f i) i (value_at f.slots i))
        (V.sense.heap v.old) }
    ensures { let f = innermost t.now.frames in Meets V.sense
        (locals.del_local_row s.now.roots (state.slot_name s.now.program f i) i (value_at f.slots i)) v.old v.new
        result }
{
    let name = slot_name(s.program, t.code(), i);
    py_instrs::del_local_row(alloc, v, s.roots, name, i, t.slot(i as usize))
}

/// LOAD_GLOBAL.
#[tactic(auto, using(py_data::proofs::Rows::row_steps))]
fn load_global<S, V: View<S>>(alloc: Global, v: &mut V, s: &Site<'_>, g: u32) -> Result<Next, Stop>
    requires live { IsLive V.sense v.old }
    requires safe { Safe V.sense.partial
        (let name = state.root_name s.now.program g in globals.load_global_row {S = S} s.now.roots g name
        (globals.builtin_named s.now.program name)) (V.sense.heap v.old) }
    ensures { Meets V.sense (let name = state.root_name s.now.program g in globals.load_global_row s.now.roots g name
        (globals.builtin_named s.now.program name)) v.old v.new result }
{
    let name = root_name(s.program, g);
    py_instrs::load_global_row(alloc, v, s.roots, s.program, g, name)
}

/// LOAD_NAME.
#[tactic(auto, using(py_data::proofs::Rows::row_steps))]
fn load_name<S, V: View<S>>(
    alloc: Global,
    v: &mut V,
    s: &Site<'_>,
    t: &ThreadState,
    n: u32,
) -> Result<Next, Stop>
    requires live { IsLive V.sense v.old }
    requires safe { let f = innermost t.now.frames in Safe V.sense.partial
        (let name = state.root_name s.now.program n in globals.load_name_row {S = S} s.now.roots
        (raising.place_of f.names) n name (globals.builtin_named s.now.program name)
        (globals.cell_number s.now.program name)) (V.sense.heap v.old) }
    ensures { let f = innermost t.now.frames in Meets V.sense
        (let name = state.root_name s.now.program n in globals.load_name_row s.now.roots (raising.place_of f.names) n
        name (globals.builtin_named s.now.program name) (globals.cell_number s.now.program name)) v.old v.new result }
{
    let name = root_name(s.program, n);
    py_instrs::load_name_row(alloc, v, s.roots, s.program, place_of(t.names()), n, name)
}

/// LOAD_METHOD.
#[tactic(auto, using(py_data::proofs::Rows::row_steps))]
fn load_method<S, V: View<S>>(
    alloc: Global,
    v: &mut V,
    s: &Site<'_>,
    n: u32,
    o: Value,
) -> Result<Next, Stop>
    requires live { IsLive V.sense v.old }
    requires safe { Safe V.sense.partial
        (attrs.load_method_row {S = S} s.now.roots n (state.root_name s.now.program n) o) (V.sense.heap v.old) }
    ensures { Meets V.sense (attrs.load_method_row s.now.roots n (state.root_name s.now.program n) o) v.old v.new result }
{
    load_method_row(alloc, v, s.roots, n, root_name(s.program, n), o)
}

/// STORE_NAME.
#[tactic(auto, using(py_data::proofs::Rows::row_steps))]
fn store_name<S, V: View<S>>(
    alloc: Global,
    v: &mut V,
    s: &Site<'_>,
    t: &ThreadState,
    n: u32,
    x: Value,
) -> Result<Next, Stop>
    requires live { IsLive V.sense v.old }
    requires safe { let f = innermost t.now.frames in Safe V.sense.partial
        (globals.store_name_row {S = S} s.now.roots (raising.place_of f.names) n x) (V.sense.heap v.old) }
    ensures { let f = innermost t.now.frames in Meets V.sense
        (globals.store_name_row s.now.roots (raising.place_of f.names) n x) v.old v.new result }
{
    store_name_row(alloc, v, s.roots, place_of(t.names()), n, x)
}

/// DEL_NAME.
#[tactic(auto, using(py_data::proofs::Rows::row_steps))]
fn del_name<S, V: View<S>>(
    alloc: Global,
    v: &mut V,
    s: &Site<'_>,
    t: &ThreadState,
    n: u32,
) -> Result<Next, Stop>
    requires live { IsLive V.sense v.old }
    requires safe { let f = innermost t.now.frames in Safe V.sense.partial
        (globals.del_name_row {S = S} s.now.roots (raising.place_of f.names) n (state.root_name s.now.program n))
        (V.sense.heap v.old) }
    ensures { let f = innermost t.now.frames in Meets V.sense
        (globals.del_name_row s.now.roots (raising.place_of f.names) n (state.root_name s.now.program n)) v.old v.new
        result }
{
    let name = root_name(s.program, n);
    py_instrs::del_name_row(alloc, v, s.roots, place_of(t.names()), n, name)
}

/// BUILD_TUPLE and BUILD_LIST: the new record has values of its own.
#[tactic(auto, using(py_data::proofs::Rows::row_steps))]
fn build<S, V: View<S>>(
    alloc: Global,
    v: &mut V,
    s: &Site<'_>,
    kind: Kind,
    xs: &[Value],
) -> Result<Next, Stop>
    requires live { IsLive V.sense v.old }
    requires safe { Safe V.sense.partial (builds.build_row {S = S} s.now.roots kind xs.now) (V.sense.heap v.old) }
    ensures { Meets V.sense (builds.build_row s.now.roots kind xs.now) v.old v.new result }
{
    let values = Values::from_slice(alloc, xs)?;
    py_instrs::build_row(alloc, v, s.roots, kind, values)
}

/// What a call gives, in these values: so many arguments, and behind them the values of a keyword list.
fn given<'a>(s: &Site<'a>, t: &ThreadState, m: u32, l: u32, xs: &'a [Value]) -> Given<'a>
    ensures { result ≡ steps.given_in s.now (innermost t.now.frames) m l xs.now }
{
    Given {
        args: first(xs, m as usize),
        names: keys_at(s.program, t.code(), l),
        values: skip(xs, m as usize),
    }
}

/// What the call of a method gives, whose operands are these: the object, if there is one, is an argument too. It
/// stands before the others already.
fn given_all<'a>(s: &Site<'a>, t: &ThreadState, m: u32, l: u32, xs: &'a [Value]) -> Given<'a>
    ensures { result ≡ with_own (value_at xs.now 1)
        (steps.given_in s.now (innermost t.now.frames) m l (drop 2 xs.now)) }
{
    let g = given(s, t, m, l, skip(xs, 2));
    match value_or_unset(xs, 1) {
        Value::Unset => g,
        _ => Given {
            args: first(skip(xs, 1), m as usize + 1),
            names: g.names,
            values: g.values,
        },
    }
}

/// CALL.
#[tactic(auto, using(py_data::proofs::Rows::row_steps))]
fn call<V: View<ThreadState>>(
    alloc: Global,
    v: &mut V,
    s: &Site<'_>,
    t: &ThreadState,
    m: u32,
    l: u32,
    xs: &[Value],
) -> Result<Next, Stop>
    requires live { IsLive V.sense v.old }
    requires safe { let f = innermost t.now.frames in Safe V.sense.partial
        (calls.value_call s.now Unset (steps.given_in s.now f m l (drop 1 xs.now)) (value_at xs.now 0))
        (V.sense.heap v.old) }
    ensures { let f = innermost t.now.frames in Meets V.sense
        (calls.value_call s.now Unset (steps.given_in s.now f m l (drop 1 xs.now)) (value_at xs.now 0)) v.old v.new
        result }
{
    let g = given(s, t, m, l, skip(xs, 1));
    value_call(alloc, v, s, Value::Unset, &g, &g, value_or_unset(xs, 0))
}

/// CALL_METHOD.
#[tactic(auto, using(py_data::proofs::Rows::row_steps))]
fn call_method<V: View<ThreadState>>(
    alloc: Global,
    v: &mut V,
    s: &Site<'_>,
    t: &ThreadState,
    m: u32,
    l: u32,
    xs: &[Value],
) -> Result<Next, Stop>
    requires live { IsLive V.sense v.old }
    requires safe { let f = innermost t.now.frames in Safe V.sense.partial
        (calls.value_call s.now (value_at xs.now 1) (steps.given_in s.now f m l (drop 2 xs.now)) (value_at xs.now 0))
        (V.sense.heap v.old) }
    ensures { let f = innermost t.now.frames in Meets V.sense
        (calls.value_call s.now (value_at xs.now 1) (steps.given_in s.now f m l (drop 2 xs.now)) (value_at xs.now 0))
        v.old v.new result }
{
    let g = given(s, t, m, l, skip(xs, 2));
    let all = given_all(s, t, m, l, xs);
    let own = value_or_unset(xs, 1);
    value_call(alloc, v, s, own, &g, &all, value_or_unset(xs, 0))
}

/// RETURN.
#[tactic(auto, using(py_data::proofs::Rows::row_steps))]
fn leave<S, V: View<S>>(
    alloc: Global,
    v: &mut V,
    s: &Site<'_>,
    t: &ThreadState,
    x: Value,
) -> Result<Next, Stop>
    requires live { IsLive V.sense v.old }
    requires safe { let f = innermost t.now.frames in Safe V.sense.partial
        (functions.return_row {S = S} s.now.roots s.now.thread (state.code_at s.now.program f.code).name
        (s.now.depth - 1) f x) (V.sense.heap v.old) }
    ensures { let f = innermost t.now.frames in Meets V.sense
        (functions.return_row s.now.roots s.now.thread (state.code_at s.now.program f.code).name
        (s.now.depth - 1) f x) v.old v.new result }
{
    let name = code_name(s.program, t.code());
    let below = s.depth.saturating_sub(1);
    py_raises::return_by(
        alloc,
        v,
        s.roots,
        s.thread,
        name,
        below,
        x,
        t.made(),
        t.names(),
    )
}

/// MAKE_FUNCTION.
#[tactic(auto, using(py_data::proofs::Rows::row_steps))]
fn make_function<S, V: View<S>>(
    alloc: Global,
    v: &mut V,
    s: &Site<'_>,
    n: u32,
    xs: &[Value],
) -> Result<Next, Stop>
    requires live { IsLive V.sense v.old }
    requires safe { Safe V.sense.partial
        (functions.make_function_row {S = S} s.now.roots (state.code_at s.now.program n).name n xs.now)
        (V.sense.heap v.old) }
    ensures { Meets V.sense (functions.make_function_row s.now.roots (state.code_at s.now.program n).name n xs.now)
        v.old v.new result }
{
    make_function_row(alloc, v, s.roots, code_name(s.program, n), n, xs)
}

/// MAKE_RAISED.
#[tactic(auto, using(py_data::proofs::Rows::row_steps))]
fn made_raised<S, V: View<S>>(
    alloc: Global,
    v: &mut V,
    s: &Site<'_>,
    xs: &[Value],
    n: u8,
) -> Result<Next, Stop>
    requires live { IsLive V.sense v.old }
    requires safe { Safe V.sense.partial (steps.made_raised_row {S = S} s.now xs.now n) (V.sense.heap v.old) }
    ensures { Meets V.sense (steps.made_raised_row s.now xs.now n) v.old v.new result }
{
    let x = value_or_unset(xs, 0);
    if n == 0 {
        made_alone(alloc, v, s, x)
    } else {
        made_valued(alloc, v, s, x, value_or_unset(xs, 1))
    }
}

/// Does an instruction over its operands `xs`, the lowest first, in the innermost frame of `t`.
#[tactic(auto, using(py_data::proofs::Rows::row_steps), unfolding(py_frames::specs::Steps::instr_row))]
pub fn instr_row<V: View<ThreadState>>(
    alloc: Global,
    v: &mut V,
    s: &Site<'_>,
    t: &ThreadState,
    xs: &[Value],
    i: Instr,
) -> Result<Next, Stop>
    requires operator { HasOperator i }
    requires live { IsLive V.sense v.old }
    requires safe { Safe V.sense.partial (steps.instr_row s.now (innermost t.now.frames) xs.now i)
        (V.sense.heap v.old) }
    ensures { Meets V.sense (steps.instr_row s.now (innermost t.now.frames) xs.now i) v.old v.new result }
{
    match i {
        Instr::Setup => setup_row(alloc, v, s.program),
        Instr::Const(c) => const_row(v, s.roots, c),
        Instr::Pop => Ok(pass()),
        Instr::Dup => Ok(push_two(at(xs, 0), at(xs, 0))),
        Instr::Rot2 => Ok(push_two(at(xs, 1), at(xs, 0))),
        Instr::Dup2 => Ok(push_all(alloc, &[at(xs, 0), at(xs, 1), at(xs, 0), at(xs, 1)])?),
        Instr::Rot3 => Ok(push_all(alloc, &[at(xs, 2), at(xs, 0), at(xs, 1)])?),
        Instr::LoadLocal(j) => load_local(alloc, v, s, t, j),
        Instr::StoreLocal(j) => Ok(Next::Stores(j, at(xs, 0))),
        Instr::DelLocal(j) => del_local(alloc, v, s, t, j),
        Instr::LoadGlobal(g) => load_global(alloc, v, s, g),
        Instr::StoreGlobal(g) => store_global_row(v, s.roots, g, at(xs, 0)),
        Instr::DelGlobal(g) => del_global_row(alloc, v, s.roots, g, root_name(s.program, g)),
        Instr::LoadName(n) => load_name(alloc, v, s, t, n),
        Instr::StoreName(n) => store_name(alloc, v, s, t, n, at(xs, 0)),
        Instr::DelName(n) => del_name(alloc, v, s, t, n),
        Instr::LoadAttr(n) => load_attr_row(alloc, v, s.roots, n, at(xs, 0)),
        Instr::StoreAttr(n) => store_attr_row(alloc, v, s.roots, n, at(xs, 0), at(xs, 1)),
        Instr::DelAttr(n) => del_attr_instr(alloc, v, s.roots, n, at(xs, 0)),
        Instr::LoadMethod(n) => load_method(alloc, v, s, n, at(xs, 0)),
        Instr::LoadItem => load_item_row(alloc, v, s.roots, at(xs, 0), at(xs, 1)),
        Instr::StoreItem => store_item_row(alloc, v, s.roots, at(xs, 0), at(xs, 1), at(xs, 2)),
        Instr::DelItem => del_item_instr(alloc, v, s.roots, at(xs, 0), at(xs, 1)),
        Instr::Slice => slice_instr(alloc, v, s.roots, at(xs, 0), at(xs, 1), at(xs, 2)),
        Instr::Unary(o) => unary_instr(alloc, v, s.roots, o, at(xs, 0)),
        Instr::Not => not_row(v, at(xs, 0)),
        Instr::Binary(o) => binary_instr(alloc, v, s.roots, o, at(xs, 0), at(xs, 1)),
        Instr::InPlace(o) => in_place_instr(alloc, v, s.roots, o, at(xs, 0), at(xs, 1)),
        Instr::Compare(o) => compare_instr(alloc, v, s.roots, o, at(xs, 0), at(xs, 1)),
        Instr::Jump(place) => Ok(Next::Jumps(place, Pushed::none())),
        Instr::JumpFalse(place) => jump_false_row(v, place, at(xs, 0)),
        Instr::KeepFalse(place) => keep_false_row(v, place, at(xs, 0)),
        Instr::KeepTrue(place) => keep_true_row(v, place, at(xs, 0)),
        Instr::BuildTuple(_) => build(alloc, v, s, Kind::Tuple, xs),
        Instr::BuildList(_) => build(alloc, v, s, Kind::List, xs),
        Instr::BuildDict(_) => build_dict_row(alloc, v, s.roots, xs),
        Instr::Unpack(n) => unpack_row(alloc, v, s.roots, n, at(xs, 0)),
        Instr::Iter => iter_instr(alloc, v, s.roots, at(xs, 0)),
        Instr::Next(place) => next_instr(alloc, v, s.roots, place, at(xs, 0)),
        Instr::Call(m, l) => call(alloc, v, s, t, m, l, xs),
        Instr::CallMethod(m, l) => call_method(alloc, v, s, t, m, l, xs),
        Instr::Return => leave(alloc, v, s, t, at(xs, 0)),
        Instr::MakeFunction(n, _) => make_function(alloc, v, s, n, xs),
        Instr::ClassBody(n) => class_body_row(alloc, v, s, n, at(xs, 0)),
        Instr::Try(place) => Ok(Next::Opens(place)),
        Instr::PopTry => Ok(Next::Closes),
        Instr::ExcMatch => exc_match_row(alloc, v, s.roots, at(xs, 0), at(xs, 1)),
        Instr::MakeRaised(n) => made_raised(alloc, v, s, xs, n),
        Instr::Raise => raise_value(alloc, v, s.roots, at(xs, 0)),
        Instr::PrintItem => print_item_row(alloc, v, s.roots, at(xs, 0)),
        Instr::PrintNewline => print_newline_row(v),
    }
}
