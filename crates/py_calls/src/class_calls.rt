//! The call of a class, which makes an instance.
ghost use Rattle.std.specs.Prelude.{◌≡◌};
ghost use Rattle.py_data.specs.Fault.{depth_fault};
ghost use Rattle.py_data.specs.Sense.{Meets, Safe, IsLive};
ghost use Rattle.py_frames.specs.ClassCalls as class_calls;
ghost use Rattle.py_frames.specs.Raising as raising;

use crate::binding::bound_first;
use crate::instances::new_instance;
use obj_class::{inherited, is_sub};
use py_data::exception::{BASE_EXCEPTION, RUNTIME_ERROR, TYPE_ERROR};
use py_data::{Addr, Got, Kind, Stop, Value, View, kind, look};
use py_frames::{Frame, Next};
use py_parts::{Given, Site, enter, give, place_in, raise_row, raise_text};
use std::alloc::Global;

/// At most so many frames stand in one another.
pub const MOST_FRAMES: usize = 1_000;

/// It raises that frames stand too deep in one another.
#[tactic(auto, using(py_data::proofs::Rows::row_steps))]
fn raise_depth<S, V: View<S>>(alloc: Global, v: &mut V, roots: Addr) -> Result<Next, Stop>
    requires live { IsLive V.sense v.old }
    requires safe { Safe V.sense.partial (raising.raise_row {S = S} roots.0 depth_fault) (V.sense.heap v.old) }
    ensures { Meets V.sense (raising.raise_row roots.0 depth_fault) v.old v.new result }
{
    raise_text(
        alloc,
        v,
        roots,
        RUNTIME_ERROR,
        b"maximum recursion depth exceeded",
    )
}

/// The frame is entered, where there is room for one more. RuntimeError where there is none.
#[tactic(auto, using(py_data::proofs::Rows::row_steps), unfolding(py_frames::specs::ClassCalls::entered_row))]
pub fn entered_row<S, V: View<S>>(
    alloc: Global,
    v: &mut V,
    s: &Site<'_>,
    got: Got<Frame>,
) -> Result<Next, Stop>
    requires live { IsLive V.sense v.old }
    requires safe { Safe V.sense.partial (class_calls.entered_row {S = S} s.now got) (V.sense.heap v.old) }
    ensures { Meets V.sense (class_calls.entered_row s.now got) v.old v.new result }
{
    match got {
        Got::Is(f) => {
            if s.depth < MOST_FRAMES {
                Ok(enter(alloc, f)?)
            } else {
                raise_depth(alloc, v, s.roots)
            }
        }
        Got::Raise(e) => raise_row(alloc, v, s.roots, &e),
    }
}

/// What a class has by the name that is the root of this number.
#[tactic(auto, using(py_data::proofs::Rows::row_steps, py_data::proofs::Steps::call_steps), unfolding(py_frames::specs::ClassCalls::init_by))]
fn init_by<S, V: View<S>>(
    v: &mut V,
    roots: Addr,
    c: Addr,
    n: Option<usize>,
) -> Result<Option<Value>, Stop>
    requires live { IsLive V.sense v.old }
    requires safe { Safe V.sense.partial (class_calls.init_by {S = S} roots.0 c.0 n) (V.sense.heap v.old) }
    ensures { Meets V.sense (class_calls.init_by roots.0 c.0 n) v.old v.new result }
{
    match n {
        Some(n) => {
            let key = look(v, roots, n)?;
            inherited(v, key, Value::Ref(c))
        }
        None => Ok(None),
    }
}

/// The `__init__` of a class; a program that doesn't name it has none.
#[tactic(auto, using(py_data::proofs::Rows::row_steps), unfolding(py_frames::specs::ClassCalls::init_row))]
fn init_row<S, V: View<S>>(v: &mut V, s: &Site<'_>, c: Addr) -> Result<Option<Value>, Stop>
    requires live { IsLive V.sense v.old }
    requires safe { Safe V.sense.partial (class_calls.init_row {S = S} s.now c.0) (V.sense.heap v.old) }
    ensures { Meets V.sense (class_calls.init_row s.now c.0) v.old v.new result }
{
    init_by(v, s.roots, c, s.init_number()?)
}

/// Whether a class is an exception class.
#[tactic(auto, using(py_data::proofs::Rows::row_steps, py_data::proofs::Steps::call_steps), unfolding(py_frames::specs::ClassCalls::exception_class_row))]
pub fn exception_class_row<S, V: View<S>>(v: &mut V, roots: Addr, c: Addr) -> Result<bool, Stop>
    requires live { IsLive V.sense v.old }
    requires safe { Safe V.sense.partial (class_calls.exception_class_row {S = S} roots.0 c.0) (V.sense.heap v.old) }
    ensures { Meets V.sense (class_calls.exception_class_row roots.0 c.0) v.old v.new result }
{
    let b = look(v, roots, 1 + BASE_EXCEPTION as usize)?;
    is_sub(v, c, place_in(b))
}

/// Without an `__init__` only an exception class takes arguments, and none takes keywords.
fn takes(exception: bool, g: &Given<'_>) -> bool
    ensures { result ≡ class_calls.takes exception g.now }
{
    if exception {
        g.names.is_empty()
    } else {
        g.args.is_empty() && g.names.is_empty()
    }
}

/// An instance is made and pushed.
#[tactic(auto, using(py_data::proofs::Rows::row_steps, py_data::proofs::Steps::call_steps), unfolding(py_frames::specs::ClassCalls::given_instance))]
fn given_instance<S, V: View<S>>(
    alloc: Global,
    v: &mut V,
    s: &Site<'_>,
    c: Addr,
    g: &Given<'_>,
    exception: bool,
) -> Result<Next, Stop>
    requires live { IsLive V.sense v.old }
    requires safe { Safe V.sense.partial (class_calls.given_instance {S = S} s.now c.0 g.now exception)
        (V.sense.heap v.old) }
    ensures { Meets V.sense (class_calls.given_instance s.now c.0 g.now exception) v.old v.new result }
{
    let x = new_instance(alloc, v, c, g.args, exception)?;
    give(alloc, v, s.roots, x)
}

/// The same, where the class takes the arguments. TypeError where it doesn't.
#[tactic(auto, using(py_data::proofs::Rows::row_steps), unfolding(py_frames::specs::ClassCalls::bare_call))]
fn bare_call<S, V: View<S>>(
    alloc: Global,
    v: &mut V,
    s: &Site<'_>,
    c: Addr,
    g: &Given<'_>,
    exception: bool,
) -> Result<Next, Stop>
    requires live { IsLive V.sense v.old }
    requires safe { Safe V.sense.partial (class_calls.bare_call {S = S} s.now c.0 g.now exception)
        (V.sense.heap v.old) }
    ensures { Meets V.sense (class_calls.bare_call s.now c.0 g.now exception) v.old v.new result }
{
    if takes(exception, g) {
        given_instance(alloc, v, s, c, g, exception)
    } else {
        raise_text(alloc, v, s.roots, TYPE_ERROR, b"wrong arguments")
    }
}

/// The frame of an `__init__` gets the instance as its first argument.
fn made_by(f: Frame, x: Value) -> Frame
    ensures { result ≡ class_calls.made_by f x }
{
    let mut slots = f.slots;
    if slots.len() > 0 {
        slots.set(0, x);
    }
    Frame {
        code: f.code,
        pc: f.pc,
        slots,
        stack: f.stack,
        blocks: f.blocks,
        made: x,
        names: f.names,
    }
}

/// The frame of an `__init__` is entered with the instance that was made.
#[tactic(auto, using(py_data::proofs::Rows::row_steps), unfolding(py_frames::specs::ClassCalls::with_instance))]
fn with_instance<S, V: View<S>>(
    alloc: Global,
    v: &mut V,
    s: &Site<'_>,
    f: Frame,
    got: Got<Value>,
) -> Result<Next, Stop>
    requires live { IsLive V.sense v.old }
    requires safe { Safe V.sense.partial (class_calls.with_instance {S = S} s.now f got) (V.sense.heap v.old) }
    ensures { Meets V.sense (class_calls.with_instance s.now f got) v.old v.new result }
{
    match got {
        Got::Is(x) => Ok(enter(alloc, made_by(f, x))?),
        Got::Raise(e) => raise_row(alloc, v, s.roots, &e),
    }
}

/// The instance is made, and the frame entered.
#[tactic(auto, using(py_data::proofs::Rows::row_steps, py_data::proofs::Steps::call_steps), unfolding(py_frames::specs::ClassCalls::making_row))]
fn making_row<S, V: View<S>>(
    alloc: Global,
    v: &mut V,
    s: &Site<'_>,
    c: Addr,
    g: &Given<'_>,
    exception: bool,
    f: Frame,
) -> Result<Next, Stop>
    requires live { IsLive V.sense v.old }
    requires safe { Safe V.sense.partial (class_calls.making_row {S = S} s.now c.0 g.now exception f)
        (V.sense.heap v.old) }
    ensures { Meets V.sense (class_calls.making_row s.now c.0 g.now exception f) v.old v.new result }
{
    let x = new_instance(alloc, v, c, g.args, exception)?;
    with_instance(alloc, v, s, f, x)
}

/// The same, where the arguments could be bound and there is room for one frame more.
#[tactic(auto, using(py_data::proofs::Rows::row_steps), unfolding(py_frames::specs::ClassCalls::init_entered))]
fn init_entered<S, V: View<S>>(
    alloc: Global,
    v: &mut V,
    s: &Site<'_>,
    c: Addr,
    g: &Given<'_>,
    exception: bool,
    got: Got<Frame>,
) -> Result<Next, Stop>
    requires live { IsLive V.sense v.old }
    requires safe { Safe V.sense.partial (class_calls.init_entered {S = S} s.now c.0 g.now exception got)
        (V.sense.heap v.old) }
    ensures { Meets V.sense (class_calls.init_entered s.now c.0 g.now exception got) v.old v.new result }
{
    match got {
        Got::Is(f) => {
            if s.depth < MOST_FRAMES {
                making_row(alloc, v, s, c, g, exception, f)
            } else {
                raise_depth(alloc, v, s.roots)
            }
        }
        Got::Raise(e) => raise_row(alloc, v, s.roots, &e),
    }
}

/// The call of a class whose `__init__` is the Function at an address. The arguments are bound before the instance is
/// made, with nothing yet in its place.
#[tactic(auto, using(py_data::proofs::Rows::row_steps, py_data::proofs::Steps::call_steps), unfolding(py_frames::specs::ClassCalls::function_init))]
fn function_init<S, V: View<S>>(
    alloc: Global,
    v: &mut V,
    s: &Site<'_>,
    c: Addr,
    g: &Given<'_>,
    exception: bool,
    f: Addr,
) -> Result<Next, Stop>
    requires live { IsLive V.sense v.old }
    requires safe { Safe V.sense.partial (class_calls.function_init {S = S} s.now c.0 g.now exception f.0)
        (V.sense.heap v.old) }
    ensures { Meets V.sense (class_calls.function_init s.now c.0 g.now exception f.0) v.old v.new result }
{
    let x = bound_first(alloc, v, s.program, Value::Unset, g, f)?;
    init_entered(alloc, v, s, c, g, exception, x)
}

/// The same, where the `__init__` is a record of a kind. TypeError where it is no Function.
#[tactic(auto, using(py_data::proofs::Rows::row_steps), unfolding(py_frames::specs::ClassCalls::record_init))]
fn record_init<S, V: View<S>>(
    alloc: Global,
    v: &mut V,
    s: &Site<'_>,
    c: Addr,
    g: &Given<'_>,
    exception: bool,
    f: Addr,
    kind: Kind,
) -> Result<Next, Stop>
    requires live { IsLive V.sense v.old }
    requires safe { Safe V.sense.partial (class_calls.record_init {S = S} s.now c.0 g.now exception f.0 kind)
        (V.sense.heap v.old) }
    ensures { Meets V.sense (class_calls.record_init s.now c.0 g.now exception f.0 kind) v.old v.new result }
{
    match kind {
        Kind::Function => function_init(alloc, v, s, c, g, exception, f),
        _ => raise_text(alloc, v, s.roots, TYPE_ERROR, b"not callable"),
    }
}

/// The same, where the `__init__` is a value.
#[tactic(auto, using(py_data::proofs::Rows::row_steps, py_data::proofs::Steps::call_steps), unfolding(py_frames::specs::ClassCalls::value_init))]
fn value_init<S, V: View<S>>(
    alloc: Global,
    v: &mut V,
    s: &Site<'_>,
    c: Addr,
    g: &Given<'_>,
    exception: bool,
    x: Value,
) -> Result<Next, Stop>
    requires live { IsLive V.sense v.old }
    requires safe { Safe V.sense.partial (class_calls.value_init {S = S} s.now c.0 g.now exception x)
        (V.sense.heap v.old) }
    ensures { Meets V.sense (class_calls.value_init s.now c.0 g.now exception x) v.old v.new result }
{
    match x {
        Value::Ref(f) => {
            let kind = kind(v, f)?;
            record_init(alloc, v, s, c, g, exception, f, kind)
        }
        _ => raise_text(alloc, v, s.roots, TYPE_ERROR, b"not callable"),
    }
}

/// The call of a class with an `__init__`, or without one.
#[tactic(auto, using(py_data::proofs::Rows::row_steps), unfolding(py_frames::specs::ClassCalls::init_or_bare))]
fn init_or_bare<S, V: View<S>>(
    alloc: Global,
    v: &mut V,
    s: &Site<'_>,
    c: Addr,
    g: &Given<'_>,
    init: Option<Value>,
    exception: bool,
) -> Result<Next, Stop>
    requires live { IsLive V.sense v.old }
    requires safe { Safe V.sense.partial (class_calls.init_or_bare {S = S} s.now c.0 g.now init exception)
        (V.sense.heap v.old) }
    ensures { Meets V.sense (class_calls.init_or_bare s.now c.0 g.now init exception) v.old v.new result }
{
    match init {
        Some(x) => value_init(alloc, v, s, c, g, exception, x),
        None => bare_call(alloc, v, s, c, g, exception),
    }
}

/// The same, with what the class has as its `__init__`.
#[tactic(auto, using(py_data::proofs::Rows::row_steps, py_data::proofs::Steps::call_steps), unfolding(py_frames::specs::ClassCalls::known_class))]
fn known_class<S, V: View<S>>(
    alloc: Global,
    v: &mut V,
    s: &Site<'_>,
    c: Addr,
    g: &Given<'_>,
    init: Option<Value>,
) -> Result<Next, Stop>
    requires live { IsLive V.sense v.old }
    requires safe { Safe V.sense.partial (class_calls.known_class {S = S} s.now c.0 g.now init) (V.sense.heap v.old) }
    ensures { Meets V.sense (class_calls.known_class s.now c.0 g.now init) v.old v.new result }
{
    let exception = exception_class_row(v, s.roots, c)?;
    init_or_bare(alloc, v, s, c, g, init, exception)
}

/// The call of the class at an address.
#[tactic(auto, using(py_data::proofs::Rows::row_steps, py_data::proofs::Steps::call_steps), unfolding(py_frames::specs::ClassCalls::class_call))]
pub fn class_call<S, V: View<S>>(
    alloc: Global,
    v: &mut V,
    s: &Site<'_>,
    g: &Given<'_>,
    c: Addr,
) -> Result<Next, Stop>
    requires live { IsLive V.sense v.old }
    requires safe { Safe V.sense.partial (class_calls.class_call {S = S} s.now g.now c.0) (V.sense.heap v.old) }
    ensures { Meets V.sense (class_calls.class_call s.now g.now c.0) v.old v.new result }
{
    let init = init_row(v, s, c)?;
    known_class(alloc, v, s, c, g, init)
}
