//! How the arguments of a call are bound to the slots of a new frame.
ghost use Rattle.std.specs.Prelude.{◌≡◌, List, [], ◌∷◌, ◌++◌, length, map, OnOk, IfOk, IfSome};
ghost use Rattle.py_data.specs.declared.record.Got.TheVariants.{Is};
ghost use Rattle.py_data.specs.declared.value.Value.{Value};
ghost use Rattle.py_data.specs.Sense.{Meets, Safe, IsLive};
ghost use Rattle.py_frames.specs.Binding as binding;
ghost use Rattle.py_frames.specs.Raising as raising;
ghost use Rattle.py_frames.specs.State as state;

use crate::named::{all_named, are_named, last_defaults, push_filled, push_unset};
use obj_ops::values_of;
use py_base::{Bytes, first, skip};
use py_code::Program;
use py_data::exception::TYPE_ERROR;
use py_data::{Addr, Got, NoMemory, Stop, Value, Values, View, look};
use py_frames::{Blocks, Frame};
use py_parts::{Given, Passed, parameters, params_at, place_in, slots_at, told, values_row};
use std::alloc::{AllocError, Global};

/// The number in a value. No list in memory is so long that 32 bits wouldn't hold it.
pub fn count_in(x: Value) -> Result<u32, NoMemory>
    ensures { IfOk result (λ n. n ≡ raising.count_in x) }
{
    match x {
        Value::Int(n) => {
            if n < 0 {
                Ok(0)
            } else if n <= 4_294_967_295 {
                Ok(n as u32)
            } else {
                Err(AllocError)
            }
        }
        _ => Ok(0),
    }
}

/// Of parameters that have no argument the last ones have so many defaults; the keywords are among them, and those
/// that have no default are named.
fn are_filled(p: &Program, names: &[Bytes], keys: &[u32], defaults: usize) -> bool
    ensures { result ≡ binding.are_filled names.now (map (state.root_name p.now) keys.now) defaults }
{
    are_named(p, names, keys)
        && all_named(p, first(names, names.len().saturating_sub(defaults)), keys)
}

/// So many arguments, these keywords and so many defaults are enough for a code, and not too much.
fn fits_call(p: &Program, n: u32, args: usize, keys: &[u32], defaults: usize) -> bool
    ensures { result ≡ binding.fits_call (state.code_at p.now n) args (map (state.root_name p.now) keys.now) defaults }
{
    args <= params_at(p, n) && are_filled(p, skip(parameters(p, n), args), keys, defaults)
}

/// What the parameters without an argument get, of which the last ones have these defaults.
fn push_others(
    alloc: Global,
    out: &mut Values,
    p: &Program,
    names: &[Bytes],
    g: &Passed<'_, '_>,
    defaults: &[Value],
) -> Result<(), NoMemory>
    ensures { OnOk result (out.new ≡ out.old ++ binding.filled names.now (map (state.root_name p.now) g.now.names)
        g.now.values (binding.last_defaults (length names.now) defaults.now)) }
{
    if names.is_empty() {
        return Ok(());
    }
    let beside = last_defaults(alloc, names.len(), defaults)?;
    push_filled(out, p, names, g.names, g.values, beside.as_slice())
}

/// How many slots without a value stand behind the arguments in the frame of a call of a code, if `m` arguments without
/// keywords are all that it takes. Then no default is used.
pub fn plain_slots(p: &Program, n: u32, m: usize) -> Option<usize>
    ensures { IfSome result (λ k. (g : binding.Given) → length g.args ≡ m → g.names ≡ [] → (ds : List Value) →
        binding.bound_to p.now g n ds ≡ Is (binding.entered n (g.args ++ binding.unset_slots k))) }
{
    let params = params_at(p, n);
    if params == m {
        Some(slots_at(p, n).len().saturating_sub(params))
    } else {
        None
    }
}

/// The slots of the frame: the arguments, what the other parameters get, and nothing in the slots behind them.
fn bound_slots(
    alloc: Global,
    p: &Program,
    n: u32,
    g: &Passed<'_, '_>,
    count: usize,
    defaults: &[Value],
) -> Result<Values, NoMemory>
    requires { count ≡ length g.now.args }
    ensures { IfOk result (λ xs. xs ≡ binding.bound_slots (state.code_at p.now n) g.now.args
        (map (state.root_name p.now) g.now.names) g.now.values defaults.now) }
{
    let mut slots = Values::new(alloc);
    g.push_args(&mut slots)?;
    push_others(
        alloc,
        &mut slots,
        p,
        skip(parameters(p, n), count),
        g,
        defaults,
    )?;
    push_unset(
        &mut slots,
        slots_at(p, n).len().saturating_sub(params_at(p, n)),
    )?;
    Ok(slots)
}

/// A frame at the start of a code.
fn entered(alloc: Global, n: u32, slots: Values) -> Frame
    ensures { result ≡ binding.entered n slots }
{
    Frame {
        code: n,
        pc: 0,
        slots,
        stack: Values::new(alloc),
        blocks: Blocks::new(alloc),
        made: Value::Unset,
        names: None,
    }
}

/// The frame of a call of a code, or TypeError.
#[tactic(auto, unfolding(py_frames::specs::Binding::bound_to))]
fn bound_to(
    alloc: Global,
    p: &Program,
    g: &Passed<'_, '_>,
    n: u32,
    defaults: &[Value],
) -> Result<Got<Frame>, NoMemory>
    ensures { IfOk result (λ x. x ≡ binding.bound_to p.now g.now n defaults.now) }
{
    let count = g.count()?;
    if fits_call(p, n, count, g.names, defaults.len()) {
        let slots = bound_slots(alloc, p, n, g, count, defaults)?;
        Ok(Got::Is(entered(alloc, n, slots)))
    } else {
        Ok(Got::Raise(told(alloc, TYPE_ERROR, b"wrong arguments")?))
    }
}

/// The same, by the address of the defaults.
#[tactic(auto, using(py_data::proofs::Rows::row_steps, py_data::proofs::Steps::call_steps), unfolding(py_frames::specs::Binding::defaulted_row))]
pub fn defaulted_row<S, V: View<S>>(
    alloc: Global,
    v: &mut V,
    p: &Program,
    g: &Passed<'_, '_>,
    n: u32,
    d: Addr,
) -> Result<Got<Frame>, Stop>
    requires live { IsLive V.sense v.old }
    requires safe { Safe V.sense.partial (binding.defaulted_row {S = S} p.now g.now n d.0) (V.sense.heap v.old) }
    ensures { Meets V.sense (binding.defaulted_row p.now g.now n d.0) v.old v.new result }
{
    let defaults = values_row(alloc, v, d)?;
    Ok(bound_to(alloc, p, g, n, defaults.as_slice())?)
}

/// The same, of a Function whose code has that number.
#[tactic(auto, using(py_data::proofs::Rows::row_steps, py_data::proofs::Steps::call_steps), unfolding(py_frames::specs::Binding::numbered_row))]
fn numbered_row<S, V: View<S>>(
    alloc: Global,
    v: &mut V,
    p: &Program,
    g: &Passed<'_, '_>,
    f: Addr,
    n: u32,
) -> Result<Got<Frame>, Stop>
    requires live { IsLive V.sense v.old }
    requires safe { Safe V.sense.partial (binding.numbered_row {S = S} p.now g.now f.0 n) (V.sense.heap v.old) }
    ensures { Meets V.sense (binding.numbered_row p.now g.now f.0 n) v.old v.new result }
{
    let d = look(v, f, 2)?;
    defaulted_row(alloc, v, p, g, n, place_in(d))
}

/// What the call of the Function at an address enters, by what is passed on to it: its frame, or TypeError.
#[tactic(auto, using(py_data::proofs::Rows::row_steps, py_data::proofs::Steps::call_steps), unfolding(py_frames::specs::Binding::bound_row))]
pub fn passed_row<S, V: View<S>>(
    alloc: Global,
    v: &mut V,
    p: &Program,
    g: &Passed<'_, '_>,
    f: Addr,
) -> Result<Got<Frame>, Stop>
    requires live { IsLive V.sense v.old }
    requires safe { Safe V.sense.partial (binding.bound_row {S = S} p.now g.now f.0) (V.sense.heap v.old) }
    ensures { Meets V.sense (binding.bound_row p.now g.now f.0) v.old v.new result }
{
    let n = look(v, f, 1)?;
    numbered_row(alloc, v, p, g, f, count_in(n)?)
}

/// The same, where one argument more stands before all others.
#[tactic(auto, using(py_data::proofs::Rows::row_steps))]
pub fn bound_first<S, V: View<S>>(
    alloc: Global,
    v: &mut V,
    p: &Program,
    x: Value,
    g: &Given<'_>,
    f: Addr,
) -> Result<Got<Frame>, Stop>
    requires live { IsLive V.sense v.old }
    requires safe { Safe V.sense.partial (binding.bound_row {S = S} p.now (binding.with_first x g.now) f.0)
        (V.sense.heap v.old) }
    ensures { Meets V.sense (binding.bound_row p.now (binding.with_first x g.now) f.0) v.old v.new result }
{
    passed_row(alloc, v, p, &Passed::new(&[x], g), f)
}
