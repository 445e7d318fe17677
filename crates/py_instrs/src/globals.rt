//! Global names, and the names of a class body.
ghost use Rattle.std.specs.Prelude.{◌≡◌, IfOk};
ghost use Rattle.py_data.specs.Sense.{Meets, Safe, IsLive};
ghost use Rattle.obj_class.specs.AttrRows.{held_row};
ghost use Rattle.py_frames.specs.GlobalRows.{bound_row, builtin_named, cell_number, clear_cell_row, cleared_row, del_global_row, del_name_row, drop_name_row, gone_row, load_cell_row, load_global_row, load_name_row, name_fault, named_row, outer_row, own_or_outer, put_name_row, set_cell_row, store_global_row, store_name_row, unbound_row};
ghost use Rattle.py_frames.specs.Raising.{raise_row};

use crate::builtins::builtin_named;
use crate::locals::const_row;
use obj_class::held;
use py_code::{Constant, Program};
use py_data::exception::NAME_ERROR;
use py_data::{Addr, Fault, Got, NoMemory, Stop, Value, View, look};
use py_frames::Next;
use py_parts::{cell_number, done, pass, place_in, push, raise_row, told_name};
use std::alloc::Global;

/// The exception of a name that nothing is bound to.
fn name_fault(alloc: Global, name: &[u8]) -> Result<Fault, NoMemory>
    ensures { IfOk result (λ e. e ≡ name_fault name.now) }
{
    told_name(alloc, NAME_ERROR, b"name '", name, b"' is not defined")
}

/// Raises the exception of a name that nothing is bound to.
#[tactic(auto, using(py_data::proofs::Rows::row_steps))]
fn raise_unbound<S, V: View<S>>(
    alloc: Global,
    v: &mut V,
    roots: Addr,
    name: &[u8],
) -> Result<Next, Stop>
    requires live { IsLive V.sense v.old }
    requires safe { Safe V.sense.partial (raise_row {S = S} roots.0 (name_fault name.now)) (V.sense.heap v.old) }
    ensures { Meets V.sense (raise_row roots.0 (name_fault name.now)) v.old v.new result }
{
    let e = name_fault(alloc, name)?;
    raise_row(alloc, v, roots, &e)
}

/// Pushes the builtin `o` that stands for a name, if there is one.
#[tactic(auto, using(py_data::proofs::Rows::row_steps), unfolding(py_frames::specs::GlobalRows::unbound_row))]
fn unbound_row<S, V: View<S>>(
    alloc: Global,
    v: &mut V,
    roots: Addr,
    name: &[u8],
    o: Option<Constant>,
) -> Result<Next, Stop>
    requires live { IsLive V.sense v.old }
    requires safe { Safe V.sense.partial (unbound_row {S = S} roots.0 name.now o) (V.sense.heap v.old) }
    ensures { Meets V.sense (unbound_row roots.0 name.now o) v.old v.new result }
{
    match o {
        Some(c) => const_row(v, roots, c),
        None => raise_unbound(alloc, v, roots, name),
    }
}

/// Pushes the builtin that stands for a name, if there is one.
#[tactic(auto, using(py_data::proofs::Rows::row_steps))]
fn named_builtin<S, V: View<S>>(
    alloc: Global,
    v: &mut V,
    roots: Addr,
    p: &Program,
    name: &[u8],
) -> Result<Next, Stop>
    requires live { IsLive V.sense v.old }
    requires safe { Safe V.sense.partial (unbound_row {S = S} roots.0 name.now (builtin_named p.now name.now))
        (V.sense.heap v.old) }
    ensures { Meets V.sense (unbound_row roots.0 name.now (builtin_named p.now name.now)) v.old v.new result }
{
    let o = builtin_named(p, name)?;
    unbound_row(alloc, v, roots, name, o)
}

/// Pushes what the cell of a name holds, or else the builtin of that name.
#[tactic(auto, using(py_data::proofs::Rows::row_steps), unfolding(py_frames::specs::GlobalRows::bound_row))]
pub fn bound_row<S, V: View<S>>(
    alloc: Global,
    v: &mut V,
    roots: Addr,
    p: &Program,
    name: &[u8],
    x: Value,
) -> Result<Next, Stop>
    requires live { IsLive V.sense v.old }
    requires safe { Safe V.sense.partial (bound_row {S = S} roots.0 name.now (builtin_named p.now name.now) x)
        (V.sense.heap v.old) }
    ensures { Meets V.sense (bound_row roots.0 name.now (builtin_named p.now name.now) x) v.old v.new result }
{
    match x {
        Value::Unset => named_builtin(alloc, v, roots, p, name),
        _ => Ok(push(x)),
    }
}

/// The same of the cell at an address.
#[tactic(auto, using(py_data::proofs::Rows::row_steps, py_data::proofs::Steps::call_steps), unfolding(py_frames::specs::GlobalRows::load_cell_row))]
fn load_cell_row<S, V: View<S>>(
    alloc: Global,
    v: &mut V,
    roots: Addr,
    p: &Program,
    name: &[u8],
    a: Addr,
) -> Result<Next, Stop>
    requires live { IsLive V.sense v.old }
    requires safe { Safe V.sense.partial (load_cell_row {S = S} roots.0 name.now (builtin_named p.now name.now) a.0)
        (V.sense.heap v.old) }
    ensures { Meets V.sense (load_cell_row roots.0 name.now (builtin_named p.now name.now) a.0) v.old v.new result }
{
    let x = look(v, a, 0)?;
    bound_row(alloc, v, roots, p, name, x)
}

/// LOAD_GLOBAL, of the cell that is the root of number `g`, of that name. Only where the cell holds nothing the
/// program's builtins are looked through.
#[tactic(auto, using(py_data::proofs::Rows::row_steps, py_data::proofs::Steps::call_steps), unfolding(py_frames::specs::GlobalRows::load_global_row))]
pub fn load_global_row<S, V: View<S>>(
    alloc: Global,
    v: &mut V,
    roots: Addr,
    p: &Program,
    g: u32,
    name: &[u8],
) -> Result<Next, Stop>
    requires live { IsLive V.sense v.old }
    requires safe { Safe V.sense.partial (load_global_row {S = S} roots.0 g name.now (builtin_named p.now name.now))
        (V.sense.heap v.old) }
    ensures { Meets V.sense (load_global_row roots.0 g name.now (builtin_named p.now name.now)) v.old v.new result }
{
    let cell = look(v, roots, g as usize)?;
    load_cell_row(alloc, v, roots, p, name, place_in(cell))
}

/// Puts a value into a cell.
#[tactic(auto, using(py_data::proofs::Rows::change_steps), unfolding(py_frames::specs::GlobalRows::set_cell_row))]
fn set_cell_row<S, V: View<S>>(v: &mut V, a: Addr, x: Value) -> Result<Next, Stop>
    requires live { IsLive V.sense v.old }
    requires safe { Safe V.sense.partial (set_cell_row {S = S} a.0 x) (V.sense.heap v.old) }
    ensures { Meets V.sense (set_cell_row a.0 x) v.old v.new result }
{
    v.set_val(a, 0, x)?;
    Ok(pass())
}

/// STORE_GLOBAL, in the cell that is the root of number `g`.
#[tactic(auto, using(py_data::proofs::Rows::row_steps, py_data::proofs::Steps::call_steps), unfolding(py_frames::specs::GlobalRows::store_global_row))]
pub fn store_global_row<S, V: View<S>>(
    v: &mut V,
    roots: Addr,
    g: u32,
    x: Value,
) -> Result<Next, Stop>
    requires live { IsLive V.sense v.old }
    requires safe { Safe V.sense.partial (store_global_row {S = S} roots.0 g x) (V.sense.heap v.old) }
    ensures { Meets V.sense (store_global_row roots.0 g x) v.old v.new result }
{
    let cell = look(v, roots, g as usize)?;
    set_cell_row(v, place_in(cell), x)
}

/// Empties a cell that holds `x`.
#[tactic(auto, using(py_data::proofs::Rows::row_steps), unfolding(py_frames::specs::GlobalRows::cleared_row))]
fn cleared_row<S, V: View<S>>(
    alloc: Global,
    v: &mut V,
    roots: Addr,
    name: &[u8],
    a: Addr,
    x: Value,
) -> Result<Next, Stop>
    requires live { IsLive V.sense v.old }
    requires safe { Safe V.sense.partial (cleared_row {S = S} roots.0 name.now a.0 x) (V.sense.heap v.old) }
    ensures { Meets V.sense (cleared_row roots.0 name.now a.0 x) v.old v.new result }
{
    match x {
        Value::Unset => raise_unbound(alloc, v, roots, name),
        _ => set_cell_row(v, a, Value::Unset),
    }
}

/// Empties a cell.
#[tactic(auto, using(py_data::proofs::Rows::row_steps, py_data::proofs::Steps::call_steps), unfolding(py_frames::specs::GlobalRows::clear_cell_row))]
fn clear_cell_row<S, V: View<S>>(
    alloc: Global,
    v: &mut V,
    roots: Addr,
    name: &[u8],
    a: Addr,
) -> Result<Next, Stop>
    requires live { IsLive V.sense v.old }
    requires safe { Safe V.sense.partial (clear_cell_row {S = S} roots.0 name.now a.0) (V.sense.heap v.old) }
    ensures { Meets V.sense (clear_cell_row roots.0 name.now a.0) v.old v.new result }
{
    let x = look(v, a, 0)?;
    cleared_row(alloc, v, roots, name, a, x)
}

/// DEL_GLOBAL, of the cell that is the root of number `g`, of that name.
#[tactic(auto, using(py_data::proofs::Rows::row_steps, py_data::proofs::Steps::call_steps), unfolding(py_frames::specs::GlobalRows::del_global_row))]
pub fn del_global_row<S, V: View<S>>(
    alloc: Global,
    v: &mut V,
    roots: Addr,
    g: u32,
    name: &[u8],
) -> Result<Next, Stop>
    requires live { IsLive V.sense v.old }
    requires safe { Safe V.sense.partial (del_global_row {S = S} roots.0 g name.now) (V.sense.heap v.old) }
    ensures { Meets V.sense (del_global_row roots.0 g name.now) v.old v.new result }
{
    let cell = look(v, roots, g as usize)?;
    clear_cell_row(alloc, v, roots, name, place_in(cell))
}

/// Pushes the global of a name, whose cell's number is `g`, if it has one, or else the builtin of that name.
#[tactic(auto, using(py_data::proofs::Rows::row_steps), unfolding(py_frames::specs::GlobalRows::outer_row))]
fn outer_row<S, V: View<S>>(
    alloc: Global,
    v: &mut V,
    roots: Addr,
    p: &Program,
    name: &[u8],
    g: Option<u32>,
) -> Result<Next, Stop>
    requires live { IsLive V.sense v.old }
    requires safe { Safe V.sense.partial (outer_row {S = S} roots.0 name.now (builtin_named p.now name.now) g)
        (V.sense.heap v.old) }
    ensures { Meets V.sense (outer_row roots.0 name.now (builtin_named p.now name.now) g) v.old v.new result }
{
    match g {
        Some(g) => load_global_row(alloc, v, roots, p, g, name),
        None => named_builtin(alloc, v, roots, p, name),
    }
}

/// The same, where the cell is looked for.
#[tactic(auto, using(py_data::proofs::Rows::row_steps))]
fn global_row<S, V: View<S>>(
    alloc: Global,
    v: &mut V,
    roots: Addr,
    p: &Program,
    name: &[u8],
) -> Result<Next, Stop>
    requires live { IsLive V.sense v.old }
    requires safe { Safe V.sense.partial (outer_row {S = S} roots.0 name.now (builtin_named p.now name.now)
        (cell_number p.now name.now)) (V.sense.heap v.old) }
    ensures { Meets V.sense (outer_row roots.0 name.now (builtin_named p.now name.now) (cell_number p.now name.now))
        v.old v.new result }
{
    let g = cell_number(p, name)?;
    outer_row(alloc, v, roots, p, name, g)
}

/// Pushes what a class body has for a name, or else the global.
#[tactic(auto, using(py_data::proofs::Rows::row_steps), unfolding(py_frames::specs::GlobalRows::named_row))]
fn named_row<S, V: View<S>>(
    alloc: Global,
    v: &mut V,
    roots: Addr,
    p: &Program,
    name: &[u8],
    x: Option<Value>,
) -> Result<Next, Stop>
    requires live { IsLive V.sense v.old }
    requires safe { Safe V.sense.partial (named_row {S = S} roots.0 name.now (builtin_named p.now name.now)
        (cell_number p.now name.now) x) (V.sense.heap v.old) }
    ensures { Meets V.sense (named_row roots.0 name.now (builtin_named p.now name.now) (cell_number p.now name.now) x)
        v.old v.new result }
{
    match x {
        Some(x) => Ok(push(x)),
        None => global_row(alloc, v, roots, p, name),
    }
}

/// The same, by the dictionary of the class body.
#[tactic(auto, using(py_data::proofs::Rows::row_steps, py_data::proofs::Steps::call_steps), unfolding(py_frames::specs::GlobalRows::own_or_outer))]
fn own_or_outer<S, V: View<S>>(
    alloc: Global,
    v: &mut V,
    roots: Addr,
    p: &Program,
    d: Addr,
    name: &[u8],
    key: Value,
) -> Result<Next, Stop>
    requires live { IsLive V.sense v.old }
    requires safe { Safe V.sense.partial (own_or_outer {S = S} roots.0 d.0 name.now (builtin_named p.now name.now)
        (cell_number p.now name.now) key) (V.sense.heap v.old) }
    ensures { Meets V.sense (own_or_outer roots.0 d.0 name.now (builtin_named p.now name.now)
        (cell_number p.now name.now) key) v.old v.new result }
{
    let x = held(v, d, key)?;
    named_row(alloc, v, roots, p, name, x)
}

/// LOAD_NAME, of the name that is the root of number `n`, in the dictionary `d` of a class body: where it hasn't the
/// name, the program's global of that name, or else the builtin.
#[tactic(auto, using(py_data::proofs::Rows::row_steps, py_data::proofs::Steps::call_steps), unfolding(py_frames::specs::GlobalRows::load_name_row))]
pub fn load_name_row<S, V: View<S>>(
    alloc: Global,
    v: &mut V,
    roots: Addr,
    p: &Program,
    d: Addr,
    n: u32,
    name: &[u8],
) -> Result<Next, Stop>
    requires live { IsLive V.sense v.old }
    requires safe { Safe V.sense.partial (load_name_row {S = S} roots.0 d.0 n name.now (builtin_named p.now name.now)
        (cell_number p.now name.now)) (V.sense.heap v.old) }
    ensures { Meets V.sense (load_name_row roots.0 d.0 n name.now (builtin_named p.now name.now)
        (cell_number p.now name.now)) v.old v.new result }
{
    let key = look(v, roots, n as usize)?;
    own_or_outer(alloc, v, roots, p, d, name, key)
}

/// Puts a value under a key into the dictionary of a class body.
#[tactic(auto, using(py_data::proofs::Rows::row_steps, py_data::proofs::Steps::call_steps), unfolding(py_frames::specs::GlobalRows::put_name_row))]
fn put_name_row<S, V: View<S>>(
    alloc: Global,
    v: &mut V,
    roots: Addr,
    d: Addr,
    x: Value,
    key: Value,
) -> Result<Next, Stop>
    requires live { IsLive V.sense v.old }
    requires safe { Safe V.sense.partial (put_name_row {S = S} roots.0 d.0 x key) (V.sense.heap v.old) }
    ensures { Meets V.sense (put_name_row roots.0 d.0 x key) v.old v.new result }
{
    let got = obj_dict::set(alloc, v, d, key, x)?;
    done(alloc, v, roots, got)
}

/// STORE_NAME, of the name that is the root of number `n`, in the dictionary `d` of a class body.
#[tactic(auto, using(py_data::proofs::Rows::row_steps, py_data::proofs::Steps::call_steps), unfolding(py_frames::specs::GlobalRows::store_name_row))]
pub fn store_name_row<S, V: View<S>>(
    alloc: Global,
    v: &mut V,
    roots: Addr,
    d: Addr,
    n: u32,
    x: Value,
) -> Result<Next, Stop>
    requires live { IsLive V.sense v.old }
    requires safe { Safe V.sense.partial (store_name_row {S = S} roots.0 d.0 n x) (V.sense.heap v.old) }
    ensures { Meets V.sense (store_name_row roots.0 d.0 n x) v.old v.new result }
{
    let key = look(v, roots, n as usize)?;
    put_name_row(alloc, v, roots, d, x, key)
}

/// What follows once a name was taken out, or wasn't there.
#[tactic(auto, using(py_data::proofs::Rows::row_steps), unfolding(py_frames::specs::GlobalRows::gone_row))]
fn gone_row<S, V: View<S>>(
    alloc: Global,
    v: &mut V,
    roots: Addr,
    name: &[u8],
    got: Got<Value>,
) -> Result<Next, Stop>
    requires live { IsLive V.sense v.old }
    requires safe { Safe V.sense.partial (gone_row {S = S} roots.0 name.now got) (V.sense.heap v.old) }
    ensures { Meets V.sense (gone_row roots.0 name.now got) v.old v.new result }
{
    match got {
        Got::Is(_) => Ok(pass()),
        Got::Raise(_) => raise_unbound(alloc, v, roots, name),
    }
}

/// Takes a key out of the dictionary of a class body.
#[tactic(auto, using(py_data::proofs::Rows::row_steps, py_data::proofs::Steps::call_steps), unfolding(py_frames::specs::GlobalRows::drop_name_row))]
fn drop_name_row<S, V: View<S>>(
    alloc: Global,
    v: &mut V,
    roots: Addr,
    d: Addr,
    name: &[u8],
    key: Value,
) -> Result<Next, Stop>
    requires live { IsLive V.sense v.old }
    requires safe { Safe V.sense.partial (drop_name_row {S = S} roots.0 d.0 name.now key) (V.sense.heap v.old) }
    ensures { Meets V.sense (drop_name_row roots.0 d.0 name.now key) v.old v.new result }
{
    let got = obj_dict::del(alloc, v, d, key)?;
    gone_row(alloc, v, roots, name, got)
}

/// DEL_NAME, of the name that is the root of number `n`, in the dictionary `d` of a class body.
#[tactic(auto, using(py_data::proofs::Rows::row_steps, py_data::proofs::Steps::call_steps), unfolding(py_frames::specs::GlobalRows::del_name_row))]
pub fn del_name_row<S, V: View<S>>(
    alloc: Global,
    v: &mut V,
    roots: Addr,
    d: Addr,
    n: u32,
    name: &[u8],
) -> Result<Next, Stop>
    requires live { IsLive V.sense v.old }
    requires safe { Safe V.sense.partial (del_name_row {S = S} roots.0 d.0 n name.now) (V.sense.heap v.old) }
    ensures { Meets V.sense (del_name_row roots.0 d.0 n name.now) v.old v.new result }
{
    let key = look(v, roots, n as usize)?;
    drop_name_row(alloc, v, roots, d, name, key)
}
