//! SETUP, which makes the roots of a program.
ghost use Rattle.std.specs.Prelude.{◌≡◌, []};
ghost use Rattle.py_data.specs.Sense.{Meets, Safe, IsLive};
ghost use Rattle.py_frames.specs.SetupRows.{begun_row, cell_start, class_dict, class_root, named_class, root_by, roots_row, setup_row};

use obj_class::{make_record, make_text, one, own_name, root_base, three};
use py_base::split;
use py_code::{Program, Root};
use py_data::{Bytes, Kind, Record, Stop, Value, Values, View};
use py_frames::Next;
use std::alloc::Global;

/// Makes a class without attributes, whose name and Dict are at hand.
#[tactic(auto, using(py_data::proofs::Rows::row_steps, py_data::proofs::Steps::call_steps), unfolding(py_frames::specs::SetupRows::named_class))]
fn named_class<S, V: View<S>>(
    alloc: Global,
    v: &mut V,
    n: u8,
    before: &Values,
    name: Value,
    dict: Value,
) -> Result<Value, Stop>
    requires live { IsLive V.sense v.old }
    requires safe { Safe V.sense.partial (named_class {S = S} n before.now name dict) (V.sense.heap v.old) }
    ensures { Meets V.sense (named_class n before.now name dict) v.old v.new result }
{
    let values = three(alloc, name, root_base(before, n), dict)?;
    make_record(alloc, v, Kind::Class, values)
}

/// Makes a class without attributes, whose name is at hand.
#[tactic(auto, using(py_data::proofs::Rows::row_steps, py_data::proofs::Steps::call_steps), unfolding(py_frames::specs::SetupRows::class_dict))]
fn class_dict<S, V: View<S>>(
    alloc: Global,
    v: &mut V,
    n: u8,
    before: &Values,
    name: Value,
) -> Result<Value, Stop>
    requires live { IsLive V.sense v.old }
    requires safe { Safe V.sense.partial (class_dict {S = S} n before.now name) (V.sense.heap v.old) }
    ensures { Meets V.sense (class_dict n before.now name) v.old v.new result }
{
    let dict = make_record(alloc, v, Kind::Dict, Values::new(alloc))?;
    named_class(alloc, v, n, before, name, dict)
}

/// Makes the class of a number.
#[tactic(auto, using(py_data::proofs::Rows::row_steps, py_data::proofs::Steps::call_steps), unfolding(py_frames::specs::SetupRows::class_root))]
fn class_root<S, V: View<S>>(
    alloc: Global,
    v: &mut V,
    n: u8,
    before: &Values,
) -> Result<Value, Stop>
    requires live { IsLive V.sense v.old }
    requires safe { Safe V.sense.partial (class_root {S = S} n before.now) (V.sense.heap v.old) }
    ensures { Meets V.sense (class_root n before.now) v.old v.new result }
{
    let name = make_text(alloc, v, own_name(n))?;
    class_dict(alloc, v, n, before, name)
}

/// What a Cell has at first: the first one the count of threads, and the others nothing yet.
fn cell_start(before: &[Value]) -> Value
    ensures { result ≡ cell_start before.now }
{
    match before {
        [] => Value::Int(1),
        _ => Value::Unset,
    }
}

/// Makes one root, behind those before it.
#[tactic(auto, using(py_data::proofs::Rows::row_steps, py_data::proofs::Steps::call_steps), unfolding(py_frames::specs::SetupRows::root_by))]
fn root_by<S, V: View<S>>(
    alloc: Global,
    v: &mut V,
    r: &Root,
    before: &Values,
) -> Result<Value, Stop>
    requires live { IsLive V.sense v.old }
    requires safe { Safe V.sense.partial (root_by {S = S} r.now before.now r.now.kind) (V.sense.heap v.old) }
    ensures { Meets V.sense (root_by r.now before.now r.now.kind) v.old v.new result }
{
    match r.kind {
        Kind::Cell => {
            let values = one(alloc, cell_start(before.as_slice()))?;
            make_record(alloc, v, Kind::Cell, values)
        }
        Kind::Class => class_root(alloc, v, r.number, before),
        Kind::Str => make_text(alloc, v, r.bytes.as_slice()),
        _ => Ok(Value::None),
    }
}

/// Makes the roots in their order.
fn roots_row<S, V: View<S>>(alloc: Global, v: &mut V, roots: &[Root]) -> Result<Values, Stop>
    requires live { IsLive V.sense v.old }
    requires safe { Safe V.sense.partial (roots_row {S = S} roots.now []) (V.sense.heap v.old) }
    ensures { Meets V.sense (roots_row roots.now []) v.old v.new result }
{
    let mut values = Values::new(alloc);
    let mut rest = roots;
    'turns: while let Some((r, more)) = split(rest) {
        let x = root_by(alloc, v, r, &values)?;
        values.push(x)?;
        rest = more;
    }
    Ok(values)
}

/// Makes the list of the roots.
#[tactic(auto, using(py_data::proofs::Rows::row_steps), unfolding(py_frames::specs::SetupRows::begun_row))]
fn begun_row<S, V: View<S>>(alloc: Global, v: &mut V, values: Values) -> Result<Next, Stop>
    requires live { IsLive V.sense v.old }
    requires safe { Safe V.sense.partial (begun_row {S = S} values) (V.sense.heap v.old) }
    ensures { Meets V.sense (begun_row values) v.old v.new result }
{
    let made = Record {
        kind: Kind::Tuple,
        values,
        bytes: Bytes::new(alloc),
    };
    let a = v.make(&made)?;
    Ok(Next::Begins(a))
}

/// SETUP: makes the roots of a program, and the list of them.
#[tactic(auto, using(py_data::proofs::Rows::row_steps, py_data::proofs::Steps::call_steps), unfolding(py_frames::specs::SetupRows::setup_row))]
pub fn setup_row<S, V: View<S>>(alloc: Global, v: &mut V, p: &Program) -> Result<Next, Stop>
    requires live { IsLive V.sense v.old }
    requires safe { Safe V.sense.partial (setup_row {S = S} p.now) (V.sense.heap v.old) }
    ensures { Meets V.sense (setup_row p.now) v.old v.new result }
{
    let values = roots_row(alloc, v, p.roots.as_slice())?;
    begun_row(alloc, v, values)
}
