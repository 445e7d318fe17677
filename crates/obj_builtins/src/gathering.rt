//! `list`, `tuple`, `dict` and `sorted`.
ghost use Rattle.obj_builtins.specs.Gathering as gathering;
ghost use Rattle.py_data.specs.Sense.{Meets, Safe, IsLive};

use crate::arguments::{Few, Form, form_of_value};
use obj_methods::sorted;
use obj_ops::make_items;
use obj_seq::gather;
use obj_str::{too_long, wrong_arguments};
use py_data::{Got, Kind, LENGTH_LIMIT, Stop, Value, Values, View};
use std::alloc::Global;

/// The same, where they are no more than `LENGTH_LIMIT`. MemoryError where they are more.
#[tactic(auto, using(py_data::proofs::Rows::row_steps), unfolding(crate::specs::Gathering::items_made, obj_ops::specs::Sequences::new_items))]
fn make_short<S, V: View<S>>(
    alloc: Global,
    v: &mut V,
    kind: Kind,
    values: Values,
) -> Result<Got<Value>, Stop>
    requires live { IsLive V.sense v.old }
    requires safe { Safe V.sense.partial (gathering.items_made {S = S} kind values) (V.sense.heap v.old) }
    ensures { Meets V.sense (gathering.items_made kind values) v.old v.new result }
{
    if values.len() <= LENGTH_LIMIT {
        make_items(alloc, v, kind, values)
    } else {
        Ok(too_long())
    }
}

/// A new record of all items of a value.
#[tactic(auto, using(py_data::proofs::Rows::row_steps, py_data::proofs::Steps::call_steps), unfolding(crate::specs::Gathering::gathered_row))]
fn gathered<S, V: View<S>>(
    alloc: Global,
    v: &mut V,
    kind: Kind,
    x: Value,
) -> Result<Got<Value>, Stop>
    requires live { IsLive V.sense v.old }
    requires safe { Safe V.sense.partial (gathering.gathered_row {S = S} kind x) (V.sense.heap v.old) }
    ensures { Meets V.sense (gathering.gathered_row kind x) v.old v.new result }
{
    match gather(alloc, v, x)? {
        Got::Is(values) => make_short(alloc, v, kind, values),
        Got::Raise(e) => Ok(Got::Raise(e)),
    }
}

/// `list`: an empty list, or a new one of all items of a value.
#[tactic(auto, using(py_data::proofs::Rows::row_steps), unfolding(crate::specs::Gathering::list_row))]
pub fn list<S, V: View<S>>(alloc: Global, v: &mut V, args: Few) -> Result<Got<Value>, Stop>
    requires live { IsLive V.sense v.old }
    requires safe { Safe V.sense.partial (gathering.list_row {S = S} args) (V.sense.heap v.old) }
    ensures { Meets V.sense (gathering.list_row args) v.old v.new result }
{
    match args {
        Few::Nothing => make_items(alloc, v, Kind::List, Values::new(alloc)),
        Few::One(x) => gathered(alloc, v, Kind::List, x),
        Few::Many => wrong_arguments(alloc),
    }
}

/// The tuple of a value of this form: a tuple is its own.
#[tactic(auto, using(py_data::proofs::Rows::row_steps), unfolding(crate::specs::Gathering::tuple_of))]
fn tuple_of<S, V: View<S>>(alloc: Global, v: &mut V, x: Value, f: Form) -> Result<Got<Value>, Stop>
    requires live { IsLive V.sense v.old }
    requires safe { Safe V.sense.partial (gathering.tuple_of {S = S} x f) (V.sense.heap v.old) }
    ensures { Meets V.sense (gathering.tuple_of x f) v.old v.new result }
{
    match f {
        Form::Items(_) => Ok(Got::Is(x)),
        _ => gathered(alloc, v, Kind::Tuple, x),
    }
}

/// `tuple` of one argument.
#[tactic(auto, using(py_data::proofs::Rows::row_steps, py_data::proofs::Steps::call_steps), unfolding(crate::specs::Gathering::tuple_alone))]
fn tuple_alone<S, V: View<S>>(alloc: Global, v: &mut V, x: Value) -> Result<Got<Value>, Stop>
    requires live { IsLive V.sense v.old }
    requires safe { Safe V.sense.partial (gathering.tuple_alone {S = S} x) (V.sense.heap v.old) }
    ensures { Meets V.sense (gathering.tuple_alone x) v.old v.new result }
{
    let f = form_of_value(v, x)?;
    tuple_of(alloc, v, x, f)
}

/// `tuple`: an empty tuple, a tuple itself, or a new one of all items of a value.
#[tactic(auto, using(py_data::proofs::Rows::row_steps), unfolding(crate::specs::Gathering::tuple_row))]
pub fn tuple<S, V: View<S>>(alloc: Global, v: &mut V, args: Few) -> Result<Got<Value>, Stop>
    requires live { IsLive V.sense v.old }
    requires safe { Safe V.sense.partial (gathering.tuple_row {S = S} args) (V.sense.heap v.old) }
    ensures { Meets V.sense (gathering.tuple_row args) v.old v.new result }
{
    match args {
        Few::Nothing => make_items(alloc, v, Kind::Tuple, Values::new(alloc)),
        Few::One(x) => tuple_alone(alloc, v, x),
        Few::Many => wrong_arguments(alloc),
    }
}

/// `dict`: an empty dictionary.
#[tactic(auto, using(py_data::proofs::Rows::row_steps), unfolding(crate::specs::Gathering::dict_row))]
pub fn dict<S, V: View<S>>(alloc: Global, v: &mut V, args: Few) -> Result<Got<Value>, Stop>
    requires live { IsLive V.sense v.old }
    requires safe { Safe V.sense.partial (gathering.dict_row {S = S} args) (V.sense.heap v.old) }
    ensures { Meets V.sense (gathering.dict_row args) v.old v.new result }
{
    match args {
        Few::Nothing => make_items(alloc, v, Kind::Dict, Values::new(alloc)),
        _ => wrong_arguments(alloc),
    }
}

/// A new list of these values, sorted.
#[tactic(auto, using(py_data::proofs::Rows::row_steps, py_data::proofs::Steps::call_steps), unfolding(crate::specs::Gathering::sorted_items))]
fn sort_items<S, V: View<S>>(alloc: Global, v: &mut V, values: Values) -> Result<Got<Value>, Stop>
    requires live { IsLive V.sense v.old }
    requires safe { Safe V.sense.partial (gathering.sorted_items {S = S} values) (V.sense.heap v.old) }
    ensures { Meets V.sense (gathering.sorted_items values) v.old v.new result }
{
    match sorted(alloc, v, values)? {
        Got::Is(values) => make_short(alloc, v, Kind::List, values),
        Got::Raise(e) => Ok(Got::Raise(e)),
    }
}

/// `sorted` of one argument.
#[tactic(auto, using(py_data::proofs::Rows::row_steps, py_data::proofs::Steps::call_steps), unfolding(crate::specs::Gathering::sorted_alone))]
fn sorted_alone<S, V: View<S>>(alloc: Global, v: &mut V, x: Value) -> Result<Got<Value>, Stop>
    requires live { IsLive V.sense v.old }
    requires safe { Safe V.sense.partial (gathering.sorted_alone {S = S} x) (V.sense.heap v.old) }
    ensures { Meets V.sense (gathering.sorted_alone x) v.old v.new result }
{
    match gather(alloc, v, x)? {
        Got::Is(values) => sort_items(alloc, v, values),
        Got::Raise(e) => Ok(Got::Raise(e)),
    }
}

/// `sorted`: a new list of all items of a value, sorted.
#[tactic(auto, using(py_data::proofs::Rows::row_steps), unfolding(crate::specs::Gathering::sorted_by))]
pub fn sorted_list<S, V: View<S>>(
    alloc: Global,
    v: &mut V,
    x: Option<Value>,
) -> Result<Got<Value>, Stop>
    requires live { IsLive V.sense v.old }
    requires safe { Safe V.sense.partial (gathering.sorted_by {S = S} x) (V.sense.heap v.old) }
    ensures { Meets V.sense (gathering.sorted_by x) v.old v.new result }
{
    match x {
        Some(x) => sorted_alone(alloc, v, x),
        None => wrong_arguments(alloc),
    }
}
