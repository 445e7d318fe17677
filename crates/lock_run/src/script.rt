//! A script: threads that do given acts over a few Cells and a List. It is a client for tests over what happens in a
//! machine.
ghost use Rattle.std.specs.Prelude.{◌≡◌, ◌↔◌, [], slice_get, IfOk, IsTrue, All};
ghost use Rattle.py_data.specs.Sense.{Meets, Safe, IsLive};
ghost use Rattle.py_data.specs.Made.{rec_of};
ghost use Rattle.lock_run.specs.declared.client.Outcome.TheVariants.{Ended};
ghost use Rattle.lock_run.specs.declared.script.ScriptState.TheVariants.{Over};
ghost use Rattle.lock_run.specs.Script.{zero_cell, empty_list, make_cells, start_threads, list_and_threads, prelude_row, look_row, set_row, push_row, act_row, IsFit, HasFit, AreFit};

use crate::client::{Client, Life, Outcome};
use py_data::{
    Addr, Bytes, Items, Kind, LENGTH_LIMIT, Names, NoMemory, Out, Peek, Record, Stop, Value,
    Values, View,
};
use std::alloc::Global;

/// What a thread does in one step.
#[derive(Clone, Copy, Debug, Drop, PartialEq, Eq)]
pub enum Act {
    /// Looks at the Cell of that number, from 0.
    Look(u32),
    /// Sets the Cell of that number to a whole number.
    Set(u32, i64),
    /// Pushes a whole number to the List, or only looks at it where it has `LENGTH_LIMIT` values.
    Push(i64),
    /// Writes one byte to the output.
    Put(u8),
}

/// The acts of one thread, in order.
pub type Acts = Items<Act>;

/// The state of a script's thread.
#[derive(Debug, Drop)]
pub enum ScriptState {
    /// Thread 0, which has not yet made the records and started the other threads.
    Prelude,
    /// A thread that has an act left.
    Acts {
        /// The number of its list of acts, from 0.
        number: usize,
        /// How many of these acts it did.
        done: usize,
        /// The addresses of the Cells.
        cells: Names,
        /// The address of the List.
        list: Addr,
    },
    /// The thread has ended.
    Over,
}

/// A record of that kind and these values, to be made.
fn record(alloc: Global, kind: Kind, values: Values) -> Record
    ensures kind { result.kind ≡ kind }
    ensures values { result.values ≡ values }
    ensures bytes { result.bytes ≡ [] }
{
    Record {
        kind,
        values,
        bytes: Bytes::new(alloc),
    }
}

/// A Cell that holds 0.
fn zero_cell(alloc: Global) -> Result<Record, NoMemory>
    ensures { IfOk result (λ r. rec_of r ≡ zero_cell) }
{
    let mut values = Values::new(alloc);
    values.push(Value::Int(0))?;
    Ok(record(alloc, Kind::Cell, values))
}

/// An empty List.
fn empty_list(alloc: Global) -> Record
    ensures { rec_of result ≡ empty_list }
{
    record(alloc, Kind::List, Values::new(alloc))
}

/// Makes so many Cells.
#[tactic(auto, using(py_data::proofs::Rows::row_steps))]
fn make_all<S, V: View<S>>(alloc: Global, v: &mut V, n: u32) -> Result<Names, Stop>
    requires live { IsLive V.sense v.old }
    ensures { Meets V.sense (make_cells n []) v.old v.new result }
{
    let cell = zero_cell(alloc)?;
    let mut cells = Names::new(alloc);
    for _i in 0..n {
        let a = v.make(&cell)?;
        cells.push(a)?;
    }
    Ok(cells)
}

/// Starts so many threads, one for each list of acts.
#[tactic(auto, using(py_data::proofs::Rows::row_steps))]
fn start_all<V: View<ScriptState>>(
    alloc: Global,
    v: &mut V,
    count: usize,
    cells: &Names,
    list: Addr,
) -> Result<(), Stop>
    requires live { IsLive V.sense v.old }
    ensures { Meets V.sense (start_threads count 0 cells.now list) v.old v.new result }
{
    for number in 0..count {
        let cells = cells.copy(alloc)?;
        v.start_thread(ScriptState::Acts {
            number,
            done: 0,
            cells,
            list,
        })?;
    }
    Ok(())
}

/// Makes the List, and starts the threads.
#[tactic(auto, using(py_data::proofs::Rows::row_steps, py_data::proofs::Steps::call_steps))]
fn list_and_threads<V: View<ScriptState>>(
    alloc: Global,
    v: &mut V,
    count: usize,
    cells: &Names,
) -> Result<(), Stop>
    requires live { IsLive V.sense v.old }
    ensures { Meets V.sense (list_and_threads count cells.now) v.old v.new result }
{
    let list = v.make(&empty_list(alloc))?;
    start_all(alloc, v, count, cells, list)
}

/// Makes the Cells and the List, and starts the threads.
#[tactic(auto, using(py_data::proofs::Rows::row_steps, py_data::proofs::Steps::call_steps), unfolding(crate::specs::Script::prelude_row))]
fn begin<V: View<ScriptState>>(
    alloc: Global,
    v: &mut V,
    cells: u32,
    count: usize,
) -> Result<(), Stop>
    requires live { IsLive V.sense v.old }
    ensures { Meets V.sense (prelude_row cells count) v.old v.new result }
{
    let cells = make_all(alloc, v, cells)?;
    list_and_threads(alloc, v, count, &cells)
}

/// The address of a Cell, if there is one of that number.
fn cell_at(cells: &Names, k: u32) -> Option<Addr>
    ensures { result ≡ slice_get cells.now k }
{
    cells.get(k as usize).copied()
}

/// Looks at a Cell, if there is one.
#[tactic(auto, using(py_data::proofs::Rows::row_steps), unfolding(crate::specs::Script::look_row))]
fn look<S, V: View<S>>(v: &mut V, cell: Option<Addr>) -> Result<(), Stop>
    requires live { IsLive V.sense v.old }
    requires safe { Safe V.sense.partial (look_row {S = S} cell) (V.sense.heap v.old) }
    ensures { Meets V.sense (look_row cell) v.old v.new result }
{
    if let Some(a) = cell {
        let _kind = v.kind(a)?;
    }
    Ok(())
}

/// Sets a Cell, if there is one.
#[tactic(auto, using(py_data::proofs::Rows::change_steps), unfolding(crate::specs::Script::set_row))]
fn set<S, V: View<S>>(v: &mut V, cell: Option<Addr>, value: Value) -> Result<(), Stop>
    requires live { IsLive V.sense v.old }
    requires safe { Safe V.sense.partial (set_row {S = S} cell value) (V.sense.heap v.old) }
    ensures { Meets V.sense (set_row cell value) v.old v.new result }
{
    if let Some(a) = cell {
        v.set_val(a, 0, value)?;
    }
    Ok(())
}

/// Pushes a value to the List, or only looks at it where it has as many values as a record may have.
#[tactic(auto, using(py_data::proofs::Rows::change_steps), unfolding(crate::specs::Script::push_row))]
fn push<S, V: View<S>>(v: &mut V, list: Addr, value: Value) -> Result<(), Stop>
    requires live { IsLive V.sense v.old }
    requires safe { Safe V.sense.partial (push_row {S = S} list value) (V.sense.heap v.old) }
    ensures { Meets V.sense (push_row list value) v.old v.new result }
{
    let n = v.len(list)?;
    if n < LENGTH_LIMIT {
        v.push_val(list, value)?;
    }
    Ok(())
}

/// Does an act.
#[tactic(auto, using(py_data::proofs::Rows::change_steps))]
fn perform<S, V: View<S>>(v: &mut V, cells: &Names, list: Addr, act: Act) -> Result<(), Stop>
    requires live { IsLive V.sense v.old }
    requires safe { Safe V.sense.partial (act_row {S = S} cells.now list act) (V.sense.heap v.old) }
    ensures { Meets V.sense (act_row cells.now list act) v.old v.new result }
{
    match act {
        Act::Look(k) => look(v, cell_at(cells, k)),
        Act::Set(k, n) => set(v, cell_at(cells, k), Value::Int(n)),
        Act::Push(n) => push(v, list, Value::Int(n)),
        Act::Put(byte) => v.put(Out::Output, &[byte]),
    }
}

/// Ends a thread.
fn end(s: &mut ScriptState) -> Outcome
    ensures ended { result ≡ Ended }
    ensures over { s.new ≡ Over }
{
    *s = ScriptState::Over;
    Outcome::Ended
}

/// The Cell of an act is one of so many.
fn is_fit(cells: u32, act: Act) -> bool
    ensures { IsTrue result ↔ IsFit cells act }
{
    match act {
        Act::Look(k) => k < cells,
        Act::Set(k, _) => k < cells,
        _ => true,
    }
}

/// Each act of a list is fit.
fn all_fit(cells: u32, acts: &[Act]) -> bool
    ensures { IsTrue result ↔ All (IsFit cells) acts.now }
{
    acts.iter().all(|act| is_fit(cells, *act))
}

/// A list has an act, and each is fit.
fn has_fit(cells: u32, acts: &Acts) -> bool
    ensures { IsTrue result ↔ HasFit cells acts.now }
{
    let some = acts.len() > 0;
    let fit = all_fit(cells, acts.as_slice());
    some && fit
}

/// Each list has an act, and each act is fit.
fn are_fit(cells: u32, lists: &[Acts]) -> bool
    ensures { IsTrue result ↔ AreFit cells lists.now }
{
    lists.iter().all(|acts| has_fit(cells, acts))
}

/// Two lists of addresses are equal.
fn are_same(a: &Names, b: &Names) -> bool
    ensures { IsTrue result ↔ (a.now ≡ b.now) }
{
    a.as_slice() == b.as_slice()
}

/// Threads that do given acts, as a client. The only step of thread 0 makes the Cells, which hold 0, and one empty
/// List, in this order, and starts threads 1, 2 and so on, one for each list of acts. Each act is a step of its
/// thread, and the last one ends it. No step waits.
#[derive(Debug, Drop)]
pub struct Script {
    cells: u32,
    lists: Vec<Acts>,
}

impl Script {
    ghost use Rattle.std.specs.Prelude.{◌≡◌, ◌<◌, ◌+◌, ◌^◌, length, true, false, IfSome};
    ghost use Rattle.lock_run.specs.Script.{cells_in, lists_in, act_at, AreFit};

    /// Whether these can make a script: there are fewer than 2^32 - 1 lists, none is empty, and each Cell that an act
    /// names is one of so many.
    pub fn fits(cells: u32, lists: &[Acts]) -> bool
        ensures few { result ≡ true → length lists.now + 1 < 2 ^ 32 }
        ensures fit { result ≡ true → AreFit cells lists.now }
        ensures not { result ≡ false → length lists.now + 1 < 2 ^ 32 → AreFit cells lists.now → ⊥ }
    {
        let few = lists.len() < u32::MAX as usize;
        let fit = are_fit(cells, lists);
        few && fit
    }

    /// A script of so many Cells, and of a list of acts for each thread but thread 0.
    pub fn new(cells: u32, lists: Vec<Acts>) -> Script
        requires few { length lists.items + 1 < 2 ^ 32 }
        requires fit { AreFit cells lists.items }
        ensures cells { cells_in result ≡ cells }
        ensures lists { lists_in result ≡ lists.items }
    {
        Script { cells, lists }
    }

    /// How many lists of acts there are.
    fn count(&self) -> usize
        ensures { result ≡ length (lists_in self.now) }
    {
        self.lists.len()
    }

    /// The act of a list that comes after so many, if there is one.
    fn act(&self, number: usize, done: usize) -> Option<Act>
        ensures is { result ≡ act_at (lists_in self.now) number done }
        ensures within { IfSome result (λ _. done + 1 < 2 ^ 64) }
    {
        match self.lists.get(number) {
            Some(acts) => {
                let _count = acts.len();
                acts.get(done).copied()
            }
            None => None,
        }
    }
}

impl Client for Script {
    ghost use Rattle.lock_run.specs.Script.{cells_in, lists_in, script_prog, ScriptSound};
    ghost use Rattle.lock_run.specs.inner.ScriptLaws.{script_sound_step, script_tells_life, script_waits_quietly, script_asks_to_print};
    ghost use Rattle.lock_run.specs.inner.ScriptSafe.{script_sound_safe};

    type State = ScriptState;

    ghost prog = { λ c. script_prog (cells_in c) (lists_in c) };

    ghost sound = { λ c. ScriptSound };

    ghost sound_step = { λ c. script_sound_step (cells_in c) (lists_in c) };

    ghost sound_safe = { λ c. script_sound_safe (cells_in c) (lists_in c) };

    ghost outcomes = { λ c. script_tells_life (cells_in c) (lists_in c) };

    ghost waits_quietly = { λ c. script_waits_quietly (cells_in c) (lists_in c) };

    ghost asks_to_print = { λ c. script_asks_to_print (cells_in c) (lists_in c) };

    fn first(&self, alloc: Global) -> Result<ScriptState, NoMemory> {
        Ok(ScriptState::Prelude)
    }

    fn step<V: View<ScriptState>>(
        &self,
        alloc: Global,
        s: &mut ScriptState,
        v: &mut V,
    ) -> Result<Outcome, Stop> {
        v.open_step();
        match s {
            ScriptState::Prelude => match begin(alloc, v, self.cells, self.count()) {
                Ok(()) => Ok(end(s)),
                Err(stop) => {
                    v.undo_step();
                    Err(stop)
                }
            },
            ScriptState::Acts {
                number,
                done,
                cells,
                list,
            } => match self.act(*number, *done) {
                Some(act) => match perform(v, cells, *list, act) {
                    Ok(()) => match self.act(*number, *done + 1) {
                        Some(_) => {
                            *done += 1;
                            Ok(Outcome::Done)
                        }
                        None => Ok(end(s)),
                    },
                    Err(stop) => {
                        v.undo_step();
                        Err(stop)
                    }
                },
                None => Ok(end(s)),
            },
            ScriptState::Over => unreachable!(),
        }
    }

    fn step_pure(&self, s: &mut ScriptState) -> bool {
        false
    }

    fn blocked<P: Peek>(&self, s: &ScriptState, heap: &P) -> bool {
        false
    }

    fn life(&self, s: &ScriptState) -> Life {
        match s {
            ScriptState::Over => Life::Ended,
            _ => Life::Lives,
        }
    }

    fn copy(&self, alloc: Global, s: &ScriptState) -> Result<ScriptState, NoMemory> {
        Ok(match s {
            ScriptState::Prelude => ScriptState::Prelude,
            ScriptState::Acts {
                number,
                done,
                cells,
                list,
            } => ScriptState::Acts {
                number: *number,
                done: *done,
                cells: cells.copy(alloc)?,
                list: *list,
            },
            ScriptState::Over => ScriptState::Over,
        })
    }

    fn same(&self, a: &ScriptState, b: &ScriptState) -> bool {
        match (a, b) {
            (ScriptState::Prelude, ScriptState::Prelude) => true,
            (
                ScriptState::Acts {
                    number,
                    done,
                    cells,
                    list,
                },
                ScriptState::Acts {
                    number: number_b,
                    done: done_b,
                    cells: cells_b,
                    list: list_b,
                },
            ) => {
                let same_cells = are_same(cells, cells_b);
                number == number_b && done == done_b && list.0 == list_b.0 && same_cells
            }
            (ScriptState::Over, ScriptState::Over) => true,
            _ => false,
        }
    }
}
