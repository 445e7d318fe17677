//! The run of a program's threads, as transactions on a core.
ghost use Rattle.std.specs.Prelude.{◌≡◌, ◌≢◌, [], None, IfSome};
ghost use Rattle.lock_run.specs.Client.{IsSoundFirst};
ghost use Rattle.lock_run.specs.RunState.{steps_done};
ghost use Rattle.paged_store.specs.Stores.{paged_meaning, reserved_of};
ghost use Rattle.stm_core.specs.CoreHeld.{core_client, core_limits, CoreStands, IsGoodCore, HasDevices};
ghost use Rattle.stm_core.specs.Outside.{Outer};
ghost use Rattle.stm_workers.specs.Growth.{HasExplained};
ghost use Rattle.stm_words.specs.Options.{IsWithin};
ghost use Rattle.stm_top.specs.TopCall.{devices_of, told_of};
ghost use Rattle.stm_top.specs.inner.Ending.{answer_to, AnswerTo, RunEnds, ThreadsEnded};

use crate::answer::Answer;
use heap_bound::{full_law, piece_law};
use lock_run::{Client, History};
use paged_store::PagedStore;
use py_data::Conflicts;
use seg_store::SegStore;
use std::alloc::Global;
use std::sync::Wait;
use std::thread::Threads;
use stm_core::{Cause, Core, Finished, RunState};
use stm_io::{Gate, Loader, Sink, Source};
use stm_words::Options;
use stm_workers::run_workers;

/// The devices of a call.
#[derive(Drop)]
pub(crate) struct Outside<L, I, O, E> {
    pub loader: L,
    pub input: I,
    pub out: O,
    pub err: E,
}

/// How a call came to its end, before that is told.
#[derive(Drop)]
pub(crate) struct End<S, L, I, O, E> {
    pub answer: Answer,
    pub history: History,
    pub conflicts: Conflicts,
    pub store: Option<S>,
    pub outside: Outside<L, I, O, E>,
}

/// Nothing ran, for this reason.
pub(crate) fn nothing_ran<S: SegStore, L: Loader, I: Source, O: Sink, E: Sink>(
    alloc: Global,
    answer: Answer,
    outside: Outside<L, I, O, E>,
) -> End<S, L, I, O, E>
    ensures answer { result.answer ≡ answer }
    ensures history { result.history.entries ≡ [] }
    ensures conflicts { result.conflicts.entries ≡ [] }
    ensures store { result.store ≡ None }
    ensures outside { result.outside ≡ outside }
{
    End {
        answer,
        history: History::new(alloc),
        conflicts: Conflicts::new(alloc),
        store: None,
        outside,
    }
}

/// How many steps turns have, all together, where these can be counted in 64 bits.
fn count_steps(history: &History) -> Option<u64>
    ensures { IfSome result (λ n. n ≡ steps_done history.now.entries) }
{
    let mut sum: u64 = 0;
    for i in 0..history.len() {
        match history.get(i) {
            Some(turn) => sum = sum.checked_add(turn.steps)?,
            None => unreachable!(),
        }
    }
    Some(sum)
}

/// What is told of a cause that a core kept.
fn caused(cause: Cause) -> Answer
    ensures { result ≡ answer_to cause }
{
    match cause {
        Cause::Full {
            reserved,
            need,
            limit,
        } => Answer::HeapFull {
            reserved,
            need,
            limit,
        },
        Cause::ReadFault => Answer::InputFailed,
        Cause::WriteFault => Answer::OutputFailed,
        Cause::ErrFault => Answer::ErrorOutputFailed,
        Cause::OutOfMemory => Answer::OutOfMemory,
    }
}

/// What is told of a run, by how it stands and whether thread 0 ended by an exception.
fn answer(state: RunState, failed: bool, history: &History) -> Answer
    requires { state ≢ RunState.Running }
    ensures { AnswerTo state failed history.now.entries result }
{
    match state {
        RunState::Done => { if failed { Answer::Failed } else { Answer::Done } }
        RunState::Stuck => Answer::Stuck,
        RunState::Spent => match count_steps(history) {
            Some(steps) => Answer::BudgetSpent { steps },
            None => Answer::OutOfMemory,
        },
        RunState::Running => unreachable!(),
        RunState::Faulted(cause) => caused(cause),
    }
}

/// Runs a core to its end, by a worker for each of its segments. Where the peaks of its store were explained, a heap
/// that came to be full was nearly full.
fn run_core<
    Rt: Threads + Wait + Sync,
    C: Client + Sync,
    S: SegStore + Send,
    L: Loader,
    I: Source + Send,
    O: Sink + Send,
    E: Sink + Send,
    G: Gate + Sync,
>(rt: &Rt, alloc: Global, core: Core<'_, C, S, I, O, E>, loader: L, gate: &G) -> End<S, L, I, O, E>
where
    C::State: Send,
    requires good { IsGoodCore I.state O.state E.state C.prog C.sound S.reserved S.meaning core }
    ensures loader { result.outside.loader ≡ loader }
    ensures ended { (i : I) (o : O) (e : E) → HasDevices i o e core.entry → (first : Outer C.State)
        → CoreStands I.state O.state E.state C.prog S.meaning core.entry first
        → HasExplained I.state O.state E.state C.prog S.meaning S.peaks core.entry first
        → RunEnds (C.prog (core_client core.entry)) (core_limits S.meaning core.entry) result.answer
        (devices_of L.state I.state O.state E.state loader i o e)
        (told_of S.meaning S.reserved result.history.entries result.conflicts.entries result.store)
        (devices_of L.state I.state O.state E.state result.outside.loader result.outside.input result.outside.out
        result.outside.err) }
{
    let core = run_workers(rt, alloc, core, gate);
    let Finished {
        state,
        failed,
        history,
        conflicts,
        store,
        input,
        out,
        err,
    } = core.finish();
    store.known();
    full_law::<C::State>();
    piece_law::<C::State>();
    End {
        answer: answer(state, failed, &history),
        history,
        conflicts,
        store: Some(store),
        outside: Outside {
            loader,
            input,
            out,
            err,
        },
    }
}

/// Runs the threads of a client on a core over a store of its own.
pub(crate) fn run_threads<
    Rt: Threads + Wait + Sync,
    C: Client + Sync,
    L: Loader,
    I: Source + Send,
    O: Sink + Send,
    E: Sink + Send,
    G: Gate + Sync,
>(
    rt: &Rt,
    alloc: Global,
    client: &C,
    options: &Options,
    outside: Outside<L, I, O, E>,
    gate: &G,
) -> End<PagedStore, L, I, O, E>
where
    C::State: Send,
    requires first { IsSoundFirst (C.prog client.now) (C.sound client.now) }
    requires options { IsWithin options.now }
    ensures ended { ThreadsEnded (C.prog client.now) options.now result.answer
        (devices_of L.state I.state O.state E.state outside.loader outside.input outside.out outside.err)
        (told_of paged_meaning reserved_of result.history.entries result.conflicts.entries result.store)
        (devices_of L.state I.state O.state E.state result.outside.loader result.outside.input result.outside.out
        result.outside.err) }
{
    let store = match PagedStore::new(alloc, options.segments, options.pages) {
        Ok(store) => store,
        Err(_) => return nothing_ran(alloc, Answer::OutOfMemory, outside),
    };
    let Outside {
        loader,
        input,
        out,
        err,
    } = outside;
    match Core::new(
        alloc,
        client,
        store,
        options.length,
        options.budget,
        input,
        out,
        err,
    ) {
        Ok(core) => {
            full_law::<C::State>();
            run_core(rt, alloc, core, loader, gate)
        }
        Err((_, input, out, err)) => nothing_ran(
            alloc,
            Answer::OutOfMemory,
            Outside {
                loader,
                input,
                out,
                err,
            },
        ),
    }
}
