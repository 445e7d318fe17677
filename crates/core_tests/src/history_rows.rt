//! Histories of a core over drawn events, done again by a one-lock machine.
ghost use Rattle.std.specs.Prelude.{IfOk};
ghost use Rattle.lock_run.specs.LockState.{lock_state, IsSound};
ghost use Rattle.lock_run.specs.Script.{ScriptSound};
ghost use Rattle.stm_io.specs.Memory.{mem_sink_state, mem_source_state};

use core_bench::{Tested, begun, script_of, sink, source};
use lock_run::{Act, Acts, History, LockRun, Script, Turn};
use std::alloc::Global;
use std::process::Abort;
use std::test;
use stm_core::{Event, Reply};
use stm_io::{MemSink, MemSource};

type MemRun<'p> = LockRun<'p, Script, MemSource, MemSink, MemSink>;

/// The next number of a row of numbers, from 0 to 65,535, that look like any.
fn draw(seed: &mut u32) -> u32 {
    *seed = seed.wrapping_mul(1_664_525).wrapping_add(1_013_904_223);
    *seed >> 16
}

fn draw_event(seed: &mut u32) -> Event {
    let k = (draw(seed) % 3) as u8;
    match draw(seed) % 6 {
        0 => Event::Begin(k, draw(seed) % 4),
        1 => Event::Advance(k, 1),
        2 => Event::Advance(k, 2),
        3 => Event::Solo(k),
        4 => Event::Piece(k, 2),
        _ => Event::Commit(k),
    }
}

/// So many events of three segments and three threads.
fn draw_events(alloc: Global, seed: u32, count: usize) -> Result<Vec<Event>, test::Fail> {
    let mut seed = seed;
    let mut list = Vec::new(alloc);
    for _event in 0..count {
        list.push(draw_event(&mut seed))?;
    }
    Ok(list)
}

/// Three threads that look at, set and push what the others do, and print.
fn three(alloc: Global) -> Result<Script, test::Fail> {
    let mut lists = Vec::new(alloc);
    let first = [
        Act::Look(0),
        Act::Set(1, 1),
        Act::Look(0),
        Act::Set(1, 5),
        Act::Put(65),
        Act::Push(7),
    ];
    let second = [
        Act::Set(0, 2),
        Act::Set(0, 6),
        Act::Look(1),
        Act::Put(66),
        Act::Look(1),
        Act::Push(8),
    ];
    let third = [
        Act::Look(1),
        Act::Look(1),
        Act::Put(67),
        Act::Set(0, 3),
        Act::Set(1, 4),
        Act::Look(0),
    ];
    lists.push(Acts::from_slice(alloc, &first)?)?;
    lists.push(Acts::from_slice(alloc, &second)?)?;
    lists.push(Acts::from_slice(alloc, &third)?)?;
    script_of(lists)
}

/// A machine at its first state.
#[tactic(auto, using(lock_run::specs::inner::ScriptLaws::script_sound_first))]
fn machine<'p>(alloc: Global, client: &'p Script) -> Result<MemRun<'p>, test::Fail>
    ensures { IfOk result (λ run. IsSound ScriptSound (lock_state mem_source_state mem_sink_state mem_sink_state run)) }
{
    match LockRun::new(alloc, client, source(alloc), sink(alloc), sink(alloc)) {
        Ok(run) => Ok(run),
        Err(_) => Err("no memory".into()),
    }
}

/// The output of a machine that is finished.
fn output(run: MemRun<'_>) -> MemSink {
    let (_, out, _) = run.finish();
    out
}

/// The machine does a turn, with the names that it gave.
fn again(rt: &impl Abort, run: &mut MemRun<'_>, turn: &Turn)
    requires { IsSound ScriptSound (lock_state mem_source_state mem_sink_state mem_sink_state run.old) }
    ensures { IsSound ScriptSound (lock_state mem_source_state mem_sink_state mem_sink_state run.new) }
{
    assert!(rt; turn.steps >= 1);
    assert!(rt; run.turn(turn.thread, turn.steps, &turn.names).is_ok());
}

/// The machine does the turns of a history, one after another.
fn all_again(rt: &impl Abort, run: &mut MemRun<'_>, history: &History)
    requires { IsSound ScriptSound (lock_state mem_source_state mem_sink_state mem_sink_state run.old) }
    ensures { IsSound ScriptSound (lock_state mem_source_state mem_sink_state mem_sink_state run.new) }
{
    'turns: for i in 0..history.len() {
        match history.get(i) {
            Some(turn) => again(rt, run, turn),
            None => panic!(rt; "no turn"),
        }
    }
}

/// What a list of events left.
#[derive(Drop)]
struct Left {
    turns: usize,
    conflicts: usize,
    /// How many bytes were written.
    bytes: usize,
    /// How many pieces were installed that had a step.
    pieces: usize,
}

/// How many pieces of some steps were installed.
fn pieces_in(replies: &[Reply]) -> usize {
    let mut pieces = 0usize;
    for reply in replies {
        if let Reply::Installed(n) = reply
            && *n > 0
        {
            pieces = pieces.saturating_add(1);
        }
    }
    pieces
}

/// What a machine writes that does the turns of a history.
fn written_again(
    rt: &impl Abort,
    alloc: Global,
    client: &Script,
    history: &History,
) -> Result<MemSink, test::Fail> {
    let mut run = machine(alloc, client)?;
    all_again(rt, &mut run, history);
    Ok(output(run))
}

/// Makes the events of a list on a core, and does its history's turns again on a machine, which writes the same.
fn on_both(rt: &impl Abort, alloc: Global, client: &Script, seed: u32) -> Result<Left, test::Fail> {
    let mut core = begun(alloc, client, 1_000)?;
    let list = draw_events(alloc, seed, 80)?;
    let replies = core.run_events(list.as_slice())?;
    let finished = core.finish();
    let out = written_again(rt, alloc, client, &finished.history)?;
    assert_eq!(rt; finished.out.written(), out.written());
    Ok(Left {
        turns: finished.history.len(),
        conflicts: finished.conflicts.len(),
        bytes: out.written().len(),
        pieces: pieces_in(replies.as_slice()),
    })
}

/// The histories of 500 lists of events are runs of the one-lock machine, with the same output.
#[test]
fn histories_run_again(rt: HostRuntime) -> Tested {
    let client = three(rt.alloc())?;
    let mut turns = 0usize;
    let mut conflicts = 0usize;
    let mut bytes = 0usize;
    let mut pieces = 0usize;
    for seed in 0..500 {
        let left = on_both(&rt, rt.alloc(), &client, seed)?;
        turns = turns.saturating_add(left.turns);
        conflicts = conflicts.saturating_add(left.conflicts);
        bytes = bytes.saturating_add(left.bytes);
        pieces = pieces.saturating_add(left.pieces);
    }
    assert!(&rt; turns > 1_500, "{turns}");
    assert!(&rt; conflicts > 150, "{conflicts}");
    assert!(&rt; bytes > 300, "{bytes}");
    assert!(&rt; pieces > 200, "{pieces}");
    Ok(())
}
