//! Scripts on a core whose transactions become solo: what they print, whom they doom, and what a device's fault leaves.
ghost use Rattle.core_bench.specs.ScriptCore.{IsGoodScriptCore};

use core_bench::{
    MemCore, Tested, begun, begun_over, cell, committed, outcome, play, script, side, slot,
};
use lock_run::Act;
use py_data::{Conflict, Side, Value};
use seg_store::SegStore;
use std::alloc::Global;
use std::process::Abort;
use std::test;
use stm_core::{Advance, BeginError, Cause, Event, Reply, RunState, Slot, SoloError};
use stm_io::{Fail, MemSink};

/// The side of a solo transaction.
fn solo_side(segment: u8, thread: u32, begun: u64) -> Side {
    Side {
        segment,
        thread,
        begun,
        solo: true,
    }
}

/// An output whose call of that number, from 1, fails before the first byte.
fn failing(alloc: Global, call: u64) -> Result<MemSink, test::Fail> {
    let mut fails = Vec::new(alloc);
    fails.push(Fail { call, bytes: 0 })?;
    Ok(MemSink::new(alloc, fails))
}

/// The numbers in the List, as a segment sees it.
fn listed(alloc: Global, core: &MemCore<'_>, k: u8) -> Result<Vec<i64>, test::Fail> {
    let a = cell(core, 2)?;
    let Some(r) = core.store().seen(k, a.0) else {
        return Err("no record".into());
    };
    let mut numbers = Vec::new(alloc);
    for v in r.values() {
        if let Value::Int(n) = v {
            numbers.push(*n)?;
        }
    }
    Ok(numbers)
}

/// Finishes a core: its run stands so, its history has so many turns, and these bytes were written.
fn ends(rt: &impl Abort, core: MemCore<'_>, state: RunState, turns: usize, out: &[u8])
    requires { IsGoodScriptCore core }
{
    let finished = core.finish();
    assert!(rt; finished.state == state);
    assert_eq!(rt; finished.history.len(), turns);
    assert_eq!(rt; finished.out.written(), out);
}

/// Thread 2 becomes solo, and dooms thread 1, which has set the Cell.
fn writer_is_doomed(rt: &impl Abort, core: &mut MemCore<'_>) -> Tested
    requires { IsGoodScriptCore core.old }
{
    let lost = Conflict {
        at: cell(core, 0)?,
        writer: side(0, 1, 1),
        other: solo_side(1, 2, 2),
        asks: true,
        lost: 0,
    };
    let list = [
        Event::Begin(0, 1),
        Event::Begin(1, 2),
        Event::Advance(0, 1),
        Event::Solo(1),
        Event::Advance(1, 1),
        Event::Commit(1),
        Event::Commit(0),
    ];
    let wanted = [
        Reply::Begun,
        Reply::Begun,
        Reply::Advanced(Advance::Ended(1)),
        Reply::Solo,
        Reply::Advanced(Advance::Ended(1)),
        Reply::Committed(1),
        Reply::Lost(lost),
    ];
    play(core, &list, &wanted)?;
    assert_eq!(rt; committed(core, 0)?, 2);
    Ok(())
}

/// One that began later and is solo dooms the writer of the Cell that it sets.
#[test]
fn solo_wins(rt: HostRuntime) -> Tested {
    let client = script(rt.alloc(), &[Act::Set(0, 1)], &[Act::Set(0, 2)])?;
    let mut core = begun(rt.alloc(), &client, 1_000)?;
    writer_is_doomed(&rt, &mut core)
}

/// Thread 1 becomes solo; thread 2 is told so, and runs.
fn second_is_told(rt: &impl Abort, core: &mut MemCore<'_>) -> Tested
    requires { IsGoodScriptCore core.old }
{
    let list = [
        Event::Begin(0, 1),
        Event::Begin(1, 2),
        Event::Advance(1, 1),
        Event::Solo(0),
        Event::Solo(0),
        Event::Solo(1),
        Event::Solo(2),
    ];
    let wanted = [
        Reply::Begun,
        Reply::Begun,
        Reply::Advanced(Advance::Ran(1)),
        Reply::Solo,
        Reply::Solo,
        Reply::Unsolo(SoloError::Taken { by: 0 }),
        Reply::Skipped,
    ];
    play(core, &list, &wanted)?;
    let running = Slot::Running {
        thread: 2,
        steps: 1,
        solo: false,
    };
    assert!(rt; slot(core, 1)? == running);
    Ok(())
}

/// While one is solo another is told whose, and runs on.
#[test]
fn one_is_solo(rt: HostRuntime) -> Tested {
    let client = script(
        rt.alloc(),
        &[Act::Look(0), Act::Put(65)],
        &[Act::Look(0), Act::Put(66)],
    )?;
    let mut core = begun(rt.alloc(), &client, 1_000)?;
    second_is_told(&rt, &mut core)
}

/// Thread 1 pushes, and thread 2 becomes solo, pushes and commits: what thread 1 did is lost.
fn push_is_lost(core: &mut MemCore<'_>) -> Tested
    requires { IsGoodScriptCore core.old }
    ensures { IsGoodScriptCore core.new }
{
    let lost = Conflict {
        at: cell(core, 2)?,
        writer: side(0, 1, 1),
        other: solo_side(1, 2, 2),
        asks: true,
        lost: 0,
    };
    let list = [
        Event::Begin(0, 1),
        Event::Advance(0, 1),
        Event::Begin(1, 2),
        Event::Solo(1),
        Event::Advance(1, 1),
        Event::Commit(1),
        Event::Advance(0, 1),
    ];
    let wanted = [
        Reply::Begun,
        Reply::Advanced(Advance::Ran(1)),
        Reply::Begun,
        Reply::Solo,
        Reply::Advanced(Advance::Ended(1)),
        Reply::Committed(1),
        Reply::Lost(lost),
    ];
    play(core, &list, &wanted)
}

/// The push of thread 1 is lost, and is done again after that of thread 2.
fn pushes_again(rt: &impl Abort, alloc: Global, core: &mut MemCore<'_>) -> Tested
    requires { IsGoodScriptCore core.old }
{
    push_is_lost(core)?;
    assert_eq!(rt; listed(alloc, core, 2)?.as_slice(), [8].as_slice());
    assert!(rt; slot(core, 0)? == Slot::Idle);
    let list = [Event::Begin(0, 1), Event::Advance(0, 1)];
    let wanted = [Reply::Begun, Reply::Advanced(Advance::Ran(1))];
    play(core, &list, &wanted)?;
    assert_eq!(rt; listed(alloc, core, 0)?.as_slice(), [8, 7].as_slice());
    Ok(())
}

/// A push of one that becomes solo is seen by the other, which pushed first and is aborted.
#[test]
fn an_aborted_push_is_done_again(rt: HostRuntime) -> Tested {
    let client = script(rt.alloc(), &[Act::Push(7), Act::Look(0)], &[Act::Push(8)])?;
    let mut core = begun(rt.alloc(), &client, 1_000)?;
    pushes_again(&rt, rt.alloc(), &mut core)
}

/// Thread 1 dooms thread 2, which is told so where it wants to be solo.
fn doomed_is_told(core: &mut MemCore<'_>) -> Tested
    requires { IsGoodScriptCore core.old }
{
    let lost = Conflict {
        at: cell(core, 0)?,
        writer: side(0, 1, 1),
        other: side(1, 2, 2),
        asks: false,
        lost: 1,
    };
    let list = [
        Event::Begin(0, 1),
        Event::Begin(1, 2),
        Event::Advance(0, 1),
        Event::Advance(1, 1),
        Event::Commit(0),
        Event::Solo(1),
        Event::Solo(1),
    ];
    let wanted = [
        Reply::Begun,
        Reply::Begun,
        Reply::Advanced(Advance::Ended(1)),
        Reply::Advanced(Advance::Ended(1)),
        Reply::Committed(1),
        Reply::Unsolo(SoloError::Lost(lost)),
        Reply::Skipped,
    ];
    play(core, &list, &wanted)
}

/// A doomed one that wants to be solo is told the conflict that it lost.
#[test]
fn a_doomed_one_is_not_solo(rt: HostRuntime) -> Tested {
    let client = script(rt.alloc(), &[Act::Set(0, 1)], &[Act::Look(0)])?;
    let mut core = begun(rt.alloc(), &client, 1_000)?;
    doomed_is_told(&mut core)
}

/// Thread 1 becomes solo and prints.
fn prints_solo(rt: &impl Abort, core: &mut MemCore<'_>) -> Tested
    requires { IsGoodScriptCore core.old }
    ensures { IsGoodScriptCore core.new }
{
    let list = [
        Event::Begin(0, 1),
        Event::Begin(1, 2),
        Event::Advance(0, 3),
        Event::Solo(0),
        Event::Advance(0, 2),
    ];
    let wanted = [
        Reply::Begun,
        Reply::Begun,
        Reply::Advanced(Advance::NeedSolo(1)),
        Reply::Solo,
        Reply::Advanced(Advance::Ended(2)),
    ];
    play(core, &list, &wanted)?;
    assert!(rt; outcome(core) == RunState::Running);
    Ok(())
}

/// A step prints only once its transaction is solo, and at once; and the end commits it.
#[test]
fn the_end_commits_a_solo_one(rt: HostRuntime) -> Tested {
    let client = script(
        rt.alloc(),
        &[Act::Set(0, 3), Act::Put(65), Act::Put(66)],
        &[Act::Look(1)],
    )?;
    let mut core = begun(rt.alloc(), &client, 1_000)?;
    prints_solo(&rt, &mut core)?;
    ends(&rt, core, RunState::Running, 2, b"AB");
    Ok(())
}

/// Thread 1 is solo, and its second byte is not written.
fn second_print_fails(rt: &impl Abort, core: &mut MemCore<'_>) -> Tested
    requires { IsGoodScriptCore core.old }
    ensures { IsGoodScriptCore core.new }
{
    let list = [
        Event::Begin(0, 1),
        Event::Begin(1, 2),
        Event::Solo(0),
        Event::Advance(0, 3),
        Event::Solo(1),
        Event::Begin(0, 1),
    ];
    let wanted = [
        Reply::Begun,
        Reply::Begun,
        Reply::Solo,
        Reply::Failed(Cause::WriteFault),
        Reply::Unsolo(SoloError::Over(Cause::WriteFault)),
        Reply::Refused(BeginError::Over(Cause::WriteFault)),
    ];
    play(core, &list, &wanted)?;
    assert_eq!(rt; committed(core, 0)?, 5);
    assert!(rt; slot(core, 0)? == Slot::Idle);
    Ok(())
}

/// A fault of the output leaves the transaction committed up to its last whole step, and the core goes on no more.
#[test]
fn a_fault_ends_the_run(rt: HostRuntime) -> Tested {
    let client = script(
        rt.alloc(),
        &[Act::Set(0, 5), Act::Put(65), Act::Put(66)],
        &[Act::Look(1)],
    )?;
    let out = failing(rt.alloc(), 2)?;
    let mut core = begun_over(rt.alloc(), &client, 1_000, out)?;
    second_print_fails(&rt, &mut core)?;
    ends(&rt, core, RunState::Faulted(Cause::WriteFault), 2, b"A");
    Ok(())
}

/// Thread 1 is solo, and its first step fails.
fn first_print_fails(core: &mut MemCore<'_>) -> Tested
    requires { IsGoodScriptCore core.old }
    ensures { IsGoodScriptCore core.new }
{
    let list = [
        Event::Begin(0, 1),
        Event::Advance(0, 1),
        Event::Solo(0),
        Event::Advance(0, 1),
    ];
    let wanted = [
        Reply::Begun,
        Reply::Advanced(Advance::NeedSolo(0)),
        Reply::Solo,
        Reply::Failed(Cause::WriteFault),
    ];
    play(core, &list, &wanted)
}

/// One whose first step is cut so is dropped.
#[test]
fn a_fault_in_the_first_step_leaves_no_turn(rt: HostRuntime) -> Tested {
    let client = script(rt.alloc(), &[Act::Put(65)], &[Act::Look(1)])?;
    let out = failing(rt.alloc(), 1)?;
    let mut core = begun_over(rt.alloc(), &client, 1_000, out)?;
    first_print_fails(&mut core)?;
    ends(&rt, core, RunState::Faulted(Cause::WriteFault), 1, b"");
    Ok(())
}
