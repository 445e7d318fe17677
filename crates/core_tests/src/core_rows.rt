//! Scripts on a core over a store of maps: lists of events, each with its replies, and what they leave in the image.
ghost use Rattle.core_bench.specs.ScriptCore.{IsGoodScriptCore};

use core_bench::{MemCore, Tested, begun, cell, committed, outcome, play, script, side, slot};
use lock_run::Act;
use py_data::{Conflict, Value};
use seg_store::SegStore;
use std::alloc::Global;
use std::process::Abort;
use std::test;
use stm_core::{Advance, BeginError, Event, Reply, RunState, Slot};

/// The number in a Cell as a segment sees it.
fn seen(core: &MemCore<'_>, k: u8, place: usize) -> Result<i64, test::Fail> {
    let a = cell(core, place)?;
    let Some(r) = core.store().seen(k, a.0) else {
        return Err("no record".into());
    };
    match r.values().first() {
        Some(Value::Int(n)) => Ok(*n),
        _ => Err("no number".into()),
    }
}

/// The numbers in both Cells of the image.
fn committed_both(core: &MemCore<'_>) -> Result<(i64, i64), test::Fail> {
    Ok((committed(core, 0)?, committed(core, 1)?))
}

/// The numbers in both Cells as a segment sees them.
fn seen_both(core: &MemCore<'_>, k: u8) -> Result<(i64, i64), test::Fail> {
    Ok((seen(core, k, 0)?, seen(core, k, 1)?))
}

/// The thread that is to begin next on a core.
fn next_ready(core: &MemCore<'_>) -> Option<u32>
    requires { IsGoodScriptCore core.now }
{
    core.next_ready()
}

/// How many turns the history of a core has.
fn turns(core: &MemCore<'_>) -> usize {
    core.history().len()
}

/// How many conflicts the transactions of a core lost.
fn conflicts(core: &MemCore<'_>) -> usize {
    core.conflicts().len()
}

/// Thread 1 commits, and thread 2, which asks for what it has changed, loses.
fn second_loses(rt: &impl Abort, core: &mut MemCore<'_>) -> Tested
    requires { IsGoodScriptCore core.old }
{
    let lost = Conflict {
        at: cell(core, 0)?,
        writer: side(0, 1, 1),
        other: side(1, 2, 2),
        asks: true,
        lost: 1,
    };
    let list = [
        Event::Begin(0, 1),
        Event::Begin(1, 2),
        Event::Advance(0, 2),
        Event::Advance(1, 2),
        Event::Commit(0),
    ];
    let wanted = [
        Reply::Begun,
        Reply::Begun,
        Reply::Advanced(Advance::Ended(2)),
        Reply::Lost(lost),
        Reply::Committed(1),
    ];
    play(core, &list, &wanted)?;
    assert_eq!(rt; committed(core, 0)?, 1);
    assert_eq!(rt; conflicts(core), 1);
    Ok(())
}

/// Two threads look at a Cell and set it: the second one asks for what the first has changed, and loses.
#[test]
fn updates_are_not_lost(rt: HostRuntime) -> Tested {
    let client = script(
        rt.alloc(),
        &[Act::Look(0), Act::Set(0, 1)],
        &[Act::Look(0), Act::Set(0, 2)],
    )?;
    let mut core = begun(rt.alloc(), &client, 1_000)?;
    second_loses(&rt, &mut core)
}

/// Threads 1 and 2 look and set, and the commit of thread 1 dooms thread 2.
fn first_commit_dooms(rt: &impl Abort, core: &mut MemCore<'_>) -> Tested
    requires { IsGoodScriptCore core.old }
{
    let lost = Conflict {
        at: cell(core, 0)?,
        writer: side(0, 1, 1),
        other: side(1, 2, 2),
        asks: false,
        lost: 1,
    };
    let list = [
        Event::Begin(0, 1),
        Event::Begin(1, 2),
        Event::Advance(0, 2),
        Event::Advance(1, 2),
        Event::Commit(0),
        Event::Commit(1),
    ];
    let wanted = [
        Reply::Begun,
        Reply::Begun,
        Reply::Advanced(Advance::Ended(2)),
        Reply::Advanced(Advance::Ended(2)),
        Reply::Committed(1),
        Reply::Lost(lost),
    ];
    play(core, &list, &wanted)?;
    assert_eq!(rt; committed(core, 0)?, 1);
    assert_eq!(rt; committed(core, 1)?, 0);
    Ok(())
}

/// Each of two threads looks at what the other sets: the first commit dooms the other.
#[test]
fn writes_do_not_skew(rt: HostRuntime) -> Tested {
    let client = script(
        rt.alloc(),
        &[Act::Look(1), Act::Set(0, 1)],
        &[Act::Look(0), Act::Set(1, 2)],
    )?;
    let mut core = begun(rt.alloc(), &client, 1_000)?;
    first_commit_dooms(&rt, &mut core)
}

/// Threads 1 and 2 set a Cell each and commit.
fn both_commit(rt: &impl Abort, core: &mut MemCore<'_>) -> Tested
    requires { IsGoodScriptCore core.old }
{
    let list = [
        Event::Begin(0, 1),
        Event::Begin(1, 2),
        Event::Advance(0, 1),
        Event::Advance(1, 1),
        Event::Commit(0),
        Event::Commit(1),
    ];
    let wanted = [
        Reply::Begun,
        Reply::Begun,
        Reply::Advanced(Advance::Ended(1)),
        Reply::Advanced(Advance::Ended(1)),
        Reply::Committed(1),
        Reply::Committed(2),
    ];
    play(core, &list, &wanted)?;
    for k in 0..2 {
        assert_eq!(rt; seen_both(core, k)?, (1, 2));
    }
    assert_eq!(rt; committed_both(core)?, (1, 2));
    Ok(())
}

/// Threads that set different Cells both commit.
#[test]
fn disjoint_writes_commit(rt: HostRuntime) -> Tested {
    let client = script(rt.alloc(), &[Act::Set(0, 1)], &[Act::Set(1, 2)])?;
    let mut core = begun(rt.alloc(), &client, 1_000)?;
    both_commit(&rt, &mut core)
}

/// Calls that are refused, skipped or made, and what they leave.
fn refusals(rt: &impl Abort, core: &mut MemCore<'_>) -> Tested
    requires { IsGoodScriptCore core.old }
{
    let list = [
        Event::Begin(0, 1),
        Event::Begin(0, 1),
        Event::Begin(1, 1),
        Event::Begin(1, 9),
        Event::Begin(3, 2),
        Event::Advance(1, 1),
        Event::Commit(1),
        Event::Advance(0, 5),
        Event::Advance(0, 0),
        Event::Advance(0, 1),
        Event::Commit(0),
    ];
    let wanted = [
        Reply::Begun,
        Reply::Refused(BeginError::Busy(0)),
        Reply::Refused(BeginError::NotReady(1)),
        Reply::Refused(BeginError::NotReady(9)),
        Reply::Skipped,
        Reply::Skipped,
        Reply::Skipped,
        Reply::Skipped,
        Reply::Skipped,
        Reply::Advanced(Advance::NeedSolo(0)),
        Reply::Nothing,
    ];
    play(core, &list, &wanted)?;
    assert_eq!(rt; committed_both(core)?, (0, 0));
    assert_eq!(rt; turns(core), 1);
    Ok(())
}

/// What is refused, and what is skipped.
#[test]
fn calls_are_refused(rt: HostRuntime) -> Tested {
    let client = script(rt.alloc(), &[Act::Put(65)], &[Act::Look(0)])?;
    let mut core = begun(rt.alloc(), &client, 1_000)?;
    refusals(&rt, &mut core)
}

/// The budget is spent, and thread 1 begins no transaction.
fn none_begins(rt: &impl Abort, core: &mut MemCore<'_>) -> Tested
    requires { IsGoodScriptCore core.old }
{
    assert!(rt; outcome(core) == RunState::Spent);
    let wanted = [Reply::Refused(BeginError::AtBudget)];
    play(core, &[Event::Begin(0, 1)], &wanted)?;
    assert_eq!(rt; committed_both(core)?, (0, 0));
    Ok(())
}

/// With the budget's steps in the history no transaction begins.
#[test]
fn budget_is_kept(rt: HostRuntime) -> Tested {
    let client = script(rt.alloc(), &[Act::Look(0)], &[Act::Look(1)])?;
    let mut core = begun(rt.alloc(), &client, 1)?;
    none_begins(&rt, &mut core)
}

/// Both threads end one after the other; how the core stands before, between and after.
fn both_end(rt: &impl Abort, core: &mut MemCore<'_>) -> Tested
    requires { IsGoodScriptCore core.old }
    ensures { IsGoodScriptCore core.new }
{
    assert_eq!(rt; core.length(), 4);
    assert!(rt; next_ready(core) == Some(1));
    let list = [Event::Begin(2, 1), Event::Advance(2, 1)];
    let wanted = [Reply::Begun, Reply::Advanced(Advance::Ended(1))];
    play(core, &list, &wanted)?;
    let running = Slot::Running {
        thread: 1,
        steps: 1,
        solo: false,
    };
    assert!(rt; slot(core, 2)? == running);
    assert!(rt; slot(core, 0)? == Slot::Idle);
    assert!(rt; next_ready(core) == Some(2));
    assert!(rt; outcome(core) == RunState::Running);
    let list = [
        Event::Commit(2),
        Event::Begin(0, 2),
        Event::Advance(0, 4),
        Event::Commit(0),
    ];
    let wanted = [
        Reply::Committed(1),
        Reply::Begun,
        Reply::Advanced(Advance::Ended(1)),
        Reply::Committed(2),
    ];
    play(core, &list, &wanted)?;
    assert!(rt; next_ready(core).is_none());
    Ok(())
}

/// Finishes a core whose threads have all ended in three turns.
fn ends_done(rt: &impl Abort, core: MemCore<'_>)
    requires { IsGoodScriptCore core }
{
    let finished = core.finish();
    assert!(rt; finished.state == RunState::Done);
    assert!(rt; !finished.failed);
    assert_eq!(rt; finished.history.len(), 3);
    assert_eq!(rt; finished.conflicts.len(), 0);
}

/// How a core stands while a thread runs, and when all have ended.
#[test]
fn stands_and_ends(rt: HostRuntime) -> Tested {
    let client = script(rt.alloc(), &[Act::Set(0, 3)], &[Act::Push(4)])?;
    let mut core = begun(rt.alloc(), &client, 1_000)?;
    both_end(&rt, &mut core)?;
    ends_done(&rt, core);
    Ok(())
}

/// A transaction of one step of thread 1, so many times.
fn look_often(core: &mut MemCore<'_>, times: u64) -> Tested
    requires { IsGoodScriptCore core.old }
    ensures { IsGoodScriptCore core.new }
{
    let list = [Event::Begin(0, 1), Event::Advance(0, 1), Event::Commit(0)];
    'times: for n in 0..times {
        let wanted = [
            Reply::Begun,
            Reply::Advanced(Advance::Ran(1)),
            Reply::Committed(n.saturating_add(1)),
        ];
        play(core, &list, &wanted)?;
    }
    Ok(())
}

/// A look at one Cell, and then so many at the other.
fn looks(alloc: Global, count: usize) -> Result<Vec<Act>, test::Fail> {
    let mut acts = Vec::new(alloc);
    acts.push(Act::Look(0))?;
    for _look in 0..count {
        acts.push(Act::Look(1))?;
    }
    Ok(acts)
}

/// After 255 looks of thread 1 and one more that runs, thread 2 sets the Cell, and both commit.
fn last_of_many(rt: &impl Abort, core: &mut MemCore<'_>) -> Tested
    requires { IsGoodScriptCore core.old }
{
    look_often(core, 255)?;
    let list = [
        Event::Begin(0, 1),
        Event::Advance(0, 1),
        Event::Begin(1, 2),
        Event::Advance(1, 1),
        Event::Commit(1),
    ];
    let wanted = [
        Reply::Begun,
        Reply::Advanced(Advance::Ran(1)),
        Reply::Begun,
        Reply::Advanced(Advance::Ended(1)),
        Reply::Committed(256),
    ];
    play(core, &list, &wanted)?;
    play(core, &[Event::Commit(0)], &[Reply::Committed(257)])?;
    assert_eq!(rt; committed(core, 0)?, 5);
    Ok(())
}

/// A thread that looked at a Cell 255 transactions ago isn't in the way of another that sets it.
#[test]
fn looks_end_with_their_transaction(rt: HostRuntime) -> Tested {
    let acts = looks(rt.alloc(), 299)?;
    let client = script(rt.alloc(), acts.as_slice(), &[Act::Set(0, 5)])?;
    let mut core = begun(rt.alloc(), &client, 1_000)?;
    last_of_many(&rt, &mut core)
}
