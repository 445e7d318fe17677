//! Cores of scripts over a store of maps: how one is made, the replies that its events are to have, and what is read of
//! it. What isn't so is a test's failure, which its caller hands on.
ghost use Rattle.std.specs.Prelude.{◌≡◌, ◌↔◌, ◌≤◌, IfOk, IsTrue};
ghost use Rattle.core_bench.specs.ScriptCore.{IsGoodScriptCore, HasMade};

use lock_run::{Act, Acts, Script};
use py_data::{Addr, Conflict, Side, Value};
use seg_store::{PlainStore, SegStore};
use std::alloc::Global;
use std::test::Fail;
use stm_core::{Advance, Core, Event, Reply, RunState, Slot};
use stm_io::{MemSink, MemSource};

pub type Tested = Result<(), Fail>;

pub type MemCore<'p> = Core<'p, Script, PlainStore, MemSource, MemSink, MemSink>;

/// Threads with these lists of acts, over two Cells.
pub fn script_of(lists: Vec<Acts>) -> Result<Script, Fail> {
    if !Script::fits(2, lists.as_slice()) {
        return Err("the acts have no such Cells".into());
    }
    Ok(Script::new(2, lists))
}

/// Two threads with these acts, over two Cells.
pub fn script(alloc: Global, first: &[Act], second: &[Act]) -> Result<Script, Fail> {
    let mut lists = Vec::new(alloc);
    lists.push(Acts::from_slice(alloc, first)?)?;
    lists.push(Acts::from_slice(alloc, second)?)?;
    script_of(lists)
}

/// An empty input.
pub fn source(alloc: Global) -> MemSource {
    MemSource::new(alloc, Vec::new(alloc), Vec::new(alloc))
}

/// An output that never fails.
pub fn sink(alloc: Global) -> MemSink {
    MemSink::new(alloc, Vec::new(alloc))
}

/// A core of three segments, whose transactions have at most four steps, with this output.
fn core<'p>(
    alloc: Global,
    client: &'p Script,
    budget: u64,
    out: MemSink,
) -> Result<MemCore<'p>, Fail>
    ensures { IfOk result IsGoodScriptCore }
{
    if budget < 1 || budget > 1_000 {
        return Err("no such budget".into());
    }
    let store = PlainStore::new(alloc, 3)?;
    match Core::new(
        alloc,
        client,
        store,
        4,
        budget,
        source(alloc),
        out,
        sink(alloc),
    ) {
        Ok(core) => Ok(core),
        Err(_) => Err("no memory".into()),
    }
}

/// Two conflicts are equal.
fn same_conflict(came: Conflict, wanted: Conflict) -> bool
    ensures { IsTrue result ↔ (came ≡ wanted) }
{
    came == wanted
}

/// Two replies are equal.
fn same_reply(came: Reply, wanted: Reply) -> bool
    ensures { IsTrue result ↔ (came ≡ wanted) }
{
    match came {
        Reply::Refused(e) => matches!(wanted, Reply::Refused(f) if e == f),
        Reply::Unsolo(e) => matches!(wanted, Reply::Unsolo(f) if e == f),
        Reply::Lost(e) => matches!(wanted, Reply::Lost(f) if same_conflict(e, f)),
        Reply::Failed(e) => matches!(wanted, Reply::Failed(f) if e == f),
        _ => came == wanted,
    }
}

/// Two lists of replies are equal.
fn same_replies(came: &[Reply], wanted: &[Reply]) -> bool
    ensures { IsTrue result ↔ (came.now ≡ wanted.now) }
{
    if came.len() != wanted.len() {
        return false;
    }
    'replies: for i in 0..came.len() {
        if !same_reply(came[i], wanted[i]) {
            return false;
        }
    }
    true
}

/// Makes events, and compares their replies.
pub fn play(core: &mut MemCore<'_>, list: &[Event], wanted: &[Reply]) -> Tested
    requires { IsGoodScriptCore core.old }
    ensures good { IsGoodScriptCore core.new }
    ensures made { IfOk result (λ u. HasMade list.now wanted.now core.old core.new) }
{
    let replies = core.run_events(list)?;
    if same_replies(replies.as_slice(), wanted) {
        Ok(())
    } else {
        Err(Fail::new(format_args!("replies {:?}, wanted {wanted:?}", replies.as_slice())))
    }
}

/// The step of thread 0, which is turn 0.
fn first_turn(core: &mut MemCore<'_>) -> Tested
    requires { IsGoodScriptCore core.old }
    ensures { IsGoodScriptCore core.new }
{
    let list = [Event::Begin(0, 0), Event::Advance(0, 1), Event::Commit(0)];
    let wanted = [
        Reply::Begun,
        Reply::Advanced(Advance::Ended(1)),
        Reply::Committed(0),
    ];
    play(core, &list, &wanted)
}

/// A core after the step of thread 0, which is turn 0.
pub fn begun<'p>(alloc: Global, client: &'p Script, budget: u64) -> Result<MemCore<'p>, Fail>
    ensures { IfOk result IsGoodScriptCore }
{
    begun_over(alloc, client, budget, sink(alloc))
}

/// With this output.
pub fn begun_over<'p>(
    alloc: Global,
    client: &'p Script,
    budget: u64,
    out: MemSink,
) -> Result<MemCore<'p>, Fail>
    ensures { IfOk result IsGoodScriptCore }
{
    let mut core = core(alloc, client, budget, out)?;
    first_turn(&mut core)?;
    Ok(core)
}

/// The address of a Cell, which turn 0 made.
pub fn cell(core: &MemCore<'_>, cell: usize) -> Result<Addr, Fail> {
    let Some(turn) = core.history().get(0) else {
        return Err("no turn".into());
    };
    let Some(a) = turn.names.get(cell) else {
        return Err("no name".into());
    };
    Ok(*a)
}

/// The number in a Cell of the image.
pub fn committed(core: &MemCore<'_>, place: usize) -> Result<i64, Fail> {
    let a = cell(core, place)?;
    let Some(r) = core.store().committed(a.0) else {
        return Err("no record".into());
    };
    match r.values().first() {
        Some(Value::Int(n)) => Ok(*n),
        _ => Err("no number".into()),
    }
}

/// What a segment has in hand.
pub fn slot(core: &MemCore<'_>, k: u8) -> Result<Slot, Fail>
    requires { IsGoodScriptCore core.now }
{
    if k >= core.store().segments() {
        return Err("no such segment".into());
    }
    Ok(core.slot(k))
}

/// How the run of a core stands.
pub fn outcome(core: &MemCore<'_>) -> RunState
    requires { IsGoodScriptCore core.now }
{
    core.outcome()
}

/// The side of a transaction that isn't solo.
pub fn side(segment: u8, thread: u32, begun: u64) -> Side {
    Side {
        segment,
        thread,
        begun,
        solo: false,
    }
}
