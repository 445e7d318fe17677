//! Two threads that visit one core in turn: each finds the history no shorter than it left it.
ghost use Rattle.std.specs.Prelude.{◌≡◌, ◌<◌, ◌≤◌, ℕ, true, false, length, IfOk, IfSome};
ghost use Rattle.std.specs.Thread.{IsSync};
ghost use Rattle.core_bench.specs.ScriptCore.{IsGoodScriptCore};
ghost use Rattle.heap_lock.specs.Parts.{HasAllParts};
ghost use Rattle.stm_core.specs.CoreHeld.{IsGoodCore};
ghost use Rattle.stm_workers.specs.CoreJob.{core_job};
ghost use Rattle.stm_workers.specs.Growth.{Grows};
ghost use Rattle.worker_tests.specs.Segments.{segments_of};
ghost use Rattle.worker_tests.specs.Turns.{turns_of};

use core_bench::{MemCore, sink, source};
use heap_lock::{HeapLock, Job, Seat};
use lock_run::{Act, Acts, Client, Script};
use seg_store::{PlainStore, SegStore};
use std::alloc::Global;
use std::process::Abort;
use std::sync::Wait;
use std::test;
use std::thread::{Threads, join};
use stm_core::{Core, RunState};
use stm_io::{Sink, Source};
use stm_workers::{Held, visit};

/// What threads do with a value whose turns only grow.
trait Watch<T: Job> {
    /// A job has so many workers.
    ghost workers: { T.Description → ℕ };

    /// A value has so many turns.
    ghost turns: { T → ℕ };

    /// One visit of the worker `k` to the value.
    fn visit(&self, value: &mut T, k: u8)
        requires good { T.good value.old }
        requires worker { k < workers (T.job value.old) }
        ensures good { T.good value.new }
        ensures job { T.job value.new ≡ T.job value.old }
        ensures grows { T.grows value.old value.new };

    /// How many turns the value has.
    fn turns(&self, value: &T) -> usize
        requires good { T.good value.now }
        ensures { result ≡ turns value.now };
}

/// The worker `k` takes the value so often, visits it and gives it back. True: it never found fewer turns than it had
/// left.
fn visit_often<T: Job, W: Watch<T>, Rt: Wait>(
    rt: &Rt,
    lock: &HeapLock<T>,
    mut seat: Seat<T>,
    crew: &W,
    k: u8,
    times: u32,
) -> (Seat<T>, bool)
    requires lock { seat.lock ≡ lock.now.id }
    requires free { seat.holds ≡ false }
    requires worker { IfSome seat.job (λ j. k < W.workers j) }
    requires more { (x y : T) → T.good x → T.grows x y → W.turns x ≤ W.turns y }
    ensures same { result.0 ≡ record seat { seen = result.0.seen; taken = result.0.taken } }
    ensures none_fewer { result.1 ≡ true }
{
    let mut last = 0;
    let mut none_fewer = true;
    for _ in 0..times {
        let mut value = lock.take(rt, &mut seat);
        none_fewer = none_fewer && last <= crew.turns(&value);
        crew.visit(&mut value, k);
        last = crew.turns(&value);
        lock.give(&mut seat, value);
    }
    (seat, none_fewer)
}

/// Two workers, each in a thread of its own, and what both found.
fn watch_both<T: Job + Send, W: Watch<T> + Sync, Rt: Threads + Wait + Sync>(
    rt: &Rt,
    lock: &HeapLock<T>,
    mut seat: Seat<T>,
    crew: &W,
    times: u32,
) -> (Seat<T>, bool)
    requires lock { seat.lock ≡ lock.now.id }
    requires free { seat.holds ≡ false }
    requires parts { length seat.parts ≡ 2 }
    requires workers { IfSome seat.job (λ j. 2 ≤ W.workers j) }
    requires more { (x y : T) → T.good x → T.grows x y → W.turns x ≤ W.turns y }
    ensures same { result.0 ≡ record seat { seen = result.0.seen; taken = result.0.taken } }
    ensures none_fewer { result.1 ≡ true }
{
    let other = lock.split(&mut seat);
    let ((mut seat, first), (other, second)) = join(
        rt,
        move || -> (Seat<T>, bool)
            requires { IsSync Rt.row × (seat.lock ≡ lock.now.id) × (seat.holds ≡ false)
                × IfSome seat.job (λ j. 2 ≤ W.workers j)
                × ((x y : T) → T.good x → T.grows x y → W.turns x ≤ W.turns y) }
            ensures same { result.0 ≡ record seat { seen = result.0.seen; taken = result.0.taken } }
            ensures none_fewer { result.1 ≡ true }
        { visit_often(rt, lock, seat, crew, 0, times) },
        move || -> (Seat<T>, bool)
            requires { (other.lock ≡ lock.now.id) × (other.holds ≡ false) × IfSome other.job (λ j. 2 ≤ W.workers j)
                × ((x y : T) → T.good x → T.grows x y → W.turns x ≤ W.turns y) }
            ensures same { result.0 ≡ record other { seen = result.0.seen; taken = result.0.taken } }
            ensures none_fewer { result.1 ≡ true }
        { visit_often(rt, lock, other, crew, 1, times) },
    );
    lock.join(&mut seat, other);
    (seat, first && second)
}

/// The workers of a core, over any client, store and devices.
#[derive(Drop)]
struct Hands {}

impl<'p, C: Client, S: SegStore, I: Source, O: Sink, E: Sink> Watch<Held<'p, C, S, I, O, E>>
    for Hands {
    ghost workers = { λ j. j.segments };

    ghost turns = { λ h. turns_of h.core };

    fn visit(&self, value: &mut Held<'p, C, S, I, O, E>, k: u8)
        requires good { IsGoodCore I.state O.state E.state C.prog C.sound S.reserved S.meaning value.old.core }
        requires worker { k < (core_job S.meaning value.old.core).segments }
        ensures good { IsGoodCore I.state O.state E.state C.prog C.sound S.reserved S.meaning value.new.core }
        ensures job { core_job S.meaning value.new.core ≡ core_job S.meaning value.old.core }
        ensures grows { Grows I.state O.state E.state C.prog S.meaning S.peaks value.old.core value.new.core }
    {
        let core = &mut value.core;
        let _ = visit(core, k);
    }

    fn turns(&self, value: &Held<'p, C, S, I, O, E>) -> usize
        requires good { IsGoodCore I.state O.state E.state C.prog C.sound S.reserved S.meaning value.now.core }
        ensures { result ≡ turns_of value.now.core }
    {
        value.core.history().len()
    }
}

/// Two workers that visit a core so often, each in a thread of its own: the core after it, and what both found.
fn watch_core<
    'p,
    Rt: Threads + Wait + Sync,
    C: Client + Sync,
    S: SegStore + Send,
    I: Source + Send,
    O: Sink + Send,
    E: Sink + Send,
>(
    rt: &Rt,
    lock: HeapLock<Held<'p, C, S, I, O, E>>,
    seat: Seat<Held<'p, C, S, I, O, E>>,
    times: u32,
) -> (Core<'p, C, S, I, O, E>, bool)
where
    C::State: Send,
    requires lock { seat.lock ≡ lock.id }
    requires free { seat.holds ≡ false }
    requires parts { length seat.parts ≡ 2 }
    requires all { HasAllParts lock.parts seat.parts }
    requires job { IfSome seat.job (λ j. j.segments ≡ 2) }
    ensures good { IsGoodCore I.state O.state E.state C.prog C.sound S.reserved S.meaning result.0 }
    ensures none_fewer { result.1 ≡ true }
{
    let (seat, none_fewer) = watch_both(rt, &lock, seat, &Hands {}, times);
    let Held { core } = lock.close(seat);
    (core, none_fewer)
}

/// Acts that look at a Cell, set it and print, so often.
fn acts(alloc: Global, letter: u8, times: usize) -> Result<Acts, test::Fail> {
    let mut acts = Vec::new(alloc);
    for _ in 0..times {
        acts.push(Act::Look(0))?;
        acts.push(Act::Set(0, i64::from(letter)))?;
        acts.push(Act::Look(1))?;
        acts.push(Act::Put(letter))?;
    }
    Ok(Acts::from_slice(alloc, acts.as_slice())?)
}

/// Two threads that set the same Cell and print.
fn script(rt: &impl Abort, alloc: Global) -> Result<Script, test::Fail> {
    let mut lists = Vec::new(alloc);
    lists.push(acts(alloc, b'a', 50)?)?;
    lists.push(acts(alloc, b'b', 50)?)?;
    assert!(rt; Script::fits(2, lists.as_slice()));
    Ok(Script::new(2, lists))
}

/// A core of two segments, whose transactions have at most three steps.
fn core<'p>(alloc: Global, client: &'p Script) -> Result<MemCore<'p>, test::Fail>
    ensures good { IfOk result IsGoodScriptCore }
    ensures segments { IfOk result (λ x. segments_of x ≡ 2) }
{
    let store = PlainStore::new(alloc, 2)?;
    let (input, out, err) = (source(alloc), sink(alloc), sink(alloc));
    match Core::new(alloc, client, store, 3, 10_000, input, out, err) {
        Ok(core) => Ok(core),
        Err(_) => Err("no memory".into()),
    }
}

/// The histories that two threads see only grow, up to the end of the run.
#[test]
fn histories_only_grow(rt: HostRuntime) -> Result<(), test::Fail> {
    let client = script(&rt, rt.alloc())?;
    let core = core(rt.alloc(), &client)?;
    let (lock, seat) = HeapLock::new(rt.alloc(), Held { core }, 2).map_err(|_| "no memory")?;
    let (core, none_fewer) = watch_core(&rt, lock, seat, 2_000);
    assert!(&rt; none_fewer);
    let finished = core.finish();
    assert!(&rt; finished.state == RunState::Done);
    assert_eq!(&rt; finished.out.written().len(), 100);
    assert!(&rt; finished.history.len() > 100);
    Ok(())
}
