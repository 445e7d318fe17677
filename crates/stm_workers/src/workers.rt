//! The run of a core by workers, up to its end.
ghost use Rattle.std.specs.Prelude.{◌≡◌, ◌≤◌, false, length, Some, All, IfSome};
ghost use Rattle.heap_lock.specs.Parts.{HasAllParts};
ghost use Rattle.stm_core.specs.CoreHeld.{core_limits, IsGoodCore};
ghost use Rattle.stm_workers.specs.CoreJob.{core_job};
ghost use Rattle.stm_workers.specs.Ended.{HasEnded};
ghost use Rattle.stm_workers.specs.Growth.{Grows};

use crate::crew::run_all;
use crate::held::{Hands, Held};
use crate::visits::visit;
use heap_lock::{HeapLock, Seat};
use lock_run::Client;
use seg_store::SegStore;
use std::alloc::Global;
use std::sync::Wait;
use std::thread::Threads;
use stm_core::Core;
use stm_io::{Gate, Sink, Source};

/// The same visits by the caller alone, to each segment in turn, until the run has ended.
fn finish<'p, C: Client, S: SegStore, I: Source, O: Sink, E: Sink, Rt: Wait>(
    rt: &Rt,
    mut core: Core<'p, C, S, I, O, E>,
    segments: u8,
) -> Core<'p, C, S, I, O, E>
    requires good { IsGoodCore I.state O.state E.state C.prog C.sound S.reserved S.meaning core }
    requires segments { segments ≡ (core_limits S.meaning core).segments }
    ensures good { IsGoodCore I.state O.state E.state C.prog C.sound S.reserved S.meaning result }
    ensures job { core_job S.meaning result ≡ core_job S.meaning core.entry }
    ensures grows { Grows I.state O.state E.state C.prog S.meaning S.peaks core.entry result }
    ensures ended { HasEnded I.state O.state E.state C.prog S.meaning result }
{
    for _ in rt.forever() {
        'segments: for k in 0..segments {
            if visit(&mut core, k).is_last() {
                return core;
            }
        }
    }
    unreachable!()
}

/// The workers at the lock, and the value once they have ended.
fn run_locked<
    'p,
    Rt: Threads + Wait + Sync,
    C: Client + Sync,
    S: SegStore + Send,
    I: Source + Send,
    O: Sink + Send,
    E: Sink + Send,
    G: Gate + Sync,
>(
    rt: &Rt,
    lock: HeapLock<Held<'p, C, S, I, O, E>>,
    seat: Seat<Held<'p, C, S, I, O, E>>,
    hands: &Hands<'_, G>,
) -> Held<'p, C, S, I, O, E>
where
    C::State: Send,
    requires lock { seat.lock ≡ lock.id }
    requires free { seat.holds ≡ false }
    requires parts { (1 ≤ hands.now.workers) × (length seat.parts ≡ hands.now.workers) }
    requires all { HasAllParts lock.parts seat.parts }
    requires job { IfSome seat.job (λ j. j.segments ≡ hands.now.workers) }
    ensures good { IsGoodCore I.state O.state E.state C.prog C.sound S.reserved S.meaning result.core }
    ensures job { seat.entry.job ≡ Some (core_job S.meaning result.core) }
    ensures grows { All (λ y. Grows I.state O.state E.state C.prog S.meaning S.peaks y.core result.core)
        seat.entry.seen }
{
    let workers = hands.workers;
    let seat = run_all(rt, &lock, seat, hands, workers, workers == 1);
    lock.close(seat)
}

/// The workers at a lock round the value, and the value once they have ended. Where there is no memory for the lock,
/// it comes back.
fn run_held<
    'p,
    Rt: Threads + Wait + Sync,
    C: Client + Sync,
    S: SegStore + Send,
    I: Source + Send,
    O: Sink + Send,
    E: Sink + Send,
    G: Gate + Sync,
>(
    rt: &Rt,
    alloc: Global,
    held: Held<'p, C, S, I, O, E>,
    workers: u8,
    gate: &G,
) -> Held<'p, C, S, I, O, E>
where
    C::State: Send,
    requires good { IsGoodCore I.state O.state E.state C.prog C.sound S.reserved S.meaning held.core }
    requires workers { (1 ≤ workers) × (workers ≡ (core_limits S.meaning held.core).segments) }
    ensures good { IsGoodCore I.state O.state E.state C.prog C.sound S.reserved S.meaning result.core }
    ensures job { core_job S.meaning result.core ≡ core_job S.meaning held.entry.core }
    ensures grows { Grows I.state O.state E.state C.prog S.meaning S.peaks held.entry.core result.core }
{
    match HeapLock::new(alloc, held, workers) {
        Ok((lock, seat)) => {
            let hands = Hands {
                alloc,
                workers,
                gate,
            };
            run_locked(rt, lock, seat, &hands)
        }
        Err((_, held)) => held,
    }
}

/// Runs a core's threads until its run has ended, by one worker for each segment of its store, each in a thread of
/// the machine below, the caller's among them.
///
/// A worker takes the core out of a lock, does some steps on its own segment and gives the core back, so that each
/// worker sees the core as any order of such visits leaves it. In between it passes the gate and runs a piece: steps
/// of its transaction's thread over copies of records, which its next visit installs if it fits. Where there is no
/// memory for the lock, the caller makes the visits by itself, without pieces.
///
/// Nothing is claimed of when it returns. Once it has, the core is good, of the same job, its history and conflicts
/// have those that it had as their beginnings, and its run doesn't go on.
pub fn run_workers<
    'p,
    Rt: Threads + Wait + Sync,
    C: Client + Sync,
    S: SegStore + Send,
    I: Source + Send,
    O: Sink + Send,
    E: Sink + Send,
    G: Gate + Sync,
>(rt: &Rt, alloc: Global, core: Core<'p, C, S, I, O, E>, gate: &G) -> Core<'p, C, S, I, O, E>
where
    C::State: Send,
    requires good { IsGoodCore I.state O.state E.state C.prog C.sound S.reserved S.meaning core }
    ensures good { IsGoodCore I.state O.state E.state C.prog C.sound S.reserved S.meaning result }
    ensures job { core_job S.meaning result ≡ core_job S.meaning core.entry }
    ensures grows { Grows I.state O.state E.state C.prog S.meaning S.peaks core.entry result }
    ensures ended { HasEnded I.state O.state E.state C.prog S.meaning result }
{
    core.store().known();
    let workers = core.store().segments();
    let Held { core } = run_held(rt, alloc, Held { core }, workers, gate);
    finish(rt, core, workers)
}
