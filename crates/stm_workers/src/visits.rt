//! What a worker does at one visit to a core.
ghost use Rattle.std.specs.Prelude.{◌≡◌, ◌≢◌, ◌<◌, ◌≤◌, true, false, IfSome};
ghost use Rattle.stm_core.specs.CoreHeld.{core_client, core_limits, Says, IsGoodCore, SameJob};
ghost use Rattle.stm_core.specs.Events.{is_busy, is_within, may_make};
ghost use Rattle.stm_core.specs.declared.events.Event.{Event};
ghost use Rattle.stm_workers.specs.CoreJob.{core_job};
ghost use Rattle.stm_pieces.specs.PieceBy.{IsPieceBy};
ghost use Rattle.stm_workers.specs.Ended.{GoesOn, HasEnded};
ghost use Rattle.stm_workers.specs.Errands.{IsRunnable};
ghost use Rattle.stm_workers.specs.Growth.{Grows};

use crate::crew::Worth;
use heap_bound::{call_law, piece_law};
use lock_run::Client;
use seg_store::SegStore;
use stm_core::{Advance, AdvanceError, Core, RunState, Slot, SoloError, events_law};
use stm_io::{Sink, Source};
use stm_pieces::{Loan, Piece, PieceEnd};

/// What a visit found.
#[derive(Clone, Copy, Debug)]
pub enum Finding {
    /// The run has ended. Nothing was done.
    Ended,
    /// The segment had something in hand, be it that a transaction began there.
    Worked,
    /// There was nothing to do, and no thread was ready.
    Idle,
}

impl Finding {
    /// It is the worker's last.
    pub(crate) fn is_last(self) -> bool
        ensures yes { result ≡ true → self ≡ Finding.Ended }
        ensures not { result ≡ false → self ≢ Finding.Ended }
    {
        matches!(self, Finding::Ended)
    }
}

/// The most steps of one visit.
const VISIT_STEPS: u64 = 100;

/// The same of a worker that asks for no loan, and so comes back to the heap for all its steps.
const SPELL_STEPS: u64 = 300;

/// The same on one segment, where no other worker waits for the heap.
const ALONE_STEPS: u64 = 1_000;

/// A piece of fewer steps isn't worth the copies that it takes.
const WORTHY_STEPS: u64 = 16;

/// How many steps a visit does where there is one segment alone, or it asks for a loan, and where the piece that was
/// brought to it did so many. After a piece that went far it is one step, for which the piece ended; otherwise there
/// are as many as without pieces, since the records that a piece wants are met so.
fn steps_after(alone: bool, asks: bool, piece: u64) -> u64 {
    if alone {
        return ALONE_STEPS;
    }
    if !asks {
        return SPELL_STEPS;
    }
    if piece < WORTHY_STEPS { VISIT_STEPS } else { 1 }
}

/// Something is in hand.
fn is_busy(slot: Slot) -> bool
    ensures { result ≡ is_busy slot }
{
    match slot {
        Slot::Idle => false,
        _ => true,
    }
}

/// How many steps a segment does in one visit of at most so many. There are none for a transaction that has as many
/// as the length, and for a doomed one.
fn steps_of(slot: Slot, length: u64, most: u64) -> u64
    ensures { 1 ≤ result → is_within length result slot ≡ true }
{
    match slot {
        Slot::Running { steps, .. } => {
            if steps < length {
                (length - steps).min(most)
            } else {
                0
            }
        }
        _ => 0,
    }
}

/// Commits what a segment has in hand, if anything. A doomed one is told so, and is idle then, as is one without a
/// step.
fn commit<C: Client, S: SegStore, I: Source, O: Sink, E: Sink>(
    core: &mut Core<'_, C, S, I, O, E>,
    k: u8,
)
    requires good { IsGoodCore I.state O.state E.state C.prog C.sound S.reserved S.meaning core.old }
    requires segment { k < (core_limits S.meaning core.old).segments }
    ensures good { IsGoodCore I.state O.state E.state C.prog C.sound S.reserved S.meaning core.new }
    ensures job { SameJob S.meaning core.old core.new }
    ensures grows { Grows I.state O.state E.state C.prog S.meaning S.peaks core.old core.new }
{
    let slot = core.slot(k);
    if is_busy(slot) {
        let _ = core.commit(k);
        events_law::<C::State>();
        call_law(core.client());
    }
}

/// Commits the transaction of a segment that has as many steps as the length.
fn commit_whole<C: Client, S: SegStore, I: Source, O: Sink, E: Sink>(
    core: &mut Core<'_, C, S, I, O, E>,
    k: u8,
)
    requires good { IsGoodCore I.state O.state E.state C.prog C.sound S.reserved S.meaning core.old }
    requires segment { k < (core_limits S.meaning core.old).segments }
    ensures good { IsGoodCore I.state O.state E.state C.prog C.sound S.reserved S.meaning core.new }
    ensures job { SameJob S.meaning core.old core.new }
    ensures grows { Grows I.state O.state E.state C.prog S.meaning S.peaks core.old core.new }
{
    match core.slot(k) {
        Slot::Running { steps, .. } if steps < core.length() => (),
        _ => commit(core, k),
    }
}

/// Another transaction is solo.
fn names_another(answer: Result<(), SoloError>) -> bool {
    matches!(answer, Err(SoloError::Taken { .. }))
}

/// Makes what a segment has in hand solo, if anything and unless another one is: whether another one is.
fn is_taken<C: Client, S: SegStore, I: Source, O: Sink, E: Sink>(
    core: &mut Core<'_, C, S, I, O, E>,
    k: u8,
) -> bool
    requires good { IsGoodCore I.state O.state E.state C.prog C.sound S.reserved S.meaning core.old }
    requires segment { k < (core_limits S.meaning core.old).segments }
    ensures good { IsGoodCore I.state O.state E.state C.prog C.sound S.reserved S.meaning core.new }
    ensures job { SameJob S.meaning core.old core.new }
    ensures grows { Grows I.state O.state E.state C.prog S.meaning S.peaks core.old core.new }
{
    if is_busy(core.slot(k)) {
        let answer = core.solo(k);
        events_law::<C::State>();
        call_law(core.client());
        return names_another(answer);
    }
    false
}

/// Makes what a segment has in hand solo. Where another one is, it is committed, so that no thread waits for that one
/// with a transaction in hand.
fn go_solo<C: Client, S: SegStore, I: Source, O: Sink, E: Sink>(
    core: &mut Core<'_, C, S, I, O, E>,
    k: u8,
)
    requires good { IsGoodCore I.state O.state E.state C.prog C.sound S.reserved S.meaning core.old }
    requires segment { k < (core_limits S.meaning core.old).segments }
    ensures good { IsGoodCore I.state O.state E.state C.prog C.sound S.reserved S.meaning core.new }
    ensures job { SameJob S.meaning core.old core.new }
    ensures grows { Grows I.state O.state E.state C.prog S.meaning S.peaks core.old core.new }
{
    if is_taken(core, k) {
        commit(core, k);
    }
}

/// What follows steps of a segment that were answered so.
fn follow<C: Client, S: SegStore, I: Source, O: Sink, E: Sink>(
    core: &mut Core<'_, C, S, I, O, E>,
    k: u8,
    answer: Result<Advance, AdvanceError>,
)
    requires good { IsGoodCore I.state O.state E.state C.prog C.sound S.reserved S.meaning core.old }
    requires segment { k < (core_limits S.meaning core.old).segments }
    ensures good { IsGoodCore I.state O.state E.state C.prog C.sound S.reserved S.meaning core.new }
    ensures job { SameJob S.meaning core.old core.new }
    ensures grows { Grows I.state O.state E.state C.prog S.meaning S.peaks core.old core.new }
{
    match answer {
        Ok(Advance::NeedSolo(_)) => go_solo(core, k),
        Ok(Advance::Ran(_)) => commit_whole(core, k),
        Ok(_) => commit(core, k),
        Err(_) => (),
    }
}

/// So many steps of what a segment has in hand.
fn step<C: Client, S: SegStore, I: Source, O: Sink, E: Sink>(
    core: &mut Core<'_, C, S, I, O, E>,
    k: u8,
    steps: u64,
) -> Result<Advance, AdvanceError>
    requires good { IsGoodCore I.state O.state E.state C.prog C.sound S.reserved S.meaning core.old }
    requires may { Says I.state O.state E.state C.prog S.meaning core.old
        (λ o. may_make (core_limits S.meaning core.old) o.core (Event.Advance k steps) ≡ true) }
    ensures good { IsGoodCore I.state O.state E.state C.prog C.sound S.reserved S.meaning core.new }
    ensures job { SameJob S.meaning core.old core.new }
    ensures grows { Grows I.state O.state E.state C.prog S.meaning S.peaks core.old core.new }
{
    call_law(core.client());
    let answer = core.advance(k, steps);
    events_law::<C::State>();
    answer
}

/// So many steps of what a segment has in hand, and what follows them.
fn advance<C: Client, S: SegStore, I: Source, O: Sink, E: Sink>(
    core: &mut Core<'_, C, S, I, O, E>,
    k: u8,
    steps: u64,
)
    requires good { IsGoodCore I.state O.state E.state C.prog C.sound S.reserved S.meaning core.old }
    requires segment { k < (core_limits S.meaning core.old).segments }
    requires may { Says I.state O.state E.state C.prog S.meaning core.old
        (λ o. may_make (core_limits S.meaning core.old) o.core (Event.Advance k steps) ≡ true) }
    ensures good { IsGoodCore I.state O.state E.state C.prog C.sound S.reserved S.meaning core.new }
    ensures job { SameJob S.meaning core.old core.new }
    ensures grows { Grows I.state O.state E.state C.prog S.meaning S.peaks core.old core.new }
{
    let answer = step(core, k, steps);
    follow(core, k, answer);
}

/// Goes on with what a segment has in hand, by at most so many steps. It is committed at the length, and where its
/// thread waits or has ended.
fn go_on<C: Client, S: SegStore, I: Source, O: Sink, E: Sink>(
    core: &mut Core<'_, C, S, I, O, E>,
    k: u8,
    most: u64,
)
    requires good { IsGoodCore I.state O.state E.state C.prog C.sound S.reserved S.meaning core.old }
    requires segment { k < (core_limits S.meaning core.old).segments }
    ensures good { IsGoodCore I.state O.state E.state C.prog C.sound S.reserved S.meaning core.new }
    ensures job { SameJob S.meaning core.old core.new }
    ensures grows { Grows I.state O.state E.state C.prog S.meaning S.peaks core.old core.new }
{
    let slot = core.slot(k);
    let steps = steps_of(slot, core.length(), most);
    if is_busy(slot) && 0 < steps {
        advance(core, k, steps);
    } else {
        commit(core, k);
    }
}

/// Begins a transaction of a thread on a segment.
fn begin<C: Client, S: SegStore, I: Source, O: Sink, E: Sink>(
    core: &mut Core<'_, C, S, I, O, E>,
    k: u8,
    t: u32,
)
    requires good { IsGoodCore I.state O.state E.state C.prog C.sound S.reserved S.meaning core.old }
    requires segment { k < (core_limits S.meaning core.old).segments }
    ensures good { IsGoodCore I.state O.state E.state C.prog C.sound S.reserved S.meaning core.new }
    ensures job { SameJob S.meaning core.old core.new }
    ensures grows { Grows I.state O.state E.state C.prog S.meaning S.peaks core.old core.new }
{
    let _ = core.begin(k, t);
    events_law::<C::State>();
    call_law(core.client());
}

/// Where a segment has nothing in hand, begins a transaction of the next ready thread there, if there is one and it
/// may begin.
fn begin_next<C: Client, S: SegStore, I: Source, O: Sink, E: Sink>(
    core: &mut Core<'_, C, S, I, O, E>,
    k: u8,
)
    requires good { IsGoodCore I.state O.state E.state C.prog C.sound S.reserved S.meaning core.old }
    requires segment { k < (core_limits S.meaning core.old).segments }
    ensures good { IsGoodCore I.state O.state E.state C.prog C.sound S.reserved S.meaning core.new }
    ensures job { SameJob S.meaning core.old core.new }
    ensures grows { Grows I.state O.state E.state C.prog S.meaning S.peaks core.old core.new }
{
    if is_busy(core.slot(k)) {
        return;
    }
    if let Some(t) = core.next_ready() {
        begin(core, k, t);
    }
}

/// The run doesn't go on.
fn has_ended<C: Client, S: SegStore, I: Source, O: Sink, E: Sink>(
    core: &Core<'_, C, S, I, O, E>,
) -> bool
    requires good { IsGoodCore I.state O.state E.state C.prog C.sound S.reserved S.meaning core.now }
    ensures yes { result ≡ true → HasEnded I.state O.state E.state C.prog S.meaning core.now }
    ensures not { result ≡ false → GoesOn I.state O.state E.state C.prog S.meaning core.now }
{
    match core.outcome() {
        RunState::Running => false,
        _ => true,
    }
}

/// What a segment has in hand goes on, by at most so many steps, be it that a transaction begins there now: whether
/// it has something.
fn work<C: Client, S: SegStore, I: Source, O: Sink, E: Sink>(
    core: &mut Core<'_, C, S, I, O, E>,
    k: u8,
    most: u64,
) -> bool
    requires good { IsGoodCore I.state O.state E.state C.prog C.sound S.reserved S.meaning core.old }
    requires segment { k < (core_limits S.meaning core.old).segments }
    ensures good { IsGoodCore I.state O.state E.state C.prog C.sound S.reserved S.meaning core.new }
    ensures job { SameJob S.meaning core.old core.new }
    ensures grows { Grows I.state O.state E.state C.prog S.meaning S.peaks core.old core.new }
{
    begin_next(core, k);
    let is_busy = is_busy(core.slot(k));
    go_on(core, k, most);
    is_busy
}

/// What a visit found where the run goes on.
fn found(is_busy: bool) -> Finding
    ensures { result ≢ Finding.Ended }
{
    if is_busy {
        Finding::Worked
    } else {
        Finding::Idle
    }
}

/// A piece that fits what a segment has in hand is installed, and another one is let go: how many steps that added.
fn install<C: Client, S: SegStore, I: Source, O: Sink, E: Sink>(
    core: &mut Core<'_, C, S, I, O, E>,
    k: u8,
    piece: Piece<C::State>,
) -> u64
    requires good { IsGoodCore I.state O.state E.state C.prog C.sound S.reserved S.meaning core.old }
    requires segment { k < (core_limits S.meaning core.old).segments }
    requires by { IsPieceBy (C.prog (core_client core.old)) piece }
    ensures good { IsGoodCore I.state O.state E.state C.prog C.sound S.reserved S.meaning core.new }
    ensures job { SameJob S.meaning core.old core.new }
    ensures grows { Grows I.state O.state E.state C.prog S.meaning S.peaks core.old core.new }
{
    if !core.fits(k, &piece) {
        return 0;
    }
    piece_law::<C::State>();
    core.install(k, piece).unwrap_or(0)
}

/// A piece that was brought is installed, if it fits, and what then has as many steps as the length is committed: how
/// many steps the piece added.
fn take_in<C: Client, S: SegStore, I: Source, O: Sink, E: Sink>(
    core: &mut Core<'_, C, S, I, O, E>,
    k: u8,
    piece: Option<Piece<C::State>>,
) -> u64
    requires good { IsGoodCore I.state O.state E.state C.prog C.sound S.reserved S.meaning core.old }
    requires segment { k < (core_limits S.meaning core.old).segments }
    requires by { IfSome piece (IsPieceBy (C.prog (core_client core.old))) }
    ensures good { IsGoodCore I.state O.state E.state C.prog C.sound S.reserved S.meaning core.new }
    ensures job { SameJob S.meaning core.old core.new }
    ensures grows { Grows I.state O.state E.state C.prog S.meaning S.peaks core.old core.new }
{
    match piece {
        Some(piece) => {
            let steps = install(core, k, piece);
            commit_whole(core, k);
            steps
        }
        None => 0,
    }
}

/// A loan of what a segment has in hand, if that may go on. A worker that is alone gets none, as it would copy
/// records for nobody.
fn lend<C: Client, S: SegStore, I: Source, O: Sink, E: Sink>(
    core: &mut Core<'_, C, S, I, O, E>,
    k: u8,
) -> Option<Loan<C::State>>
    requires good { IsGoodCore I.state O.state E.state C.prog C.sound S.reserved S.meaning core.old }
    requires segment { k < (core_limits S.meaning core.old).segments }
    ensures good { IsGoodCore I.state O.state E.state C.prog C.sound S.reserved S.meaning core.new }
    ensures job { SameJob S.meaning core.old core.new }
    ensures grows { Grows I.state O.state E.state C.prog S.meaning S.peaks core.old core.new }
    ensures loan { IfSome result (IsRunnable C.prog C.sound (core_client core.old)) }
{
    if core.store().segments() == 1 || !core.may_loan(k) {
        return None;
    }
    piece_law::<C::State>();
    match core.loan(k) {
        Ok(loan) => Some(loan),
        Err(_) => None,
    }
}

/// A visit that brings a piece, if there is one, and whether it asks for a loan, which it doesn't take yet: what it
/// found, and how many steps the piece added.
fn go_round<C: Client, S: SegStore, I: Source, O: Sink, E: Sink>(
    core: &mut Core<'_, C, S, I, O, E>,
    k: u8,
    piece: Option<Piece<C::State>>,
    asks: bool,
) -> (Finding, u64)
    requires good { IsGoodCore I.state O.state E.state C.prog C.sound S.reserved S.meaning core.old }
    requires segment { k < (core_limits S.meaning core.old).segments }
    requires by { IfSome piece (IsPieceBy (C.prog (core_client core.old))) }
    ensures good { IsGoodCore I.state O.state E.state C.prog C.sound S.reserved S.meaning core.new }
    ensures job { SameJob S.meaning core.old core.new }
    ensures grows { Grows I.state O.state E.state C.prog S.meaning S.peaks core.old core.new }
    ensures over { result.0 ≡ Finding.Ended → HasEnded I.state O.state E.state C.prog S.meaning core.new }
    ensures same { result.0 ≡ Finding.Ended → core.new ≡ core.old }
    ensures going { result.0 ≢ Finding.Ended → GoesOn I.state O.state E.state C.prog S.meaning core.old }
{
    if has_ended(core) {
        return (Finding::Ended, 0);
    }
    let alone = core.store().segments() == 1;
    let steps = take_in(core, k, piece);
    (found(work(core, k, steps_after(alone, asks, steps))), steps)
}

/// One visit of the worker of segment `k` without pieces, and what it found.
///
/// Where nothing is in hand a transaction of the next ready thread begins. Then at most `VISIT_STEPS` steps are done,
/// on one segment `ALONE_STEPS`, up to the length. What has as many steps as the length, or waits, or has ended, is
/// committed; what is to print or read becomes solo, or is committed where another one is solo.
pub fn visit<C: Client, S: SegStore, I: Source, O: Sink, E: Sink>(
    core: &mut Core<'_, C, S, I, O, E>,
    k: u8,
) -> Finding
    requires good { IsGoodCore I.state O.state E.state C.prog C.sound S.reserved S.meaning core.old }
    requires segment { k < (core_limits S.meaning core.old).segments }
    ensures good { IsGoodCore I.state O.state E.state C.prog C.sound S.reserved S.meaning core.new }
    ensures job { core_job S.meaning core.new ≡ core_job S.meaning core.old }
    ensures grows { Grows I.state O.state E.state C.prog S.meaning S.peaks core.old core.new }
    ensures over { result ≡ Finding.Ended → HasEnded I.state O.state E.state C.prog S.meaning core.new }
    ensures same { result ≡ Finding.Ended → core.new ≡ core.old }
    ensures going { result ≢ Finding.Ended → GoesOn I.state O.state E.state C.prog S.meaning core.old }
{
    go_round(core, k, None, true).0
}

/// Whether what ended a piece, if one was brought, tells of the records that it wanted: the length of a transaction and
/// the end of a thread don't.
fn tells<T>(piece: &Option<Piece<T>>) -> bool {
    match piece {
        Some(piece) => !matches!(piece.end, PieceEnd::Most | PieceEnd::Ended),
        None => false,
    }
}

/// Whether pieces are worth their copies, by one that added so many steps.
fn worth_of(tells: bool, steps: u64) -> Worth {
    if WORTHY_STEPS <= steps {
        Worth::Paid
    } else if tells {
        Worth::Wasted
    } else {
        Worth::Untold
    }
}

/// One visit of the worker of segment `k`, which brings the piece that it has run since the last one, if it has: what
/// it found, whether the piece was worth its copies, and a loan for the next piece.
///
/// A piece that fits is installed, and what has as many steps as the length then is committed. The visit goes on as one
/// without pieces does, but by one step where the piece went far. Then, where the worker asks for a loan, brought no
/// piece that wasn't worth it, and has a transaction in hand that may go on, its thread's state and records that its
/// steps have looked at are loaned.
pub fn visit_with<C: Client, S: SegStore, I: Source, O: Sink, E: Sink>(
    core: &mut Core<'_, C, S, I, O, E>,
    k: u8,
    piece: Option<Piece<C::State>>,
    asks: bool,
) -> (Finding, Worth, Option<Loan<C::State>>)
    requires good { IsGoodCore I.state O.state E.state C.prog C.sound S.reserved S.meaning core.old }
    requires segment { k < (core_limits S.meaning core.old).segments }
    requires by { IfSome piece (IsPieceBy (C.prog (core_client core.old))) }
    ensures good { IsGoodCore I.state O.state E.state C.prog C.sound S.reserved S.meaning core.new }
    ensures job { core_job S.meaning core.new ≡ core_job S.meaning core.old }
    ensures grows { Grows I.state O.state E.state C.prog S.meaning S.peaks core.old core.new }
    ensures over { result.0 ≡ Finding.Ended → HasEnded I.state O.state E.state C.prog S.meaning core.new }
    ensures same { result.0 ≡ Finding.Ended → core.new ≡ core.old }
    ensures going { result.0 ≢ Finding.Ended → GoesOn I.state O.state E.state C.prog S.meaning core.old }
    ensures loan { IfSome result.2 (IsRunnable C.prog C.sound (core_client core.old)) }
{
    let tells = tells(&piece);
    let (found, steps) = go_round(core, k, piece, asks);
    let worth = worth_of(tells, steps);
    if found.is_last() || !asks || matches!(worth, Worth::Wasted) {
        return (found, worth, None);
    }
    (found, worth, lend(core, k))
}
