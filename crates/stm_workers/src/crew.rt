//! Workers that take one value in turn, over any value.
ghost use Rattle.std.specs.Prelude.{◌≡◌, ◌<◌, ◌≤◌, ℕ, false, length, All, IfSome};
ghost use Rattle.std.specs.Thread.{IsSync};

use crate::visits::Finding;
use heap_lock::{HeapLock, Job, Seat};
use std::sync::Wait;
use std::thread::{Threads, join, yield_now};

/// The longest pause of a worker that finds nothing to do, in times that it lets others run.
const LONGEST_PAUSE: u32 = 64;

/// The most visits in a row that ask for no errand.
const LONGEST_SPELL: u32 = 31;

/// What the workers of a crew do with a value of a job, and between their visits to it. A visit may leave an errand
/// `L` to its worker, to be run before the next one; what comes of it, `P`, the worker brings to its next visit.
pub(crate) trait Crew<T: Job, L, P> {
    /// The crew is for this job.
    ghost serves: { Self → T.Description → Type 0 };

    /// How many workers it has. They have the numbers below it.
    ghost workers: { Self → ℕ };

    /// The errand is one of this job.
    ghost errand_of: { T.Description → L → Type 0 };

    /// What came of an errand came of one of this job.
    ghost done_of: { T.Description → P → Type 0 };

    /// One visit of the worker `k` to the value, with what came of the errand of its last one, and what it found. It
    /// leaves an errand only where it is asked for one.
    fn visit(&self, value: &mut T, k: u8, done: Option<P>, asks: bool) -> Visit<L>
        requires good { T.good value.old }
        requires serves { serves self.now (T.job value.old) }
        requires worker { k < workers self.now }
        requires done { IfSome done (done_of (T.job value.old)) }
        ensures good { T.good value.new }
        ensures job { T.job value.new ≡ T.job value.old }
        ensures grows { T.grows value.old value.new }
        ensures errand { IfSome result.errand (errand_of (T.job value.old)) };

    /// The worker `k` runs an errand, with no value in hand.
    fn run(&self, k: u8, errand: L) -> P
        requires { (j : T.Description) × errand_of j errand }
        ensures { (j : T.Description) → errand_of j errand → done_of j result };
}

/// Whether an errand was worth its while.
#[derive(Clone, Copy, Debug, Drop)]
pub enum Worth {
    /// It was.
    Paid,
    /// It wasn't.
    Wasted,
    /// None was brought, or what ended it says nothing of the next one.
    Untold,
}

/// What a visit found, and what it left to its worker.
#[derive(Drop)]
pub(crate) struct Visit<E> {
    pub found: Finding,
    /// Whether the errand that was brought was worth its while.
    pub worth: Worth,
    pub errand: Option<E>,
}

/// When a worker asks for errands: after the second in a row that wasn't worth its while it makes a spell of visits
/// without, and a longer one after each further; after one that was it asks at each visit again.
#[derive(Clone, Copy, Debug)]
struct Asking {
    /// How many visits of the spell are left.
    left: u32,
    /// How many the next spell will have.
    spell: u32,
}

impl Asking {
    /// It asks at the first visit.
    fn new() -> Asking {
        Asking { left: 0, spell: 0 }
    }

    /// Whether the next visit asks.
    fn is_due(self) -> bool {
        self.left == 0
    }

    /// After a visit to which an errand was brought that was worth so much.
    fn after(self, worth: Worth) -> Asking {
        match worth {
            Worth::Paid => Asking::new(),
            Worth::Wasted => Asking {
                left: self.spell,
                spell: self
                    .spell
                    .saturating_mul(2)
                    .saturating_add(1)
                    .min(LONGEST_SPELL),
            },
            Worth::Untold => Asking {
                left: self.left.saturating_sub(1),
                spell: self.spell,
            },
        }
    }
}

/// The pause after a visit that found this, where the pause before it was so long: it doubles while there is nothing
/// to do. A worker that is alone makes none.
fn pause_after(found: Finding, pause: u32, alone: bool) -> u32 {
    if alone {
        return 0;
    }
    match found {
        Finding::Idle => pause.saturating_mul(2).min(LONGEST_PAUSE),
        _ => 1,
    }
}

/// Lets others run so many times.
fn rest(pause: u32) {
    for _ in 0..pause {
        yield_now();
    }
}

/// What comes of the errand that a visit left. Where it left none, others are let run so many times.
fn run_between<T: Job, L: Drop, P: Drop, W: Crew<T, L, P>>(
    crew: &W,
    k: u8,
    errand: Option<L>,
    pause: u32,
) -> Option<P>
    requires { IfSome errand (λ e. (j : T.Description) × W.errand_of j e) }
    ensures { (j : T.Description) → IfSome errand (W.errand_of j) → IfSome result (W.done_of j) }
{
    match errand {
        Some(errand) => Some(crew.run(k, errand)),
        None => {
            rest(pause);
            None
        }
    }
}

/// The visits of the worker `k`, up to the last. In between it runs what a visit left to it, or lets other threads
/// run, unless it is alone. What has grown from all that the seat has seen then has grown from all that it had seen
/// before.
fn make_visits<T: Job, L: Drop, P: Drop, W: Crew<T, L, P>, Rt: Wait>(
    rt: &Rt,
    lock: &HeapLock<T>,
    mut seat: Seat<T>,
    crew: &W,
    k: u8,
    alone: bool,
) -> Seat<T>
    requires lock { seat.lock ≡ lock.now.id }
    requires free { seat.holds ≡ false }
    requires serves { IfSome seat.job (W.serves crew.now) }
    requires worker { k < W.workers crew.now }
    ensures same { result ≡ record seat { seen = result.seen; taken = result.taken } }
    ensures seen { (x : T) → All (λ y. T.grows y x) result.seen → All (λ y. T.grows y x) seat.seen }
{
    let mut pause = 1;
    let mut asking = Asking::new();
    let mut done: Option<P> = None;
    for _ in rt.forever() {
        let mut value = lock.take(rt, &mut seat);
        let visit = crew.visit(&mut value, k, done, asking.is_due());
        lock.give(&mut seat, value);
        if visit.found.is_last() {
            return seat;
        }
        pause = pause_after(visit.found, pause, alone);
        asking = asking.after(visit.worth);
        done = run_between(crew, k, visit.errand, pause);
    }
    unreachable!()
}

/// One worker for each part of the seat, each in a thread of its own, the caller's among them. `alone` says that no
/// others share the lock.
pub(crate) fn run_all<
    T: Job + Send,
    L: Drop + Send,
    P: Drop + Send,
    W: Crew<T, L, P> + Sync,
    Rt: Threads + Wait + Sync,
>(rt: &Rt, lock: &HeapLock<T>, mut seat: Seat<T>, crew: &W, parts: u8, alone: bool) -> Seat<T>
    requires lock { seat.lock ≡ lock.now.id }
    requires free { seat.holds ≡ false }
    requires serves { IfSome seat.job (W.serves crew.now) }
    requires workers { parts ≤ W.workers crew.now }
    requires parts { (0 < parts) × (length seat.parts ≡ parts) }
    ensures same { result ≡ record seat { seen = result.seen; taken = result.taken } }
    ensures seen { (x : T) → All (λ y. T.grows y x) result.seen → All (λ y. T.grows y x) seat.seen }
{
    if parts == 1 {
        return make_visits(rt, lock, seat, crew, 0, alone);
    }
    let rest = parts - 1;
    let other = lock.split(&mut seat);
    let (mut seat, other) = join(
        rt,
        move || -> Seat<T>
            requires { IsSync Rt.row × (seat.lock ≡ lock.now.id) × (seat.holds ≡ false)
                × IfSome seat.job (W.serves crew.now) × (rest ≤ W.workers crew.now) × (0 < rest)
                × (length seat.parts ≡ rest) }
            ensures same { result ≡ record seat { seen = result.seen; taken = result.taken } }
            ensures seen { (x : T) → All (λ y. T.grows y x) result.seen → All (λ y. T.grows y x) seat.seen }
        { run_all(rt, lock, seat, crew, rest, alone) },
        move || -> Seat<T>
            requires { (other.lock ≡ lock.now.id) × (other.holds ≡ false) × IfSome other.job (W.serves crew.now)
                × (rest < W.workers crew.now) }
            ensures same { result ≡ record other { seen = result.seen; taken = result.taken } }
            ensures seen { (x : T) → All (λ y. T.grows y x) result.seen → All (λ y. T.grows y x) other.seen }
        { make_visits(rt, lock, other, crew, rest, alone) },
    );
    lock.join(&mut seat, other);
    seat
}
