// Two threads that add to one list: each finds the list that it takes no shorter than the one that it gave last.
ghost use Rattle.std.specs.Prelude.{◌≡◌, ◌≤◌, ◌++◌, List, [], ℕ, false, true, length, vec_capacity};
ghost use Rattle.std.proofs.Common.{sym, ap, ◌∙◌};
ghost use Rattle.std.specs.Thread.{IsSync};
ghost use Rattle.std.proofs.lemmas.List.{append-nil, append_assoc};

use crate::{HeapLock, Job, Seat};
use std::sync::Wait;
use std::test::Fail;
use std::thread::{Threads, join};

// A list to which threads add at its end. It has room for at least so many entries.
#[derive(Drop)]
struct Log {
    room: usize,
    entries: Vec<u8>,
}

impl Job for Log {
    type Description = usize;

    ghost job = { λ l. l.room };

    ghost good = { λ l. l.room ≤ vec_capacity l.entries };

    ghost grows = { λ l m. (more : List ℕ) × (m.entries.items ≡ l.entries.items ++ more) };

    ghost grows_same = { λ l. ([], sym (append-nil l.entries.items)) };

    ghost grows_then = { λ l m n a b. (a.0 ++ b.0, b.1 ∙ (ap (λ xs. xs ++ b.0) a.1 ∙ append_assoc l.entries.items a.0 b.0)) };
}

impl Log {
    // Adds an entry, if there is room.
    fn add(&mut self, entry: u8)
        requires good { self.old.room ≤ vec_capacity self.old.entries }
        ensures good { self.new.room ≤ vec_capacity self.new.entries }
        ensures job { self.new.room ≡ self.old.room }
        ensures grown { (more : List ℕ) × (self.new.entries.items ≡ self.old.entries.items ++ more) }
    {
        if self.entries.len() < self.room {
            self.entries.push_reserved(entry);
        }
    }
}

// Adds an entry as often. True: no list was shorter than the one that the seat gave before.
fn add_entries<Rt: Wait>(
    rt: &Rt,
    lock: &HeapLock<Log>,
    mut seat: Seat<Log>,
    entry: u8,
    times: u32,
) -> (Seat<Log>, bool)
    requires lock { seat.lock ≡ lock.now.id }
    requires free { seat.holds ≡ false }
    ensures same { result.0 ≡ record seat { seen = result.0.seen; taken = result.0.taken } }
    ensures none_shorter { result.1 ≡ true }
{
    let mut last = 0;
    let mut none_shorter = true;
    for _ in 0..times {
        let mut log = lock.take(rt, &mut seat);
        none_shorter = none_shorter && last <= log.entries.len();
        log.add(entry);
        last = log.entries.len();
        lock.give(&mut seat, log);
    }
    (seat, none_shorter)
}

// Both threads' adding, and what both found.
fn add_in_two_threads<Rt: Threads + Wait + Sync>(
    rt: &Rt,
    lock: &HeapLock<Log>,
    mut seat: Seat<Log>,
    times: u32,
) -> (Seat<Log>, bool)
    requires lock { seat.lock ≡ lock.now.id }
    requires free { seat.holds ≡ false }
    requires parts { length seat.parts ≡ 2 }
    ensures same { result.0 ≡ record seat { seen = result.0.seen; taken = result.0.taken } }
    ensures none_shorter { result.1 ≡ true }
{
    let other = lock.split(&mut seat);
    let ((mut seat, first), (other, second)) = join(
        rt,
        move || -> (Seat<Log>, bool)
            requires { IsSync Rt.row × (seat.lock ≡ lock.now.id) × (seat.holds ≡ false) }
            ensures same { result.0 ≡ record seat { seen = result.0.seen; taken = result.0.taken } }
            ensures none_shorter { result.1 ≡ true }
        { add_entries(rt, lock, seat, 1, times) },
        move || -> (Seat<Log>, bool)
            requires { (other.lock ≡ lock.now.id) × (other.holds ≡ false) }
            ensures same { result.0 ≡ record other { seen = result.0.seen; taken = result.0.taken } }
            ensures none_shorter { result.1 ≡ true }
        { add_entries(rt, lock, other, 2, times) },
    );
    lock.join(&mut seat, other);
    (seat, first && second)
}

#[test]
fn two_threads_add_to_a_list(rt: HostRuntime) -> Result<(), Fail> {
    let start = Log {
        room: 10_000,
        entries: Vec::with_capacity(rt.alloc(), 10_000)?,
    };
    let (lock, seat) = HeapLock::new(rt.alloc(), start, 2).map_err(|_| "no memory")?;
    let (seat, none_shorter) = add_in_two_threads(&rt, &lock, seat, 4_000);
    assert!(rt; none_shorter);
    let end = lock.close(seat);
    prove!(end.room == 10_000);
    assert_eq!(rt; end.entries.len(), 8_000);
    Ok(())
}
