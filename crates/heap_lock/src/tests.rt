// Threads that count under a lock.
ghost use Rattle.std.specs.Prelude.{◌≡◌, ◌<◌, ◌≤◌, false, length, All};
ghost use Rattle.std.proofs.Math.Nat.{le_refl, le_trans};
ghost use Rattle.std.specs.Thread.{IsSync};

use crate::{HeapLock, Job, Seat};
use std::process::Abort;
use std::sync::Wait;
use std::test::Fail;
use std::thread::{Threads, join};

// A value to which threads add.
trait Adding: Job {
    fn add(&mut self, amount: u64)
        requires good { Self.good self.old }
        ensures good { Self.good self.new }
        ensures job { Self.job self.new ≡ Self.job self.old }
        ensures grown { Self.grows self.old self.new };
}

#[derive(Drop)]
struct Count {
    limit: u64,
    count: u64,
}

impl Job for Count {
    type Description = u64;

    ghost job = { λ c. c.limit };

    ghost good = { λ c. c.count ≤ c.limit };

    ghost grows = { λ c d. c.count ≤ d.count };

    ghost grows_same = { λ c. le_refl c.count };

    ghost grows_then = { λ c d e more again. le_trans more again };
}

impl Adding for Count {
    fn add(&mut self, amount: u64) {
        if amount <= self.limit - self.count {
            self.count += amount;
        }
    }
}

// Adds as often. What has grown from all that the seat has seen then has grown from all that it had.
fn add_often<T: Adding, Rt: Wait>(
    rt: &Rt,
    lock: &HeapLock<T>,
    mut seat: Seat<T>,
    amount: u8,
    times: u32,
) -> Seat<T>
    requires lock { seat.lock ≡ lock.now.id }
    requires free { seat.holds ≡ false }
    ensures same { result ≡ record seat { seen = result.seen; taken = result.taken } }
    ensures seen { (x : T) → All (λ y. T.grows y x) result.seen → All (λ y. T.grows y x) seat.seen }
{
    for _ in 0..times {
        let mut value = lock.take(rt, &mut seat);
        value.add(u64::from(amount));
        lock.give(&mut seat, value);
    }
    seat
}

// One thread for each part of the seat, which adds 1, 2, 3 and so on.
fn add_in_threads<T: Adding + Send, Rt: Threads + Wait + Sync>(
    rt: &Rt,
    lock: &HeapLock<T>,
    mut seat: Seat<T>,
    threads: u8,
    times: u32,
) -> Seat<T>
    requires lock { seat.lock ≡ lock.now.id }
    requires free { seat.holds ≡ false }
    requires threads { (0 < threads) × (length seat.parts ≡ threads) }
    ensures same { result ≡ record seat { seen = result.seen; taken = result.taken } }
    ensures seen { (x : T) → All (λ y. T.grows y x) result.seen → All (λ y. T.grows y x) seat.seen }
{
    if threads == 1 {
        return add_often(rt, lock, seat, 1, times);
    }
    let rest = threads - 1;
    let other = lock.split(&mut seat);
    let (mut seat, other) = join(
        rt,
        move || -> Seat<T>
            requires { IsSync Rt.row × (seat.lock ≡ lock.now.id) × (seat.holds ≡ false) × (0 < rest) ×
                (length seat.parts ≡ rest) }
            ensures same { result ≡ record seat { seen = result.seen; taken = result.taken } }
            ensures seen { (x : T) → All (λ y. T.grows y x) result.seen → All (λ y. T.grows y x) seat.seen }
        { add_in_threads(rt, lock, seat, rest, times) },
        move || -> Seat<T>
            requires { (other.lock ≡ lock.now.id) × (other.holds ≡ false) }
            ensures same { result ≡ record other { seen = result.seen; taken = result.taken } }
            ensures seen { (x : T) → All (λ y. T.grows y x) result.seen → All (λ y. T.grows y x) other.seen }
        { add_often(rt, lock, other, threads, times) },
    );
    lock.join(&mut seat, other);
    seat
}

#[test]
fn two_threads_count(rt: HostRuntime) -> Result<(), Fail> {
    let start = Count {
        limit: 100_000,
        count: 5,
    };
    let (lock, seat) = HeapLock::new(rt.alloc(), start, 2).map_err(|_| "no memory")?;
    let seat = add_in_threads(&rt, &lock, seat, 2, 10_000);
    let end = lock.close(seat);
    prove!(end.limit == 100_000);
    prove!(5 <= end.count);
    assert_eq!(rt; end.count, 5 + 10_000 + 20_000);
    Ok(())
}

#[test]
fn eight_threads_count(rt: HostRuntime) -> Result<(), Fail> {
    let start = Count {
        limit: 100_000,
        count: 0,
    };
    let (lock, seat) = HeapLock::new(rt.alloc(), start, 8).map_err(|_| "no memory")?;
    let seat = add_in_threads(&rt, &lock, seat, 8, 1_000);
    assert_eq!(rt; lock.close(seat).count, 36_000);
    Ok(())
}
