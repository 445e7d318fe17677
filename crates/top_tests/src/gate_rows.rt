//! Workers that run pieces of different threads at the same time: a gate holds the first piece of each thread until a
//! piece of every one of them has come.
use std::alloc::Global;
use std::process::Abort;
use std::sync::Wait;
use std::sync::atomic::{AtomicU64, Ordering};
use std::test;
use std::thread::Threads;
use stm_io::{Gate, SureLoader, SureSink, SureSource};
use stm_top::{Report, run_words};
use top_bench::words_in;

type Tested = Result<(), test::Fail>;

/// How often a piece at the gate asks whether the others have come.
const ASKED_AT_MOST: u64 = 200_000_000;

/// A gate for the first pieces of some threads. Threads and workers are bits of numbers.
#[derive(Drop)]
struct Meeting {
    /// The threads that meet.
    threads: u64,
    /// Those that have come.
    come: AtomicU64,
    /// The workers that they came with.
    workers: AtomicU64,
    /// How many went on without the others.
    late: AtomicU64,
}

impl Meeting {
    /// A gate at which these threads meet.
    fn of(threads: u64) -> Meeting {
        Meeting {
            threads,
            come: AtomicU64::new(0),
            workers: AtomicU64::new(0),
            late: AtomicU64::new(0),
        }
    }

    /// Asks until all have come, or often enough: whether they have.
    fn have_all_come(&self) -> bool {
        for _ in 0..ASKED_AT_MOST {
            if self.come.load(Ordering::SeqCst) == self.threads {
                return true;
            }
        }
        false
    }
}

impl Gate for Meeting {
    fn enter(&self, worker: u8, thread: u32) {
        if thread >= 64 || worker >= 64 || self.threads & (1 << thread) == 0 {
            return;
        }
        let thread: u64 = 1 << thread;
        if self.come.fetch_or(thread, Ordering::SeqCst) & thread != 0 {
            return;
        }
        let _ = self.workers.fetch_or(1 << worker, Ordering::SeqCst);
        if !self.have_all_come() {
            let _ = self.late.fetch_add(1, Ordering::SeqCst);
        }
    }
}

/// So many threads that each count a local to 3,000.
fn counting(alloc: Global, threads: &str) -> Result<Vec<u8>, test::Fail> {
    let text = format!(in alloc;
        "import threading
def count():
    i = 0
    while i < 3000:
        i += 1
threads = []
for i in range({threads}):
    threads.append(threading.Thread(target=count))
    threads[i].start()
for t in threads:
    t.join()
print 'counted'
"
    )?;
    Ok(Vec::from_slice(alloc, text.as_bytes())?)
}

/// The run of a script by these words, past a gate.
fn run_past<Rt: Abort + Threads + Wait + Sync>(
    rt: &Rt,
    alloc: Global,
    words: &str,
    script: Vec<u8>,
    gate: &Meeting,
) -> Result<Report<SureLoader, SureSource, SureSink, SureSink>, test::Fail> {
    let words = words_in(alloc, words)?;
    Ok(run_words(
        rt,
        alloc,
        words.as_slice(),
        SureLoader::new(alloc, Vec::new(alloc)),
        SureSource::new(alloc, script),
        SureSink::new(alloc),
        SureSink::new(alloc),
        gate,
    ))
}

/// Pieces of two threads are at the gate together, each with a worker of its own.
#[test]
fn two_pieces_meet(rt: HostRuntime) -> Tested {
    let gate = Meeting::of(0b110);
    let script = counting(rt.alloc(), "2")?;
    let report = run_past(&rt, rt.alloc(), "--segments 2 -", script, &gate)?;
    assert_eq!(&rt; report.status.number(), 0);
    assert_eq!(&rt; report.out.written(), b"counted\n".as_slice());
    assert_eq!(&rt; gate.come.load(Ordering::SeqCst), 0b110);
    assert_eq!(&rt; gate.workers.load(Ordering::SeqCst), 0b11);
    assert_eq!(&rt; gate.late.load(Ordering::SeqCst), 0);
    Ok(())
}

/// And so are pieces of eight threads.
#[test]
fn eight_pieces_meet(rt: HostRuntime) -> Tested {
    let gate = Meeting::of(0b1_1111_1110);
    let script = counting(rt.alloc(), "8")?;
    let report = run_past(&rt, rt.alloc(), "--segments 8 -", script, &gate)?;
    assert_eq!(&rt; report.status.number(), 0);
    assert_eq!(&rt; report.out.written(), b"counted\n".as_slice());
    assert_eq!(&rt; gate.come.load(Ordering::SeqCst), 0b1_1111_1110);
    assert_eq!(&rt; gate.workers.load(Ordering::SeqCst), 0b1111_1111);
    assert_eq!(&rt; gate.late.load(Ordering::SeqCst), 0);
    Ok(())
}
