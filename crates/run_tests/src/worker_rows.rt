//! Scripts of several threads, as a user writes them, whose answer is one however the workers come to the heap.
//! Written by hand.
use py_data::NoMemory;
use std::alloc::Global;
use std::process::Abort;
use std::sync::Wait;
use std::test;
use std::thread::Threads;
use text_tests::scripts::COUNTER;
use top_bench::{NO_FAILURE, report, told, words_in};

type Tested = Result<(), test::Fail>;

const QUOTIENTS: &[u8] = b"print 7/2, -7/2, -7%3, 7%-3
";

/// Two threads that add to one number under a lock.
const TWO_HUNDRED: &[u8] = b"import thread, threading
n = 0
l = thread.allocate_lock()
def f():
    global n
    for i in range(100):
        l.acquire()
        n = n + 1
        l.release()
a = threading.Thread(target=f)
b = threading.Thread(target=f)
a.start(); b.start()
a.join(); b.join()
print n
";

/// Two threads that set the ends of one list.
const ENDS: &[u8] = b"import threading
a = range(5000)
def f(i):
    a[i] = -1
t = threading.Thread(target=f, args=(0,))
u = threading.Thread(target=f, args=(4999,))
t.start(); u.start()
t.join(); u.join()
print a[0], a[1], a[4998], a[4999]
";

/// A thread that ends by an exception.
const DYING: &[u8] = b"import thread
def f(): return [][0]
thread.start_new_thread(f, ())
";

/// What a script answers by these words: the status, the output and the error output.
fn answer<Rt: Abort + Threads + Wait + Sync>(
    rt: &Rt,
    alloc: Global,
    words: &str,
    script: &[u8],
) -> Result<String, NoMemory> {
    let words = words_in(alloc, words)?;
    told(
        alloc,
        &report(rt, alloc, words.as_slice(), script, NO_FAILURE)?,
    )
}

/// How many segments rows are tried on.
const SEGMENTS: [&str; 4] = [
    "--segments 4 -",
    "--segments 1 -",
    "--segments=2 -",
    "--segments=8 -",
];

#[test]
fn quotients_are_printed(rt: HostRuntime) -> Tested {
    for words in SEGMENTS {
        let shown = answer(&rt, rt.alloc(), words, QUOTIENTS)?;
        assert_eq!(rt; shown.as_str(), "0~3 -4 2 -2;~", "{words}");
    }
    Ok(())
}

#[test]
fn two_threads_count(rt: HostRuntime) -> Tested {
    for words in SEGMENTS {
        let shown = answer(&rt, rt.alloc(), words, TWO_HUNDRED)?;
        assert_eq!(rt; shown.as_str(), "0~200;~", "{words}");
    }
    Ok(())
}

#[test]
fn two_threads_set_the_ends_of_a_list(rt: HostRuntime) -> Tested {
    for words in SEGMENTS {
        let shown = answer(&rt, rt.alloc(), words, ENDS)?;
        assert_eq!(rt; shown.as_str(), "0~-1 1 4998 -1;~", "{words}");
    }
    Ok(())
}

/// Four threads that count words in one dictionary.
#[test]
fn four_threads_count_words(rt: HostRuntime) -> Tested {
    for words in ["--segments 4 -", "--segments 4 --length 1 -"] {
        let shown = answer(&rt, rt.alloc(), words, COUNTER.as_bytes())?;
        assert_eq!(rt;
            shown.as_str(),
            "0~words 5;a: 50;cat: 100;dog: 50;end: 50;the: 150;~",
            "{words}"
        );
    }
    Ok(())
}

#[test]
fn exception_ends_a_thread(rt: HostRuntime) -> Tested {
    for words in SEGMENTS {
        let shown = answer(&rt, rt.alloc(), words, DYING)?;
        assert_eq!(rt;
            shown.as_str(),
            "0~~thread 1, line 2: IndexError: index out of range;",
            "{words}"
        );
    }
    Ok(())
}

/// The workload of the number 7 writes the same on so many segments, however long its transactions may be.
fn workload_is_done<Rt: Abort + Threads + Wait + Sync>(
    rt: &Rt,
    alloc: Global,
    segments: u8,
) -> Tested {
    for length in [1, 7, 1_000] {
        let words = format!(in alloc; "--demo 7 --segments={segments} --length {length}")?;
        let shown = answer(rt, alloc, words.as_str(), b"")?;
        assert_eq!(rt;
            shown.as_str(),
            "0~total 8000;transfers 10000;~",
            "{length} steps"
        );
    }
    Ok(())
}

#[test]
fn workload_is_done_on_one_segment(rt: HostRuntime) -> Tested {
    workload_is_done(&rt, rt.alloc(), 1)
}

#[test]
fn workload_is_done_on_two_segments(rt: HostRuntime) -> Tested {
    workload_is_done(&rt, rt.alloc(), 2)
}

#[test]
fn workload_is_done_on_three_segments(rt: HostRuntime) -> Tested {
    workload_is_done(&rt, rt.alloc(), 3)
}

#[test]
fn workload_is_done_on_four_segments(rt: HostRuntime) -> Tested {
    workload_is_done(&rt, rt.alloc(), 4)
}

#[test]
fn workload_is_done_on_five_segments(rt: HostRuntime) -> Tested {
    workload_is_done(&rt, rt.alloc(), 5)
}

#[test]
fn workload_is_done_on_six_segments(rt: HostRuntime) -> Tested {
    workload_is_done(&rt, rt.alloc(), 6)
}

#[test]
fn workload_is_done_on_seven_segments(rt: HostRuntime) -> Tested {
    workload_is_done(&rt, rt.alloc(), 7)
}

#[test]
fn workload_is_done_on_eight_segments(rt: HostRuntime) -> Tested {
    workload_is_done(&rt, rt.alloc(), 8)
}
