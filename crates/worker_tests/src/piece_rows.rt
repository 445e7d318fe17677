//! Workers that run pieces between their visits to a core: a gate counts the threads whose pieces pass it.
ghost use Rattle.std.specs.Prelude.{IfOk};
ghost use Rattle.core_bench.specs.ScriptCore.{IsGoodScriptCore};

use core_bench::{MemCore, Tested, sink, source};
use lock_run::{Act, Acts, Script};
use seg_store::PlainStore;
use std::alloc::Global;
use std::process::Abort;
use std::sync::atomic::{AtomicU64, Ordering};
use std::test;
use stm_core::{Core, RunState};
use stm_io::{Gate, OpenGate};
use stm_workers::run_workers;

/// How often a thread sets its Cell and looks at it.
const TIMES: i64 = 300;

/// A gate that notes the threads whose pieces pass it, each as a bit.
#[derive(Drop)]
struct Passing {
    threads: AtomicU64,
}

impl Gate for Passing {
    fn enter(&self, _worker: u8, thread: u32) {
        if thread < 64 {
            let _ = self.threads.fetch_or(1 << thread, Ordering::SeqCst);
        }
    }
}

/// Acts that set a Cell and look at it so often, print a byte in the middle, and print one at the end.
fn acts(alloc: Global, cell: u32) -> Result<Acts, test::Fail> {
    let mut acts = Vec::new(alloc);
    for i in 0..TIMES {
        acts.push(Act::Set(cell, i))?;
        acts.push(Act::Look(cell))?;
        if i == 150 {
            acts.push(Act::Put(b'm'))?;
        }
    }
    acts.push(Act::Put(b'e'))?;
    Ok(Acts::from_slice(alloc, acts.as_slice())?)
}

/// Three threads, each of which has a Cell of its own.
fn script(rt: &impl Abort, alloc: Global) -> Result<Script, test::Fail> {
    let mut lists = Vec::new(alloc);
    for cell in 0..3 {
        lists.push(acts(alloc, cell)?)?;
    }
    assert!(rt; Script::fits(3, lists.as_slice()));
    Ok(Script::new(3, lists))
}

/// A core of so many segments, whose transactions have at most 1,000 steps.
fn core<'p>(
    rt: &impl Abort,
    alloc: Global,
    client: &'p Script,
    segments: u8,
) -> Result<MemCore<'p>, test::Fail>
    ensures good { IfOk result IsGoodScriptCore }
{
    assert!(rt; 1 <= segments && segments <= 8);
    let store = PlainStore::new(alloc, segments)?;
    let (input, out, err) = (source(alloc), sink(alloc), sink(alloc));
    match Core::new(alloc, client, store, 1_000, 10_000, input, out, err) {
        Ok(core) => Ok(core),
        Err(_) => Err("no memory".into()),
    }
}

/// On three segments each thread has pieces, and what is printed is what one after another would print.
#[test]
fn each_thread_has_pieces(rt: HostRuntime) -> Tested {
    let client = script(&rt, rt.alloc())?;
    let core = core(&rt, rt.alloc(), &client, 3)?;
    let gate = Passing {
        threads: AtomicU64::new(0),
    };
    let core = run_workers(&rt, rt.alloc(), core, &gate);
    let finished = core.finish();
    assert!(&rt; finished.state == RunState::Done);
    assert_eq!(&rt; finished.out.written().len(), 6);
    assert_eq!(&rt; gate.threads.load(Ordering::SeqCst), 0b1110);
    Ok(())
}

/// A worker that is alone runs none.
#[test]
fn worker_alone_has_no_pieces(rt: HostRuntime) -> Tested {
    let client = script(&rt, rt.alloc())?;
    let core = core(&rt, rt.alloc(), &client, 1)?;
    let gate = Passing {
        threads: AtomicU64::new(0),
    };
    let core = run_workers(&rt, rt.alloc(), core, &gate);
    let finished = core.finish();
    assert!(&rt; finished.state == RunState::Done);
    assert_eq!(&rt; finished.out.written(), b"mememe".as_slice());
    assert_eq!(&rt; gate.threads.load(Ordering::SeqCst), 0);
    Ok(())
}

/// An open gate lets all pass.
#[test]
fn pieces_pass_an_open_gate(rt: HostRuntime) -> Tested {
    let client = script(&rt, rt.alloc())?;
    let core = core(&rt, rt.alloc(), &client, 8)?;
    let core = run_workers(&rt, rt.alloc(), core, &OpenGate);
    let finished = core.finish();
    assert!(&rt; finished.state == RunState::Done);
    assert_eq!(&rt; finished.out.written().len(), 6);
    Ok(())
}
