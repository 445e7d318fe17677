//! Histories of scripts that are run again turn by turn, on a machine of their own.
ghost use Rattle.lock_run.specs.Client.{IsSoundFirst};
ghost use Rattle.lock_run.specs.LockState.{lock_state, lock_client, IsSound};
ghost use Rattle.py_frames.specs.Laws.{prog_of};
ghost use Rattle.py_frames.specs.Sound.{Sound};
ghost use Rattle.py_step.specs.Client.{program_in};
ghost use Rattle.stm_io.specs.Memory.{mem_sink_state, mem_source_state};

use front_end::compile_text;
use lock_run::{History, LockRun, Turn, TurnWhy};
use py_data::{Addr, Names};
use py_step::PyClient;
use std::alloc::Global;
use std::process::Abort;
use std::sync::Wait;
use std::test;
use std::thread::Threads;
use stm_io::{MemSink, MemSource};
use stm_top::SCRIPT_LIMIT;
use top_bench::{NO_FAILURE, SCRIPTS, lines_of, report, source_word, words_in};

type Tested = Result<(), test::Fail>;

type MemRun<'p> = LockRun<'p, PyClient, MemSource, MemSink, MemSink>;

/// Does a turn, and answers the steps that stay done where it is cut for its names.
fn turn_again(
    rt: &impl Abort,
    run: &mut MemRun<'_>,
    turn: &Turn,
    names: &Names,
) -> Result<Option<u64>, test::Fail>
    requires { IsSound (Sound (program_in (lock_client run.old)))
        (lock_state mem_source_state mem_sink_state mem_sink_state run.old) }
    ensures { IsSound (Sound (program_in (lock_client run.new)))
        (lock_state mem_source_state mem_sink_state mem_sink_state run.new) }
{
    assert!(rt; turn.steps >= 1);
    match run.turn(turn.thread, turn.steps, names) {
        Ok(()) => Ok(None),
        Err(fault) => {
            assert!(rt; fault.why == TurnWhy::BadNames);
            Ok(Some(fault.done))
        }
    }
}

/// Does a turn of a history, which isn't cut.
fn next_turn(
    rt: &impl Abort,
    run: &mut MemRun<'_>,
    history: &History,
    i: usize,
) -> Result<(), test::Fail>
    requires { IsSound (Sound (program_in (lock_client run.old)))
        (lock_state mem_source_state mem_sink_state mem_sink_state run.old) }
    ensures { IsSound (Sound (program_in (lock_client run.new)))
        (lock_state mem_source_state mem_sink_state mem_sink_state run.new) }
{
    let turn = history.get(i).ok_or("a turn is missing")?;
    assert!(rt; turn_again(rt, run, turn, &turn.names)?.is_none());
    Ok(())
}

/// How the first turn's names are changed: as they were, one left over, one doubled, one too few.
#[derive(Clone, Copy)]
enum Change {
    None,
    Over,
    Doubled,
    Few,
}

fn changed(alloc: Global, names: &Names, change: Change) -> Result<Names, test::Fail> {
    let mut names = names.copy(alloc)?;
    let first = *names.get(0).ok_or("no name")?;
    let last = names.len().saturating_sub(1);
    match change {
        Change::None => (),
        Change::Over => names.push(Addr(7_777_777))?,
        Change::Doubled => {
            names.truncate(last);
            names.push(first)?;
        }
        Change::Few => names.truncate(last),
    }
    Ok(names)
}

/// Does the first turn with these names, and then the others, where it isn't cut. Answers the steps that stay done
/// where it is.
fn turns_again(
    rt: &impl Abort,
    run: &mut MemRun<'_>,
    history: &History,
    names: &Names,
) -> Result<Option<u64>, test::Fail>
    requires { IsSound (Sound (program_in (lock_client run.old)))
        (lock_state mem_source_state mem_sink_state mem_sink_state run.old) }
{
    let turn = history.get(0).ok_or("no turn")?;
    let done = turn_again(rt, run, turn, names)?;
    if done.is_none() {
        'turns: for i in 1..history.len() {
            next_turn(rt, run, history, i)?;
        }
    }
    Ok(done)
}

/// Runs a history again. Answers the steps of the first turn that stay done where it is cut, and the bytes that were
/// written.
fn replayed(
    rt: &impl Abort,
    alloc: Global,
    client: &PyClient,
    history: &History,
    names: &Names,
) -> Result<(Option<u64>, MemSink), test::Fail>
    requires { IsSoundFirst (prog_of (program_in client.now)) (Sound (program_in client.now)) }
{
    let input = MemSource::new(alloc, Vec::new(alloc), Vec::new(alloc));
    let out = MemSink::new(alloc, Vec::new(alloc));
    let err = MemSink::new(alloc, Vec::new(alloc));
    match LockRun::new(alloc, client, input, out, err) {
        Ok(mut run) => {
            let done = turns_again(rt, &mut run, history, names)?;
            Ok((done, run.finish().1))
        }
        Err(_) => Err("no memory".into()),
    }
}

/// Runs the history of a script again. Answers the steps of the first turn that stay done where it is cut, and the
/// bytes that were written.
fn rerun(
    rt: &impl Abort,
    alloc: Global,
    script: &[u8],
    history: &History,
    names: &Names,
) -> Result<(Option<u64>, MemSink), test::Fail> {
    assert!(rt; script.len() <= SCRIPT_LIMIT);
    let program = compile_text(alloc, script).map_err(|_| "no program")?;
    let client = PyClient::new(alloc, program);
    replayed(rt, alloc, &client, history, names)
}

const TWO_THREADS: &[u8] = b"import thread
l = []
def f(n):
    l.append(n)
    print n, l
thread.start_new_thread(f, (1,))
thread.start_new_thread(f, (2,))
print 0
";

/// How many steps of a turn stay done.
fn how_many(done: Option<u64>, turn: &Turn) -> &'static str {
    match done {
        None => "uncut",
        Some(steps) => { if steps == turn.steps { "all" } else { "fewer" } }
    }
}

/// Runs a script, and its history again, where the first turn's names are changed. Answers how many steps of that
/// turn stay done, and whether the output was the same.
fn replay<Rt: Abort + Threads + Wait + Sync>(
    rt: &Rt,
    alloc: Global,
    change: Change,
) -> Result<String, test::Fail> {
    let words = source_word(alloc)?;
    let left = report(rt, alloc, words.as_slice(), TWO_THREADS, NO_FAILURE)?;
    let turn = left.history.get(0).ok_or("no turn")?;
    let names = changed(alloc, &turn.names, change)?;
    let (done, out) = rerun(rt, alloc, TWO_THREADS, &left.history, &names)?;
    let same = out.written() == left.out.written();
    let steps = how_many(done, turn);
    Ok(format!(in alloc; "{steps}~{same}")?)
}

#[test]
fn history_runs_again(rt: HostRuntime) -> Tested {
    let whole = replay(&rt, rt.alloc(), Change::None)?;
    assert_eq!(rt; whole.as_str(), "uncut~true");
    let over = replay(&rt, rt.alloc(), Change::Over)?;
    assert_eq!(rt; over.as_str(), "all~false");
    let doubled = replay(&rt, rt.alloc(), Change::Doubled)?;
    assert_eq!(rt; doubled.as_str(), "fewer~false");
    let few = replay(&rt, rt.alloc(), Change::Few)?;
    assert_eq!(rt; few.as_str(), "fewer~false");
    Ok(())
}

/// Runs a script by these words, and its history again. Answers whether the output was the same, and how many
/// conflicts there were.
fn same_again<Rt: Abort + Threads + Wait + Sync>(
    rt: &Rt,
    alloc: Global,
    words: &str,
    script: &[u8],
) -> Result<(bool, usize), test::Fail> {
    let words = words_in(alloc, words)?;
    let left = report(rt, alloc, words.as_slice(), script, NO_FAILURE)?;
    let turn = left.history.get(0).ok_or("no turn")?;
    let (done, out) = rerun(rt, alloc, script, &left.history, &turn.names)?;
    let same = done.is_none() && out.written() == left.out.written();
    Ok((same, left.conflicts.len()))
}

/// How many of the scripts of these rows ran, each of which gives the same output when its history is run again.
fn same_rows<Rt: Abort + Threads + Wait + Sync>(
    rt: &Rt,
    alloc: Global,
    rows: &str,
    words: &str,
) -> Result<usize, test::Fail> {
    let mut count = 0usize;
    for row in rows.split('\n') {
        let (script, wanted) = row.split_once('|').ok_or("a row without an answer")?;
        if !wanted.starts_with("3") {
            let script = lines_of(alloc, script)?;
            let (same, _) = same_again(rt, alloc, words, script.as_slice())?;
            assert!(rt; same, "{row}");
            count = count.saturating_add(1);
        }
    }
    Ok(count)
}

#[test]
fn histories_of_scripts_run_again(rt: HostRuntime) -> Tested {
    assert_eq!(rt; same_rows(&rt, rt.alloc(), SCRIPTS, "-")?, 8);
    assert_eq!(rt; same_rows(&rt, rt.alloc(), SCRIPTS, "--segments 1 -")?, 8);
    assert_eq!(rt; same_rows(&rt, rt.alloc(), SCRIPTS, "--length 1 -")?, 8);
    Ok(())
}

/// Two threads that count in one record.
const COUNTERS: &[u8] = b"import thread
l = [0]
def f(n):
    i = 0
    while i < 500:
        l[0] += n
        i += 1
    print n, l
thread.start_new_thread(f, (1,))
thread.start_new_thread(f, (10,))
";

/// How often a run is made whose transactions may meet or not, as their workers come to it.
const TRIES: u32 = 50;

/// On several segments there are conflicts, sooner or later; the history gives the output each time.
#[test]
fn conflicts_are_told(rt: HostRuntime) -> Tested {
    for _ in 0..TRIES {
        let (same, conflicts) = same_again(&rt, rt.alloc(), "-", COUNTERS)?;
        assert!(rt; same);
        if conflicts > 0 {
            return Ok(());
        }
    }
    Err("no transactions met".into())
}

/// On one segment there are none.
#[test]
fn one_segment_has_no_conflicts(rt: HostRuntime) -> Tested {
    let (same, conflicts) = same_again(&rt, rt.alloc(), "--segments=1 -", COUNTERS)?;
    assert!(rt; same && conflicts == 0);
    Ok(())
}
