//! Scripts, on a machine over devices in memory.
ghost use Rattle.std.specs.Prelude.{IfOk};
ghost use Rattle.lock_run.specs.LockState.{lock_state, IsSound};
ghost use Rattle.lock_run.specs.Script.{ScriptSound};
ghost use Rattle.stm_io.specs.Memory.{mem_sink_state, mem_source_state};

use lock_run::{Act, Acts, Client, Life, LockRun, Script, ScriptState, Turn, TurnWhy};
use py_data::{Addr, Names};
use std::alloc::Global;
use std::process::Abort;
use std::test;
use stm_io::{MemSink, MemSource};

type Tested = Result<(), test::Fail>;

type MemRun<'p> = LockRun<'p, Script, MemSource, MemSink, MemSink>;

/// Two Cells, and two threads.
fn script(rt: &impl Abort, alloc: Global) -> Result<Script, test::Fail> {
    let mut lists = Vec::new(alloc);
    let first = [Act::Set(1, 7), Act::Put(b'a'), Act::Look(0), Act::Put(b'b')];
    lists.push(Acts::from_slice(alloc, &first)?)?;
    lists.push(Acts::from_slice(alloc, &[Act::Push(5), Act::Look(1)])?)?;
    assert!(rt; Script::fits(2, lists.as_slice()));
    Ok(Script::new(2, lists))
}

/// A machine at its first state.
#[tactic(auto, using(lock_run::specs::inner::ScriptLaws::script_sound_first))]
fn machine<'p>(alloc: Global, client: &'p Script) -> Result<MemRun<'p>, test::Fail>
    ensures { IfOk result (λ run. IsSound ScriptSound (lock_state mem_source_state mem_sink_state mem_sink_state run)) }
{
    let input = MemSource::new(alloc, Vec::new(alloc), Vec::new(alloc));
    let out = MemSink::new(alloc, Vec::new(alloc));
    let err = MemSink::new(alloc, Vec::new(alloc));
    match LockRun::new(alloc, client, input, out, err) {
        Ok(run) => Ok(run),
        Err(_) => Err("no memory".into()),
    }
}

/// Does a turn with fresh names.
fn free_turn(
    rt: &impl Abort,
    run: &mut MemRun<'_>,
    thread: u32,
    most: u64,
) -> Result<Turn, test::Fail>
    requires { IsSound ScriptSound (lock_state mem_source_state mem_sink_state mem_sink_state run.old) }
    ensures { IsSound ScriptSound (lock_state mem_source_state mem_sink_state mem_sink_state run.new) }
{
    assert!(rt; most >= 1);
    match run.free_turn(thread, most) {
        Ok(turn) => Ok(turn),
        Err(_) => Err("a turn was cut".into()),
    }
}

/// Does a turn with given names. Answers the steps that stay done and why it is cut, if it is.
fn turn(
    rt: &impl Abort,
    run: &mut MemRun<'_>,
    thread: u32,
    steps: u64,
    names: &Names,
) -> Option<(u64, TurnWhy)>
    requires { IsSound ScriptSound (lock_state mem_source_state mem_sink_state mem_sink_state run.old) }
    ensures { IsSound ScriptSound (lock_state mem_source_state mem_sink_state mem_sink_state run.new) }
{
    assert!(rt; steps >= 1);
    match run.turn(thread, steps, names) {
        Ok(()) => None,
        Err(fault) => Some((fault.done, fault.why)),
    }
}

/// The output of a machine that is finished.
fn output(run: MemRun<'_>) -> MemSink {
    let (_, out, _) = run.finish();
    out
}

/// Whether a thread lives, and whether it can go on.
fn stands(rt: &impl Abort, run: &MemRun<'_>, t: u32) -> (Life, bool)
    requires { IsSound ScriptSound (lock_state mem_source_state mem_sink_state mem_sink_state run.now) }
{
    assert!(rt; t < run.threads());
    (run.life(t), run.ready(t))
}

/// The names that the step of thread 0 gave: those of two Cells and the List. Afterwards thread 0 has ended, and two
/// more are ready.
fn prelude(rt: &impl Abort, run: &mut MemRun<'_>) -> Result<Names, test::Fail>
    requires { IsSound ScriptSound (lock_state mem_source_state mem_sink_state mem_sink_state run.old) }
    ensures { IsSound ScriptSound (lock_state mem_source_state mem_sink_state mem_sink_state run.new) }
{
    assert!(rt; stands(rt, run, 0) == (Life::Lives, true));
    let done = free_turn(rt, run, 0, 1)?;
    assert_eq!(rt; done.names.len(), 3);
    assert_eq!(rt; run.threads(), 3);
    assert!(rt; stands(rt, run, 0) == (Life::Ended, false));
    assert!(rt; stands(rt, run, 2) == (Life::Lives, true));
    Ok(done.names)
}

/// Does the acts of the first thread one after another: the second and the fourth write a byte, and the fourth ends it.
fn acts(rt: &impl Abort, run: &mut MemRun<'_>) -> Tested
    requires { IsSound ScriptSound (lock_state mem_source_state mem_sink_state mem_sink_state run.old) }
{
    prelude(rt, run)?;
    free_turn(rt, run, 1, 1)?;
    free_turn(rt, run, 1, 1)?;
    assert!(rt; stands(rt, run, 1) == (Life::Lives, true));
    let rest = free_turn(rt, run, 1, 9)?;
    assert_eq!(rt; rest.steps, 2);
    assert!(rt; stands(rt, run, 1) == (Life::Ended, false));
    Ok(())
}

#[test]
fn does_acts(rt: HostRuntime) -> Tested {
    let client = script(&rt, rt.alloc())?;
    let mut run = machine(rt.alloc(), &client)?;
    acts(&rt, &mut run)?;
    assert_eq!(&rt; output(run).written(), b"ab".as_slice());
    Ok(())
}

/// Does the step of thread 0 with these names, and both threads. Answers why the first turn was cut, if it was.
fn again(
    rt: &impl Abort,
    alloc: Global,
    run: &mut MemRun<'_>,
    names: &Names,
) -> Option<(u64, TurnWhy)>
    requires { IsSound ScriptSound (lock_state mem_source_state mem_sink_state mem_sink_state run.old) }
{
    let cut = turn(rt, run, 0, 1, names);
    if cut.is_none() {
        let none = Names::new(alloc);
        assert!(rt; turn(rt, run, 2, 2, &none).is_none());
        assert!(rt; turn(rt, run, 2, 1, &none) == Some((0, TurnWhy::Ended)));
        assert!(rt; turn(rt, run, 1, 5, &none) == Some((4, TurnWhy::Ended)));
        assert!(rt; turn(rt, run, 3, 1, &none) == Some((0, TurnWhy::NotThere)));
    }
    cut
}

/// What a machine answers to a turn of thread 0 with the names that another gave, and so many more.
fn replay(rt: &impl Abort, alloc: Global, more: u32) -> Result<Option<(u64, TurnWhy)>, test::Fail> {
    let client = script(rt, alloc)?;
    let mut run = machine(alloc, &client)?;
    let mut names = prelude(rt, &mut run)?;
    for n in 0..more {
        names.push(Addr(n))?;
    }
    let mut other = machine(alloc, &client)?;
    Ok(again(rt, alloc, &mut other, &names))
}

#[test]
fn names_are_given_again(rt: HostRuntime) -> Tested {
    assert!(&rt; replay(&rt, rt.alloc(), 0)?.is_none());
    assert!(&rt; replay(&rt, rt.alloc(), 1)? == Some((1, TurnWhy::BadNames)));
    Ok(())
}

/// A state and its copy are equal, and the three kinds of state are not.
#[test]
fn states_are_compared(rt: HostRuntime) -> Tested {
    let client = script(&rt, rt.alloc())?;
    let state = ScriptState::Acts {
        number: 1,
        done: 0,
        cells: Names::from_slice(rt.alloc(), &[Addr(4), Addr(9)])?,
        list: Addr(2),
    };
    let copied = client.copy(rt.alloc(), &state)?;
    assert!(&rt; client.same(&state, &copied));
    let first = client.first(rt.alloc())?;
    assert!(&rt; !client.same(&first, &state));
    assert!(&rt; !client.same(&ScriptState::Over, &first));
    Ok(())
}
