//! The history of a run, whose turns a machine under one lock does again, one after another.
ghost use Rattle.lock_run.specs.Client.{IsSoundFirst};
ghost use Rattle.lock_run.specs.LockState.{lock_state, lock_client, IsSound};
ghost use Rattle.py_frames.specs.Laws.{prog_of};
ghost use Rattle.py_frames.specs.Sound.{Sound};
ghost use Rattle.py_step.specs.Client.{program_in};
ghost use Rattle.stm_io.specs.Memory.{sure_sink_state, sure_source_state};

use front_end::compile_text;
use lock_run::{History, LockRun, Turn};
use py_step::PyClient;
use std::alloc::{AllocError, Global};
use stm_io::{SureSink, SureSource};
use stm_top::SCRIPT_LIMIT;

type SureRun<'p> = LockRun<'p, PyClient, SureSource, SureSink, SureSink>;

/// What the turns of a history write.
#[derive(Debug, Drop)]
pub struct Written {
    pub out: SureSink,
    pub err: SureSink,
}

/// Does a turn: whether it could be done whole.
fn turn_again(run: &mut SureRun<'_>, turn: &Turn) -> bool
    requires { IsSound (Sound (program_in (lock_client run.old)))
        (lock_state sure_source_state sure_sink_state sure_sink_state run.old) }
    ensures { IsSound (Sound (program_in (lock_client run.new)))
        (lock_state sure_source_state sure_sink_state sure_sink_state run.new) }
{
    if turn.steps == 0 {
        return false;
    }
    match run.turn(turn.thread, turn.steps, &turn.names) {
        Ok(()) => true,
        Err(_) => false,
    }
}

/// Does the turn of that number, from 0: whether there is one, and it could be done whole.
fn next_again(run: &mut SureRun<'_>, history: &History, i: usize) -> bool
    requires { IsSound (Sound (program_in (lock_client run.old)))
        (lock_state sure_source_state sure_sink_state sure_sink_state run.old) }
    ensures { IsSound (Sound (program_in (lock_client run.new)))
        (lock_state sure_source_state sure_sink_state sure_sink_state run.new) }
{
    match history.get(i) {
        Some(turn) => turn_again(run, turn),
        None => false,
    }
}

/// Does the turns of a history: whether each of them could be done whole.
fn turns_again(run: &mut SureRun<'_>, history: &History) -> bool
    requires { IsSound (Sound (program_in (lock_client run.old)))
        (lock_state sure_source_state sure_sink_state sure_sink_state run.old) }
{
    'turns: for i in 0..history.len() {
        if !next_again(run, history, i) {
            return false;
        }
    }
    true
}

/// What the turns of a history write that a client's threads do, over this input.
fn written_by(
    alloc: Global,
    client: &PyClient,
    input: Vec<u8>,
    history: &History,
) -> Option<Written>
    requires { IsSoundFirst (prog_of (program_in client.now)) (Sound (program_in client.now)) }
{
    let input = SureSource::new(alloc, input);
    let out = SureSink::new(alloc);
    let err = SureSink::new(alloc);
    match LockRun::new(alloc, client, input, out, err) {
        Ok(mut run) => {
            if !turns_again(&mut run, history) {
                return None;
            }
            let (_, out, err) = run.finish();
            Some(Written { out, err })
        }
        Err(_) => None,
    }
}

/// What the turns of a history of a script write, done one after another under one lock, if each of them can be done.
/// `input` stands behind the script in the source.
pub fn written_again(
    alloc: Global,
    script: &[u8],
    input: &[u8],
    history: &History,
) -> Result<Option<Written>, AllocError> {
    if script.len() > SCRIPT_LIMIT {
        return Ok(None);
    }
    let Ok(program) = compile_text(alloc, script) else {
        return Ok(None);
    };
    let input = Vec::from_slice(alloc, input)?;
    let client = PyClient::new(alloc, program);
    Ok(written_by(alloc, &client, input, history))
}
