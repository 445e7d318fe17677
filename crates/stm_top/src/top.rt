//! The top call: from the words to the end of the run.
ghost use Rattle.std.specs.Prelude.{◌≡◌, ◌≤◌, length};
ghost use Rattle.py_frames.specs.Laws.{prog_of};
ghost use Rattle.paged_store.specs.Stores.{paged_meaning, reserved_of};
ghost use Rattle.stm_words.specs.Options.{IsWithin};
ghost use Rattle.front_end.specs.TextCode.{HasCode, IsRefused};
ghost use Rattle.stm_top.specs.TopCall.{devices_of, told_of, bytes_of, Caused, CausedBy, TextPut, Answered};
ghost use Rattle.stm_top.specs.inner.Ending.{TextEnded};

use crate::answer::Answer;
use crate::run::{End, Outside, nothing_ran, run_threads};
use crate::script::take_script;
use crate::status::Status;
use front_end::{TextFault, compile_text};
use lock_run::History;
use paged_store::PagedStore;
use py_data::{Bytes, Conflicts};
use py_step::PyClient;
use std::alloc::Global;
use std::sync::Wait;
use std::thread::Threads;
use stm_io::{Gate, Loader, Sink, Source};
use stm_words::{Options, WordsError, read_words};

/// What a call leaves.
#[derive(Drop)]
pub struct Report<L, I, O, E> {
    pub status: Status,
    /// What was put to the error output at the end: a line with its newline, or nothing. Where there was no memory
    /// for it it is empty.
    pub text: Bytes,
    /// The turns that were committed, in order. It is empty where nothing ran.
    pub history: History,
    /// The conflicts that transactions lost, each once, in the order in which they did. It is empty where nothing ran.
    pub conflicts: Conflicts,
    /// The heap that the run used. There is none where nothing ran.
    pub store: Option<PagedStore>,
    pub loader: L,
    pub input: I,
    pub out: O,
    pub err: E,
}

/// Compiles a text, and runs its program.
fn run_text<
    Rt: Threads + Wait + Sync,
    L: Loader,
    I: Source + Send,
    O: Sink + Send,
    E: Sink + Send,
    G: Gate + Sync,
>(
    rt: &Rt,
    alloc: Global,
    text: &[u8],
    options: &Options,
    outside: Outside<L, I, O, E>,
    gate: &G,
) -> End<PagedStore, L, I, O, E>
    requires short { length text.now ≤ 4194304 }
    requires options { IsWithin options.now }
    ensures ended { TextEnded HasCode IsRefused prog_of text.now options.now result.answer
        (devices_of L.state I.state O.state E.state outside.loader outside.input outside.out outside.err)
        (told_of paged_meaning reserved_of result.history.entries result.conflicts.entries result.store)
        (devices_of L.state I.state O.state E.state result.outside.loader result.outside.input result.outside.out
        result.outside.err) }
{
    let program = match compile_text(alloc, text) {
        Ok(program) => program,
        Err(TextFault::Refused(refusal)) => {
            return nothing_ran(alloc, Answer::Refused { refusal }, outside);
        }
        Err(TextFault::OutOfMemory) => {
            return nothing_ran(alloc, Answer::OutOfMemory, outside);
        }
    };
    let client = PyClient::new(alloc, program);
    run_threads(rt, alloc, &client, options, outside, gate)
}

/// Takes the script and runs it.
fn run_script<
    Rt: Threads + Wait + Sync,
    L: Loader,
    I: Source + Send,
    O: Sink + Send,
    E: Sink + Send,
    G: Gate + Sync,
>(
    rt: &Rt,
    alloc: Global,
    options: &Options,
    mut outside: Outside<L, I, O, E>,
    gate: &G,
) -> End<PagedStore, L, I, O, E>
    requires options { IsWithin options.now }
    ensures cause { CausedBy HasCode IsRefused prog_of result.answer options.now
        (devices_of L.state I.state O.state E.state outside.loader outside.input outside.out outside.err)
        (told_of paged_meaning reserved_of result.history.entries result.conflicts.entries result.store)
        (devices_of L.state I.state O.state E.state result.outside.loader result.outside.input result.outside.out
        result.outside.err) }
{
    match take_script(
        alloc,
        &options.script,
        &mut outside.loader,
        &mut outside.input,
    ) {
        Ok(text) => run_text(rt, alloc, text.as_slice(), options, outside, gate),
        Err(answer) => nothing_ran(alloc, answer, outside),
    }
}

/// Runs the script that the words name, up to its text.
fn run_named<
    Rt: Threads + Wait + Sync,
    L: Loader,
    I: Source + Send,
    O: Sink + Send,
    E: Sink + Send,
    G: Gate + Sync,
>(
    rt: &Rt,
    alloc: Global,
    words: &[String],
    outside: Outside<L, I, O, E>,
    gate: &G,
) -> End<PagedStore, L, I, O, E>
    ensures cause { Caused HasCode IsRefused prog_of result.answer (bytes_of words.now)
        (devices_of L.state I.state O.state E.state outside.loader outside.input outside.out outside.err)
        (told_of paged_meaning reserved_of result.history.entries result.conflicts.entries result.store)
        (devices_of L.state I.state O.state E.state result.outside.loader result.outside.input result.outside.out
        result.outside.err) }
{
    match read_words(alloc, words) {
        Ok(options) => run_script(rt, alloc, &options, outside, gate),
        Err(WordsError::Usage) => nothing_ran(alloc, Answer::Usage, outside),
        Err(WordsError::OutOfMemory) => nothing_ran(alloc, Answer::OutOfMemory, outside),
    }
}

/// Puts a text to an output, if there is one. Its failure changes nothing.
fn put_text<E: Sink>(err: &mut E, text: &[u8])
    ensures { TextPut text.now (E.state err.old) (E.state err.new) }
{
    if !text.is_empty() {
        let _ = err.put(text);
    }
}

/// Runs the script that the words name.
///
/// The words are those after the program's name: options, and where the script comes from. `-` takes it from `input`,
/// to its end; a name has `loader` load the file of that name; `--demo N` is a workload. Of a longer script than
/// `SCRIPT_LIMIT` one byte more is taken. Its threads run as transactions on the segments that the options ask for.
/// What they write goes to `out` and `err`. What is wrong is told by the status and by the text, which is put to
/// `err` last.
///
/// For each segment a worker runs, in a thread of the machine below, the caller's among them; they take the heap in
/// turn. In between each of them runs steps of its thread on copies of records, and passes the gate before. Nothing
/// is claimed of when the call returns: a wait for the heap that never ends, and one at the gate, are the only ways
/// in which it doesn't.
///
/// `specs/TopCall.antt` says what each status means, by its cause, and `specs/Serial.antt` what the run was.
pub fn run_words<
    Rt: Threads + Wait + Sync,
    L: Loader,
    I: Source + Send,
    O: Sink + Send,
    E: Sink + Send,
    G: Gate + Sync,
>(
    rt: &Rt,
    alloc: Global,
    words: &[String],
    loader: L,
    input: I,
    out: O,
    err: E,
    gate: &G,
) -> Report<L, I, O, E>
    ensures answered { Answered HasCode IsRefused prog_of (bytes_of words.now)
        (devices_of L.state I.state O.state E.state loader input out err) result.status result.text
        (told_of paged_meaning reserved_of result.history.entries result.conflicts.entries result.store)
        (devices_of L.state I.state O.state E.state result.loader result.input result.out result.err) }
{
    let outside = Outside {
        loader,
        input,
        out,
        err,
    };
    let End {
        answer,
        history,
        conflicts,
        store,
        outside,
    } = run_named(rt, alloc, words, outside, gate);
    let Outside {
        loader,
        input,
        out,
        mut err,
    } = outside;
    let text = answer.text(alloc);
    put_text(&mut err, text.as_slice());
    Report {
        status: answer.status(),
        text,
        history,
        conflicts,
        store,
        loader,
        input,
        out,
        err,
    }
}
