//! Calls of the top call over devices in memory, and what is told of them.
ghost use Rattle.std.specs.Prelude.{◌≡◌, ◌++◌, IfOk, OnOk, length, map, string_bytes};
ghost use Rattle.stm_top.specs.Answer.{number_of};
ghost use Rattle.top_bench.specs.Told.{line_of_bytes, told_text, meant_byte, turn_text, steps_text, turns_text};

use lock_run::{History, Turn};
use py_data::NoMemory;
use std::alloc::Global;
use std::sync::Wait;
use std::thread::Threads;
use stm_io::{Fail, MemLoader, MemSink, MemSource, OpenGate};
use stm_top::{Report, run_words};

pub type MemReport = Report<MemLoader, MemSource, MemSink, MemSink>;

/// A schedule of one failure, or of none at call 0.
fn once(alloc: Global, call: u64, bytes: usize) -> Result<Vec<Fail>, NoMemory> {
    let mut fails = Vec::new(alloc);
    fails.push(Fail { call, bytes })?;
    Ok(fails)
}

/// Where one call is to fail: of the loader, of the source, of the output, or of the error output.
#[derive(Clone, Copy)]
pub struct Plan {
    pub loads: u64,
    pub takes: u64,
    pub puts: u64,
    pub errs: u64,
    pub bytes: usize,
}

pub const NO_FAILURE: Plan = Plan {
    loads: 0,
    takes: 0,
    puts: 0,
    errs: 0,
    bytes: 0,
};

/// What a call leaves over a source that has these bytes, and a loader that has the other ones under the name FILE.
pub fn report_with<Rt: Threads + Wait + Sync>(
    rt: &Rt,
    alloc: Global,
    words: &[String],
    script: &[u8],
    file: &[u8],
    plan: Plan,
) -> Result<MemReport, NoMemory> {
    let loader = MemLoader::new(
        alloc,
        Vec::from_slice(alloc, b"FILE")?,
        Vec::from_slice(alloc, file)?,
        once(alloc, plan.loads, plan.bytes)?,
    );
    let script = Vec::from_slice(alloc, script)?;
    let input = MemSource::new(alloc, script, once(alloc, plan.takes, plan.bytes)?);
    let out = MemSink::new(alloc, once(alloc, plan.puts, plan.bytes)?);
    let err = MemSink::new(alloc, once(alloc, plan.errs, plan.bytes)?);
    Ok(run_words(rt, alloc, words, loader, input, out, err, &OpenGate))
}

/// What a call leaves over a source that has these bytes, and a loader that knows one file.
pub fn report<Rt: Threads + Wait + Sync>(
    rt: &Rt,
    alloc: Global,
    words: &[String],
    script: &[u8],
    plan: Plan,
) -> Result<MemReport, NoMemory> {
    report_with(rt, alloc, words, script, b"print 1\n", plan)
}

/// Appends bytes as a text in which `;` stands for a newline.
fn push_line(text: &mut String, bytes: &[u8]) -> Result<(), NoMemory>
    ensures { OnOk result (string_bytes text.new ≡ string_bytes text.old ++ line_of_bytes bytes.now) }
{
    for byte in bytes {
        text.push(if *byte == b'\n' {
            ';'
        } else {
            char::from(*byte)
        })?;
    }
    Ok(())
}

/// The status, the output and the error output.
pub fn told(alloc: Global, report: &MemReport) -> Result<String, NoMemory>
    ensures { IfOk result (λ text. string_bytes text ≡
        told_text (number_of report.now.status) report.now.out.written report.now.err.written) }
{
    let mut text = format!(in alloc; "{}~", report.status.number())?;
    push_line(&mut text, report.out.written())?;
    text.push('~')?;
    push_line(&mut text, report.err.written())?;
    Ok(text)
}

/// Words that are separated by spaces.
pub fn words_in(alloc: Global, text: &str) -> Result<Vec<String>, NoMemory> {
    let mut words = Vec::new(alloc);
    for word in text.split(' ') {
        words.push(format!(in alloc; "{word}")?)?;
    }
    Ok(words)
}

/// The one word `-`.
pub fn source_word(alloc: Global) -> Result<Vec<String>, NoMemory> {
    words_in(alloc, "-")
}

/// The bytes of a text in which `;` stands for a newline.
pub fn lines_of(alloc: Global, text: &str) -> Result<Vec<u8>, NoMemory>
    ensures { IfOk result (λ bytes. bytes.items ≡ map meant_byte text.now) }
{
    let mut bytes = Vec::new(alloc);
    for byte in text.as_bytes() {
        bytes.push(if *byte == b';' { b'\n' } else { *byte })?;
    }
    Ok(bytes)
}

/// Appends the steps of the turn behind a space.
fn push_steps(text: &mut String, turn: &Turn) -> Result<(), NoMemory>
    ensures { OnOk result (string_bytes text.new ≡ string_bytes text.old ++ turn_text turn.now) }
{
    write!(text, " {}", turn.steps)
}

/// Appends the steps of each turn.
fn push_history(text: &mut String, history: &History) -> Result<(), NoMemory>
    ensures { OnOk result (string_bytes text.new ≡ string_bytes text.old ++ steps_text history.now.entries) }
{
    for i in 0..history.len() {
        let turn = history.get(i).unwrap();
        push_steps(text, turn)?;
    }
    Ok(())
}

/// What `told` says, the number of conflicts, and the steps of each turn.
fn told_with_turns(alloc: Global, report: &MemReport) -> Result<String, NoMemory>
    ensures { IfOk result (λ text. string_bytes text ≡ turns_text
        (told_text (number_of report.now.status) report.now.out.written report.now.err.written)
        (length report.now.conflicts.entries) report.now.history.entries) }
{
    let mut text = told(alloc, report)?;
    write!(text, "~{}~", report.conflicts.len())?;
    push_history(&mut text, &report.history)?;
    Ok(text)
}

/// What is told of a call, with its turns.
pub fn turns<Rt: Threads + Wait + Sync>(
    rt: &Rt,
    alloc: Global,
    words: &str,
    script: &str,
    plan: Plan,
) -> Result<String, NoMemory> {
    let words = words_in(alloc, words)?;
    let bytes = lines_of(alloc, script)?;
    let left = report(rt, alloc, words.as_slice(), bytes.as_slice(), plan)?;
    told_with_turns(alloc, &left)
}

/// Scripts, each with its answer behind `|`: the status, the output and the error output.
pub const SCRIPTS: &str = "print 7/2, -7/2;|0~3 -4;~
|0~~
print 1;x = 1 / 0;print 2;|1~1;~thread 0, line 2: ZeroDivisionError: integer division or modulo by zero;
raise ValueError;|1~~thread 0, line 1: ValueError;
import thread;def f(n):;    return n / 0;thread.start_new_thread(f, (1,));print 1;|0~1;~thread 1, line 3: ZeroDivisionError: integer division or modulo by zero;
import threading;def f(n):;    print n;t = threading.Thread(target=f, args=(2,));t.start();t.join();print 1;|0~2;1;~
import thread;a = thread.allocate_lock();a.acquire();print 1;a.acquire();|9~1;~pystm: stuck;
print raw_input();|1~~thread 0, line 1: EOFError: EOF when reading a line;
print 1;;print 2 2;print 3 3;|3~~pystm: line 3: refusal 5: unexpected;
x = 1;x = 1.5|3~~pystm: line 2: refusal 6: left out;
return 1;|3~~pystm: line 1: refusal 8: misplaced;
def f(a, a): pass;|3~~pystm: line 1: refusal 9: doubled;
def f(x):;  def g():;    return x;|3~~pystm: line 3: refusal 10: closure;
print 1;$;|3~~pystm: line 2: refusal 1: bad character;
if 1:;  a = 1; b = 2;|3~~pystm: line 3: refusal 2: bad dedent;
x = 1;s = '''a;b;|3~~pystm: line 2: refusal 3: open string;
print 9223372036854775808;|3~~pystm: line 1: refusal 4: number wide;
print \"\\x4\";|3~~pystm: line 1: refusal 12: bad escape;";
