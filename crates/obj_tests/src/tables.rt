//! Tables of rows: a program of words is done over a plain view, and what it comes to is compared with what is
//! expected.
//! What is expected is written by hand: it is what Python 2.7 does, with the texts of exceptions that this language
//! has.
//!
//! A row is a line, `PROGRAM => EXPECTED`. The words of a program are parted by blanks, and work on a stack of values.
ghost use Rattle.std.specs.Prelude.{◌≡◌, ◌≤◌, length, IfOk, None};
ghost use Rattle.lock_run.specs.Space.{space_heap};
ghost use Rattle.obj_bench.specs.Bench.{Good, Ready};

use lock_run::PlainView;
use obj_bench::reading::outcome;
use obj_bench::state::{Bench, Halt, fresh};
use py_data::{Bytes, Stop, View};
use std::alloc::{AllocError, Global};
use std::process::Abort;
use std::test;
use stm_io::{Fail, MemSink, MemSource};

pub type Tested = Result<(), test::Fail>;

pub type Plain = PlainView<u8, MemSource, MemSink, MemSink>;

/// An empty heap, with an input of these bytes, of which these calls fail, and with outputs that never fail.
pub fn device(alloc: Global, text: Vec<u8>, fails: Vec<Fail>) -> Plain
    ensures live { result.stopped ≡ None }
    ensures heap { space_heap result.space ≡ (λ a. None) }
{
    PlainView::new(
        alloc,
        MemSource::new(alloc, text, fails),
        MemSink::new(alloc, Vec::new(alloc)),
        MemSink::new(alloc, Vec::new(alloc)),
    )
}

/// An empty heap, with devices that never fail and no input.
pub fn plain(alloc: Global) -> Plain
    ensures live { result.stopped ≡ None }
    ensures heap { space_heap result.space ≡ (λ a. None) }
{
    device(alloc, Vec::new(alloc), Vec::new(alloc))
}

/// A bench without values, which is to meet no Stop but want of memory.
pub fn started<V: View<u8> + Drop>(
    rt: &impl Abort,
    alloc: Global,
    view: V,
) -> Result<Bench<V>, AllocError>
    requires { Ready V.sense view }
    ensures { IfOk result (λ b. Good V.sense b.roots.0 b.stack b.view) }
{
    match fresh(alloc, view) {
        Ok(bench) => Ok(bench),
        Err(Stop::OutOfMemory) => Err(AllocError),
        Err(e) => panic!(rt; "{e:?}"),
    }
}

/// What was done on a bench, which is to meet no Stop but want of memory.
pub fn finished<T: Drop>(rt: &impl Abort, done: Result<T, Halt>) -> Result<T, AllocError> {
    match done {
        Ok(x) => Ok(x),
        Err(Halt::Stopped(Stop::OutOfMemory)) => Err(AllocError),
        Err(halt) => panic!(rt; "{halt:?}"),
    }
}

/// Does a program over a heap that has the list of roots, with an input of these bytes.
fn tried(
    rt: &impl Abort,
    alloc: Global,
    input: &[u8],
    program: &[u8],
) -> Result<Bytes, AllocError> {
    let view = device(alloc, input.to_vec(alloc)?, Vec::new(alloc));
    let bench = started(rt, alloc, view)?;
    match outcome(alloc, bench, program) {
        Ok(text) => Ok(text),
        Err(Stop::OutOfMemory) => Err(AllocError),
        Err(e) => panic!(rt; "{e:?}"),
    }
}

/// The place of a mark in a line, and the line's length where it isn't there.
fn mark_at(line: &[u8], mark: &[u8]) -> usize
    ensures { result ≤ length line.now }
{
    for i in 0..line.len() {
        if line[i..].starts_with(mark) {
            return i;
        }
    }
    line.len()
}

/// Does the program of a row, and fails with the row where it doesn't come to what is expected. A line without words is
/// no row, nor is one that begins with `#`.
fn row(rt: &impl Abort, alloc: Global, input: &[u8], line: &[u8]) -> Result<(), AllocError> {
    if line.is_empty() || line.starts_with(b"#") {
        return Ok(());
    }
    let at = mark_at(line, b" => ");
    if line.len() < 4 || at > line.len() - 4 {
        let line = line.escape_ascii();
        panic!(rt; "{line}: no row");
    }
    let text = tried(rt, alloc, input, &line[..at])?;
    if text.as_slice() != &line[at + 4..] {
        let line = line.escape_ascii();
        let text = text.as_slice().escape_ascii();
        panic!(rt; "{line}: {text}");
    }
    Ok(())
}

/// Does the rows of a table, each over a heap of its own and with an input of these bytes.
pub fn table_over(
    rt: &impl Abort,
    alloc: Global,
    input: &[u8],
    rows: &[u8],
) -> Result<(), AllocError> {
    let mut from = 0;
    for _ in 0..rows.len() {
        if from >= rows.len() {
            break;
        }
        let end = from + mark_at(&rows[from..], b"\n");
        row(rt, alloc, input, &rows[from..end])?;
        from = end + 1;
    }
    Ok(())
}

/// Does the rows of a table, each over a heap of its own and without input.
pub fn table(rt: &impl Abort, alloc: Global, rows: &[u8]) -> Result<(), AllocError> {
    table_over(rt, alloc, b"", rows)
}
