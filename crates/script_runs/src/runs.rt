//! A run of a script.

use crate::again::written_again;
use crate::terminal::Terminal;
use std::alloc::{AllocError, Global};
use std::sync::Wait;
use std::thread::Threads;
use stm_io::{OpenGate, SureLoader, SureSink};
use stm_top::{Report, run_words};

/// A report over devices in memory that never fail.
pub type SureReport = Report<SureLoader, Terminal, SureSink, SureSink>;

/// Runs a script by these words, `-` among them, with the input behind it.
pub fn run<Rt: Threads + Wait + Sync>(
    rt: &Rt,
    alloc: Global,
    words: &[&str],
    script: &[u8],
    input: &[u8],
) -> Result<SureReport, AllocError> {
    let mut said = Vec::new(alloc);
    for word in words {
        said.push(String::from_str(alloc, word)?)?;
    }
    let loader = SureLoader::new(alloc, Vec::new(alloc));
    let script = Vec::from_slice(alloc, script)?;
    let input = Vec::from_slice(alloc, input)?;
    Ok(run_words(
        rt,
        alloc,
        said.as_slice(),
        loader,
        Terminal::new(alloc, script, input),
        SureSink::new(alloc),
        SureSink::new(alloc),
        &OpenGate,
    ))
}

/// A run wrote what the turns of its history write, one after another, with its text behind the lines of the error
/// output. Where there is no program it has no history, and wrote nothing.
pub fn is_serial(
    alloc: Global,
    script: &[u8],
    input: &[u8],
    report: &SureReport,
) -> Result<bool, AllocError> {
    match written_again(alloc, script, input, &report.history)? {
        Some(again) => {
            let err = report.err.written().strip_suffix(report.text.as_slice());
            Ok(report.out.written() == again.out.written() && err == Some(again.err.written()))
        }
        None => Ok(report.history.len() == 0 && report.out.written().is_empty()),
    }
}

/// Two runs wrote the same to the output and ended with the same status.
pub fn is_same(one: &SureReport, other: &SureReport) -> bool {
    one.out.written() == other.out.written() && one.status == other.status
}
