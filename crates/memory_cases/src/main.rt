//! `memory_cases`: runs the script of the standard input, writes what it wrote, its status, and whether that is what
//! its history writes. `bench/memory` runs it with each growth of memory refused in turn.
#![tactic(auto)]

use anyhow::Result;
use script_runs::{SureReport, run, written_again};
use std::alloc::{AllocError, Global};
use std::io;
use std::io::Write;
use stm_top::Status;

/// How the script is run.
const WORDS: [&str; 5] = ["--segments", "2", "--pages", "64", "-"];

/// Whether what was written is what the history writes: at want of memory with part of a step behind it.
fn verdict(alloc: Global, script: &[u8], report: &SureReport) -> Result<&'static str, AllocError> {
    let out = report.out.written();
    let Some(again) = written_again(alloc, script, b"", &report.history)? else {
        return Ok(if out.is_empty() {
            "nothing ran"
        } else {
            "otherwise than nothing"
        });
    };
    let history = again.out.written();
    let right = match report.status {
        Status::OutOfMemory => out.starts_with(history),
        _ => out == history,
    };
    Ok(if right {
        "as its history"
    } else {
        "otherwise than its history"
    })
}

fn main(rt: HostRuntime) -> Result<()> {
    let alloc = rt.alloc();
    let script = io::read_to_string(alloc, rt.stdin())?;
    let report = run(&rt, alloc, &WORDS, script.as_bytes(), b"")?;
    let told = verdict(alloc, script.as_bytes(), &report)?;
    let mut out = rt.stdout();
    out.write_all(report.out.written())?;
    writeln!(out, "status {}, {told}", report.status.number())?;
    Ok(())
}
