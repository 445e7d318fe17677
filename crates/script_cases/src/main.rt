//! `script_cases`: runs each script of a list by the top call, and writes what it wrote and its status. The list
//! comes by the standard input; `README.md` says how it is laid out.
#![tactic(auto)]

mod case;
mod told;

use crate::case::{Case, read_cases};
use crate::told::tell;
use anyhow::Result;
use script_runs::{SureReport, is_same, is_serial, run};
use std::alloc::{AllocError, Global};
use std::io;
use std::io::{BufWriter, Write};
use std::sync::Wait;
use std::thread::Threads;

/// How many segments a run has, and how many steps its transactions have at most.
const ALONE: (&str, &str) = ("1", "1000");

/// The same, of a run in turns of one step.
const STEPWISE: (&str, &str) = ("1", "1");

/// The same, of runs whose transactions meet.
const SHARED: [(&str, &str); 3] = [("2", "1000"), ("4", "1000"), ("8", "1000")];

/// What begins the name of a case whose answer follows from turns of one step.
const IN_TURNS: &str = "turns:";

/// What begins the name of a case that spends its budget, which is smaller.
const SPENDING: &str = "budget:";

/// Runs the script of a case.
fn run_case<Rt: Threads + Wait + Sync>(
    rt: &Rt,
    alloc: Global,
    case: &Case,
    plan: (&str, &str),
) -> Result<SureReport, AllocError> {
    let (segments, length) = plan;
    let budget = if case.name.starts_with(SPENDING) {
        "10000"
    } else {
        "1000000"
    };
    let words = [
        "--segments",
        segments,
        "--length",
        length,
        "--budget",
        budget,
        "-",
    ];
    run(
        rt,
        alloc,
        &words,
        case.script.as_slice(),
        case.input.as_slice(),
    )
}

/// The run of a case that is told.
fn told_run(case: &Case) -> (&'static str, &'static str) {
    if case.name.starts_with(IN_TURNS) || case.name.starts_with(SPENDING) {
        STEPWISE
    } else {
        ALONE
    }
}

/// A run of a case is what its history says.
fn is_told(alloc: Global, case: &Case, report: &SureReport) -> Result<bool, AllocError> {
    is_serial(alloc, case.script.as_slice(), case.input.as_slice(), report)
}

/// Runs a case alone, which is told, and shared. Says so where one of the runs isn't what its history is, or where
/// they differ.
fn try_case<Rt: Threads + Wait + Sync, W: Write>(
    rt: &Rt,
    alloc: Global,
    told: &mut W,
    case: &Case,
) -> Result<()> {
    let alone = run_case(rt, alloc, case, told_run(case))?;
    tell(
        told,
        case.name.as_str(),
        alone.out.written(),
        alone.err.written(),
        alone.status.number(),
    )?;
    if !is_told(alloc, case, &alone)? {
        writeln!(told, "its history writes otherwise")?;
    }
    for plan in SHARED {
        let shared = run_case(rt, alloc, case, plan)?;
        if !is_told(alloc, case, &shared)? {
            writeln!(told, "on {} segments its history writes otherwise", plan.0)?;
        }
        if !case.name.starts_with(IN_TURNS) && !is_same(&alone, &shared) {
            writeln!(told, "on {} segments it wrote and ended otherwise", plan.0)?;
        }
    }
    Ok(())
}

fn main(rt: HostRuntime) -> Result<()> {
    let alloc = rt.alloc();
    let text = io::read_to_string(alloc, rt.stdin())?;
    let mut out = BufWriter::new(alloc, rt.stdout())?;
    for case in read_cases(alloc, text.as_str())? {
        try_case(&rt, alloc, &mut out, &case)?;
    }
    out.flush()?;
    Ok(())
}
