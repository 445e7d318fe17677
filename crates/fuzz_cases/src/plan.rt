//! How made scripts are run.

use script_runs::{SureReport, run};
use std::alloc::{AllocError, Global};
use std::sync::Wait;
use std::thread::Threads;

/// What the source has behind each script.
pub(crate) const INPUT: &[u8] = b"first line\n\n12\nlast";

/// How many segments a run has, how many steps its transactions have at most, and how many it has itself.
#[derive(Clone, Copy)]
pub(crate) struct Plan {
    pub(crate) segments: &'static str,
    pub(crate) length: &'static str,
    pub(crate) budget: &'static str,
}

/// How many pages a run has: enough for each script, and few, since a run is made ready in a time that grows with them.
const PAGES: &str = "512";

/// How a text is run.
pub(crate) const TEXT_PLAN: Plan = Plan {
    segments: "1",
    length: "1000",
    budget: "20000",
};

/// How many segments a program is run on.
pub(crate) const SEGMENTS: [&str; 4] = ["1", "2", "4", "8"];

/// How many steps the transactions of a program have at most.
pub(crate) const LENGTHS: [&str; 3] = ["1", "7", "1000"];

/// How many steps a program has at most.
pub(crate) const PROGRAM_BUDGET: &str = "200000";

/// Runs a script.
pub(crate) fn run_plan<Rt: Threads + Wait + Sync>(
    rt: &Rt,
    alloc: Global,
    script: &[u8],
    plan: Plan,
) -> Result<SureReport, AllocError> {
    let words = [
        "--segments",
        plan.segments,
        "--length",
        plan.length,
        "--budget",
        plan.budget,
        "--pages",
        PAGES,
        "-",
    ];
    run(rt, alloc, &words, script, INPUT)
}
