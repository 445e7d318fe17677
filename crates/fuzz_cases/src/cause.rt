//! Whether what a run wrote tells the cause of its status.

use script_runs::SureReport;
use std::str;
use stm_top::Status;

/// The names of the refusals, from number 1 on (`docs/LANGUAGE.md`, "Refusals").
const REFUSALS: [&str; 12] = [
    "bad character",
    "bad dedent",
    "open string",
    "number wide",
    "unexpected",
    "left out",
    "deep",
    "misplaced",
    "doubled",
    "closure",
    "too large",
    "bad escape",
];

/// How many lines a text has at most.
fn most_lines(script: &[u8]) -> u64 {
    let mut lines = 1u64;
    for byte in script {
        if *byte == b'\n' || *byte == b'\r' {
            lines = lines.saturating_add(1);
        }
    }
    lines
}

/// The refusal of that number has that name.
fn is_refusal(number: u64, name: &str) -> bool {
    let mut place = 0u64;
    for known in &REFUSALS {
        place = place.saturating_add(1);
        if place == number {
            return *known == name;
        }
    }
    false
}

/// Whether a line is `pystm: line N: refusal K: ` and the name of K, where N is from 1 up to this.
fn is_refused_line(line: &str, lines: u64) -> Option<bool> {
    let rest = line.strip_prefix("pystm: line ")?;
    let (at, rest) = rest.split_once(": refusal ")?;
    let (number, rest) = rest.split_once(": ")?;
    let name = rest.strip_suffix("\n")?;
    let at = at.parse::<u64>().ok()?;
    let number = number.parse::<u64>().ok()?;
    Some(at >= 1 && at <= lines && is_refusal(number, name))
}

/// The script was refused: one line says so, and nothing else was written.
fn is_refused(script: &[u8], report: &SureReport) -> bool {
    let Ok(line) = str::from_utf8(report.text.as_slice()) else {
        return false;
    };
    let is_alone = report.err.written() == report.text.as_slice()
        && report.out.written().is_empty();
    is_alone && is_refused_line(line, most_lines(script)) == Some(true)
}

/// The first thread ended by an exception.
fn first_thread_failed(report: &SureReport) -> bool {
    let mut lines = report.err.written().split(|byte| *byte == b'\n');
    lines.any(|line| line.starts_with(b"thread 0, line "))
}

/// The text says how many steps were done.
fn is_spent(report: &SureReport) -> bool {
    let text = report.text.as_slice();
    text.starts_with(b"pystm: budget spent: ") && text.ends_with(b" steps\n")
}

/// What a run of a script wrote tells the cause of its status. No device fails, there are pages and memory enough,
/// and the words are right, so the other statuses have none.
pub(crate) fn is_told(script: &[u8], report: &SureReport) -> bool {
    match report.status {
        Status::Done => report.text.len() == 0 && !first_thread_failed(report),
        Status::Failed => report.text.len() == 0 && first_thread_failed(report),
        Status::Refused => is_refused(script, report),
        Status::Stuck => report.text.as_slice() == b"pystm: stuck\n".as_slice(),
        Status::BudgetSpent => is_spent(report),
        _ => false,
    }
}
