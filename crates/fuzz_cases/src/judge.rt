//! What is wrong with a run, if anything is.

use crate::cause::is_told;
use crate::fault::Fault;
use crate::plan::INPUT;
use script_runs::{SureReport, is_serial};
use std::alloc::{AllocError, Global};
use stm_top::Status;

/// A text may end so, which may be a program.
fn may_end(status: Status) -> bool {
    match status {
        Status::Done | Status::Failed | Status::Refused => true,
        Status::Stuck | Status::BudgetSpent => true,
        _ => false,
    }
}

/// What is wrong with a run of a text.
pub(crate) fn text_fault(
    alloc: Global,
    script: &[u8],
    report: &SureReport,
) -> Result<Option<Fault>, AllocError> {
    if !may_end(report.status) {
        return Ok(Some(Fault::OtherStatus));
    }
    if !is_told(script, report) {
        return Ok(Some(Fault::OtherCause));
    }
    if is_serial(alloc, script, INPUT, report)? {
        Ok(None)
    } else {
        Ok(Some(Fault::OtherHistory))
    }
}

/// What is wrong with a run of a program.
pub(crate) fn program_fault(
    alloc: Global,
    script: &[u8],
    report: &SureReport,
) -> Result<Option<Fault>, AllocError> {
    if report.status == Status::Refused {
        return Ok(Some(Fault::OtherStatus));
    }
    text_fault(alloc, script, report)
}

/// What differs between two runs of a program that has one right answer, where neither spent its budget.
pub(crate) fn difference(one: &SureReport, other: &SureReport) -> Option<Fault> {
    if one.status == Status::BudgetSpent || other.status == Status::BudgetSpent {
        return None;
    }
    if one.out.written() != other.out.written() || one.err.written() != other.err.written() {
        return Some(Fault::OtherOutput);
    }
    if one.status != other.status {
        return Some(Fault::OtherEnd);
    }
    None
}
