//! The trial: each text and each program is run and judged.

use crate::fault::Fault;
use crate::judge::{difference, program_fault, text_fault};
use crate::plan::{LENGTHS, PROGRAM_BUDGET, Plan, SEGMENTS, TEXT_PLAN, run_plan};
use crate::tally::Tally;
use anyhow::{Result, bail};
use made_scripts::{MadeProgram, made_program, made_text};
use script_runs::SureReport;
use std::alloc::{AllocError, Global};
use std::io::Write;
use std::sync::Wait;
use std::thread::Threads;

/// A trial, which writes what is wrong.
#[derive(Drop)]
pub(crate) struct Trial<W: Write + Drop> {
    alloc: Global,
    told: W,
    tally: Tally,
}

impl<W: Write + Drop> Trial<W> {
    pub(crate) fn new(alloc: Global, told: W) -> Trial<W> {
        Trial {
            alloc,
            told,
            tally: Tally::new(),
        }
    }

    /// Says what is wrong with a run, if anything is.
    fn tell(&mut self, kind: &str, number: u64, plan: Plan, fault: Option<Fault>) -> Result<()> {
        self.tally.add_run();
        if let Some(fault) = fault {
            self.tally.add_fault();
            let segments = plan.segments;
            let length = plan.length;
            writeln!(
                self.told,
                "{kind} {number} on {segments} segments, {length} steps: {fault}"
            )?;
        }
        Ok(())
    }

    /// Tries the text of a number.
    pub(crate) fn try_text<Rt: Threads + Wait + Sync>(
        &mut self,
        rt: &Rt,
        number: u64,
    ) -> Result<()> {
        let text = made_text(self.alloc, number)?;
        let report = run_plan(rt, self.alloc, text.as_slice(), TEXT_PLAN)?;
        self.tally.add_text();
        let fault = text_fault(self.alloc, text.as_slice(), &report)?;
        self.tell("text", number, TEXT_PLAN, fault)
    }

    /// What is wrong with a run of a program, of which there was an earlier one.
    fn fault_of(
        &self,
        made: &MadeProgram,
        first: &SureReport,
        report: &SureReport,
    ) -> Result<Option<Fault>, AllocError> {
        match program_fault(self.alloc, made.text.as_slice(), report)? {
            Some(fault) => Ok(Some(fault)),
            None if made.is_threaded => Ok(None),
            None => Ok(difference(first, report)),
        }
    }

    /// Runs a program again.
    fn try_plan<Rt: Threads + Wait + Sync>(
        &mut self,
        rt: &Rt,
        number: u64,
        made: &MadeProgram,
        first: &SureReport,
        plan: Plan,
    ) -> Result<()> {
        let report = run_plan(rt, self.alloc, made.text.as_slice(), plan)?;
        let fault = self.fault_of(made, first, &report)?;
        self.tell("program", number, plan, fault)
    }

    /// Tries the program of a number: once, and then with each count of segments and each length.
    pub(crate) fn try_program<Rt: Threads + Wait + Sync>(
        &mut self,
        rt: &Rt,
        number: u64,
    ) -> Result<()> {
        let made = made_program(self.alloc, number)?;
        let first = run_plan(rt, self.alloc, made.text.as_slice(), TEXT_PLAN)?;
        self.tally.add_program();
        for segments in SEGMENTS {
            for length in LENGTHS {
                let plan = Plan {
                    segments,
                    length,
                    budget: PROGRAM_BUDGET,
                };
                self.try_plan(rt, number, &made, &first, plan)?;
            }
        }
        Ok(())
    }

    /// Writes what was counted. It fails where something was wrong.
    pub(crate) fn finish(self) -> Result<()> {
        let Trial {
            alloc: _,
            mut told,
            tally,
        } = self;
        writeln!(told, "{tally}")?;
        let faults = tally.faults();
        if faults > 0 {
            bail!("{faults} runs are not what they should be");
        }
        Ok(())
    }
}
