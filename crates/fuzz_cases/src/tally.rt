//! What is counted.

use std::fmt;

/// How many texts, programs and runs there were, and how many runs with which something is wrong.
#[derive(Debug, Drop)]
pub(crate) struct Tally {
    texts: u64,
    programs: u64,
    runs: u64,
    faults: u64,
}

impl Tally {
    pub(crate) fn new() -> Tally {
        Tally {
            texts: 0,
            programs: 0,
            runs: 0,
            faults: 0,
        }
    }

    /// Counts a text.
    pub(crate) fn add_text(&mut self) {
        self.texts = self.texts.saturating_add(1);
    }

    /// Counts a program.
    pub(crate) fn add_program(&mut self) {
        self.programs = self.programs.saturating_add(1);
    }

    /// Counts a run.
    pub(crate) fn add_run(&mut self) {
        self.runs = self.runs.saturating_add(1);
    }

    /// Counts a run with which something is wrong.
    pub(crate) fn add_fault(&mut self) {
        self.faults = self.faults.saturating_add(1);
    }

    /// How many runs there were with which something is wrong.
    pub(crate) fn faults(&self) -> u64 {
        self.faults
    }
}

impl fmt::Display for Tally {
    fn fmt<W: fmt::Write>(&self, f: &mut fmt::Formatter<W>) -> fmt::Result {
        let Tally {
            texts,
            programs,
            runs,
            faults,
        } = self;
        write!(
            f,
            "texts: {texts}; programs: {programs}; runs: {runs}; wrong: {faults}"
        )
    }
}
