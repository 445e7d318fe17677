//! `fuzz_cases`: runs made texts and programs by the top call, and says where a run isn't what it should be. Its
//! words are the first number, how many texts, and how many programs; `README.md` says what is asked of each run.
#![tactic(auto)]

mod cause;
mod fault;
mod judge;
mod plan;
mod tally;
mod trial;

use crate::trial::Trial;
use anyhow::{Context, Result, bail};
use std::env;

/// The number that a word is.
fn number_in(word: &str) -> Result<u64> {
    word.parse::<u64>().context("a word is a number")
}

fn main(rt: HostRuntime) -> Result<()> {
    let words: Vec<String> = env::args(&rt)?.skip(1).collect(rt.alloc())?;
    let [first, texts, programs] = words.as_slice() else {
        bail!("the words are the first number, how many texts, and how many programs");
    };
    let first = number_in(first.as_str())?;
    let texts = number_in(texts.as_str())?;
    let programs = number_in(programs.as_str())?;
    let mut trial = Trial::new(rt.alloc(), rt.stdout());
    for number in first..first.saturating_add(texts) {
        trial.try_text(&rt, number)?;
    }
    for number in first..first.saturating_add(programs) {
        trial.try_program(&rt, number)?;
    }
    trial.finish()
}
