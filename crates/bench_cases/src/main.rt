//! `bench_cases`: does a measure so many times, for each pair of words, and prints a sum asked of the heap then. It
//! tells no time: `bench/README.md` says how it is run, and what was measured.
#![tactic(auto)]

mod heap;
mod index;
mod measure;
mod objects;

use crate::measure::measured;
use anyhow::{Context, Result, bail};
use py_data::LENGTH_LIMIT;
use std::alloc::Global;
use std::env;

/// The largest count of a measure: a dictionary has at most so many pairs.
const MOST: u32 = (LENGTH_LIMIT / 2) as u32;

/// What a measure of that name comes to, done so many times.
fn sum_of(alloc: Global, name: &str, count: &str) -> Result<i64> {
    let count = count.parse::<u32>().context("a count is a number")?;
    if count > MOST {
        bail!("a count is at most {MOST}");
    }
    match measured(alloc, name, count) {
        Some(Ok(sum)) => Ok(sum),
        Some(Err(stop)) => bail!("{name} stopped: {stop:?}"),
        None => bail!("no measure has the name {name:?}"),
    }
}

fn main(rt: HostRuntime) -> Result<()> {
    let words: Vec<String> = env::args(&rt)?.skip(1).collect(rt.alloc())?;
    for pair in words.chunks(2) {
        let [name, count] = pair else {
            bail!("each measure wants a count");
        };
        let sum = sum_of(rt.alloc(), name.as_str(), count.as_str())?;
        println!(rt; "{name} {count}: {sum}")?;
    }
    Ok(())
}
