//! Cores under test, on which crates of tests stand: of scripts of threads, over a store of maps and devices in memory.
#![tactic(auto)]

mod bench;

pub use bench::{
    MemCore, Tested, begun, begun_over, cell, committed, outcome, play, script, script_of, side,
    sink, slot, source,
};
