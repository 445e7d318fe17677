//! `event_cases`: makes a list of events on the transactional core over the store of pages, and writes what came of it.
//! `bench/memory` runs it with each growth of memory refused in turn.
#![tactic(auto)]

mod row;

use crate::row::{EVENTS, place_of_want, wanted};
use anyhow::Result;
use lock_run::{Act, Acts, Script};
use paged_store::PagedStore;
use py_data::Addr;
use std::alloc::{AllocError, Global};
use std::io::Write;
use stm_core::{Cause, Core, Reply, RunState};
use stm_io::{MemSink, MemSource};

/// What came of the events.
#[derive(Drop)]
struct Came {
    /// What each was replied.
    replies: Vec<Reply>,
    /// The address of the Cell, if it was made.
    cell: Option<Addr>,
    /// Want of memory is the kept cause.
    kept: bool,
}

/// Both threads look at the Cell and set it.
fn lists(alloc: Global) -> Result<Vec<Acts>, AllocError> {
    let mut lists = Vec::new(alloc);
    lists.push(Acts::from_slice(alloc, &[Act::Look(0), Act::Set(0, 1)])?)?;
    lists.push(Acts::from_slice(alloc, &[Act::Look(0), Act::Set(0, 2)])?)?;
    Ok(lists)
}

/// Makes the events on a new core of two segments, where there is memory for it, and tells what came of them, or that
/// there was no memory for their replies.
#[tactic(auto, using(lock_run::specs::inner::ScriptLaws::script_sound_first))]
fn play(alloc: Global, client: &Script) -> Result<Option<Came>, AllocError> {
    let store = PagedStore::new(alloc, 2, 64)?;
    let input = MemSource::new(alloc, Vec::new(alloc), Vec::new(alloc));
    let out = MemSink::new(alloc, Vec::new(alloc));
    let err = MemSink::new(alloc, Vec::new(alloc));
    match Core::new(alloc, client, store, 4, 1_000, input, out, err) {
        Ok(mut core) => Ok(match core.run_events(&EVENTS) {
            Ok(replies) => {
                let cell = match core.history().get(0) {
                    Some(turn) => turn.names.get(0).copied(),
                    None => None,
                };
                let kept = core.outcome() == RunState::Faulted(Cause::OutOfMemory);
                Some(Came {
                    replies,
                    cell,
                    kept,
                })
            }
            Err(_) => None,
        }),
        Err(_) => Err(AllocError),
    }
}

/// Whether the replies are those of the row, with want of memory at a place of it or at none, and the cause is kept
/// where it was told and nowhere else.
fn is_right(came: &Came, place: Option<usize>) -> bool {
    let cell = came.cell.unwrap_or(Addr(0));
    let right = came.replies.as_slice() == wanted(place, cell).as_slice();
    right && came.kept == place.is_some()
}

fn main(rt: HostRuntime) -> Result<()> {
    let alloc = rt.alloc();
    let mut out = rt.stdout();
    let lists = lists(alloc)?;
    if !Script::fits(1, lists.as_slice()) {
        writeln!(out, "otherwise: no script")?;
        return Ok(());
    }
    let client = Script::new(1, lists);
    match play(alloc, &client) {
        Ok(Some(came)) => {
            let place = place_of_want(came.replies.as_slice());
            match (is_right(&came, place), place) {
                (true, None) => writeln!(out, "the replies of the row")?,
                (true, Some(n)) => writeln!(out, "no memory: told at event {n}, and kept")?,
                (false, _) => writeln!(out, "otherwise: {:?}, kept: {}", came.replies, came.kept)?,
            }
        }
        Ok(None) => writeln!(out, "no memory: for the replies")?,
        Err(_) => writeln!(out, "no memory: for a core")?,
    }
    Ok(())
}
