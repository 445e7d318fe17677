//! The events, and what each of them is to be replied, by hand from the rules of the core.

use py_data::{Addr, Conflict, Side};
use stm_core::{Advance, BeginError, Cause, Event, Reply};

/// Thread 0 makes the Cell, on segment 1; threads 1 and 2 begin, and go on by two steps each; the first of them is
/// committed.
pub const EVENTS: [Event; 8] = [
    Event::Begin(1, 0),
    Event::Advance(1, 1),
    Event::Commit(1),
    Event::Begin(0, 1),
    Event::Begin(1, 2),
    Event::Advance(0, 2),
    Event::Advance(1, 2),
    Event::Commit(0),
];

const MADE: Reply = Reply::Advanced(Advance::Ended(1));

const ENDED: Reply = Reply::Advanced(Advance::Ended(2));

/// A begin for which there is no memory.
const NO_BEGIN: Reply = Reply::Refused(BeginError::OutOfMemory);

/// A begin once want of memory was told.
const OVER: Reply = Reply::Refused(BeginError::Over(Cause::OutOfMemory));

/// An advance for which there is no memory.
const FAILED: Reply = Reply::Failed(Cause::OutOfMemory);

/// A side that isn't solo.
fn side(segment: u8, thread: u32, begun: u64) -> Side {
    Side {
        segment,
        thread,
        begun,
        solo: false,
    }
}

/// Thread 2 asks to change the Cell, which thread 1 has locked, and thread 1 began earlier.
fn lost(at: Addr) -> Conflict {
    Conflict {
        at,
        writer: side(0, 1, 1),
        other: side(1, 2, 2),
        asks: true,
        lost: 1,
    }
}

/// What the events are to be replied where the one of that number, from 0, is told that there is no memory, or none
/// is. From then on no transaction begins, and what has nothing in hand is skipped. Commits take no memory.
pub fn wanted(place: Option<usize>, cell: Addr) -> [Reply; 8] {
    let begun = Reply::Begun;
    let skipped = Reply::Skipped;
    let first = Reply::Committed(0);
    let next = Reply::Committed(1);
    match place {
        Some(0) => [
            NO_BEGIN, skipped, skipped, OVER, OVER, skipped, skipped, skipped,
        ],
        Some(1) => [
            begun, FAILED, skipped, OVER, OVER, skipped, skipped, skipped,
        ],
        Some(3) => [
            begun, MADE, first, NO_BEGIN, OVER, skipped, skipped, skipped,
        ],
        Some(4) => [begun, MADE, first, begun, NO_BEGIN, ENDED, skipped, next],
        Some(5) => [begun, MADE, first, begun, begun, FAILED, ENDED, skipped],
        Some(6) => [begun, MADE, first, begun, begun, ENDED, FAILED, next],
        _ => [
            begun,
            MADE,
            first,
            begun,
            begun,
            ENDED,
            Reply::Lost(lost(cell)),
            next,
        ],
    }
}

/// The number, from 0, of the first event that was told that there is no memory.
pub fn place_of_want(replies: &[Reply]) -> Option<usize> {
    replies
        .iter()
        .position(|reply| *reply == NO_BEGIN || *reply == FAILED)
}
