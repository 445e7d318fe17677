//! Pieces on a core: loans that are run and installed at once, and such as are given back too late.
ghost use Rattle.core_bench.specs.ScriptCore.{IsGoodScriptCore};

use core_bench::{MemCore, Tested, begun, cell, committed, play, script, side};
use lock_run::{Act, ScriptState};
use py_data::Conflict;
use seg_store::SegStore;
use std::alloc::Global;
use std::process::Abort;
use std::test;
use stm_core::{Advance, Event, Reply};
use stm_pieces::{Piece, PieceEnd, run_piece};

/// Thread 1 does a step of these acts, two more in a piece, and commits: the number in the first Cell then.
fn in_a_piece(alloc: Global, acts: &[Act]) -> Result<i64, test::Fail> {
    let client = script(alloc, acts, &[Act::Look(1)])?;
    let mut core = begun(alloc, &client, 1_000)?;
    let list = [
        Event::Begin(0, 1),
        Event::Advance(0, 1),
        Event::Piece(0, 2),
        Event::Commit(0),
    ];
    let wanted = [
        Reply::Begun,
        Reply::Advanced(Advance::Ran(1)),
        Reply::Installed(2),
        Reply::Committed(1),
    ];
    play(&mut core, &list, &wanted)?;
    Ok(committed(&core, 0)?)
}

/// A Cell that a step has looked at is loaned.
#[test]
fn looks_go_on_in_a_piece(rt: HostRuntime) -> Tested {
    let acts = [Act::Look(0), Act::Look(0), Act::Look(0), Act::Look(0)];
    assert_eq!(&rt; in_a_piece(rt.alloc(), &acts)?, 0);
    Ok(())
}

/// And one that a step has set can be set in a piece.
#[test]
fn sets_go_on_in_a_piece(rt: HostRuntime) -> Tested {
    let acts = [Act::Set(0, 1), Act::Set(0, 2), Act::Set(0, 3), Act::Look(0)];
    assert_eq!(&rt; in_a_piece(rt.alloc(), &acts)?, 3);
    Ok(())
}

/// Thread 1 pushes, which is no piece, and pushes again.
fn push_stands(core: &mut MemCore<'_>) -> Tested
    requires { IsGoodScriptCore core.old }
{
    let list = [
        Event::Begin(0, 1),
        Event::Advance(0, 1),
        Event::Piece(0, 1),
        Event::Advance(0, 1),
    ];
    let wanted = [
        Reply::Begun,
        Reply::Advanced(Advance::Ran(1)),
        Reply::Installed(0),
        Reply::Advanced(Advance::Ended(1)),
    ];
    play(core, &list, &wanted)
}

/// A List gets no longer in a piece.
#[test]
fn a_push_is_no_piece(rt: HostRuntime) -> Tested {
    let client = script(rt.alloc(), &[Act::Push(1), Act::Push(2)], &[Act::Look(1)])?;
    let mut core = begun(rt.alloc(), &client, 1_000)?;
    push_stands(&mut core)
}

/// Pieces with no transaction, of no step, of no segment, up to the length, and past it.
fn pieces_of_the_length(core: &mut MemCore<'_>) -> Tested
    requires { IsGoodScriptCore core.old }
{
    let list = [
        Event::Piece(0, 1),
        Event::Begin(0, 1),
        Event::Piece(0, 0),
        Event::Piece(3, 1),
        Event::Advance(0, 1),
        Event::Piece(0, 9),
        Event::Piece(0, 1),
        Event::Begin(1, 2),
        Event::Advance(1, 1),
        Event::Piece(1, 1),
    ];
    let wanted = [
        Reply::Skipped,
        Reply::Begun,
        Reply::Skipped,
        Reply::Skipped,
        Reply::Advanced(Advance::Ran(1)),
        Reply::Installed(3),
        Reply::Skipped,
        Reply::Begun,
        Reply::Advanced(Advance::Ended(1)),
        Reply::Skipped,
    ];
    play(core, &list, &wanted)
}

/// A piece has no more steps than its transaction may still do, and is skipped where there are none.
#[test]
fn pieces_are_within_the_length(rt: HostRuntime) -> Tested {
    let looks = [Act::Look(0); 6];
    let client = script(rt.alloc(), &looks, &[Act::Look(1)])?;
    let mut core = begun(rt.alloc(), &client, 1_000)?;
    pieces_of_the_length(&mut core)
}

/// The piece of a loan of a segment's transaction.
fn piece_of(
    rt: &impl Abort,
    alloc: Global,
    core: &mut MemCore<'_>,
    k: u8,
) -> Result<Piece<ScriptState>, test::Fail>
    requires { IsGoodScriptCore core.old }
    ensures { IsGoodScriptCore core.new }
{
    assert!(rt; k < core.store().segments());
    assert!(rt; core.may_loan(k));
    match core.loan(k) {
        Ok(loan) => Ok(run_piece(alloc, core.client(), loan)),
        Err(_) => Err("no loan".into()),
    }
}

/// Whether a piece fits a segment.
fn fits(rt: &impl Abort, core: &MemCore<'_>, k: u8, piece: &Piece<ScriptState>) -> bool
    requires { IsGoodScriptCore core.now }
{
    assert!(rt; k < core.store().segments());
    core.fits(k, piece)
}

/// Threads 1 and 2 begin and do a step each, of which the first one's ends so.
fn both_step(core: &mut MemCore<'_>, first: Advance) -> Tested
    requires { IsGoodScriptCore core.old }
    ensures { IsGoodScriptCore core.new }
{
    let list = [
        Event::Begin(0, 1),
        Event::Begin(1, 2),
        Event::Advance(0, 1),
        Event::Advance(1, 1),
    ];
    let wanted = [
        Reply::Begun,
        Reply::Begun,
        Reply::Advanced(first),
        Reply::Advanced(Advance::Ran(1)),
    ];
    play(core, &list, &wanted)
}

/// A piece of thread 2 fits until thread 1 commits.
fn doomed_meanwhile(rt: &impl Abort, alloc: Global, core: &mut MemCore<'_>) -> Tested
    requires { IsGoodScriptCore core.old }
{
    let lost = Conflict {
        at: cell(core, 0)?,
        writer: side(0, 1, 1),
        other: side(1, 2, 2),
        asks: false,
        lost: 1,
    };
    both_step(core, Advance::Ended(1))?;
    let piece = piece_of(rt, alloc, core, 1)?;
    assert_eq!(rt; piece.steps, 1);
    assert!(rt; piece.end == PieceEnd::NeedHeap);
    assert!(rt; fits(rt, core, 1, &piece));
    play(core, &[Event::Commit(0)], &[Reply::Committed(1)])?;
    assert!(rt; !fits(rt, core, 1, &piece));
    let list = [Event::Piece(1, 1), Event::Piece(1, 1)];
    let wanted = [Reply::Lost(lost), Reply::Skipped];
    play(core, &list, &wanted)
}

/// A piece of a transaction that is doomed before it comes back doesn't fit, and the segment is told its conflict.
#[test]
fn a_doomed_piece_does_not_fit(rt: HostRuntime) -> Tested {
    let client = script(
        rt.alloc(),
        &[Act::Set(0, 1)],
        &[Act::Look(0), Act::Look(0), Act::Look(1)],
    )?;
    let mut core = begun(rt.alloc(), &client, 1_000)?;
    doomed_meanwhile(&rt, rt.alloc(), &mut core)
}

/// A piece of thread 1 fits its segment alone, and only until the thread goes on.
fn goes_on_meanwhile(rt: &impl Abort, alloc: Global, core: &mut MemCore<'_>) -> Tested
    requires { IsGoodScriptCore core.old }
{
    both_step(core, Advance::Ran(1))?;
    let piece = piece_of(rt, alloc, core, 0)?;
    assert_eq!(rt; piece.steps, 2);
    assert!(rt; piece.end == PieceEnd::Ended);
    assert!(rt; fits(rt, core, 0, &piece));
    assert!(rt; !fits(rt, core, 1, &piece));
    assert!(rt; !fits(rt, core, 2, &piece));
    let list = [Event::Advance(0, 1)];
    let wanted = [Reply::Advanced(Advance::Ran(1))];
    play(core, &list, &wanted)?;
    assert!(rt; !fits(rt, core, 0, &piece));
    Ok(())
}

/// A piece of a transaction that has gone on since doesn't fit, nor does one fit another segment.
#[test]
fn an_old_piece_does_not_fit(rt: HostRuntime) -> Tested {
    let acts = [Act::Look(0), Act::Look(0), Act::Look(0)];
    let client = script(rt.alloc(), &acts, &acts)?;
    let mut core = begun(rt.alloc(), &client, 1_000)?;
    goes_on_meanwhile(&rt, rt.alloc(), &mut core)
}
