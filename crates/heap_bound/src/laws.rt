//! Laws of the bound on a full heap, as contracts: a call of such a function does nothing, and gives its caller's proof
//! the facts of its clauses.
ghost use Rattle.heap_bound.specs.Laws.{PlaceLaw, NextLaw, KeptLaw, RiseLaw, StoreLaw, UseLaw, TellsLaw, TellsRefusedLaw, ChainLaw, NewLaw, MoveLaw, OuterLaw, BoundLaw, WithinLaw, AdvanceLaw, BeginLaw, SoloLaw, CommitLaw, InstallLaw, LoanLaw, EndLaw};

use lock_run::Client;
use stm_core::good_law;

/// A step that was cut asked for no more than some whole step of its thread: at any place within it, and where its next
/// call wants words, with that call done too. So a full heap that a move keeps wanted words that whole steps ask for.
pub fn cut_law<C: Client>(client: &C)
    ensures place { PlaceLaw (C.prog client.now) (C.sound client.now) }
    ensures next { NextLaw (C.prog client.now) (C.sound client.now) }
    ensures kept { KeptLaw (C.prog client.now) (C.sound client.now) }
    ensures rise { RiseLaw (C.prog client.now) (C.sound client.now) }
{}

/// From what a store's calls ensure of its peaks to what was in use at once: how far a call raises them; what a store
/// has in use is in use in the core; what a core has in use was in use at once; and so over several steps.
pub fn use_law<S>()
    ensures done { TellsLaw }
    ensures refused { TellsRefusedLaw }
    ensures store { StoreLaw S }
    ensures used { UseLaw S }
    ensures chain { ChainLaw S }
{}

/// A new core's peaks are explained, and each move keeps them and a kept full heap explained. Where they are, the
/// limit of a full heap is below the bound.
pub fn full_law<S>()
    ensures new { NewLaw S }
    ensures moves { MoveLaw S }
    ensures outer { OuterLaw S }
    ensures bound { BoundLaw S }
{}

/// A call of `advance` keeps the peaks and a kept full heap explained, where peaks rise to what was in use at once,
/// from the committed state on, as they do where they rise to what was in use at moments within its steps; and each
/// other call does, which leaves the peaks.
pub fn call_law<C: Client>(client: &C)
    ensures within { WithinLaw (C.prog client.now) (C.sound client.now) }
    ensures advance { AdvanceLaw (C.prog client.now) (C.sound client.now) }
    ensures begin { BeginLaw C.State }
    ensures solo { SoloLaw C.State }
    ensures commit { CommitLaw C.State }
{
    good_law::<C::State>();
}

/// Installing a piece, a loan and the end keep the peaks and a kept full heap explained: they leave the peaks.
pub fn piece_law<S>()
    ensures install { InstallLaw S }
    ensures loan { LoanLaw S }
    ensures end { EndLaw S }
{}
