//! A core as it lies in the lock, and the crew that visits it.
ghost use Rattle.std.specs.Prelude.{◌≡◌, ◌<◌, IfSome};
ghost use Rattle.stm_core.specs.CoreHeld.{IsGoodCore};
ghost use Rattle.stm_pieces.specs.PieceBy.{IsPieceBy};
ghost use Rattle.stm_workers.specs.CoreJob.{core_job};
ghost use Rattle.stm_workers.specs.Errands.{IsRunnable, CanRun};
ghost use Rattle.stm_workers.specs.Growth.{Grows};
ghost use Rattle.stm_workers.specs.inner.GrowthLaws.{grows_same, grows_then};

use crate::crew::{Crew, Visit};
use crate::visits::visit_with;
use heap_lock::Job;
use lock_run::Client;
use seg_store::SegStore;
use std::alloc::Global;
use stm_core::Core;
use stm_io::{Gate, Sink, Source};
use stm_pieces::{Loan, Piece, run_piece};

/// The job of a core: its client, its limits, and the devices with which it was made. No value of it is made.
pub struct CoreJob<C, I, O, E> {
    pub client: C,
    /// The most steps of a transaction.
    pub length: u64,
    /// With so many steps in the history no transaction begins.
    pub budget: u64,
    /// How many segments there are.
    pub segments: u8,
    /// How many words the store has at most.
    pub words: u64,
    pub input: I,
    pub out: O,
    pub err: E,
}

/// A core as the value in a lock.
#[derive(Drop)]
pub struct Held<'p, C: Client, S, I, O, E> {
    pub core: Core<'p, C, S, I, O, E>,
}

impl<'p, C: Client, S: SegStore, I: Source, O: Sink, E: Sink> Job for Held<'p, C, S, I, O, E> {
    type Description = CoreJob<C, I, O, E>;

    ghost job = { λ h. core_job S.meaning h.core };

    ghost good = { λ h. IsGoodCore I.state O.state E.state C.prog C.sound S.reserved S.meaning h.core };

    ghost grows = { λ x y. Grows I.state O.state E.state C.prog S.meaning S.peaks x.core y.core };

    ghost grows_same = { λ x. grows_same I.state O.state E.state C.prog S.meaning S.peaks x.core };

    ghost grows_then = { λ x y z. grows_then I.state O.state E.state C.prog S.meaning S.peaks x.core y.core z.core };
}

/// A piece to be run: a loan of a core, and the core's client.
#[derive(Drop)]
pub(crate) struct Errand<'p, C: Client> {
    pub client: &'p C,
    pub loan: Loan<C::State>,
}

/// The workers of a core's segments, which pass a gate before each piece.
#[derive(Drop)]
pub(crate) struct Hands<'g, G> {
    pub alloc: Global,
    pub workers: u8,
    pub gate: &'g G,
}

/// The errand of a loan, if there is one.
fn with_client<'p, C: Client>(client: &'p C, loan: Option<Loan<C::State>>) -> Option<Errand<'p, C>>
    requires { IfSome loan (λ l. IsRunnable C.prog C.sound client.now l) }
    ensures { IfSome result (CanRun C.prog C.sound client.now) }
{
    match loan {
        Some(loan) => Some(Errand { client, loan }),
        None => None,
    }
}

impl<'p, 'g, C: Client, S: SegStore, I: Source, O: Sink, E: Sink, G: Gate> Crew<
    Held<'p, C, S, I, O, E>,
    Errand<'p, C>,
    Piece<C::State>,
> for Hands<'g, G> {
    ghost serves = { λ w j. j.segments ≡ w.workers };

    ghost workers = { λ w. w.workers };

    ghost errand_of = { λ j e. CanRun C.prog C.sound j.client e };

    ghost done_of = { λ j piece. IsPieceBy (C.prog j.client) piece };

    fn visit(
        &self,
        value: &mut Held<'p, C, S, I, O, E>,
        k: u8,
        done: Option<Piece<C::State>>,
        asks: bool,
    ) -> Visit<Errand<'p, C>>
        requires good { IsGoodCore I.state O.state E.state C.prog C.sound S.reserved S.meaning value.old.core }
        requires serves { (core_job S.meaning value.old.core).segments ≡ self.now.workers }
        requires worker { k < self.now.workers }
        requires done { IfSome done (IsPieceBy (C.prog (core_job S.meaning value.old.core).client)) }
        ensures good { IsGoodCore I.state O.state E.state C.prog C.sound S.reserved S.meaning value.new.core }
        ensures job { core_job S.meaning value.new.core ≡ core_job S.meaning value.old.core }
        ensures grows { Grows I.state O.state E.state C.prog S.meaning S.peaks value.old.core value.new.core }
        ensures errand { IfSome result.errand (CanRun C.prog C.sound (core_job S.meaning value.old.core).client) }
    {
        let core = &mut value.core;
        let client = core.client();
        let (found, worth, loan) = visit_with(core, k, done, asks);
        Visit {
            found,
            worth,
            errand: with_client(client, loan),
        }
    }

    fn run(&self, k: u8, errand: Errand<'p, C>) -> Piece<C::State>
        requires { (j : CoreJob C I O E) × CanRun C.prog C.sound j.client errand }
        ensures { (j : CoreJob C I O E) → CanRun C.prog C.sound j.client errand.entry
            → IsPieceBy (C.prog j.client) result }
    {
        self.gate.enter(k, errand.loan.thread);
        run_piece(self.alloc, errand.client, errand.loan)
    }
}
