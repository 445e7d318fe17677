//! Loans: a copy of a transaction's state, and copies of records that its segment sees.
ghost use Rattle.std.specs.Prelude.{◌≡◌, ◌<◌, ◌≤◌, ◌*◌, true, length};
ghost use Rattle.py_data.specs.Heap.{Has, at};
ghost use Rattle.seg_store.specs.Meaning.{sees};
ghost use Rattle.stm_pieces.specs.PieceOf.{piece_state};
ghost use Rattle.stm_core.specs.inner.Lent.{AreLent, MayLend, Lends};

use crate::answers::LoanError;
use crate::transactions::Core;
use lock_run::{Client, Life};
use py_data::{Addr, Kind, NoMemory, Value};
use seg_store::SegStore;
use std::alloc::Global;
use stm_io::{Sink, Source};
use stm_pieces::Loan;
use stm_segment::{
    Hand, RECENT_LIMIT, Recent, Work, copy_of, is_held, is_there, is_tracked_kind, value_count,
};

/// The most pairs of a dictionary whose keys are loaned too.
const KEYED_LIMIT: usize = 32;

/// Whether a record that the segment sees stands at an address, and is fixed or was looked at.
fn may_lend<S: SegStore>(store: &S, k: u8, a: Addr) -> bool
    requires { k < (S.meaning store.now).segments }
    ensures { result ≡ true → MayLend (S.meaning store.now) k a.0 }
{
    if !is_there(store, k, a) {
        return false;
    }
    if is_tracked_kind(store.kind(k, a)) {
        store.has_looked(k, a)
    } else {
        true
    }
}

/// Lends a record, if it isn't loaned yet, may be loaned and is small.
fn lend<T, S: SegStore>(
    alloc: Global,
    store: &S,
    k: u8,
    a: Addr,
    loan: &mut Loan<T>,
) -> Result<(), NoMemory>
    requires segment { k < (S.meaning store.now).segments }
    requires lent { AreLent (S.meaning store.now) k (piece_state loan.old.view).loaned
        (piece_state loan.old.view).locked }
    ensures { Lends (S.meaning store.now) k loan.old loan.new }
{
    if loan.has(a) || !may_lend(store, k, a) {
        return Ok(());
    }
    match copy_of(alloc, store, k, a)? {
        Some(record) => loan.add(a, record, is_held(store, k, a)),
        None => Ok(()),
    }
}

/// Whether the segment sees a string at an address.
fn is_text<S: SegStore>(store: &S, k: u8, a: Addr) -> bool
    requires { k < (S.meaning store.now).segments }
{
    if is_there(store, k, a) {
        matches!(store.kind(k, a), Kind::Str)
    } else {
        false
    }
}

/// Lends the record of a key that is a string.
fn lend_key<T, S: SegStore>(
    alloc: Global,
    store: &S,
    k: u8,
    key: Value,
    loan: &mut Loan<T>,
) -> Result<(), NoMemory>
    requires segment { k < (S.meaning store.now).segments }
    requires lent { AreLent (S.meaning store.now) k (piece_state loan.old.view).loaned
        (piece_state loan.old.view).locked }
    ensures { Lends (S.meaning store.now) k loan.old loan.new }
{
    match key {
        Value::Ref(a) if is_text(store, k, a) => lend(alloc, store, k, a, loan),
        _ => Ok(()),
    }
}

/// How many pairs a dictionary has; 0 of one that has too many, and of another record.
fn keyed_pairs<S: SegStore>(store: &S, k: u8, d: Addr) -> usize
    requires segment { k < (S.meaning store.now).segments }
    requires there { Has (sees (S.meaning store.now) k) d.0 }
    ensures within { 2 * result ≤ length (at (sees (S.meaning store.now) k) d.0).values }
    ensures few { result ≤ KEYED_LIMIT }
{
    match store.kind(k, d) {
        Kind::Dict => {
            let pairs = value_count(store, k, d) / 2;
            if pairs <= KEYED_LIMIT { pairs } else { 0 }
        }
        _ => 0,
    }
}

/// Lends the records of the keys of a loaned dictionary that are strings, if it has few pairs.
fn lend_keys<T, S: SegStore>(
    alloc: Global,
    store: &S,
    k: u8,
    d: Addr,
    loan: &mut Loan<T>,
) -> Result<(), NoMemory>
    requires segment { k < (S.meaning store.now).segments }
    requires lent { AreLent (S.meaning store.now) k (piece_state loan.old.view).loaned
        (piece_state loan.old.view).locked }
    ensures { Lends (S.meaning store.now) k loan.old loan.new }
{
    if !loan.has(d) {
        return Ok(());
    }
    'pairs: for i in 0..keyed_pairs(store, k, d) {
        lend_key(alloc, store, k, store.val(k, d, 2 * i), loan)?;
    }
    Ok(())
}

/// Lends the records that were looked at last, and those of their keys.
fn lend_recent<T, S: SegStore>(
    alloc: Global,
    store: &S,
    k: u8,
    recent: &Recent,
    loan: &mut Loan<T>,
) -> Result<(), NoMemory>
    requires segment { k < (S.meaning store.now).segments }
    requires lent { AreLent (S.meaning store.now) k (piece_state loan.old.view).loaned
        (piece_state loan.old.view).locked }
    ensures { Lends (S.meaning store.now) k loan.old loan.new }
{
    'recent: for i in 0..RECENT_LIMIT {
        if let Some(a) = recent.at(i) {
            lend(alloc, store, k, a, loan)?;
            lend_keys(alloc, store, k, a, loan)?;
        }
    }
    Ok(())
}

impl<'p, C: Client, S: SegStore, I: Source, O: Sink, E: Sink> Core<'p, C, S, I, O, E> {
    ghost use Rattle.std.specs.Prelude.{◌≡◌, ◌↔◌, ◌<◌, ◌≤◌, IsTrue, true, slice_get, Some, IfOk, IfErr};
    ghost use Rattle.stm_core.specs.declared.answers.LoanError.TheVariants.{OutOfMemory};
    ghost use Rattle.lock_run.specs.declared.client.Life.TheVariants.{Lives};
    ghost use Rattle.lock_run.specs.Client.{StandsIn};
    ghost use Rattle.stm_pieces.specs.PieceOf.{piece_state};
    ghost use Rattle.stm_segment.specs.declared.books.Work.{Work};
    ghost use Rattle.stm_segment.specs.declared.books.Hand.TheVariants.{Runs};
    ghost use Rattle.stm_segment.specs.Books.{runs_at};
    ghost use Rattle.stm_core.specs.CoreHeld.{core_client, core_devices, core_limits, core_store, Says, Leads, IsGoodCore, SameJob};
    ghost use Rattle.stm_core.specs.Pieces.{MayLoan, IsLoaned};
    ghost use Rattle.stm_core.specs.inner.Lent.{IsLoanOf, IsLoanFrom};

    /// The client whose threads it runs.
    pub fn client(&self) -> &'p C
        ensures { result.now ≡ core_client self.now }
    {
        self.client
    }

    /// Whether segment `k` may be asked for a loan: it is doomed, or its transaction has done fewer steps than the
    /// length and its thread lives.
    pub fn may_loan(&self, k: u8) -> bool
        requires segment { k < (core_limits S.meaning self.now).segments }
        requires good { IsGoodCore I.state O.state E.state C.prog C.sound S.reserved S.meaning self.now }
        ensures { Says I.state O.state E.state C.prog S.meaning self.now
            (λ o. IsTrue result ↔ MayLoan (C.prog (core_client self.now)) (core_limits S.meaning self.now).length
            (o.core.segments k)) }
    {
        match &self.books.hands[k as usize] {
            Hand::Idle => false,
            Hand::Doomed(_) => true,
            Hand::Runs(work) => {
                let lives = matches!(self.client.life(&work.state), Life::Lives);
                lives && work.steps < self.length
            }
        }
    }

    /// A loan of a segment's transaction, for the steps that it still has.
    fn lend_out(&self, k: u8, work: &Work<C::State>) -> Result<Loan<C::State>, LoanError>
        requires segment { k < (S.meaning self.now.store).segments }
        requires short { work.now.steps < self.now.length }
        ensures loan { IfOk result (IsLoanOf (S.meaning self.now.store) k self.now.length work.now) }
        ensures want { IfErr result (λ e. e ≡ OutOfMemory) }
    {
        let state = self.client.copy(self.alloc, &work.state)?;
        let most = self.length - work.steps;
        let mut loan = Loan::new(self.alloc, work.thread, state, most);
        let recent = &work.progress.recent;
        lend_recent(self.alloc, &self.store, k, recent, &mut loan)?;
        Ok(loan)
    }

    /// A loan of the transaction that a segment has in hand.
    fn lend_from(&self, k: u8) -> Result<Loan<C::State>, LoanError>
        requires segment { k < (S.meaning self.now.store).segments }
        requires runs { runs_at self.now.books.hands.items k ≡ true }
        requires short { (x : Work C.State) → slice_get self.now.books.hands.items k ≡ Some (Runs x)
            → x.steps < self.now.length }
        ensures loan { IfOk result (IsLoanFrom (S.meaning self.now.store) k self.now.length
            self.now.books.hands.items) }
        ensures want { IfErr result (λ e. e ≡ OutOfMemory) }
    {
        match &self.books.hands[k as usize] {
            Hand::Runs(work) => self.lend_out(k, work),
            _ => unreachable!(),
        }
    }

    /// Lends the state of segment `k`'s transaction and the records that its steps looked at last, for the steps that
    /// it still has. Of those the records are copied that have at most 1,024 values or bytes and as much room, and
    /// the strings that are keys of dictionaries of at most 32 pairs. A segment that was doomed has nothing in hand
    /// then.
    pub fn loan(&mut self, k: u8) -> Result<Loan<C::State>, LoanError>
        requires segment { k < (core_limits S.meaning self.old).segments }
        requires good { IsGoodCore I.state O.state E.state C.prog C.sound S.reserved S.meaning self.old }
        requires may { Says I.state O.state E.state C.prog S.meaning self.old
            (λ o. MayLoan (C.prog (core_client self.old)) (core_limits S.meaning self.old).length
            (o.core.segments k)) }
        ensures good { IsGoodCore I.state O.state E.state C.prog C.sound S.reserved S.meaning self.new }
        ensures job { SameJob S.meaning self.old self.new }
        ensures lives { IfOk result (λ l. (C.prog (core_client self.old)).life l.state ≡ Lives) }
        ensures stands { IfOk result (λ l. StandsIn (C.sound (core_client self.old)) true
            (piece_state l.view).heap l.state) }
        ensures some { IfOk result (λ l. 1 ≤ l.most) }
        ensures loaned { Leads I.state O.state E.state C.prog S.meaning self.old self.new
            (λ o o1. IsLoaned (C.prog (core_client self.old)) (core_limits S.meaning self.old).length k result o o1) }
        ensures peaks { S.peaks (core_store self.new) ≡ S.peaks (core_store self.old) }
        ensures devices { core_devices I.state O.state E.state self.new
            ≡ core_devices I.state O.state E.state self.old }
    {
        self.store.known();
        if self.books.runs(k) {
            return self.lend_from(k);
        }
        match self.books.take(k) {
            Hand::Doomed(f) => Err(LoanError::Lost(f)),
            _ => unreachable!(),
        }
    }
}
