//! The piece view: copies of some records of a heap, on terms, with nothing shared.
ghost use Rattle.std.specs.Prelude.{◌≡◌};

use crate::known::knows;
use crate::lent::Lent;
use crate::needs::{growth, has_room, keys_known};
use crate::noted::Noted;
use py_data::{
    Addr, Change, Entry, Head, Kind, NoMemory, Out, Record, Records, Stop, Value, View, find_pair,
    value_or_unset,
};
use std::alloc::Global;

/// A view of some records of a heap, which stand in it alone. It makes no record, starts no thread and uses no device,
/// it changes locked records only, within their rooms, and it lets none have more values than its terms say. What isn't
/// loaned isn't there. It keeps the records as they were loaned, too, and the changes that it made, one after another.
///
/// It gives the Stop NeedHeap where it is asked for a record that isn't here, for a search or a new pair whose keys'
/// records aren't all here, for a change that terms or room don't allow, and for a new record or thread; NeedSolo where
/// it is to print or read; and OutOfMemory at changes alone. A record's first change takes time of its values, each
/// other one only of what it changes, beside two looks for the record; a search goes through the pairs twice, and so
/// does a new pair once.
#[derive(Drop)]
pub struct PieceView {
    alloc: Global,
    records: Lent,
    edits: Noted,
    solo: bool,
    stopped: Option<Stop>,
}

impl PieceView {
    ghost use Rattle.std.specs.Prelude.{true, false, Some, None, OnOk, OnErr, ◌↔◌, option_copied};
    ghost use Rattle.py_data.specs.Changes.{Allows};
    ghost use Rattle.py_data.specs.Sense.{IfThere};
    ghost use Rattle.stm_pieces.specs.PieceOf.{piece_state};
    ghost use Rattle.stm_pieces.specs.PieceState.{nothing_loaned, with_loaned, with_base, IsNamed, Lacks};
    ghost use Rattle.stm_pieces.specs.inner.Edited.{May, AsksEdit, HasEdited, EditAnswer};

    /// A view of no records.
    pub fn new(alloc: Global) -> PieceView
        ensures { piece_state result ≡ nothing_loaned }
    {
        PieceView {
            alloc,
            records: Lent::new(alloc),
            edits: Noted::new(alloc),
            solo: false,
            stopped: None,
        }
    }

    /// Adds a record at an address that is free. It may have as many values as it has, and may be changed where it is
    /// locked. The step that is open ends. At want of memory there is no record more.
    pub fn add(&mut self, a: Addr, r: Entry, locked: bool) -> Result<(), NoMemory>
        requires fresh { (piece_state self.old).heap a.0 ≡ None }
        ensures ok { OnOk result (piece_state self.new ≡ with_loaned a.0 r locked (piece_state self.old)) }
        ensures err { OnErr result (piece_state self.new ≡ with_base (piece_state self.old)) }
    {
        self.records.open();
        self.edits.open();
        match self.records.lend(a, r, locked) {
            Ok(()) => Ok(()),
            Err(want) => Err(want),
        }
    }

    /// The addresses of the loaned records, in the order of the loan.
    pub fn names(&self) -> &[Addr]
        ensures { result.now ≡ (piece_state self.now).names }
    {
        self.records.names()
    }

    /// The record at an address as it was loaned, if one is loaned there.
    pub fn loaned(&self, a: u32) -> Option<&Entry>
        ensures { option_copied result ≡ (piece_state self.now).loaned a }
    {
        self.records.loaned(a)
    }

    /// Whether the record at an address may be changed.
    pub fn is_locked(&self, a: u32) -> bool
        ensures { result ≡ (piece_state self.now).locked a }
    {
        self.records.is_locked(a)
    }

    /// The changes that were made, one after another.
    pub fn edits(&self) -> &[(Addr, Change)]
        ensures { result.now ≡ (piece_state self.now).edits }
    {
        self.edits.as_slice()
    }

    /// The names are the addresses of the loaned records, and only such a record is locked.
    pub fn known(&self)
        ensures named { IsNamed (piece_state self.now) }
    {}

    /// Keeps a Stop, and hands it on.
    fn fail(&mut self, stop: Stop) -> Stop
        ensures same { result ≡ stop }
        ensures rest { self.new ≡ record self.old { stopped = Some stop } }
    {
        self.stopped = Some(stop);
        stop
    }

    /// The record is here, and its terms, its room and the records of its keys allow a change.
    fn may(&self, a: u32, c: &Change) -> bool
        ensures yes { result ≡ true → May (piece_state self.now) a c.now }
        ensures not { result ≡ false → Lacks (piece_state self.now) a c.now }
    {
        match self.records.look(a) {
            Some(r) => {
                let allowed = self.records.allows(a, r.values().len() + growth(c));
                let roomy = has_room(r, c);
                let known = keys_known(self, r, c);
                allowed && roomy && known
            }
            None => false,
        }
    }

    /// Makes a change of a record that is here, and notes it. At want of memory nothing is changed.
    fn change(&mut self, a: u32, c: Change) -> Result<(), NoMemory>
        requires { IfThere false ((piece_state self.old).heap a) (λ r. Allows c r) }
        ensures ok { OnOk result (HasEdited a c (piece_state self.old) (piece_state self.new)) }
        ensures err { OnErr result (piece_state self.new ≡ piece_state self.old) }
    {
        match self.edits.reserve() {
            Ok(()) => match self.records.replace(self.alloc, a, c) {
                Ok(()) => {
                    self.edits.note(Addr(a), c);
                    Ok(())
                }
                Err(want) => Err(want),
            },
            Err(want) => Err(want),
        }
    }

    /// Makes a change of a record, if the terms allow it. At a Stop no record is changed.
    fn edit(&mut self, a: u32, c: Change) -> Result<(), Stop>
        requires { AsksEdit (piece_state self.old) a c }
        ensures { EditAnswer (piece_state self.old) (piece_state self.new) a c result }
    {
        if !self.may(a, &c) {
            return Err(self.fail(Stop::NeedHeap));
        }
        match self.change(a, c) {
            Ok(()) => Ok(()),
            Err(_) => Err(self.fail(Stop::OutOfMemory)),
        }
    }
}

impl<S: Drop> View<S> for PieceView {
    ghost use Rattle.stm_pieces.specs.PieceOf.{piece_state};
    ghost use Rattle.stm_pieces.specs.PieceSense.{piece_sense, piece_bracket};
    ghost use Rattle.stm_pieces.specs.inner.PieceLaws.{piece_lawful, piece_bracketed};

    ghost sense = { piece_sense piece_state S };

    ghost bracket = { piece_bracket piece_state S };

    ghost lawful = { piece_lawful piece_state S };

    ghost bracketed = { piece_bracketed piece_state S };

    fn open_step(&mut self) {
        self.records.open();
        self.edits.open();
        self.stopped = None;
    }

    fn undo_step(&mut self) {
        self.records.undo();
        self.edits.undo();
        self.stopped = None;
    }

    fn stopped(&self) -> Option<Stop> {
        self.stopped
    }

    #[tactic(auto, unfolding(py_data::specs::Heap::at))]
    fn kind(&mut self, a: Addr) -> Result<Kind, Stop> {
        match self.records.look(a.0) {
            Some(r) => Ok(r.kind()),
            None => Err(self.fail(Stop::NeedHeap)),
        }
    }

    #[tactic(auto, unfolding(py_data::specs::Heap::at))]
    fn len(&mut self, a: Addr) -> Result<usize, Stop> {
        match self.records.look(a.0) {
            Some(r) => Ok(r.values().len()),
            None => Err(self.fail(Stop::NeedHeap)),
        }
    }

    #[tactic(auto, unfolding(py_data::specs::Heap::at))]
    fn val(&mut self, a: Addr, i: usize) -> Result<Value, Stop> {
        match self.records.look(a.0) {
            Some(r) => Ok(r.values()[i]),
            None => Err(self.fail(Stop::NeedHeap)),
        }
    }

    #[tactic(auto, unfolding(py_data::specs::Heap::at))]
    fn find_val(&mut self, a: Addr, i: usize) -> Result<Value, Stop> {
        match self.records.look(a.0) {
            Some(r) => Ok(value_or_unset(r.values(), i)),
            None => Err(self.fail(Stop::NeedHeap)),
        }
    }

    #[tactic(auto, unfolding(py_data::specs::Heap::at))]
    fn head(&mut self, a: Addr) -> Result<Head, Stop> {
        match self.records.look(a.0) {
            Some(r) => Ok(r.head()),
            None => Err(self.fail(Stop::NeedHeap)),
        }
    }

    #[tactic(auto, unfolding(py_data::specs::Heap::at))]
    fn byte_len(&mut self, a: Addr) -> Result<usize, Stop> {
        match self.records.look(a.0) {
            Some(r) => Ok(r.bytes().len()),
            None => Err(self.fail(Stop::NeedHeap)),
        }
    }

    #[tactic(auto, unfolding(py_data::specs::Heap::at))]
    fn copy_bytes(&mut self, a: Addr, from: usize, out: &mut [u8]) -> Result<(), Stop> {
        match self.records.look(a.0) {
            Some(r) => {
                let bytes = r.bytes();
                out.copy_from_slice(&bytes[from..from + out.len()]);
                Ok(())
            }
            None => Err(self.fail(Stop::NeedHeap)),
        }
    }

    #[tactic(auto, unfolding(py_data::specs::Sense::Asks, py_data::specs::Heap::at))]
    fn find_key(&mut self, d: Addr, key: Value) -> Result<Option<usize>, Stop> {
        match self.records.look(d.0) {
            Some(r) => {
                if knows(self, r.values(), key) {
                    Ok(find_pair(self, r.values(), key))
                } else {
                    Err(self.fail(Stop::NeedHeap))
                }
            }
            None => Err(self.fail(Stop::NeedHeap)),
        }
    }

    fn set_val(&mut self, a: Addr, i: usize, v: Value) -> Result<(), Stop> {
        self.edit(a.0, Change::Set(i, v))
    }

    fn push_val(&mut self, a: Addr, v: Value) -> Result<(), Stop> {
        self.edit(a.0, Change::Push(v))
    }

    fn truncate(&mut self, a: Addr, n: usize) -> Result<(), Stop> {
        self.edit(a.0, Change::Cut(n))
    }

    fn push_pair(&mut self, d: Addr, key: Value, v: Value) -> Result<(), Stop> {
        self.edit(d.0, Change::Pair(key, v))
    }

    fn drop_pair(&mut self, d: Addr, place: usize) -> Result<(), Stop> {
        self.edit(d.0, Change::Unpair(place))
    }

    fn make(&mut self, r: &Record) -> Result<Addr, Stop> {
        Err(self.fail(Stop::NeedHeap))
    }

    fn start_thread(&mut self, s: S) -> Result<(), Stop> {
        Err(self.fail(Stop::NeedHeap))
    }

    fn put(&mut self, on: Out, bytes: &[u8]) -> Result<(), Stop> {
        Err(self.fail(Stop::NeedSolo))
    }

    fn take_line(&mut self, most: usize) -> Result<Vec<u8>, Stop> {
        Err(self.fail(Stop::NeedSolo))
    }

    fn mid_line(&self) -> bool {
        false
    }

    fn set_mid_line(&mut self, mid: bool) {}
}

impl Records for PieceView {
    ghost use Rattle.stm_pieces.specs.PieceOf.{piece_state};

    ghost records = { λ v. (piece_state v).heap };

    fn record(&self, a: u32) -> Option<&Entry> {
        self.records.look(a)
    }
}
