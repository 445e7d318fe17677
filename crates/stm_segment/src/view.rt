//! The calls of a segment's view: over the heap that its transaction shares with others, and over the devices where
//! it is solo.
use crate::halt::Halt;
use crate::segment::SegView;
use py_data::{Addr, Change, Head, Kind, Out, Record, Stop, Value, View};
use seg_store::SegStore;
use stm_io::{PutError, Sink, Source, TakeError};

impl<'a, T: Drop, S: SegStore, I: Source, O: Sink, E: Sink> View<T> for SegView<'a, T, S, I, O, E> {
    ghost use Rattle.std.specs.Prelude.{◌≡◌};
    ghost use Rattle.stm_segment.specs.Devices.{device_state};
    ghost use Rattle.stm_segment.specs.inner.Hold.{holding};
    ghost use Rattle.stm_segment.specs.inner.SegSense.{told_sense, told_bracket};
    ghost use Rattle.stm_segment.specs.inner.SegLaws.{told_lawful, told_bracketed};

    ghost sense = { told_sense (λ v. holding (S.meaning v.store.now) (S.reserved v.store.now) v.books.now
        v.progress.now v.last)
        (λ v. device_state I.state O.state E.state v.devices.now) (λ v. v.segment) (λ v. v.side)
        (λ v w. (w.store.ghost_name ≡ v.store.ghost_name) × (w.books.ghost_name ≡ v.books.ghost_name)
        × (w.progress.ghost_name ≡ v.progress.ghost_name) × (w.devices.ghost_name ≡ v.devices.ghost_name))
        (λ v. S.peaks v.store.now) };

    ghost bracket = { told_bracket
        (λ v. holding (S.meaning v.store.now) (S.reserved v.store.now) v.books.now v.progress.now v.last)
        (λ v. device_state I.state O.state E.state v.devices.now) (λ v. v.segment) (λ v. v.side)
        (λ v w. (w.store.ghost_name ≡ v.store.ghost_name) × (w.books.ghost_name ≡ v.books.ghost_name)
        × (w.progress.ghost_name ≡ v.progress.ghost_name) × (w.devices.ghost_name ≡ v.devices.ghost_name))
        (λ v. S.peaks v.store.now) };

    ghost lawful = { told_lawful (λ v. holding (S.meaning v.store.now) (S.reserved v.store.now) v.books.now
        v.progress.now v.last)
        (λ v. device_state I.state O.state E.state v.devices.now) (λ v. v.segment) (λ v. v.side)
        (λ v w. (w.store.ghost_name ≡ v.store.ghost_name) × (w.books.ghost_name ≡ v.books.ghost_name)
        × (w.progress.ghost_name ≡ v.progress.ghost_name) × (w.devices.ghost_name ≡ v.devices.ghost_name))
        (λ v. S.peaks v.store.now) };

    ghost bracketed = { told_bracketed
        (λ v. holding (S.meaning v.store.now) (S.reserved v.store.now) v.books.now v.progress.now v.last)
        (λ v. device_state I.state O.state E.state v.devices.now) (λ v. v.segment) (λ v. v.side)
        (λ v w. (w.store.ghost_name ≡ v.store.ghost_name) × (w.books.ghost_name ≡ v.books.ghost_name)
        × (w.progress.ghost_name ≡ v.progress.ghost_name) × (w.devices.ghost_name ≡ v.devices.ghost_name))
        (λ v. S.peaks v.store.now) };

    fn open_step(&mut self) {
        self.store.open_step(self.segment);
        self.progress.open();
        self.devices.was_mid = self.devices.mid;
        self.last.stopped = None;
    }

    fn undo_step(&mut self) {
        self.store.undo_step(self.segment);
        self.books.pending -= self.progress.undo();
        self.devices.mid = self.devices.was_mid;
        self.last.stopped = None;
    }

    fn stopped(&self) -> Option<Stop> {
        self.last.stopped
    }

    #[tactic(auto, unfolding(py_data::specs::Sense::Asks, py_data::specs::Heap::at))]
    fn set_val(&mut self, a: Addr, i: usize, v: Value) -> Result<(), Stop> {
        self.change(a, Change::Set(i, v))
    }

    #[tactic(auto, unfolding(py_data::specs::Sense::Asks, py_data::specs::Heap::at))]
    fn push_val(&mut self, a: Addr, v: Value) -> Result<(), Stop> {
        self.change(a, Change::Push(v))
    }

    #[tactic(auto, unfolding(py_data::specs::Sense::Asks, py_data::specs::Heap::at))]
    fn truncate(&mut self, a: Addr, n: usize) -> Result<(), Stop> {
        self.change(a, Change::Cut(n))
    }

    #[tactic(auto, unfolding(py_data::specs::Sense::Asks, py_data::specs::Heap::at))]
    fn push_pair(&mut self, d: Addr, key: Value, v: Value) -> Result<(), Stop> {
        self.change(d, Change::Pair(key, v))
    }

    #[tactic(auto, unfolding(py_data::specs::Sense::Asks, py_data::specs::Heap::at))]
    fn drop_pair(&mut self, d: Addr, place: usize) -> Result<(), Stop> {
        self.change(d, Change::Unpair(place))
    }

    #[tactic(auto, unfolding(py_data::specs::Sense::Asks))]
    fn kind(&mut self, a: Addr) -> Result<Kind, Stop> {
        let kind = self.kind_of(a);
        let seen = self.is_seen_as(a, kind);
        match self.see(a, seen) {
            Ok(()) => Ok(kind),
            Err(stop) => Err(stop),
        }
    }

    #[tactic(auto, unfolding(py_data::specs::Sense::Asks))]
    fn len(&mut self, a: Addr) -> Result<usize, Stop> {
        let count = self.count_of(a);
        let seen = self.is_seen_as(a, self.kind_of(a));
        match self.see(a, seen) {
            Ok(()) => Ok(count),
            Err(stop) => Err(stop),
        }
    }

    #[tactic(auto, unfolding(py_data::specs::Sense::Asks))]
    fn val(&mut self, a: Addr, i: usize) -> Result<Value, Stop> {
        let value = self.value_of(a, i);
        let seen = self.is_seen(a);
        match self.see(a, seen) {
            Ok(()) => Ok(value),
            Err(stop) => Err(stop),
        }
    }

    #[tactic(auto, unfolding(py_data::specs::Sense::Asks))]
    fn find_val(&mut self, a: Addr, i: usize) -> Result<Value, Stop> {
        let (kind, value) = self.value_if_any(a, i);
        let seen = self.is_seen_as(a, kind);
        match self.see(a, seen) {
            Ok(()) => Ok(value),
            Err(stop) => Err(stop),
        }
    }

    #[tactic(auto, unfolding(py_data::specs::Sense::Asks))]
    fn head(&mut self, a: Addr) -> Result<Head, Stop> {
        let head = self.head_of(a);
        let seen = self.is_seen_as(a, head.kind);
        match self.see(a, seen) {
            Ok(()) => Ok(head),
            Err(stop) => Err(stop),
        }
    }

    #[tactic(auto, unfolding(py_data::specs::Sense::Asks))]
    fn byte_len(&mut self, a: Addr) -> Result<usize, Stop> {
        let count = self.byte_count_of(a);
        let seen = self.is_seen_as(a, self.kind_of(a));
        match self.see(a, seen) {
            Ok(()) => Ok(count),
            Err(stop) => Err(stop),
        }
    }

    #[tactic(auto, unfolding(py_data::specs::Sense::Asks))]
    fn copy_bytes(&mut self, a: Addr, from: usize, out: &mut [u8]) -> Result<(), Stop> {
        self.bytes_of(a, from, out);
        let seen = self.is_seen_as(a, self.kind_of(a));
        self.see(a, seen)
    }

    #[tactic(auto, unfolding(py_data::specs::Sense::Asks))]
    fn find_key(&mut self, d: Addr, key: Value) -> Result<Option<usize>, Stop> {
        let place = self.place_of(d, key);
        let seen = self.is_seen(d);
        match self.see(d, seen) {
            Ok(()) => Ok(place),
            Err(stop) => Err(stop),
        }
    }

    fn put(&mut self, on: Out, bytes: &[u8]) -> Result<(), Stop> {
        if !self.side.solo {
            return Err(self.fail(Halt::NeedSolo));
        }
        match on {
            Out::Output => match self.devices.out.put(bytes) {
                Ok(()) => Ok(()),
                Err(PutError::Failed) => Err(self.fail(Halt::WriteFault)),
                Err(PutError::OutOfMemory) => Err(self.fail(Halt::OutOfMemory)),
            },
            Out::ErrorOutput => match self.devices.err.put(bytes) {
                Ok(()) => Ok(()),
                Err(PutError::Failed) => Err(self.fail(Halt::ErrFault)),
                Err(PutError::OutOfMemory) => Err(self.fail(Halt::OutOfMemory)),
            },
        }
    }

    fn take_line(&mut self, most: usize) -> Result<Vec<u8>, Stop> {
        if !self.side.solo {
            return Err(self.fail(Halt::NeedSolo));
        }
        match self.devices.input.take_line(most) {
            Ok(line) => Ok(line),
            Err(TakeError::Failed) => Err(self.fail(Halt::ReadFault)),
            Err(TakeError::OutOfMemory) => Err(self.fail(Halt::OutOfMemory)),
        }
    }

    fn mid_line(&self) -> bool {
        self.devices.mid
    }

    fn set_mid_line(&mut self, mid: bool) {
        self.devices.mid = mid;
    }

    #[tactic(auto, unfolding(py_data::specs::Sense::Asks, py_data::specs::Heap::at))]
    fn make(&mut self, r: &Record) -> Result<Addr, Stop> {
        match self.name_made(r) {
            Ok(n) => {
                self.store.known();
                Ok(n)
            }
            Err(fault) => {
                self.store.known();
                Err(self.refuse(fault))
            }
        }
    }

    fn start_thread(&mut self, s: T) -> Result<(), Stop> {
        match self.books.start(self.progress, s) {
            Ok(()) => Ok(()),
            Err(_) => Err(self.fail(Halt::OutOfMemory)),
        }
    }
}
