//! A store of maps and a store of pages to which the same is done.
use crate::extents::Words;
use crate::handle::TestHandle;
use crate::in_use::{used, wanted_more, wanted_new};
use crate::numbers::Numbers;
use crate::places::{
    Look, Place, is_fresh, looks_at, looks_without, moved, moved_record, same_shown, seen_from,
};
use py_data::{Addr, Kind, Record, Value};
use seg_store::{SegStore, StoreFault};
use std::alloc::Global;
use std::process::Abort;
use std::test::Fail;
use store_bench::Bench;

/// Both stores, the places of the records that some segment sees, and the looks of each segment; and how many words
/// must be reserved.
#[derive(Drop)]
pub struct Both<M: SegStore, P: SegStore> {
    alloc: Global,
    maps: Bench<M>,
    pages: Bench<P>,
    places: Vec<Place>,
    looks: Vec<Look>,
    words: Words,
    full: bool,
}

impl<M: SegStore, P: SegStore> Both<M, P> {
    pub fn new(alloc: Global, maps: Bench<M>, pages: Bench<P>) -> Both<M, P> {
        let words = Words::new(pages.limit());
        Both {
            alloc,
            maps,
            pages,
            places: Vec::new(alloc),
            looks: Vec::new(alloc),
            words,
            full: false,
        }
    }

    /// A call met a full heap.
    pub fn was_full(&self) -> bool {
        self.full
    }

    /// As many words are reserved as must be.
    fn same_words(&self, rt: &TestHandle<impl Abort>) {
        assert_eq!(&rt.0; self.pages.reserved(), self.words.reserved());
    }

    /// A call of the store of pages was refused: the heap is full, as its words tell.
    fn refused(&mut self, rt: &TestHandle<impl Abort>, e: StoreFault, need: Option<u64>) {
        let StoreFault::Full {
            reserved,
            need: words,
            limit,
        } = e
        else {
            panic!(&rt.0; "{e}");
        };
        assert!(&rt.0; need == Some(words));
        assert_eq!(&rt.0; reserved, self.words.reserved());
        assert_eq!(&rt.0; limit, self.words.limit());
        self.same_words(rt);
        self.full = true;
    }

    /// The extents that a new record wants are taken. Where one can't be had it answers its words.
    fn claim_new(&mut self, rt: &TestHandle<impl Abort>, r: &Record) -> Option<u64> {
        let counts = used(rt, &self.maps, &self.places);
        self.words.claim(&counts, wanted_new(r))
    }

    /// Makes a record, if it has its kind's shape.
    pub fn make(&mut self, rt: &TestHandle<impl Abort>, k: u8, r: &Record) -> Result<(), Fail> {
        if !self.maps.is_shaped(rt, k, r) {
            return Ok(());
        }
        let other = moved_record(rt, self.alloc, &self.places, r)?;
        let need = self.claim_new(rt, r);
        match self.pages.try_make(rt, k, &other)? {
            Ok(b) => {
                assert!(&rt.0; need.is_none());
                assert!(&rt.0; is_fresh(&self.places, b));
                let a = self.maps.make(rt, k, r)?;
                self.places.push((a, b))?;
            }
            Err(e) => self.refused(rt, e, need),
        }
        self.same_words(rt);
        Ok(())
    }

    /// The extents that a record wants to have room for more are taken. Where one can't be had it answers its words.
    fn claim_more(
        &mut self,
        rt: &TestHandle<impl Abort>,
        k: u8,
        a: Addr,
        more: usize,
    ) -> Option<u64> {
        let wanted = wanted_more(rt, &self.maps, k, a, more)?;
        let counts = used(rt, &self.maps, &self.places);
        self.words.claim(&counts, wanted)
    }

    /// Pushes a value; false where the heap is full.
    pub fn push(&mut self, rt: &TestHandle<impl Abort>, k: u8, place: Place, v: Value) -> bool {
        let (a, b) = place;
        let need = self.claim_more(rt, k, a, 1);
        let w = moved(rt, &self.places, v);
        match self.pages.try_push(rt, k, b, w) {
            Ok(()) => {
                assert!(&rt.0; need.is_none());
                self.maps.push(rt, k, a, v);
                self.same_words(rt);
                true
            }
            Err(e) => {
                self.refused(rt, e, need);
                false
            }
        }
    }

    /// The place of a key, which is the same in both.
    fn find(&self, rt: &TestHandle<impl Abort>, k: u8, place: Place, key: Value) -> Option<usize> {
        let (a, b) = place;
        let found = self.maps.find_key(rt, k, a, key);
        let other_key = moved(rt, &self.places, key);
        let other = self.pages.find_key(rt, k, b, other_key);
        assert!(&rt.0; found == other);
        found
    }

    /// Looks for a key, if it can be looked for. True where it can and isn't there.
    pub fn is_new_key(&self, rt: &TestHandle<impl Abort>, k: u8, place: Place, key: Value) -> bool {
        if !self.maps.can_find(rt, k, place.0, key) {
            return false;
        }
        self.find(rt, k, place, key).is_none()
    }

    /// Adds a pair, whose key isn't there; false where the heap is full.
    pub fn pair(
        &mut self,
        rt: &TestHandle<impl Abort>,
        k: u8,
        place: Place,
        key: Value,
        v: Value,
    ) -> bool {
        let (a, b) = place;
        let need = self.claim_more(rt, k, a, 2);
        let x = moved(rt, &self.places, key);
        let w = moved(rt, &self.places, v);
        match self.pages.try_pair(rt, k, b, x, w) {
            Ok(()) => {
                assert!(&rt.0; need.is_none());
                self.maps.pair(rt, k, a, key, v);
                self.same_words(rt);
                true
            }
            Err(e) => {
                self.refused(rt, e, need);
                false
            }
        }
    }

    /// Drops a pair of a number below `numbers`' next, if there is one.
    pub fn unpair(
        &mut self,
        rt: &TestHandle<impl Abort>,
        numbers: &mut Numbers,
        k: u8,
        place: Place,
    ) {
        let (a, b) = place;
        let pairs = self.maps.count(rt, k, a) / 2;
        if pairs == 0 {
            return;
        }
        let i = numbers.below(pairs);
        self.maps.unpair(rt, k, a, i);
        self.pages.unpair(rt, k, b, i);
    }

    /// Sets a value at a place that `numbers` tell, if there is one.
    pub fn set(
        &mut self,
        rt: &TestHandle<impl Abort>,
        numbers: &mut Numbers,
        k: u8,
        place: Place,
        v: Value,
    ) {
        let (a, b) = place;
        let n = self.maps.count(rt, k, a);
        if n == 0 {
            return;
        }
        let mut i = numbers.below(n);
        if self.maps.kind(rt, k, a) == Kind::Dict {
            i = i / 2 * 2 + 1;
        }
        let w = moved(rt, &self.places, v);
        self.maps.set(rt, k, a, i, v);
        self.pages.set(rt, k, b, i, w);
    }

    /// Leaves so many values as `numbers` tell.
    pub fn cut(&mut self, rt: &TestHandle<impl Abort>, numbers: &mut Numbers, k: u8, place: Place) {
        let (a, b) = place;
        let n = numbers.below(self.maps.count(rt, k, a) + 3);
        self.maps.cut(rt, k, a, n);
        self.pages.cut(rt, k, b, n);
    }

    pub fn mark(&mut self, rt: &TestHandle<impl Abort>, k: u8, place: Place) -> Result<(), Fail> {
        let (a, b) = place;
        self.maps.mark(rt, k, a);
        self.pages.mark(rt, k, b);
        self.looks.push((k, place))?;
        Ok(())
    }

    /// Locks a record, if no other segment holds it. False where one does.
    pub fn lock(&mut self, rt: &TestHandle<impl Abort>, k: u8, place: Place) -> Result<bool, Fail> {
        let (a, b) = place;
        if let Some(j) = self.maps.holder(a) {
            if j != k {
                return Ok(false);
            }
        }
        self.maps.lock(rt, k, a);
        self.pages.lock(rt, k, b);
        self.looks.push((k, place))?;
        Ok(true)
    }

    pub fn open_step(&mut self, rt: &TestHandle<impl Abort>, k: u8) {
        self.maps.open_step(rt, k);
        self.pages.open_step(rt, k);
    }

    pub fn undo_step(&mut self, rt: &TestHandle<impl Abort>, k: u8) {
        self.maps.undo_step(rt, k);
        self.pages.undo_step(rt, k);
    }

    pub fn publish(&mut self, rt: &TestHandle<impl Abort>, k: u8) -> Result<(), Fail> {
        self.maps.publish(rt, self.alloc, k)?;
        self.pages.publish(rt, self.alloc, k)?;
        Ok(())
    }

    pub fn drop_changes(&mut self, rt: &TestHandle<impl Abort>, k: u8) {
        self.maps.drop_changes(rt, k);
        self.pages.drop_changes(rt, k);
    }

    /// Drops what a segment has in hand, and begins a transaction on it.
    pub fn begin(&mut self, rt: &TestHandle<impl Abort>, k: u8) -> Result<(), Fail> {
        self.maps.begin(rt, k);
        self.pages.begin(rt, k);
        self.looks = looks_without(self.alloc, &self.looks, k)?;
        Ok(())
    }

    /// Both show the same of a record to a segment.
    fn same_record(&self, rt: &TestHandle<impl Abort>, k: u8, place: Place) -> Result<(), Fail> {
        let (a, b) = place;
        let there = self.maps.there(k, a);
        assert!(&rt.0; there == self.pages.there(k, b));
        if !there {
            return Ok(());
        }
        assert!(&rt.0; self.maps.rooms(rt, k, a) == self.pages.rooms(rt, k, b));
        let one = self.maps.shown(rt, self.alloc, k, a, 0)?;
        let other = self.pages.shown(rt, self.alloc, k, b, 1)?;
        same_shown(rt, self.alloc, &self.places, &one, &other)
    }

    /// Both have the same of a record in the image.
    fn same_image(&self, rt: &TestHandle<impl Abort>, place: Place) -> Result<(), Fail> {
        let (a, b) = place;
        let there = self.maps.in_image(a);
        assert!(&rt.0; there == self.pages.in_image(b));
        if !there {
            return Ok(());
        }
        let one = self.maps.peek(rt, self.alloc, a)?;
        let other = self.pages.peek(rt, self.alloc, b)?;
        same_shown(rt, self.alloc, &self.places, &one, &other)
    }

    /// Both show the same of a record to each segment, and have the same of it in the image.
    fn same_everywhere(&self, rt: &TestHandle<impl Abort>, place: Place) -> Result<(), Fail> {
        'segments: for k in 0..self.maps.segments() {
            self.same_record(rt, k, place)?;
        }
        self.same_image(rt, place)
    }

    /// Both stores have the same records.
    pub fn same_records(&self, rt: &TestHandle<impl Abort>) -> Result<(), Fail> {
        'places: for place in &self.places {
            self.same_everywhere(rt, *place)?;
        }
        Ok(())
    }

    /// Both have the same locked records of a segment, in one order.
    fn same_locks(&self, rt: &TestHandle<impl Abort>, k: u8) {
        let n = self.maps.changed_len(rt, k);
        assert_eq!(&rt.0; n, self.pages.changed_len(rt, k));
        'locks: for i in 0..n {
            let a = self.maps.changed_at(rt, k, i);
            let b = self.pages.changed_at(rt, k, i);
            assert!(&rt.0; moved(rt, &self.places, Value::Ref(a)) == Value::Ref(b));
        }
    }

    /// Both have the looks of a segment at a record that they must have, and the same segment holds it.
    fn same_look(&self, rt: &TestHandle<impl Abort>, k: u8, place: Place) {
        let (x, y) = looks_at(&self.looks, k, place);
        assert!(&rt.0; x == self.maps.has_looked(rt, k, place.0));
        assert!(&rt.0; y == self.pages.has_looked(rt, k, place.1));
        assert!(&rt.0; self.maps.holder(place.0) == self.pages.holder(place.1));
    }

    /// Locks, looks and holders of a segment are as they must be.
    fn same_hand(&self, rt: &TestHandle<impl Abort>, k: u8) {
        self.same_locks(rt, k);
        'places: for place in &self.places {
            self.same_look(rt, k, *place);
        }
    }

    /// Locks, holders, looks and words are as they must be.
    pub fn same_books(&self, rt: &TestHandle<impl Abort>) {
        self.same_words(rt);
        'segments: for k in 0..self.maps.segments() {
            self.same_hand(rt, k);
        }
    }

    /// Some segment sees the record; each store shows it to the same ones.
    fn is_seen(&self, rt: &TestHandle<impl Abort>, place: Place) -> bool {
        let (a, b) = place;
        let mut seen = false;
        'segments: for k in 0..self.maps.segments() {
            let there = self.maps.there(k, a);
            assert!(&rt.0; there == self.pages.there(k, b));
            seen = seen || there;
        }
        seen
    }

    /// Forgets the places of records that are gone.
    pub fn sweep(&mut self, rt: &TestHandle<impl Abort>) -> Result<(), Fail> {
        let mut left = Vec::new(self.alloc);
        'places: for i in 0..self.places.len() {
            let place = self.places[i];
            if self.is_seen(rt, place) {
                left.push(place)?;
            }
        }
        self.places = left;
        Ok(())
    }

    /// A record of the kind, or of any kind, that the segment sees: the first from a place on that `numbers` tell.
    pub fn some(
        &self,
        rt: &TestHandle<impl Abort>,
        numbers: &mut Numbers,
        k: u8,
        kind: Option<Kind>,
    ) -> Option<Place> {
        let n = self.places.len();
        if n == 0 {
            return None;
        }
        let from = numbers.below(n);
        seen_from(rt, &self.maps, &self.places, from, k, kind)
    }

    /// The address of a record of a kind, or None.
    pub fn ref_to(
        &self,
        rt: &TestHandle<impl Abort>,
        numbers: &mut Numbers,
        k: u8,
        kind: Option<Kind>,
    ) -> Value {
        match self.some(rt, numbers, k, kind) {
            Some((a, _)) => Value::Ref(a),
            None => Value::None,
        }
    }
}
