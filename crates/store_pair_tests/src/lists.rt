//! Lists of events, which follow from seeds, over a store of maps and a store of pages at once: after each event both
//! answer and show the same, and the words reserved are those of the extents that were in use at once.
ghost use Rattle.std.specs.Prelude.{◌≤◌, ◌<◌};

use crate::both::Both;
use crate::handle::TestHandle;
use crate::numbers::Numbers;
use crate::places::Place;
use paged_store::PagedStore;
use py_data::{Bytes, Kind, Record, Value, Values};
use seg_store::{PlainStore, SegStore};
use std::alloc::Global;
use std::process::Abort;
use std::test::Fail;
use store_bench::Bench;

type Tested = Result<(), Fail>;

/// A list of events as it is made: both stores, what each next event follows from, and the segment that it is of.
#[derive(Drop)]
struct Events<M: SegStore, P: SegStore> {
    alloc: Global,
    both: Both<M, P>,
    numbers: Numbers,
    k: u8,
}

impl<M: SegStore, P: SegStore> Events<M, P> {
    fn below(&mut self, n: usize) -> usize
        requires { 1 ≤ n }
        ensures { result < n }
    {
        self.numbers.below(n)
    }

    fn some(&mut self, rt: &TestHandle<impl Abort>, kind: Option<Kind>) -> Option<Place> {
        self.both.some(rt, &mut self.numbers, self.k, kind)
    }

    fn ref_to(&mut self, rt: &TestHandle<impl Abort>, kind: Option<Kind>) -> Value {
        self.both.ref_to(rt, &mut self.numbers, self.k, kind)
    }

    /// Some value that is set.
    fn value(&mut self, rt: &TestHandle<impl Abort>) -> Value {
        match self.below(12) {
            0 => Value::None,
            1 => Value::Bool(true),
            2 => Value::Bool(false),
            3 => Value::Int(i64::MIN),
            4 => Value::Int(i64::MAX),
            5 => Value::Int(-1),
            6 => Value::Builtin(self.below(256) as u8),
            7 | 8 | 9 => self.ref_to(rt, None),
            _ => Value::Int(self.below(20) as i64),
        }
    }

    /// Some value that can be a key.
    fn key(&mut self, rt: &TestHandle<impl Abort>) -> Value {
        match self.below(10) {
            0 => Value::None,
            1 => Value::Bool(true),
            2 => Value::Bool(false),
            3 => Value::Builtin(self.below(4) as u8),
            4 | 5 => self.ref_to(rt, Some(Kind::Str)),
            6 => self.ref_to(rt, Some(Kind::Class)),
            7 => Value::Int(self.below(400) as i64),
            _ => Value::Int(self.below(60) as i64 - 5),
        }
    }

    /// Some bytes.
    fn bytes(&mut self) -> Result<Bytes, Fail> {
        let n = match self.below(8) {
            0 => self.below(5_000),
            1 | 2 | 3 => self.below(24),
            _ => 3 * self.below(4),
        };
        let most = if self.below(2) == 0 { 2 } else { 256 };
        let mut bytes = Vec::new(self.alloc);
        'bytes: for _ in 0..n {
            let byte = self.below(most) as u8;
            bytes.push(byte)?;
        }
        Ok(Bytes::from_slice(self.alloc, &bytes)?)
    }

    /// Some values.
    fn values(&mut self, rt: &TestHandle<impl Abort>) -> Result<Values, Fail> {
        let n = match self.below(10) {
            0 => self.below(600),
            1 | 2 | 3 => 0,
            _ => self.below(20),
        };
        let mut values = Values::new(self.alloc);
        'values: for _ in 0..n {
            let v = self.value(rt);
            values.push(v)?;
        }
        Ok(values)
    }

    /// Makes a record of a few values.
    fn make(&mut self, rt: &TestHandle<impl Abort>, kind: Kind, values: &[Value]) -> Tested {
        let r = Record {
            kind,
            values: Values::from_slice(self.alloc, values)?,
            bytes: Bytes::new(self.alloc),
        };
        self.both.make(rt, self.k, &r)
    }

    fn make_text(&mut self, rt: &TestHandle<impl Abort>) -> Tested {
        let r = Record {
            kind: Kind::Str,
            values: Values::new(self.alloc),
            bytes: self.bytes()?,
        };
        self.both.make(rt, self.k, &r)
    }

    fn make_sequence(&mut self, rt: &TestHandle<impl Abort>) -> Tested {
        let kind = if self.below(3) == 0 {
            Kind::Tuple
        } else {
            Kind::List
        };
        let r = Record {
            kind,
            values: self.values(rt)?,
            bytes: Bytes::new(self.alloc),
        };
        self.both.make(rt, self.k, &r)
    }

    fn make_cell(&mut self, rt: &TestHandle<impl Abort>) -> Tested {
        let v = if self.below(4) == 0 {
            Value::Unset
        } else {
            self.value(rt)
        };
        self.make(rt, Kind::Cell, &[v])
    }

    fn make_function(&mut self, rt: &TestHandle<impl Abort>) -> Tested {
        let name = self.ref_to(rt, Some(Kind::Str));
        let defaults = self.ref_to(rt, Some(Kind::Tuple));
        self.make(rt, Kind::Function, &[name, Value::Int(4), defaults])
    }

    fn make_class(&mut self, rt: &TestHandle<impl Abort>) -> Tested {
        let name = self.ref_to(rt, Some(Kind::Str));
        let attributes = self.ref_to(rt, Some(Kind::Dict));
        self.make(rt, Kind::Class, &[name, Value::None, attributes])
    }

    fn make_instance(&mut self, rt: &TestHandle<impl Abort>) -> Tested {
        let class = self.ref_to(rt, Some(Kind::Class));
        let attributes = self.ref_to(rt, Some(Kind::Dict));
        self.make(rt, Kind::Instance, &[class, attributes])
    }

    fn make_method(&mut self, rt: &TestHandle<impl Abort>) -> Tested {
        let own = self.value(rt);
        self.make(rt, Kind::Method, &[Value::Builtin(3), own])
    }

    fn make_iter(&mut self, rt: &TestHandle<impl Abort>) -> Tested {
        let over = self.ref_to(rt, Some(Kind::List));
        self.make(rt, Kind::Iter, &[over, Value::Int(3), Value::Int(9)])
    }

    fn make_thread(&mut self, rt: &TestHandle<impl Abort>) -> Tested {
        let target = self.value(rt);
        let args = self.ref_to(rt, Some(Kind::Tuple));
        let number = if self.below(2) == 0 {
            Value::None
        } else {
            Value::Int(5)
        };
        self.make(
            rt,
            Kind::Thread,
            &[target, args, number, Value::Bool(false)],
        )
    }

    fn make_range(&mut self, rt: &TestHandle<impl Abort>) -> Tested {
        self.make(
            rt,
            Kind::Range,
            &[Value::Int(1), Value::Int(9), Value::Int(1)],
        )
    }

    /// Makes a record, if what it needs is there.
    fn make_some(&mut self, rt: &TestHandle<impl Abort>) -> Tested {
        match self.below(19) {
            0 | 1 => self.make_text(rt),
            2 | 3 | 4 | 5 => self.make_sequence(rt),
            6 | 7 | 8 => self.make(rt, Kind::Dict, &[]),
            9 | 10 => self.make_cell(rt),
            11 => self.make_function(rt),
            12 => self.make_class(rt),
            13 => self.make_instance(rt),
            14 => self.make_method(rt),
            15 => self.make_iter(rt),
            16 => self.make_range(rt),
            17 => self.make(rt, Kind::Lock, &[Value::Bool(true)]),
            _ => self.make_thread(rt),
        }
    }

    /// A record of a kind that the segment holds, or has locked now, if there is one.
    fn to_change(
        &mut self,
        rt: &TestHandle<impl Abort>,
        kind: Kind,
    ) -> Result<Option<Place>, Fail> {
        let Some(place) = self.some(rt, Some(kind)) else {
            return Ok(None);
        };
        let held = self.both.lock(rt, self.k, place)?;
        Ok(if held { Some(place) } else { None })
    }

    /// How often a change is made again.
    fn often(&mut self, most: usize) -> usize
        requires { 1 ≤ most }
    {
        match self.below(12) {
            0 => self.below(most),
            1 => self.below(40),
            _ => 1 + self.below(4),
        }
    }

    fn push_some(&mut self, rt: &TestHandle<impl Abort>) -> Tested {
        let Some(place) = self.to_change(rt, Kind::List)? else {
            return Ok(());
        };
        'values: for _ in 0..self.often(400) {
            let v = self.value(rt);
            if !self.both.push(rt, self.k, place, v) {
                return Ok(());
            }
        }
        Ok(())
    }

    /// Adds a pair, if its key isn't there; false where the heap is full.
    fn pair(&mut self, rt: &TestHandle<impl Abort>, place: Place) -> bool {
        let key = self.key(rt);
        let v = self.value(rt);
        if self.both.is_new_key(rt, self.k, place, key) {
            self.both.pair(rt, self.k, place, key, v)
        } else {
            true
        }
    }

    fn pair_some(&mut self, rt: &TestHandle<impl Abort>) -> Tested {
        let Some(place) = self.to_change(rt, Kind::Dict)? else {
            return Ok(());
        };
        'pairs: for _ in 0..self.often(300) {
            if !self.pair(rt, place) {
                return Ok(());
            }
        }
        Ok(())
    }

    fn unpair_some(&mut self, rt: &TestHandle<impl Abort>) -> Tested {
        let Some(place) = self.to_change(rt, Kind::Dict)? else {
            return Ok(());
        };
        'pairs: for _ in 0..self.often(10) {
            self.both.unpair(rt, &mut self.numbers, self.k, place);
        }
        Ok(())
    }

    fn set_some(&mut self, rt: &TestHandle<impl Abort>) -> Tested {
        let kind = match self.below(10) {
            0 | 1 | 2 => Kind::List,
            3 | 4 => Kind::Dict,
            5 | 6 => Kind::Cell,
            7 => Kind::Iter,
            8 => Kind::Lock,
            _ => Kind::Thread,
        };
        let Some(place) = self.to_change(rt, kind)? else {
            return Ok(());
        };
        'values: for _ in 0..self.often(10) {
            let v = if self.below(8) == 0 {
                Value::Unset
            } else {
                self.value(rt)
            };
            self.both.set(rt, &mut self.numbers, self.k, place, v);
        }
        Ok(())
    }

    fn cut_some(&mut self, rt: &TestHandle<impl Abort>) -> Tested {
        if let Some(place) = self.to_change(rt, Kind::List)? {
            self.both.cut(rt, &mut self.numbers, self.k, place);
        }
        Ok(())
    }

    fn find_some(&mut self, rt: &TestHandle<impl Abort>) -> Tested {
        if let Some(place) = self.some(rt, Some(Kind::Dict)) {
            let key = self.key(rt);
            self.both.is_new_key(rt, self.k, place, key);
        }
        Ok(())
    }

    fn lock_some(&mut self, rt: &TestHandle<impl Abort>) -> Tested {
        if let Some(place) = self.some(rt, None) {
            self.both.lock(rt, self.k, place)?;
        }
        Ok(())
    }

    fn mark_some(&mut self, rt: &TestHandle<impl Abort>) -> Tested {
        if let Some(place) = self.some(rt, None) {
            self.both.mark(rt, self.k, place)?;
        }
        Ok(())
    }

    /// The segment's transaction ends, and another may begin.
    fn end(&mut self, rt: &TestHandle<impl Abort>, how: usize) -> Tested {
        if how == 0 {
            self.both.drop_changes(rt, self.k);
        } else {
            self.both.publish(rt, self.k)?;
        }
        self.both.sweep(rt)?;
        self.both.same_records(rt)?;
        if self.below(2) == 0 {
            self.both.begin(rt, self.k)?;
        }
        Ok(())
    }

    /// The segment's step is taken back.
    fn undo(&mut self, rt: &TestHandle<impl Abort>) -> Tested {
        self.both.undo_step(rt, self.k);
        self.both.sweep(rt)?;
        self.both.same_records(rt)
    }

    fn open(&mut self, rt: &TestHandle<impl Abort>) -> Tested {
        self.both.open_step(rt, self.k);
        Ok(())
    }

    /// An event of the segment.
    fn event(&mut self, rt: &TestHandle<impl Abort>) -> Tested {
        match self.below(48) {
            0..=7 => self.make_some(rt),
            8..=10 => self.lock_some(rt),
            11 | 12 => self.mark_some(rt),
            13..=17 => self.set_some(rt),
            18..=23 => self.push_some(rt),
            24 | 25 => self.cut_some(rt),
            26..=30 => self.pair_some(rt),
            31 | 32 => self.unpair_some(rt),
            33 | 34 => self.find_some(rt),
            35..=38 => self.open(rt),
            39..=41 => self.undo(rt),
            42 | 43 => self.end(rt, 0),
            _ => self.end(rt, 1),
        }
    }
}

/// How many pages the store of a list has: in half of the lists so few that it becomes full.
fn page_count(numbers: &mut Numbers) -> u32 {
    match numbers.below(4) {
        0 | 1 => 1 + numbers.below(3) as u32,
        2 => 1 + numbers.below(12) as u32,
        _ => 64,
    }
}

/// Does so many events, each of one of the segments. Answers whether a call of them met a full heap.
fn do_events<M: SegStore, P: SegStore>(
    rt: &TestHandle<impl Abort>,
    mut events: Events<M, P>,
    segments: usize,
    n: usize,
) -> Result<bool, Fail>
    requires some { 1 ≤ segments }
    requires few { segments ≤ 8 }
{
    'events: for _ in 0..n {
        events.k = events.below(segments) as u8;
        events.event(rt)?;
        events.both.same_books(rt);
    }
    events.both.same_records(rt)?;
    Ok(events.both.was_full())
}

/// A store of maps and a store of pages, of so many segments.
fn both_stores(
    rt: &TestHandle<impl Abort>,
    alloc: Global,
    segments: u8,
    pages: u32,
) -> Result<Both<PlainStore, PagedStore>, Fail> {
    assert!(&rt.0; 1 <= segments && segments <= 8);
    assert!(&rt.0; 1 <= pages && pages <= 65_536);
    let maps = Bench::new(alloc, PlainStore::new(alloc, segments)?);
    let paged = Bench::new(alloc, PagedStore::new(alloc, segments, pages)?);
    Ok(Both::new(alloc, maps, paged))
}

/// Does the list of a seed. Answers whether a call of it met a full heap.
fn do_list(rt: &TestHandle<impl Abort>, alloc: Global, seed: u64) -> Result<bool, Fail> {
    let mut numbers = Numbers::new(seed);
    let segments = 1 + numbers.below(4);
    let pages = page_count(&mut numbers);
    let n = 40 + numbers.below(80);
    let both = both_stores(rt, alloc, segments as u8, pages)?;
    let events = Events {
        alloc,
        both,
        numbers,
        k: 0,
    };
    do_events(rt, events, segments, n)
}

/// Does the lists of 250 seeds, of which some meet a full heap and others don't.
fn run_lists(rt: &TestHandle<impl Abort>, alloc: Global, from: u64) -> Tested {
    let mut full = 0u64;
    'seeds: for seed in 0..250 {
        if do_list(rt, alloc, from.saturating_add(seed))? {
            full = full.saturating_add(1);
        }
    }
    assert!(&rt.0; 10 < full && full < 240, "{full}");
    Ok(())
}

#[test]
fn seeds_from_0(rt: HostRuntime) -> Tested {
    run_lists(&TestHandle(&rt), rt.alloc(), 0)
}

#[test]
fn seeds_from_250(rt: HostRuntime) -> Tested {
    run_lists(&TestHandle(&rt), rt.alloc(), 250)
}

#[test]
fn seeds_from_500(rt: HostRuntime) -> Tested {
    run_lists(&TestHandle(&rt), rt.alloc(), 500)
}

#[test]
fn seeds_from_750(rt: HostRuntime) -> Tested {
    run_lists(&TestHandle(&rt), rt.alloc(), 750)
}

#[test]
fn seeds_from_1000(rt: HostRuntime) -> Tested {
    run_lists(&TestHandle(&rt), rt.alloc(), 1000)
}

#[test]
fn seeds_from_1250(rt: HostRuntime) -> Tested {
    run_lists(&TestHandle(&rt), rt.alloc(), 1250)
}

#[test]
fn seeds_from_1500(rt: HostRuntime) -> Tested {
    run_lists(&TestHandle(&rt), rt.alloc(), 1500)
}

#[test]
fn seeds_from_1750(rt: HostRuntime) -> Tested {
    run_lists(&TestHandle(&rt), rt.alloc(), 1750)
}
