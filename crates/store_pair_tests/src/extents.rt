//! The extents that records have, by class, and how many words are reserved for those that were in use at once.
ghost use Rattle.std.specs.Prelude.{◌≤◌};

use py_data::Kind;

/// A count for each class.
pub type Counts = [u64; 24];

/// The least class from 1 on of which an extent holds so many words, 0 for none.
pub fn class_holding(words: usize) -> usize
    ensures { result ≤ 21 }
{
    if words == 0 {
        return 0;
    }
    'classes: for class in 1..21 {
        if words <= 1usize << class {
            return class;
        }
    }
    21
}

/// The class of a body for so many values.
pub fn body_class(values: usize) -> usize
    ensures { result ≤ 21 }
{
    class_holding(values.saturating_mul(2))
}

/// One more of a class.
fn add(counts: &mut Counts, class: usize) {
    if class > 0 && class < 24 {
        counts[class] = counts[class].saturating_add(1);
    }
}

/// The bodies of a List or Dict, and a Dict's indexes.
fn add_bodies(counts: &mut Counts, kind: Kind, room: usize, first: usize) {
    if room == 0 {
        return;
    }
    let low = body_class(first.max(1));
    let high = body_class(room);
    'classes: for class in low..high + 1 {
        add(counts, class);
        if kind == Kind::Dict {
            add(counts, class.saturating_sub(1));
        }
    }
}

/// The extents of a record: a header of class 2, and its bodies and indexes.
pub fn extents(kind: Kind, len: usize, rooms: (usize, usize)) -> Counts {
    let mut counts = [0; 24];
    add(&mut counts, 2);
    let (room, first) = rooms;
    match kind {
        Kind::Str => add(&mut counts, class_holding(len.div_ceil(8))),
        Kind::List | Kind::Dict => add_bodies(&mut counts, kind, room, first),
        _ => add(&mut counts, body_class(len)),
    }
    counts
}

/// The most extents of each class that were in use at once, and the words that are reserved for them.
#[derive(Drop)]
pub struct Words {
    peaks: Counts,
    reserved: u64,
    limit: u64,
}

impl Words {
    /// None were in use; the first two words are reserved.
    pub fn new(limit: u64) -> Words {
        Words {
            peaks: [0; 24],
            reserved: 2,
            limit,
        }
    }

    pub fn reserved(&self) -> u64 {
        self.reserved
    }

    pub fn limit(&self) -> u64 {
        self.limit
    }

    /// Takes an extent of a class, of which so many are in use. Where it can't be had it answers its words.
    fn claim_one(&mut self, used: &mut Counts, class: usize) -> Option<u64> {
        if class == 0 || class > 21 {
            return None;
        }
        if used[class] >= self.peaks[class] {
            let size = 1u64 << class;
            let end = self.reserved.saturating_add(size);
            if end > self.limit {
                return Some(size);
            }
            self.reserved = end;
            self.peaks[class] = self.peaks[class].saturating_add(1);
        }
        used[class] = used[class].saturating_add(1);
        None
    }

    /// Takes extents of classes, one after another. Where one can't be had it answers its words.
    pub fn claim(&mut self, used: &Counts, classes: (usize, usize, usize)) -> Option<u64> {
        let mut now = *used;
        let (first, second, third) = classes;
        if let Some(n) = self.claim_one(&mut now, first) {
            return Some(n);
        }
        if let Some(n) = self.claim_one(&mut now, second) {
            return Some(n);
        }
        self.claim_one(&mut now, third)
    }
}
