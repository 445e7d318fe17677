//! The markers of all segments, and the locks.
ghost use Rattle.std.specs.Prelude.{◌≡◌, ℕ, ◌<◌, ◌≤◌, ◌⊎◌, Some, None, IfOk};
ghost use Rattle.seg_marks.specs.Marks.{marks_of, version_of, next_version, mark_byte, holders_of, segments, granules, HasSizes, SameSizes, new_marks};
ghost use Rattle.seg_marks.specs.Runs.{Begin, Mark, Lock, Unlock, nothing_marked, nobody, marked_by, held_by};

use crate::row::MarkerRow;
use py_data::NoMemory;
use std::alloc::Global;
use std::marker::Model;

/// For each segment the granules that it marked since it last began, and for each granule the segment that holds it.
///
/// Contracts see two functions, `marks_of` and `holders_of`, and two sizes (`specs/Marks.antt`). Only `new` takes
/// memory: a byte for each granule, and one for each granule and segment.
#[derive(Drop)]
pub struct Marks {
    rows: Vec<MarkerRow>,
    locks: Vec<u8>,
}

impl Model for Marks {
    ghost use Rattle.seg_marks.specs.Marks.{Marked, AreMarks};

    ghost Value = { Marked };

    ghost view = { λ m. record { rows = m.rows.items; locks = m.locks.items } };

    ghost invariant = { λ m. AreMarks (record { rows = m.rows.items; locks = m.locks.items }) };
}

impl Marks {
    /// Nothing is marked, and every granule is free.
    pub fn new(alloc: Global, segments: u8, granules: u32) -> Result<Marks, NoMemory>
        requires { (1 ≤ segments) × (segments ≤ 8) }
        ensures bytes { IfOk result (λ m. m ≡ new_marks segments granules) }
        ensures marks { IfOk result (λ m. marks_of m ≡ nothing_marked) }
        ensures holders { IfOk result (λ m. holders_of m ≡ nobody) }
        ensures sizes { IfOk result (λ m. HasSizes segments granules m) }
    {
        let mut rows = Vec::with_capacity(alloc, segments as usize)?;
        'segments: for _i in 0..segments {
            rows.push(MarkerRow::new(alloc, granules)?)?;
        }
        let mut locks = Vec::new(alloc);
        locks.resize(granules as usize, 0)?;
        Ok(Marks { rows, locks })
    }

    /// How many segments there are.
    pub fn segments(&self) -> u8
        ensures { result ≡ segments self.now }
    {
        self.rows.len() as u8
    }

    /// How many granules there are.
    pub fn granules(&self) -> u32
        ensures { result ≡ granules self.now }
    {
        self.locks.len() as u32
    }

    /// A segment has marked nothing any more.
    pub fn begin(&mut self, k: u8)
        requires { k < segments self.old }
        ensures marks { marks_of self.new ≡ marked_by (Begin k) (marks_of self.old) }
        ensures holders { holders_of self.new ≡ held_by (Begin k) (holders_of self.old) }
        ensures version { version_of self.new k ≡ next_version (version_of self.old k) }
        ensures cleared { version_of self.old k ≡ 255 → (g : ℕ) → mark_byte self.new k g ≡ 0 }
        ensures sizes { SameSizes self.old self.new }
    {
        self.rows[k as usize].begin();
    }

    /// A segment marks a granule.
    pub fn mark(&mut self, k: u8, g: u32)
        requires segment { k < segments self.old }
        requires granule { g < granules self.old }
        ensures marks { marks_of self.new ≡ marked_by (Mark k g) (marks_of self.old) }
        ensures holders { holders_of self.new ≡ held_by (Mark k g) (holders_of self.old) }
        ensures sizes { SameSizes self.old self.new }
    {
        self.rows[k as usize].mark(g);
    }

    /// Whether a segment marked a granule since it last began. It marked none behind the last.
    pub fn marked(&self, k: u8, g: u32) -> bool
        requires { k < segments self.now }
        ensures { result ≡ marks_of self.now k g }
    {
        self.rows[k as usize].marked(g)
    }

    /// A segment locks a granule that is free or its own.
    pub fn lock(&mut self, k: u8, g: u32)
        requires segment { k < segments self.old }
        requires granule { g < granules self.old }
        requires free { (holders_of self.old g ≡ None) ⊎ (holders_of self.old g ≡ Some k) }
        ensures marks { marks_of self.new ≡ marked_by (Lock k g) (marks_of self.old) }
        ensures holders { holders_of self.new ≡ held_by (Lock k g) (holders_of self.old) }
        ensures sizes { SameSizes self.old self.new }
    {
        let locks = &mut self.locks;
        locks[g as usize] = k + 1;
    }

    /// A granule becomes free.
    pub fn unlock(&mut self, g: u32)
        requires { g < granules self.old }
        ensures marks { marks_of self.new ≡ marked_by (Unlock g) (marks_of self.old) }
        ensures holders { holders_of self.new ≡ held_by (Unlock g) (holders_of self.old) }
        ensures sizes { SameSizes self.old self.new }
    {
        self.locks[g as usize] = 0;
    }

    /// The segment that holds a granule. None holds one behind the last.
    #[tactic(auto, unfolding(crate::specs::Marks::holders_at))]
    pub fn holder(&self, g: u32) -> Option<u8>
        ensures { result ≡ holders_of self.now g }
    {
        match self.locks.get(g as usize) {
            Some(b) => { if *b > 0 { Some(*b - 1) } else { None } }
            None => None,
        }
    }
}
