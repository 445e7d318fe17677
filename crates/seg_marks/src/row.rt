//! The markers of one segment.
ghost use Rattle.std.specs.Prelude.{◌≡◌, ℕ, ◌<◌, length, get_or, set, replicate, IfOk};
ghost use Rattle.py_data.specs.Sight.{no_marks, with_mark};
ghost use Rattle.seg_marks.specs.Marks.{row_marks, next_version, CoversFrom, KnowsSeen};

use py_data::NoMemory;
use std::alloc::Global;
use std::marker::Model;

/// For so many granules there is room for the number of one that was marked.
const GRANULES_A_NUMBER: u32 = 64;

/// Makes all bytes 0.
fn clear_all(bytes: &mut Vec<u8>)
    ensures zeros { (g : ℕ) → get_or bytes.new.items g 0 ≡ 0 }
    ensures length { length bytes.new.items ≡ length bytes.old.items }
{
    'granules: for g in 0..bytes.len() {
        bytes[g] = 0;
    }
}

/// Makes the bytes of these granules 0, where no other's is another.
fn clear_seen(bytes: &mut Vec<u8>, seen: &Vec<u32>)
    requires { CoversFrom 0 seen.now.items bytes.old.items }
    ensures zeros { (g : ℕ) → get_or bytes.new.items g 0 ≡ 0 }
    ensures length { length bytes.new.items ≡ length bytes.old.items }
{
    'numbers: for i in 0..seen.len() {
        let g = seen[i] as usize;
        if g < bytes.len() {
            bytes[g] = 0;
        }
    }
}

/// Makes all bytes 0: those of the noted granules, where all were noted.
fn clear(bytes: &mut Vec<u8>, seen: &Vec<u32>, is_full: bool)
    requires { KnowsSeen is_full seen.now.items bytes.old.items }
    ensures zeros { (g : ℕ) → get_or bytes.new.items g 0 ≡ 0 }
    ensures length { length bytes.new.items ≡ length bytes.old.items }
{
    if is_full {
        clear_all(bytes);
    } else {
        clear_seen(bytes, seen);
    }
}

/// Notes a granule whose byte is 0. Answers whether for some granule there was no room.
fn note(bytes: &Vec<u8>, seen: &mut Vec<u32>, is_full: bool, room: usize, g: u32) -> bool
    requires within { g < length bytes.now.items }
    requires knows { KnowsSeen is_full seen.old.items bytes.now.items }
    ensures { (version : ℕ) → KnowsSeen result seen.new.items (set bytes.now.items g version) }
{
    if bytes[g as usize] != 0 {
        is_full
    } else {
        is_full || seen.len() >= room || seen.push(g).is_err()
    }
}

/// A version from 1 to 255, and for each granule the version at which it was marked, or 0. Only marks of the version
/// count. So a new version takes all marks away, and the bytes are cleared once in 255 versions: those alone that were
/// marked since, unless there was no room for the numbers of so many.
#[derive(Drop)]
pub struct MarkerRow {
    version: u8,
    bytes: Vec<u8>,
    seen: Vec<u32>,
    room: usize,
    is_full: bool,
}

impl Model for MarkerRow {
    ghost use Rattle.seg_marks.specs.Marks.{Row, IsRow, KnowsSeen};

    ghost Value = { Row };

    ghost view = { λ r. record { version = r.version; bytes = r.bytes.items } };

    ghost invariant = { λ r. IsRow (record { version = r.version; bytes = r.bytes.items }) × KnowsSeen r.is_full r.seen.items r.bytes.items };
}

impl MarkerRow {
    /// No mark, at version 255.
    pub fn new(alloc: Global, granules: u32) -> Result<MarkerRow, NoMemory>
        ensures { IfOk result (λ r. r ≡ record { version = 255; bytes = replicate granules 0 }) }
    {
        let mut bytes = Vec::new(alloc);
        bytes.resize(granules as usize, 0)?;
        let room = (granules / GRANULES_A_NUMBER) as usize;
        Ok(MarkerRow {
            version: 255,
            bytes,
            seen: Vec::with_capacity(alloc, room)?,
            room,
            is_full: false,
        })
    }

    /// Takes all marks away.
    pub fn begin(&mut self)
        ensures marks { row_marks self.new ≡ no_marks }
        ensures version { self.new.version ≡ next_version self.old.version }
        ensures cleared { self.old.version ≡ 255 → (g : ℕ) → get_or self.new.bytes g 0 ≡ 0 }
        ensures length { length self.new.bytes ≡ length self.old.bytes }
    {
        if self.version == 255 {
            clear(&mut self.bytes, &self.seen, self.is_full);
            self.seen.clear();
            self.is_full = false;
            self.version = 1;
        } else {
            self.version += 1;
        }
    }

    /// Marks a granule.
    pub fn mark(&mut self, g: u32)
        requires { g < length self.old.bytes }
        ensures marks { row_marks self.new ≡ with_mark g (row_marks self.old) }
        ensures length { length self.new.bytes ≡ length self.old.bytes }
    {
        self.is_full = note(&self.bytes, &mut self.seen, self.is_full, self.room, g);
        self.bytes[g as usize] = self.version;
    }

    /// Whether a granule is marked.
    #[tactic(auto, unfolding(crate::specs::Marks::row_marks))]
    pub fn marked(&self, g: u32) -> bool
        ensures { result ≡ row_marks self.now g }
    {
        match self.bytes.get(g as usize) {
            Some(version) => *version == self.version,
            None => false,
        }
    }
}
