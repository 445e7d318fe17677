//! Who holds a store's records, and which of its addresses have records of the image.
ghost use Rattle.std.specs.Prelude.{◌≡◌, ℕ, ◌<◌, true, false, length, get_or};
ghost use Rattle.py_data.specs.Collection.{places};
ghost use Rattle.py_data.specs.Sight.{mem};
ghost use Rattle.seg_marks.specs.Marks.{granules};
ghost use Rattle.paged_store.specs.inner.Ending.{among, Released, Shown};

use py_data::Addr;
use seg_marks::Marks;

/// Nobody holds the records at the addresses any more.
pub fn release(marks: &mut Marks, names: &[Addr])
    requires { (a : ℕ) → mem a (places names.now) ≡ true → a < granules marks.old }
    ensures { Released (among (places names.now)) marks.old marks.new }
{
    'names: for a in names {
        marks.unlock(a.0);
    }
}

/// The records at the addresses are of the image.
pub fn show(present: &mut Vec<bool>, names: &[Addr])
    requires { (a : ℕ) → mem a (places names.now) ≡ true → a < length present.old.items }
    ensures { Shown (among (places names.now)) present.old.items present.new.items }
{
    'names: for a in names {
        present[a.0 as usize] = true;
    }
}

/// Whether the record at an address is of the image.
pub fn is_shown(present: &Vec<bool>, a: u32) -> bool
    ensures { result ≡ get_or present.now.items a false }
{
    let a = a as usize;
    a < present.len() && present[a]
}
