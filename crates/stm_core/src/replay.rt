//! Changes of records that a segment makes again, one after another, by the calls of its store.
ghost use Rattle.std.specs.Prelude.{◌≡◌, ◌<◌, ◌≤◌, true, IfErr, OnOk, OnErr};
ghost use Rattle.py_data.specs.Changes.{after};
ghost use Rattle.seg_store.specs.declared.store.StoreFault.TheVariants.{OutOfMemory};
ghost use Rattle.seg_store.specs.Meaning.{sees, holds};
ghost use Rattle.seg_store.specs.Calls.{after_change};
ghost use Rattle.seg_store.specs.Store.{CanChange, IsFull};
ghost use Rattle.stm_core.specs.inner.Replayed.{replayed, CanReplay, OnlyChanges};

use py_data::{Addr, Change, NoMemory};
use seg_store::{SegStore, StoreFault};
use std::alloc::AllocError;

/// Makes a change of a record that the segment holds and that has room for it. So the heap can't be full.
fn make_change<S: SegStore>(store: &mut S, k: u8, a: Addr, change: Change) -> Result<(), StoreFault>
    requires segment { k < (S.meaning store.old).segments }
    requires held { holds ((S.meaning store.old).part k) a.0 ≡ true }
    requires can { CanChange (sees (S.meaning store.old) k) a.0 change }
    requires roomy { IsFull (sees (S.meaning store.old) k) a.0 change → ⊥ }
    ensures ok { OnOk result (S.meaning store.new ≡ after_change k a.0 (after change) (S.meaning store.old)) }
    ensures err { OnErr result (S.meaning store.new ≡ S.meaning store.old) }
    ensures cause { IfErr result (λ e. e ≡ OutOfMemory) }
    ensures reserved { S.reserved store.old ≤ S.reserved store.new }
    ensures peaks { S.peaks store.new ≡ S.peaks store.old }
{
    match change {
        Change::Set(i, v) => store.set_val(k, a, i, v),
        Change::Push(v) => store.push_val(k, a, v),
        Change::Cut(n) => store.truncate(k, a, n),
        Change::Pair(key, v) => store.push_pair(k, a, key, v),
        Change::Unpair(n) => store.drop_pair(k, a, n),
    }
}

/// Makes these changes of records that the segment holds, one after another. At want of memory only the records that it
/// holds may be others.
pub fn replay<S: SegStore>(store: &mut S, k: u8, edits: &[(Addr, Change)]) -> Result<(), NoMemory>
    requires segment { k < (S.meaning store.old).segments }
    requires may { CanReplay k edits.now (S.meaning store.old) }
    ensures ok { OnOk result (S.meaning store.new ≡ replayed k edits.now (S.meaning store.old)) }
    ensures err { OnErr result (OnlyChanges k (S.meaning store.old) (S.meaning store.new)) }
    ensures reserved { S.reserved store.old ≤ S.reserved store.new }
    ensures peaks { S.peaks store.new ≡ S.peaks store.old }
{
    for edit in edits {
        match make_change(store, k, edit.0, edit.1) {
            Ok(()) => (),
            Err(StoreFault::OutOfMemory) => return Err(AllocError),
            Err(StoreFault::Full { .. }) => unreachable!(),
        }
    }
    Ok(())
}
