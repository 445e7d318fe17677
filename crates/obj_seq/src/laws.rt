//! What the operations on lists and iterators answer, leave and raise, and that they keep a heap in order, as laws: a
//! call of such a function does nothing, and gives its caller's proof the facts of its clauses.
ghost use Rattle.obj_seq.specs.HoldsLaws.{SeqHolds, SeqSteady};
ghost use Rattle.obj_seq.specs.Laws.{ItemLaw, SetLaw, PopLaw, DelLaw, InsertLaw, ReverseLaw, SliceLaw, IndexLaw, PopIndexLaw, EmptyLaw, FullLaw, NoIterLaw, SizeLaw};
ghost use Rattle.obj_seq.specs.Seq.{item_row, set_item_row, del_item_row};
ghost use Rattle.py_data.specs.declared.value.Value.{Value};

use py_data::{Demands, View};

/// `item` answers the item that an index names, and `set_item` puts another in its place.
pub fn item_law<S, V: View<S>>()
    ensures item { ItemLaw V.sense }
    ensures set { SetLaw V.sense }
{}

/// An item that is taken out leaves the others in their order, and `pop` answers it.
pub fn pop_law<S, V: View<S>>()
    ensures pop { PopLaw V.sense }
    ensures del { DelLaw V.sense }
{}

/// A value that is inserted stands between the items before its place and those from there on.
pub fn insert_law<S, V: View<S>>()
    ensures { InsertLaw V.sense }
{}

/// `reverse` leaves the items in the opposite order.
pub fn reverse_law<S, V: View<S>>()
    ensures { ReverseLaw V.sense }
{}

/// A slice is a new record of the values between its bounds.
pub fn slice_law<S, V: View<S>>()
    ensures { SliceLaw V.sense }
{}

/// What an operation on a list raises, and when: IndexError where no item has the index, or the list from which one is
/// taken out is empty; MemoryError where a value is inserted into a list at the limit of length. All records are then
/// as they were.
pub fn fault_law<S, V: View<S>>()
    ensures item { IndexLaw V.sense item_row }
    ensures set { (x : Value) → IndexLaw V.sense (λ a i. set_item_row a i x) }
    ensures del { IndexLaw V.sense del_item_row }
    ensures pop { PopIndexLaw V.sense }
    ensures pop_empty { EmptyLaw V.sense }
    ensures insert_full { FullLaw V.sense }
{}

/// What going through an object raises: TypeError where the value can't be gone through; RuntimeError where the
/// dictionary has more or fewer pairs than when the iterator was made. All records are then as they were.
pub fn iter_fault_law<S, V: View<S>>()
    ensures make_iter { NoIterLaw V.sense }
    ensures next { SizeLaw V.sense }
{}

/// Over each heap in order, and with items of it, each operation may be begun, answers an item or an exception, and
/// leaves a heap in order; and in the course of an operation no record is longer than before it or at its end.
pub fn holds_law<S, D: Demands<S>>()
    ensures holds { SeqHolds D.rules D.stands }
    ensures steady { SeqSteady S }
{}
