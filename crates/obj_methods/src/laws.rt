//! What methods of lists and sorting answer and leave, and that all keep a heap in order, as laws: a call of such a
//! function does nothing, and gives its caller's proof the facts of its clauses.
ghost use Rattle.obj_methods.specs.HoldsLaws.{MethodsHold, MethodsSteady};
ghost use Rattle.obj_methods.specs.KeyLaws.{GetLaw, HasLaw, HashLaw, PopGivenLaw, PopLackLaw, PopLaw};
ghost use Rattle.obj_methods.specs.Laws.{AppendFullLaw, AppendLaw, RemoveLackLaw, RemoveLaw, SearchLaw, SortLaw, SortRefusedLaw, SortedLaw};

use py_data::{Demands, View};

/// Numbers, or strings, are put in order: the answer has the same values, none comes before one that stands before it,
/// and those that tie stand as they stood. Any others raise TypeError.
pub fn sorted_law<S, D: Demands<S>>()
    ensures { SortedLaw S D.rules }
{}

/// `index` answers the least place whose item is equal. ValueError where none is.
pub fn search_law<S, D: Demands<S>>()
    ensures { SearchLaw S D.rules }
{}

/// A value that is appended comes last. MemoryError where the list has as many items as a list may have.
pub fn append_law<S, V: View<S>>()
    ensures last { AppendLaw V.sense }
    ensures full { AppendFullLaw V.sense }
{}

/// `remove` takes out the first item that is equal, and leaves the others in their order. ValueError where none is; all
/// records are then as they were.
pub fn remove_law<S, D: Demands<S>, V: View<S>>()
    ensures gone { RemoveLaw V.sense D.rules }
    ensures missing { RemoveLackLaw V.sense D.rules }
{}

/// `sort` leaves the items in order, as `sorted` has them. TypeError where they are neither all numbers nor all
/// strings; all records are then as they were.
pub fn sort_law<S, D: Demands<S>, V: View<S>>()
    ensures ordered { SortLaw V.sense D.rules }
    ensures refused { SortRefusedLaw V.sense D.rules }
{}

/// What `get`, `has_key` and `pop` of a dictionary answer and leave, by the place of the key: its value, or else what
/// is given; KeyError with the key where `pop` is given nothing; TypeError for what can't be a key.
pub fn key_law<S, V: View<S>>()
    ensures get { GetLaw V.sense }
    ensures has_key { HasLaw V.sense }
    ensures pop { PopLaw V.sense }
    ensures pop_given { PopGivenLaw V.sense }
    ensures pop_missing { PopLackLaw V.sense }
    ensures unhashable { HashLaw V.sense }
{}

/// Over each heap in order, of a list or a dictionary and with items of it as arguments, each method may be begun,
/// answers an item or an exception, and leaves a heap in order; sorting answers as many items. In their course no
/// record is longer than before it or at its end, and sorting makes nothing shorter.
pub fn holds_law<S, D: Demands<S>>()
    ensures holds { MethodsHold D.rules D.stands }
    ensures steady { MethodsSteady S }
{}
