//! What the operations on dictionaries do to the keys and values, as laws: a call of such a function does nothing, and
//! gives its caller's proof the facts of its clauses.
ghost use Rattle.obj_dict.specs.HoldsLaws.{DictHolds, DictSteady};
ghost use Rattle.obj_dict.specs.Laws.{HashLaw, GetLaw, SetLaw, NewLaw, FullLaw, DelLaw, LackLaw};
ghost use Rattle.obj_dict.specs.PairLaws.{PairLaw};

use py_data::{Demands, View};

/// A key that is set again keeps its place and stays as it was; a new one comes last; a pair that goes leaves the
/// others in their order.
pub fn pair_law()
    ensures { PairLaw }
{}

/// What `get`, `set` and `del` answer and leave, by the place of the key in the dictionary.
pub fn dict_law<S, V: View<S>>()
    ensures unhashable { HashLaw V.sense }
    ensures get { GetLaw V.sense }
    ensures set { SetLaw V.sense }
    ensures set_new { NewLaw V.sense }
    ensures set_full { FullLaw V.sense }
    ensures del { DelLaw V.sense }
    ensures del_missing { LackLaw V.sense }
{}

/// Over each heap in order, and with items of it, each operation may be begun, answers an item or an exception, and
/// leaves a heap in order; and in its course no record is longer than before it or at its end.
pub fn holds_law<S, D: Demands<S>>()
    ensures holds { DictHolds D.rules D.stands }
    ensures steady { DictSteady S }
{}
