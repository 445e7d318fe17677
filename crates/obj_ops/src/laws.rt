//! What operators answer, that they keep a heap in order and that they are steady, as laws: a call of such a function
//! does nothing, and gives its caller's proof the facts of its clauses.
ghost use Rattle.obj_ops.specs.Laws.{DivisionLaw, JoinLaw, JoinTextsLaw};
ghost use Rattle.obj_ops.specs.HoldsLaws.{OpsHold, OpsSteady};

use py_data::{Demands, View};

/// The answers of `//` and `%` make the dividend up again, and the remainder is on the divisor's side of 0.
pub fn division_law()
    ensures { DivisionLaw }
{}

/// `+` of two lists or tuples makes a record of the items of both, and of two strings one of the bytes of both, which
/// is as long as both.
pub fn join_law<S, V: View<S>>()
    ensures items { JoinLaw V.sense }
    ensures texts { JoinTextsLaw V.sense }
{}

/// Over each heap in order, and with items of it, each operator may be begun, answers an item or an exception, and
/// leaves a heap in order.
pub fn holds_law<S, D: Demands<S>>()
    ensures { OpsHold D.rules D.stands }
{}

/// In the course of an operator no record is longer than before it or at its end.
pub fn steady_law<S>()
    ensures { OpsSteady S }
{}
