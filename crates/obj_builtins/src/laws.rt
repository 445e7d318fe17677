//! What the builtin functions do, as laws: a call of such a function does nothing, and gives its caller's proof the
//! facts of its clauses.
ghost use Rattle.obj_builtins.specs.HoldsLaws.{FunctionsHold, FunctionsSteady};
ghost use Rattle.obj_builtins.specs.Laws.{BestLaw, InstanceLaw, IntLaw, RangesLaw, SumLaw};

use py_data::{Demands, View};

/// `range` makes a list of the numbers of its arithmetic, and `xrange` a Range of its three numbers.
pub fn ranges_law<S, V: View<S>>()
    ensures { RangesLaw V.sense }
{}

/// `int` of the text of a number is that number, also with blanks round it.
pub fn int_law<S>()
    ensures { IntLaw S }
{}

/// Of numbers `min` is the first of the least, and `max` the first of the greatest.
pub fn best_law<S, D: Demands<S>>()
    ensures { BestLaw S D.rules }
{}

/// Of numbers `sum` is their sum, where 64 bits hold it and each sum so far.
pub fn sum_law<S>()
    ensures { SumLaw S }
{}

/// An instance is one of its class, of those that its class is below, and of `object`, of which every value is one.
pub fn instance_law<S, D: Demands<S>>()
    ensures { InstanceLaw S D.rules }
{}

/// Over each heap in order, with its list of roots and with items of it as arguments, each function may be begun,
/// answers an item or an exception, and leaves a heap in order; and in its course no record is longer than before it or
/// at its end.
pub fn holds_law<S, D: Demands<S>>()
    ensures holds { FunctionsHold D.rules D.stands }
    ensures steady { FunctionsSteady S }
{}
