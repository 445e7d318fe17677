//! What the operations on classes, attributes and exceptions do, as laws: a call of such a function does nothing, and
//! gives its caller's proof the facts of its clauses.
ghost use Rattle.obj_class.specs.HoldsLaws.{ClassHolds, ClassSteady};
ghost use Rattle.obj_class.specs.Laws.{AttributeLaw, BelowLaw, ExceptionsLaw, OwnLaw, RootsStay, TellingLaw};

use py_data::{Demands, View};

/// A class is below itself and below what its bases are below; the test finds just this, where the way along bases
/// ends.
pub fn below_law()
    ensures { BelowLaw }
{}

/// An instance's own attribute comes before its class's, and the nearest class that has one before its bases.
pub fn attribute_law()
    ensures { AttributeLaw }
{}

/// To set or delete an attribute is an operation on the dictionary of the instance or the class itself.
pub fn own_law<S, V: View<S>>()
    ensures { OwnLaw V.sense }
{}

/// Within others values are written as `repr` writes them, and by themselves as `str` does, but for exceptions: what an
/// operation has raised is written as it was told.
pub fn telling_law()
    ensures { TellingLaw }
{}

/// A list of roots stays one; and of its classes all but `object` are exception classes.
pub fn roots_law()
    ensures stay { RootsStay }
    ensures exceptions { ExceptionsLaw }
{}

/// Over each heap in order, with its list of roots and with items of it, each operation may be begun, answers what it
/// should, and leaves a heap in order; and in its course no record is longer than before it or at its end.
pub fn holds_law<S, D: Demands<S>>()
    ensures holds { ClassHolds D.rules D.stands }
    ensures steady { ClassSteady S }
{}
