//! What the operations on nested values answer, as laws: a call of such a function does nothing, and gives its
//! caller's proof the facts of its clauses.
ghost use Rattle.obj_nest.specs.Laws.{EqualLaw, IsNumber, IsString, NestCalm, NestLooks, TotalLaw};

use py_data::Demands;

/// Over each heap in order equality, order, truth and texts of its items may be asked for, only look, and are what
/// their definitions say.
pub fn looks_law<S, D: Demands<S>>()
    ensures { NestLooks S D.rules }
{}

/// None of them makes a record shorter, so they may stand anywhere in the course of a step that makes one longer.
pub fn calm_law<S>()
    ensures { NestCalm S }
{}

/// Equality of the items of a heap in order is an equivalence.
pub fn equal_law<S, D: Demands<S>>()
    ensures { EqualLaw D.rules }
{}

/// Order is total on numbers and on strings.
pub fn order_law()
    ensures numbers { TotalLaw IsNumber }
    ensures strings { TotalLaw IsString }
{}
