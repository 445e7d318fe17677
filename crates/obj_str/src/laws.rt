//! What the functions on bytes mean, and that methods keep a heap in order, as laws: a call of such a function does
//! nothing, and gives its caller's proof the facts of its clauses.
ghost use Rattle.obj_str.specs.HoldsLaws.{StrHolds, StrSteady};
ghost use Rattle.obj_str.specs.Laws.{EndsLaw, FindLaw, LettersLaw, ReplaceLaw, SplitLaw, StripLaw, WordsLaw};

use py_data::Demands;

/// `find` answers the least place where the part stands, and none where it stands nowhere.
pub fn find_law()
    ensures { FindLaw }
{}

/// What a text begins and ends with.
pub fn ends_law()
    ensures { EndsLaw }
{}

/// The pieces of `split` are joined to the text again, and the separator stands in none of them.
pub fn split_law()
    ensures { SplitLaw }
{}

/// `split` without a separator gives words, which are not empty and have no blanks, and loses no byte but the blanks.
pub fn words_law()
    ensures { WordsLaw }
{}

/// `replace` leaves no old part where the two parts share no byte and neither is empty; to replace a part by itself
/// changes nothing.
pub fn replace_law()
    ensures { ReplaceLaw }
{}

/// `strip` takes nothing but blanks from the two ends, and leaves none there.
pub fn strip_law()
    ensures { StripLaw }
{}

/// `upper` and `lower` undo one another as far as letters go.
pub fn letters_law()
    ensures { LettersLaw }
{}

/// Over each heap in order, of a string and with items of it as arguments, each method may be begun, answers an item or
/// an exception, and leaves a heap in order; and in its course no record is longer than before it or at its end.
pub fn holds_law<S, D: Demands<S>>()
    ensures holds { StrHolds D.rules D.stands }
    ensures steady { StrSteady S }
{}
