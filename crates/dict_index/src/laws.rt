//! Laws of an index, as contracts: a call of such a function does nothing, and gives its caller's proof the facts of
//! its clauses.
ghost use Rattle.dict_index.specs.Laws.{RightLaw, FrameLaw, BlankLaw, EnterLaw, LeaveLaw, PairLaw, DropLaw, KeptLaw};

/// An index is right in one way, and stays right where words and homes stay.
pub fn index_law()
    ensures right { RightLaw }
    ensures frame { FrameLaw }
{}

/// A blank index has no pair; a pair more, and a pair less.
pub fn pair_laws()
    ensures blank { BlankLaw }
    ensures enter { EnterLaw }
    ensures leave { LeaveLaw }
{}

/// Keys that differ, when a pair comes, when one goes, and in a heap that keeps fixed records.
pub fn key_law()
    ensures pair { PairLaw }
    ensures drop { DropLaw }
    ensures kept { KeptLaw }
{}
