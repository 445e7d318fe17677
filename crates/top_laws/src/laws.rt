//! Laws of what the top call answers, as contracts: a call of such a function does nothing, and gives its caller's
//! proof the facts of its clauses. Their premise is what `run_words` ensures.
ghost use Rattle.py_frames.specs.Laws.{prog_of};
ghost use Rattle.front_end.specs.TextCode.{HasCode, IsRefused};
ghost use Rattle.top_laws.specs.Laws.{IdleLaw, RanLaw, NoOptionsLaw, OptionsLaw, RefusedLaw, TooLongLaw, ProgramLaw, LeadsLaw, StandsLaw, DoneLaw, StuckLaw, ReadyLaw, SameLaw, HeapLaw, LeftLaw, FinishedLaw, CompleteLaw};

use front_end::text_law;

/// What a status may be by the report's store, by the words and by the script. Without a store it is 2, 3, 4, 5, 11 or
/// 12, and with one 0, 1, or 5 to 11. Words without options give 2 or 11, and 2 comes of no others. A script that is
/// refused gives 3, with that refusal, or 11, and one that is too long 12 or 11, but for a failure of the loader or of
/// the source. One that has a program gives 11 where nothing ran, but for such a failure.
pub fn answered_law()
    ensures idle { IdleLaw HasCode IsRefused prog_of }
    ensures ran { RanLaw HasCode IsRefused prog_of }
    ensures no_options { NoOptionsLaw HasCode IsRefused prog_of }
    ensures options { OptionsLaw HasCode IsRefused prog_of }
    ensures refused { RefusedLaw HasCode IsRefused prog_of }
    ensures too_long { TooLongLaw HasCode IsRefused prog_of }
    ensures program { ProgramLaw HasCode IsRefused prog_of }
{
    text_law();
}

/// The history leads to some machine, where threads ran and loader and source tell their bytes; how that machine stands
/// at each status; and so what the status may be, by that machine. Where all threads have ended it is 1, if the first
/// one failed, and else 0; where threads live and each one waits, 9; where a thread can go on and the turns have the
/// budget's steps, 10. While a thread lives it may also be 8 or 11, or 5, 6 or 7 with a failure of that device. So two
/// calls whose histories lead to one machine have the same status, if it is 0, 1, 9 or 10 in both.
pub fn stands_law()
    ensures leads { LeadsLaw HasCode IsRefused prog_of }
    ensures stands { StandsLaw HasCode IsRefused prog_of }
    ensures done { DoneLaw HasCode IsRefused prog_of }
    ensures stuck { StuckLaw HasCode IsRefused prog_of }
    ensures ready { ReadyLaw HasCode IsRefused prog_of }
    ensures same { SameLaw HasCode IsRefused prog_of }
{
    text_law();
}

/// What a call leaves where threads ran: the heap of that machine; and at 0, 1, 9 and 10 the input that the machine
/// left, and what it wrote, with the text behind that on the error output.
pub fn left_law()
    ensures heap { HeapLaw HasCode IsRefused prog_of }
    ensures left { LeftLaw HasCode IsRefused prog_of }
{
    text_law();
}

/// A run is finished where nothing stands in its way. Where the words give options, the script is told, isn't too long
/// and has a program, no device failed, not each living thread waits, and the history has fewer steps than the budget,
/// the status is 0 or 1 and all threads have ended; or it is 11; or 8, while a thread lives, and then the heap was
/// nearly full. Where besides the heap has room for all that the history asked for, it is 0 or 1, or 11.
pub fn finished_law()
    ensures finished { FinishedLaw HasCode IsRefused prog_of }
    ensures complete { CompleteLaw HasCode IsRefused prog_of }
{
    text_law();
}
