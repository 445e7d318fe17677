//! Laws of the transactional core, as contracts: a call of such a function does nothing, and gives its caller's proof
//! the facts of its clauses.
ghost use Rattle.std.specs.Prelude.{◌≡◌, ◌<◌, ◌≤◌, ℕ, List, Result, true, false};
ghost use Rattle.py_data.specs.Heap.{Heap};
ghost use Rattle.py_data.specs.World.{World};
ghost use Rattle.py_data.specs.Sight.{mem};
ghost use Rattle.lock_run.specs.Prog.{Prog};
ghost use Rattle.lock_run.specs.Machine.{Machine};
ghost use Rattle.seg_store.specs.Meaning.{overlay};
ghost use Rattle.stm_segment.specs.CoreState.{Transaction, CoreState, Running, committed, world_after, threads_after, core_new};
ghost use Rattle.stm_core.specs.Good.{Stands, Apart, Good};
ghost use Rattle.stm_core.specs.Moves.{Advances, Move, Follows};
ghost use Rattle.stm_core.specs.Outside.{Outer, Kept, OuterLed};
ghost use Rattle.stm_core.specs.Passes.{NoneWins, after_commit};
ghost use Rattle.stm_core.specs.declared.answers.Advance.{Advance};
ghost use Rattle.stm_core.specs.declared.answers.AdvanceError.{AdvanceError};
ghost use Rattle.stm_core.specs.declared.events.Event.{Event};
ghost use Rattle.stm_core.specs.declared.events.Reply.{Reply};
ghost use Rattle.stm_core.specs.Events.{Limits, EventsMade};
ghost use Rattle.stm_core.specs.History.{AllLeave, IsGrown};
ghost use Rattle.stm_core.specs.Advanced.{Advanced, Led, EndsSo, OnlyOwn};

/// A core is good when it is made, and each list of moves keeps it good.
pub fn good_law<S>()
    ensures new { (p : Prog S) (w : World) (most : ℕ) → Good p (committed (core_new p w)) most (core_new p w) }
    ensures moves { (p : Prog S) (start : Machine S) (most : ℕ) (k k1 : CoreState S) (ms : List (Move S))
        → Good p start most k → Follows p most k ms k1 → Good p start most k1 }
{}

/// A transaction that makes a step still stands, and a commit leaves each other transaction standing that has not
/// looked at what it changed.
pub fn stands_law<S>()
    ensures advance { (p : Prog S) (h : Heap) (ts : List S) (w : World) (x x1 : Transaction S) → Stands p h ts w x
        → Advances p h w x x1 → Stands p h ts w x1 }
    ensures commit { (p : Prog S) (h : Heap) (ts : List S) (w : World) (x y : Transaction S) → Stands p h ts w x
        → Stands p h ts w y → Apart x y
        → ((a : ℕ) → mem a x.changed ≡ true → y.looked a ≡ false)
        → Stands p (overlay h x.changes) (threads_after ts x) (world_after w x) y }
{}

/// A commit in two passes is a list of moves, where the first pass meets no reader that wins.
pub fn commit_law<S>()
    ensures { (p : Prog S) (most i : ℕ) (x : Transaction S) (js : List ℕ) (k : CoreState S) → k.segments i ≡ Running x
        → 1 ≤ x.steps → NoneWins i x k
        → ((j : ℕ) (y : Transaction S) → k.segments j ≡ Running y → mem j js ≡ true) → (ms : List (Move S))
        × Follows p most k ms (after_commit i x js k) }
{}

/// A call of `advance` is moves by which segment k goes on, over any core, and then an end, up to the commit of a
/// solo transaction whose next step was cut. Over a core that keeps what it is to keep, the whole call is a list of
/// moves of the core with what its devices were told. Moves of segment k leave the committed state, the history and
/// the count of transactions as they were, and of the other segments doom some by conflicts that stood.
pub fn advance_law<S>()
    ensures moves { (p : Prog S) (length k n most reserved limit : ℕ) (o o1 : Outer S)
        (r : Result Advance AdvanceError) → Advanced p length k n most reserved limit o r o1 → (u : CoreState S)
        × Led p length k o.core u × EndsSo k u o1.core }
    ensures led { (p : Prog S) (first : Machine S) (length k n most reserved limit : ℕ) (o o1 : Outer S)
        (r : Result Advance AdvanceError) → Kept p first length o
        → ((j : ℕ) (y : Transaction S) → o.core.segments j ≡ Running y → j < n)
        → Advanced p length k n most reserved limit o r o1 → OuterLed p length o o1 }
    ensures own { (p : Prog S) (length k : ℕ) (c c1 : CoreState S) → Led p length k c c1 → OnlyOwn p length k c c1 }
{}

/// Of every list of events, over any core: image, committed states and history change by commits alone, each of which
/// adds a turn, be it that of a commit or of an advance that fails with a solo transaction; each new conflict stood
/// in a state that its event came through, before more steps were done than were asked for; and an event of one
/// segment leaves what another has in hand, or dooms it by a new conflict.
pub fn events_law<S>()
    ensures each { (p : Prog S) (l : Limits) (es : List Event) (rs : List Reply) (o o1 : Outer S)
        → EventsMade p l es rs o o1 → AllLeave p l es rs o.core o1.core }
    ensures all { (p : Prog S) (l : Limits) (es : List Event) (rs : List Reply) (c c1 : CoreState S)
        → AllLeave p l es rs c c1 → IsGrown rs c c1 }
{}
