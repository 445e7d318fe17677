//! Laws of the core with what its devices were told, as contracts: a call of such a function does nothing, and gives
//! its caller's proof the facts of its clauses.
ghost use Rattle.std.specs.Prelude.{◌≡◌, ◌<◌, ◌≤◌, ℕ, Bool, List, Result, cond, map, false, true};
ghost use Rattle.py_data.specs.Sight.{mem};
ghost use Rattle.py_data.specs.World.{World};
ghost use Rattle.py_data.specs.declared.stop.Conflict.{Conflict};
ghost use Rattle.lock_run.specs.Machine.{Machine};
ghost use Rattle.lock_run.specs.Prog.{Prog};
ghost use Rattle.stm_core.specs.Advance.{Gone, Tried};
ghost use Rattle.stm_core.specs.Advanced.{Led};
ghost use Rattle.stm_segment.specs.Conflict.{IsStanding, loser, side};
ghost use Rattle.stm_segment.specs.CoreState.{CoreState, Running, Transaction, committed, core_new};
ghost use Rattle.stm_core.specs.Good.{Good};
ghost use Rattle.stm_segment.specs.inner.Hold.{LosesTo};
ghost use Rattle.stm_core.specs.Moves.{Follows, Move};
ghost use Rattle.stm_core.specs.Outside.{Inner, Kept, Outer, OuterFollows, OuterLed, OuterMove, outer_new, told_through};
ghost use Rattle.stm_core.specs.Passes.{NoneWins, after_commit};
ghost use Rattle.stm_core.specs.Solo.{SoloFailed, Soloed};
ghost use Rattle.stm_segment.specs.declared.cause.Cause.{Cause};
ghost use Rattle.stm_core.specs.declared.solo.SoloError.{SoloError};

/// A core is good, each of its conflicts stood, and its devices were told what its transactions did: so it is when it
/// is made, and each list of moves leaves it so. While a transaction is solo no step broke, and the devices were told
/// its world.
pub fn kept_law<S>()
    ensures new { (p : Prog S) (w : World) (most : ℕ)
        → Kept p (committed (core_new p w)) most (outer_new (core_new p w)) }
    ensures moves { (p : Prog S) (first : Machine S) (most : ℕ) (o o1 : Outer S) (ms : List (OuterMove S))
        → Kept p first most o → OuterFollows p most o ms o1 → Kept p first most o1 }
    ensures told { (p : Prog S) (first : Machine S) (most k : ℕ) (o : Outer S) (x : Transaction S)
        → Kept p first most o → o.core.segments k ≡ Running x → x.solo ≡ true → (o.broken ≡ None)
        × (o.told ≡ x.world) }
{}

/// A solo transaction wins: no reader stands against its commit, no step of it loses a conflict, and no conflict that
/// stands is lost by it. What a call of `solo` does is a list of moves, and so is what comes of a step of a solo
/// transaction that was cut.
pub fn solo_law<S>()
    ensures beats { (i : ℕ) (x : Transaction S) (c : CoreState S) → x.solo ≡ true → NoneWins i x c }
    ensures keeps { (k : ℕ) (x : Transaction S) (f : Conflict) (c : CoreState S) → LosesTo k (side k x) f c
        → x.solo ≡ false }
    ensures mortal { (p : Prog S) (first : Machine S) (most : ℕ) (c : CoreState S) (f : Conflict)
        → Good p first most c → IsStanding p c f
        → ((loser f).solo ≡ false) × ((x : Transaction S) → c.segments (loser f).segment ≡ Running x → x.solo ≡ false) }
    ensures moves { (p : Prog S) (most k : ℕ) (r : Result (Unit {0}) SoloError) (o o1 : Outer S) → Soloed k r o o1
        → OuterLed p most o o1 }
    ensures fails { (p : Prog S) (first : Machine S) (most k n : ℕ) (e : Cause) (o o1 : Outer S) (x : Transaction S)
        → Kept p first most o → o.core.segments k ≡ Running x → x.solo ≡ true
        → ((j : ℕ) (y : Transaction S) → o.core.segments j ≡ Running y → j < n) → SoloFailed p k n e o x o1
        → OuterLed p most o o1 }
{}

/// Moves of transactions are moves of the core with what its devices were told. They tell nothing where they are moves
/// of a segment whose transaction isn't solo, or a commit. By steps of one segment that were tried one after another a
/// transaction stays solo, or not so, and of a solo one the devices are told its world, if they were before.
pub fn inner_law<S>()
    ensures moves { (p : Prog S) (most : ℕ) (o : Outer S) (ms : List (Move S)) (c1 : CoreState S)
        → Follows p most o.core ms c1
        → OuterFollows p most o (map Inner ms) (record o { core = c1; told = told_through ms o.told }) }
    ensures mortal { (p : Prog S) (most k : ℕ) (o : Outer S) (c1 : CoreState S) → Led p most k o.core c1
        → ((x : Transaction S) → o.core.segments k ≡ Running x → x.solo ≡ false)
        → OuterLed p most o (record o { core = c1 }) }
    ensures tried { (p : Prog S) (most k : ℕ) (done : Bool) (n : ℕ) (o : Outer S) (c1 : CoreState S)
        (x x1 : Transaction S) → Tried p most k done n o.core c1
        → o.core.segments k ≡ Running x → (x.solo ≡ true → o.told ≡ x.world) → c1.segments k ≡ Running x1
        → (x1.solo ≡ x.solo) × OuterLed p most o (record o { core = c1; told = cond x1.solo x1.world o.told }) }
    ensures gone { (p : Prog S) (most k n more : ℕ) (o : Outer S) (c1 : CoreState S) (x x1 : Transaction S)
        → Gone p most k n more o.core c1
        → o.core.segments k ≡ Running x → (x.solo ≡ true → o.told ≡ x.world) → c1.segments k ≡ Running x1
        → (x1.solo ≡ x.solo) × OuterLed p most o (record o { core = c1; told = cond x1.solo x1.world o.told }) }
    ensures commit { (p : Prog S) (most k : ℕ) (x : Transaction S) (js : List ℕ) (o : Outer S)
        → o.core.segments k ≡ Running x → 1 ≤ x.steps → NoneWins k x o.core
        → ((j : ℕ) (y : Transaction S) → o.core.segments j ≡ Running y → mem j js ≡ true)
        → OuterLed p most o (record o { core = after_commit k x js o.core }) }
{}
