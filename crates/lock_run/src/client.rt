//! A client: what the threads of a machine do, over any view.
ghost use Rattle.std.specs.Prelude.{◌≡◌, ◌↔◌, IsTrue, true, false, List, IfOk, IfErr, OnErr};
ghost use Rattle.py_data.specs.Heap.{Heap};
ghost use Rattle.py_data.specs.Row.{Ret};
ghost use Rattle.py_data.specs.Steady.{AsksToPrint};
ghost use Rattle.lock_run.specs.Client.{Standing, StandsIn, Stepped, StepStopped, StaysSound, IsSafe, TellsLife, WaitsQuietly, Waiting, Going};
ghost use Rattle.lock_run.specs.Prog.{Prog};
ghost use Rattle.lock_run.specs.declared.client.Life.TheVariants.{Lives};
ghost use Rattle.lock_run.specs.declared.client.Outcome.TheVariants.{Done};

use py_data::{NoMemory, Peek, Stop, View};
use std::alloc::Global;

/// How a step ended.
#[derive(Clone, Copy, Debug, Drop, PartialEq, Eq)]
pub enum Outcome {
    /// It was done.
    Done,
    /// The thread must wait. Nothing was done.
    Waits,
    /// It was done, and was the thread's last.
    Ended,
}

/// Whether a thread lives, and how it ended.
#[derive(Clone, Copy, Debug, Drop, PartialEq, Eq)]
pub enum Life {
    Lives,
    Ended,
    /// It ended by an exception.
    Failed,
}

/// What the threads of a machine do, step by step, over any view.
///
/// Contracts see a client as a program: the row of each state's next step, which states live, and the first state. Its
/// threads share one heap, and which lists of states may stand over which heaps is the client's own to say: that is
/// what it needs to run, and each step keeps it. That the first state alone may stand over no records is for those to
/// show who make a machine (`IsSoundFirst`): of some values of a client's type, as of a program that isn't right, it
/// doesn't hold.
pub trait Client {
    type State: Drop;

    /// What its threads do.
    ghost prog: { Self → Prog Self.State };

    /// Which states may stand over a heap.
    ghost sound: { Self → Heap → List Self.State → Type 0 };

    /// The state of the first thread.
    fn first(&self, alloc: Global) -> Result<Self::State, NoMemory>
        ensures { IfOk result (λ s. s ≡ (prog self.now).first) };

    /// One step of a thread that lives. At a Stop the state is as before, and the view's step was taken back. Over a
    /// view of a part of a heap the state stands over some heap with the part's records, and what the step does holds
    /// for each such heap.
    fn step<V: View<Self::State>>(
        &self,
        alloc: Global,
        s: &mut Self::State,
        v: &mut V,
    ) -> Result<Outcome, Stop>
        requires stands { StandsIn (sound self.now) V.sense.partial (V.sense.heap v.old) s.old }
        requires lives { (prog self.now).life s.old ≡ Lives }
        ensures ok { IfOk result (λ o. Stepped V.sense V.bracket ((prog self.now).row s.old) v.old o s.new v.new) }
        ensures err { IfErr result (λ e. StepStopped V.sense V.bracket ((prog self.now).row s.old) v.old e v.new) }
        ensures state { OnErr result (s.new ≡ s.old) };

    /// One step of a thread that lives, if its row asks nothing and the thread lives on: whether it was done. It takes
    /// no view, so it costs less than `step`, and may leave any step to that: what wasn't done left the state as it
    /// was.
    fn step_pure(&self, s: &mut Self::State) -> bool
        requires lives { (prog self.now).life s.old ≡ Lives }
        ensures done { result ≡ true → (prog self.now).row s.old ≡ Ret (Done, s.new) }
        ensures not { result ≡ false → s.new ≡ s.old };

    /// The thread's next step over that heap would wait. It takes no memory.
    fn blocked<P: Peek>(&self, s: &Self::State, heap: &P) -> bool
        requires stands { Standing (sound self.now (P.image heap.now)) s.now }
        requires lives { (prog self.now).life s.now ≡ Lives }
        ensures yes { result ≡ true → Waiting ((prog self.now).row s.now) (P.image heap.now) }
        ensures not { result ≡ false → Going ((prog self.now).row s.now) (P.image heap.now) };

    /// Whether a thread of this state lives.
    fn life(&self, s: &Self::State) -> Life
        ensures { result ≡ (prog self.now).life s.now };

    /// An equal state in memory of its own.
    fn copy(&self, alloc: Global, s: &Self::State) -> Result<Self::State, NoMemory>
        ensures { IfOk result (λ t. t ≡ s.now) };

    /// Two states are equal.
    fn same(&self, a: &Self::State, b: &Self::State) -> bool
        ensures { IsTrue result ↔ (a.now ≡ b.now) };

    /// A step leaves states that may stand over the heap that it leaves.
    ghost sound_step: { (c : Self) → StaysSound (prog c) (sound c) };

    /// The next step of a thread that lives has what its calls need.
    ghost sound_safe: { (c : Self) → IsSafe (prog c) (sound c) };

    /// After a step that was done the thread lives, and after its last step it doesn't.
    ghost outcomes: { (c : Self) → TellsLife (prog c) };

    /// A step that waits leaves all as it was.
    ghost waits_quietly: { (c : Self) → WaitsQuietly (prog c) };

    /// A step that asks whether the output is in mid line goes on to write.
    ghost asks_to_print: { (c : Self) (s : Self.State) → AsksToPrint ((prog c).row s) };
}
