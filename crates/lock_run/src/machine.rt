//! The one-lock machine: a plain view and the threads that take turns over it.
ghost use Rattle.std.specs.Prelude.{◌≡◌, ◌⊎◌, ◌<◌, true, false};
ghost use Rattle.lock_run.specs.declared.client.Outcome.TheVariants.{Waits};
ghost use Rattle.lock_run.specs.declared.turn.TurnWhy.TheVariants.{Ended, Waits as TurnWaits};
ghost use Rattle.lock_run.specs.Whys.{why_of_stop};

use crate::client::{Client, Life, Outcome};
use crate::plain::PlainView;
use crate::threads::Threads;
use crate::turn::{Turn, TurnFault, TurnWhy};
use py_data::{Names, NoMemory, Stop, View};
use std::alloc::Global;
use stm_io::{Sink, Source};

/// Why a turn is cut, by the Stop of its step, and whether a name was wanting in it.
fn why_of(stop: Stop, bad: bool) -> TurnWhy
    ensures { result ≡ why_of_stop stop bad }
{
    match stop {
        Stop::ReadFault => TurnWhy::ReadFault,
        Stop::WriteFault => TurnWhy::WriteFault,
        Stop::ErrFault => TurnWhy::ErrFault,
        Stop::OutOfMemory => {
            if bad {
                TurnWhy::BadNames
            } else {
                TurnWhy::OutOfMemory
            }
        }
        _ => TurnWhy::OutOfMemory,
    }
}

/// The thread must wait.
fn is_wait(outcome: Outcome) -> bool
    ensures yes { result ≡ true → outcome ≡ Waits }
    ensures not { result ≡ false → outcome ≡ Waits → ⊥ }
{
    match outcome {
        Outcome::Waits => true,
        Outcome::Done => false,
        Outcome::Ended => false,
    }
}

/// Steps that were cut: how many stay done, and why.
#[derive(Clone, Copy)]
struct Cut {
    done: u64,
    why: TurnWhy,
}

/// Some steps were done, and then the thread had ended or waits.
fn ends_turn(cut: Cut) -> bool
    ensures yes { result ≡ true → (0 < cut.done) × ((cut.why ≡ Ended) ⊎ (cut.why ≡ TurnWaits)) }
    ensures not { result ≡ false → (cut.why ≡ Ended) ⊎ (cut.why ≡ TurnWaits) → cut.done ≡ 0 }
{
    match cut.why {
        TurnWhy::Ended => cut.done > 0,
        TurnWhy::Waits => cut.done > 0,
        _ => false,
    }
}

/// Threads of a client that take turns over one heap: the interpreter under one global lock.
///
/// Contracts see of it a `LockState`: what its view holds, and the states of its threads (`specs/Turns.antt`). A step
/// changes the thread's state in its place, and nothing can fail after it: the threads that it started stay with the
/// view until the next step begins. After a turn that was cut the machine can be used on: it shows what the steps
/// that stay left, but for what the step that was cut wrote and took.
#[derive(Drop)]
pub struct LockRun<'p, C: Client, I, O, E> {
    alloc: Global,
    client: &'p C,
    threads: Threads<C::State>,
    view: PlainView<C::State, I, O, E>,
}

impl<'p, C: Client, I: Source, O: Sink, E: Sink> LockRun<'p, C, I, O, E> {
    ghost use Rattle.std.specs.Prelude.{◌≡◌, ◌<◌, ◌≤◌, ◌≢◌, OnOk, OnErr, IfOk, IfErr, IfSome, slice_get, length, drop, [], ◌∷◌, None, Some};
    ghost use Rattle.py_data.specs.Collection.{places};
    ghost use Rattle.lock_run.specs.declared.client.Life.TheVariants.{Lives};
    ghost use Rattle.lock_run.specs.LockState.{lock_state, moved_state, lock_client, IsSound, HasDevices};
    ghost use Rattle.lock_run.specs.RunState.{IsReady, first_world};
    ghost use Rattle.lock_run.specs.Client.{IsSoundFirst, Standing};
    ghost use Rattle.lock_run.specs.Machine.{begin_with};
    ghost use Rattle.lock_run.specs.Turns.{NoneFall, Stands, TurnDone, TurnCut, FreeDone, FreeCut, StepGoes, StepCut, Reach, ReachCut};

    /// A machine at its first state: an empty heap and the client's first thread, which may stand over it. At want of
    /// memory the devices come back.
    pub fn new(
        alloc: Global,
        client: &'p C,
        input: I,
        out: O,
        err: E,
    ) -> Result<LockRun<'p, C, I, O, E>, (NoMemory, I, O, E)>
        requires first { IsSoundFirst (C.prog client.now) (C.sound client.now) }
        ensures client { IfOk result (λ run. lock_client run ≡ client.now) }
        ensures begins { IfOk result (λ run. (o e : _) → o ≡ (O.state out).told → e ≡ (E.state err).told
            → Stands o e (lock_state I.state O.state E.state run).view
            (lock_state I.state O.state E.state run).threads
            (begin_with (C.prog client.now) (first_world (I.state input).told (I.state input).ends))) }
        ensures sound { IfOk result (λ run. IsSound (C.sound client.now) (lock_state I.state O.state E.state run)) }
        ensures devices { IfOk result (λ run. HasDevices (lock_state I.state O.state E.state run) (I.state input)
            (O.state out) (E.state err)) }
        ensures back { IfErr result (λ e. (e.1 ≡ input) × (e.2 ≡ out) × (e.3 ≡ err)) }
    {
        let first = match client.first(alloc) {
            Ok(first) => first,
            Err(failed) => return Err((failed, input, out, err)),
        };
        let mut threads = Threads::new(alloc);
        match threads.push(first) {
            Ok(()) => Ok(LockRun {
                alloc,
                client,
                threads,
                view: PlainView::new(alloc, input, out, err),
            }),
            Err(failed) => Err((failed, input, out, err)),
        }
    }

    /// How many threads there are; they have the numbers below it.
    pub fn threads(&self) -> u32
        ensures { result ≡ length (lock_state I.state O.state E.state self.now).threads }
    {
        self.threads.len() + self.view.started().len()
    }

    /// Whether a thread lives, and how it ended.
    pub fn life(&self, t: u32) -> Life
        requires { t < length (lock_state I.state O.state E.state self.now).threads }
        ensures { IfSome (slice_get (lock_state I.state O.state E.state self.now).threads t)
            (λ s. result ≡ (C.prog (lock_client self.now)).life s) }
    {
        let moved = self.threads.len();
        if t < moved {
            self.client.life(self.threads.at(t))
        } else {
            self.client.life(self.view.started().at(t - moved))
        }
    }

    /// The thread lives, and its next step wouldn't wait. It asks the client over the heap, and takes no memory.
    pub fn ready(&self, t: u32) -> bool
        requires there { t < length (lock_state I.state O.state E.state self.now).threads }
        requires sound { IsSound (C.sound (lock_client self.now)) (lock_state I.state O.state E.state self.now) }
        ensures { IfSome (slice_get (lock_state I.state O.state E.state self.now).threads t)
            (λ s. IsReady (C.prog (lock_client self.now)) s (lock_state I.state O.state E.state self.now).view.heap
            result) }
    {
        let moved = self.threads.len();
        if t < moved {
            self.can_go(self.threads.at(t))
        } else {
            self.can_go(self.view.started().at(t - moved))
        }
    }

    /// A thread of this state lives, and its next step wouldn't wait.
    fn can_go(&self, s: &C::State) -> bool
        requires { Standing (C.sound self.now.client.now (lock_state I.state O.state E.state self.now).view.heap)
            s.now }
        ensures { IsReady (C.prog self.now.client.now) s.now (lock_state I.state O.state E.state self.now).view.heap
            result }
    {
        match self.client.life(s) {
            Life::Lives => !self.client.blocked(s, &self.view),
            _ => false,
        }
    }

    /// One step of a thread.
    fn step_one(&mut self, t: u32) -> Result<(), TurnWhy>
        requires there { t < length (lock_state I.state O.state E.state self.old).threads }
        requires sound { IsSound (C.sound self.old.client.now) (lock_state I.state O.state E.state self.old) }
        ensures sound { IsSound (C.sound self.new.client.now) (lock_state I.state O.state E.state self.new) }
        ensures client { self.new.client ≡ self.old.client }
        ensures free { self.new.view.free ≡ self.old.view.free }
        ensures there { t < length (lock_state I.state O.state E.state self.new).threads }
        ensures counts { NoneFall (lock_state I.state O.state E.state self.old).view
            (lock_state I.state O.state E.state self.new).view }
        ensures done { OnOk result (StepGoes (C.prog self.old.client.now) t
            (lock_state I.state O.state E.state self.old) (lock_state I.state O.state E.state self.new)) }
        ensures cut { IfErr result (λ w. StepCut (C.prog self.old.client.now) t w
            (lock_state I.state O.state E.state self.old) (lock_state I.state O.state E.state self.new)) }
    {
        match self.view.move_started(&mut self.threads) {
            Ok(()) => (),
            Err(_) => return Err(TurnWhy::OutOfMemory),
        }
        match self.client.life(self.threads.at(t)) {
            Life::Lives => self.step_living(t),
            _ => Err(TurnWhy::Ended),
        }
    }

    /// One step of a thread that lives, where all started threads have moved. At a Stop, and where it waits, its
    /// state is as before.
    fn step_living(&mut self, t: u32) -> Result<(), TurnWhy>
        requires there { t < length self.old.threads }
        requires lives { IfSome (slice_get self.old.threads t) (λ s. (C.prog self.old.client.now).life s ≡ Lives) }
        requires sound { IsSound (C.sound self.old.client.now) (moved_state I.state O.state E.state self.old) }
        ensures sound { IsSound (C.sound self.new.client.now) (lock_state I.state O.state E.state self.new) }
        ensures client { self.new.client ≡ self.old.client }
        ensures free { self.new.view.free ≡ self.old.view.free }
        ensures there { t < length (lock_state I.state O.state E.state self.new).threads }
        ensures counts { NoneFall (moved_state I.state O.state E.state self.old).view
            (lock_state I.state O.state E.state self.new).view }
        ensures done { OnOk result (StepGoes (C.prog self.old.client.now) t
            (moved_state I.state O.state E.state self.old) (lock_state I.state O.state E.state self.new)) }
        ensures cut { IfErr result (λ w. StepCut (C.prog self.old.client.now) t w
            (moved_state I.state O.state E.state self.old) (lock_state I.state O.state E.state self.new)) }
    {
        let s = self.threads.at_mut(t);
        match self.client.step(self.alloc, s, &mut self.view) {
            Ok(outcome) => {
                if is_wait(outcome) {
                    self.view.undo_step();
                    return Err(TurnWhy::Waits);
                }
                Ok(())
            }
            Err(stop) => Err(why_of(stop, self.view.is_bad())),
        }
    }

    /// So many steps of a thread.
    fn go(&mut self, t: u32, steps: u64) -> Result<(), Cut>
        requires there { t < length (lock_state I.state O.state E.state self.old).threads }
        requires sound { IsSound (C.sound self.old.client.now) (lock_state I.state O.state E.state self.old) }
        ensures sound { IsSound (C.sound self.new.client.now) (lock_state I.state O.state E.state self.new) }
        ensures client { self.new.client ≡ self.old.client }
        ensures free { self.new.view.free ≡ self.old.view.free }
        ensures counts { NoneFall (lock_state I.state O.state E.state self.old).view
            (lock_state I.state O.state E.state self.new).view }
        ensures done { OnOk result (Reach (C.prog self.old.client.now) t steps
            (lock_state I.state O.state E.state self.old) (lock_state I.state O.state E.state self.new)) }
        ensures cut { IfErr result (λ f. ReachCut (C.prog self.old.client.now) t steps f.done f.why
            (lock_state I.state O.state E.state self.old) (lock_state I.state O.state E.state self.new)) }
    {
        for done in 0..steps {
            match self.step_one(t) {
                Ok(()) => (),
                Err(why) => return Err(Cut { done, why }),
            }
        }
        Ok(())
    }

    /// A turn: exactly so many steps of the thread. The records that it makes get these names, in order. A turn that is
    /// cut tells how many steps stay done. Of the step that was cut, what was written stays written, and what was taken
    /// stays taken.
    pub fn turn(&mut self, thread: u32, steps: u64, names: &Names) -> Result<(), TurnFault>
        requires some { 1 ≤ steps }
        requires sound { IsSound (C.sound (lock_client self.old)) (lock_state I.state O.state E.state self.old) }
        ensures sound { IsSound (C.sound (lock_client self.new)) (lock_state I.state O.state E.state self.new) }
        ensures client { lock_client self.new ≡ lock_client self.old }
        ensures counts { NoneFall (lock_state I.state O.state E.state self.old).view
            (lock_state I.state O.state E.state self.new).view }
        ensures done { OnOk result (TurnDone (C.prog (lock_client self.old))
            (record { thread = thread; steps = steps; names = names.now })
            (lock_state I.state O.state E.state self.old) (lock_state I.state O.state E.state self.new)) }
        ensures cut { IfErr result (λ f. TurnCut (C.prog (lock_client self.old))
            (record { thread = thread; steps = steps; names = names.now }) f.done f.why
            (lock_state I.state O.state E.state self.old) (lock_state I.state O.state E.state self.new)) }
        ensures names { IfErr result (λ f. f.names ≡ []) }
    {
        if thread >= self.threads() {
            return Err(TurnFault {
                done: 0,
                names: Names::new(self.alloc),
                why: TurnWhy::NotThere,
            });
        }
        self.view.set_plan(Names::new(self.alloc));
        let plan = match names.copy(self.alloc) {
            Ok(plan) => plan,
            Err(_) => {
                return Err(TurnFault {
                    done: 0,
                    names: Names::new(self.alloc),
                    why: TurnWhy::OutOfMemory,
                });
            }
        };
        self.view.set_plan(plan);
        match self.go(thread, steps) {
            Ok(()) => (),
            Err(cut) => {
                return Err(TurnFault {
                    done: cut.done,
                    names: Names::new(self.alloc),
                    why: cut.why,
                });
            }
        }
        if self.view.has_names() {
            return Err(TurnFault {
                done: steps,
                names: Names::new(self.alloc),
                why: TurnWhy::BadNames,
            });
        }
        Ok(())
    }

    /// A turn of at most so many steps, with fresh names: until that many are done, the thread ends or its next step
    /// waits. It tells the turn that was done.
    pub fn free_turn(&mut self, thread: u32, most: u64) -> Result<Turn, TurnFault>
        requires some { 1 ≤ most }
        requires sound { IsSound (C.sound (lock_client self.old)) (lock_state I.state O.state E.state self.old) }
        ensures sound { IsSound (C.sound (lock_client self.new)) (lock_state I.state O.state E.state self.new) }
        ensures client { lock_client self.new ≡ lock_client self.old }
        ensures counts { NoneFall (lock_state I.state O.state E.state self.old).view
            (lock_state I.state O.state E.state self.new).view }
        ensures done { IfOk result (λ t. FreeDone (C.prog (lock_client self.old)) thread most t
            (lock_state I.state O.state E.state self.old) (lock_state I.state O.state E.state self.new)) }
        ensures cut { IfErr result (λ f. FreeCut (C.prog (lock_client self.old)) thread most f.done
            (places f.names) f.why
            (lock_state I.state O.state E.state self.old) (lock_state I.state O.state E.state self.new)) }
    {
        if thread >= self.threads() {
            return Err(TurnFault {
                done: 0,
                names: Names::new(self.alloc),
                why: TurnWhy::NotThere,
            });
        }
        self.view.set_free();
        let end = self.go(thread, most);
        let names = self.view.take_names();
        match end {
            Ok(()) => Ok(Turn {
                thread,
                steps: most,
                names,
            }),
            Err(cut) => {
                if ends_turn(cut) {
                    Ok(Turn {
                        thread,
                        steps: cut.done,
                        names,
                    })
                } else {
                    Err(TurnFault {
                        done: cut.done,
                        names,
                        why: cut.why,
                    })
                }
            }
        }
    }

    /// The three devices.
    pub fn finish(self) -> (I, O, E)
        ensures { HasDevices (lock_state I.state O.state E.state self.entry) (I.state result.0) (O.state result.1)
            (E.state result.2) }
    {
        let LockRun {
            alloc: _,
            client: _,
            threads: _,
            view,
        } = self;
        view.finish()
    }
}
