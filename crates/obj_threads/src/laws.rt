//! What calls of builtins of `thread` and `threading` do, as laws: a call of such a function does nothing, and gives
//! its caller's proof the facts of its clauses.
ghost use Rattle.obj_threads.specs.HoldsLaws.{ThreadsHold, ThreadsSteady};
ghost use Rattle.obj_threads.specs.Laws.{LockLaw, ThreadLaw};
ghost use Rattle.obj_threads.specs.Quiet.{InsideLaw, PendingLaw, ThreadsQuiet};

use py_data::{Demands, View};

/// A free lock is held once it is acquired; a held one is waited for, or the answer is False; and a held one is free
/// once it is released.
pub fn lock_law<S, V: View<S>>()
    ensures { LockLaw V.sense }
{}

/// A thread is started once. `join` waits for another thread that was started until it has ended, and changes nothing.
pub fn thread_law<S, V: View<S>>()
    ensures { ThreadLaw V.sense }
{}

/// Over each heap in order, with its list of roots and with items of it, each call may be begun, answers what it
/// should, and leaves a heap in order; and in its course no record is longer than before it or at its end.
pub fn holds_law<S, D: Demands<S>>()
    ensures holds { ThreadsHold D.rules D.stands }
    ensures steady { ThreadsSteady S }
{}

/// A call that waits, or that lets a thread start, has done nothing but look; and no call touches the world or starts a
/// thread itself.
pub fn quiet_law<S>()
    ensures { ThreadsQuiet S }
{}

/// What has looked alone has changed nothing.
pub fn pending_law<S>()
    ensures { PendingLaw S }
{}

/// What only looks at records, changes them and makes them leaves the world as it is, and starts no thread.
pub fn inside_law<S>()
    ensures { InsideLaw S }
{}
