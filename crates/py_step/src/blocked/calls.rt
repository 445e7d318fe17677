//! Whether the call of a value would wait, over a committed heap.
ghost use Rattle.std.specs.Prelude.{◌≡◌, [], length};
ghost use Rattle.py_data.specs.Closed.{Refers};
ghost use Rattle.py_data.specs.Every.{Every};
ghost use Rattle.py_data.specs.Heap.{Has, at};
ghost use Rattle.py_frames.specs.Binding.{Given, with_own};
ghost use Rattle.py_frames.specs.CallRows.{method_call, value_call};
ghost use Rattle.py_frames.specs.ClassCalls.{Site};
ghost use Rattle.py_step.specs.inner.Peeked.{AreClosed, LeadsToWait, Tells};

use super::builtins::{builtin_waits, record_of};
use py_data::{Addr, Kind, Peek, Value};

/// Whether the call of a Method would wait, without keywords.
fn method_waits<P: Peek>(heap: &P, me: Option<Addr>, a: Addr, args: &[Value]) -> bool
    requires closed { AreClosed (P.image heap.now) }
    requires there { Has (P.image heap.now) a.0 }
    requires method { length (at (P.image heap.now) a.0).values ≡ 2 }
    requires refer { Every (Refers (P.image heap.now)) args.now }
    ensures { (s : Site) (g : Given) → s.thread ≡ me → g.args ≡ args.now → g.names ≡ []
        → Tells result LeadsToWait (P.image heap.now) (method_call s g a.0) }
{
    match heap.peek_val(a, 0) {
        Value::Builtin(b) => builtin_waits(heap, me, b, heap.peek_val(a, 1), args),
        _ => false,
    }
}

/// Whether the call of a value would wait, without keywords. An object may stand in front; then `all` are the
/// arguments behind it.
pub fn value_waits<P: Peek>(
    heap: &P,
    me: Option<Addr>,
    own: Value,
    called: Value,
    args: &[Value],
    all: &[Value],
) -> bool
    requires closed { AreClosed (P.image heap.now) }
    requires own { Refers (P.image heap.now) own }
    requires called { Refers (P.image heap.now) called }
    requires some { Every (Refers (P.image heap.now)) args.now }
    requires every { Every (Refers (P.image heap.now)) all.now }
    ensures { (s : Site) (g : Given) → s.thread ≡ me → g.args ≡ args.now → (with_own own g).args ≡ all.now
        → g.names ≡ []
        → Tells result LeadsToWait (P.image heap.now) (value_call s own g called) }
{
    match called {
        Value::Builtin(b) => builtin_waits(heap, me, b, own, args),
        Value::Ref(_) => match record_of(heap, called, Kind::Method) {
            Some(a) => method_waits(heap, me, a, all),
            None => false,
        },
        _ => false,
    }
}
