//! What laws on heaps in order are stated for: what a client asks of a heap, and properties of answers.
ghost use Rattle.py_data.specs.Heap.{Heap};
ghost use Rattle.py_data.specs.Order.{Rules, AreLasting, StatesLast};

/// What a client, whose threads have states S, asks of the heap that they stand over, beyond the shapes of records. The
/// trait has no code: a law over a type that meets it holds whatever a client asks.
pub trait Demands<S> {
    ghost rules: { Rules };

    ghost stands: { Heap → S → Type 0 };

    ghost lasting: { AreLasting rules };

    ghost stay: { StatesLast rules stands };
}

/// A property of an answer, and of the heap over which it was given. The trait has no code: a law over a type that
/// meets it holds for each property.
pub trait Property<A> {
    ghost has: { A → Heap → Type 0 };
}
