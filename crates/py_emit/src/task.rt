//! What is still to be emitted of an expression or a target: a stack of tasks.

ghost use Rattle.std.specs.Prelude.{◌≡◌, ◌∷◌, [], Err, IfOk, MatchOption};
ghost use Rattle.py_emit.specs.inner.Tasks.{plain};

use crate::draft::Far;
use crate::fault::Fault;
use py_code::Instr;
use py_tree::{Expr, Link, Named, Operator, Pair, Trailer};
use std::alloc::Global;
use std::marker::Model;

/// A part of a template that is still to be emitted.
#[derive(Clone, Copy)]
pub enum Task<'a> {
    /// The value of an expression.
    Value(&'a Expr),
    /// The values of expressions in turn.
    Values(&'a [Expr]),
    /// What stands behind an atom, whose value is on the stack.
    Behind(&'a [Trailer]),
    /// The keys and values of a dictionary.
    Pairs(&'a [Pair]),
    /// The values of a call's keyword arguments.
    Keys(&'a [Named]),
    /// The operands behind the first, each with its BINARY.
    Links(&'a [Link]),
    /// The operands of `and` or `or`: each but the last jumps to the label where it decides.
    Kept(Far, usize, &'a Expr, &'a [Link]),
    /// The operands of a comparison of more than two, from the second on: each but the last jumps to the label where it
    /// decides.
    Between(usize, &'a Link, &'a [Link]),
    /// The store of the top to a target.
    Store(&'a Expr),
    /// The stores to targets in turn.
    Stores(&'a [Expr]),
    /// The deletion of a target.
    Delete(&'a Expr),
    /// The deletions of targets in turn.
    Deletes(&'a [Expr]),
    /// An augmented assignment: the target, the operator and the value.
    Augment(&'a Expr, Operator, &'a Expr),
    /// One instruction.
    Op(Instr),
    /// One instruction that names a label.
    To(Far, usize),
    /// The label stands here.
    Mark(usize),
}

/// The tasks that are left. Contracts see them as the list of them, from the next on.
#[derive(Drop)]
pub struct Tasks<'a> {
    items: Vec<Task<'a>>,
}

impl<'a> Model for Tasks<'a> {
    ghost use Rattle.std.specs.Prelude.{List, map, reverse};
    ghost use Rattle.std.specs.Coded.{codes};
    ghost use Rattle.py_tree.specs.contracts.expr.Expr as expr;
    ghost use Rattle.py_tree.specs.contracts.expr.Link as link;
    ghost use Rattle.py_tree.specs.contracts.expr.Named as named;
    ghost use Rattle.py_tree.specs.contracts.expr.Pair as pair;
    ghost use Rattle.py_tree.specs.contracts.expr.Trailer as trailer;
    ghost use Rattle.py_emit.specs.inner.Tasks.{Todo, plain};

    ghost Value = { List Todo };

    ghost coded = { Prim.hlevel (
      codes,
      expr.the_row.coded,
      link.the_row.coded,
      named.the_row.coded,
      pair.the_row.coded,
      trailer.the_row.coded,
    ) };

    ghost view = { λ t. map plain (reverse t.items.items) };
}

impl<'a> Tasks<'a> {
    /// None is left.
    pub fn new(alloc: Global) -> Tasks<'a>
        ensures { result ≡ [] }
    {
        Tasks {
            items: Vec::new(alloc),
        }
    }

    /// This one comes next.
    pub fn push(&mut self, first: Task<'a>) -> Result<(), Fault>
        ensures done { IfOk result (λ _. self.new ≡ plain first.entry ∷ self.old) }
        ensures small { result ≡ Err Fault.TooLarge → ⊥ }
    {
        match self.items.push(first) {
            Ok(()) => Ok(()),
            Err(_) => Err(Fault::OutOfMemory),
        }
    }

    /// These come next, in this order.
    pub fn push_two(&mut self, first: Task<'a>, second: Task<'a>) -> Result<(), Fault>
        ensures done { IfOk result (λ _. self.new ≡ plain first.entry ∷ plain second.entry ∷ self.old) }
        ensures small { result ≡ Err Fault.TooLarge → ⊥ }
    {
        self.push(second)?;
        self.push(first)
    }

    /// These come next, in this order.
    pub fn push_three(
        &mut self,
        first: Task<'a>,
        second: Task<'a>,
        third: Task<'a>,
    ) -> Result<(), Fault>
        ensures done { IfOk result (λ _. self.new ≡ plain first.entry ∷ plain second.entry ∷ plain third.entry
            ∷ self.old) }
        ensures small { result ≡ Err Fault.TooLarge → ⊥ }
    {
        self.push_two(second, third)?;
        self.push(first)
    }

    /// These come next, in this order.
    pub fn push_four(
        &mut self,
        first: Task<'a>,
        second: Task<'a>,
        third: Task<'a>,
        fourth: Task<'a>,
    ) -> Result<(), Fault>
        ensures done { IfOk result (λ _. self.new ≡ plain first.entry ∷ plain second.entry ∷ plain third.entry
            ∷ plain fourth.entry ∷ self.old) }
        ensures small { result ≡ Err Fault.TooLarge → ⊥ }
    {
        self.push_two(third, fourth)?;
        self.push_two(first, second)
    }

    /// The next task.
    pub fn pop(&mut self) -> Option<Task<'a>>
        ensures { MatchOption result (self.old ≡ []) (λ first. self.old ≡ plain first ∷ self.new) }
    {
        self.items.pop()
    }
}
