//! The plan of a body: what of its statements has code. It is made once, and emitted as often as it takes: a finally
//! body once more for each way out through it.

use py_base::Bytes;
use py_tree::{Arm, Expr, Handler, Imported, Operator, Param};
use sqlite_items::Items;

/// A statement that has code, with the numbers of its own bodies. Each is one row of the table, with at least one
/// instruction of its own, so that emitting a plan is linear in what it emits.
#[cycle(plans)]
#[derive(Drop)]
pub enum Plan<'a> {
    /// A statement without blocks, but for `del`.
    Simple(Simple<'a>),
    /// `del`: its line, and the names, attributes and subscripts that it deletes.
    Delete(u32, Items<&'a Expr>),
    /// `def`: its line, its name, its parameters from the first with a default on, and the number of its body.
    Def(u32, &'a Bytes, &'a [Param], u32),
    /// `class`: its line, its name, its base and the number of its body.
    Class(u32, &'a Bytes, &'a Option<Expr>, u32),
    /// The arms of an `if`, and the `else` block.
    If(Items<PlanArm<'a>>, Items<Plan<'a>>),
    /// `while`: its test, its body and the `else` block.
    While(&'a Arm, Items<Plan<'a>>, Items<Plan<'a>>),
    /// `for`: its line, its target, what is gone over, the body and the `else` block.
    For(u32, &'a Expr, &'a Expr, Items<Plan<'a>>, Items<Plan<'a>>),
    /// `try` with except clauses: its line, its block, the clauses and the `else` block.
    Try(u32, Items<Plan<'a>>, Items<PlanHandler<'a>>, Items<Plan<'a>>),
    /// The line of a `try`, what of it a finally body follows, and that body.
    Finally(u32, Items<Plan<'a>>, Items<Plan<'a>>),
}

/// An arm of an `if`: its line and its test, and its block.
#[cycle(plans)]
#[derive(Drop)]
pub struct PlanArm<'a> {
    pub arm: &'a Arm,
    pub body: Items<Plan<'a>>,
}

/// An except clause: its line, what it catches and where that is put, and its block.
#[cycle(plans)]
#[derive(Drop)]
pub struct PlanHandler<'a> {
    pub handler: &'a Handler,
    pub body: Items<Plan<'a>>,
}

/// A statement without blocks that always has code. Each has first its line.
#[derive(Clone, Copy)]
pub enum Simple<'a> {
    Do(u32, &'a Expr),
    Assign(u32, &'a Items<Expr>, &'a Expr),
    Augment(u32, &'a Expr, Operator, &'a Expr),
    Print(u32, &'a Items<Expr>, bool),
    Break(u32),
    Continue(u32),
    Return(u32, &'a Option<Expr>),
    Raise(u32, &'a Option<Expr>, &'a Option<Expr>),
    Assert(u32, &'a Expr, &'a Option<Expr>),
    Import(u32, &'a Items<Imported>),
    From(u32, &'a Bytes, &'a Items<Imported>),
}
