// A statement whose names are resolved.

ghost use Rattle.std.specs.Prelude.{◌≡◌};
ghost use Rattle.rt_app.specs.Tree as tree;
ghost use Rattle.rt_app.specs.View.{expression_of, statement_of, block_of};

use crate::expr::{Atom, Expr};
use rt_ids::{ResId, TaskId};

/// What sends a message to a software task, or takes it back or puts it off by its handle.
#[derive(Drop)]
pub enum Spawn {
    /// At once: the task, its arguments, and the offset of its name.
    Soon(TaskId, Vec<Expr>, u32),
    /// After a delay in ticks: the offset of the word, the delay, the task, its arguments, and the offset of its name.
    After(u32, Expr, TaskId, Vec<Expr>, u32),
    /// A message is taken back: the offset of the word, the task, the handle, and the offset of the task's name.
    Cancel(u32, TaskId, Expr, u32),
    /// A message is put off by a delay in ticks: the offset of the word, the delay, the task, the handle, and the
    /// offset of the task's name.
    Move(u32, Expr, TaskId, Expr, u32),
}

/// What a variable is bound to.
#[derive(Drop)]
pub enum Value {
    Calc(Expr),
    /// The time in ticks, and the offset of the word.
    Now(u32),
    /// What the spawn gives: of one at once 1, and of one after a delay its handle, or 0 where it found no place; of a
    /// cancel and a move 0 where an armed message of the task has the handle, else 1.
    Call(Spawn),
}

/// A statement, its names resolved.
#[derive(Drop)]
pub enum Stmt {
    /// A variable, and its value.
    Bind(u16, Value),
    /// What is assigned to, the value, and the offset of the name.
    Assign(Atom, Expr, u32),
    /// The first block where the value is not 0, else the second.
    Branch(Expr, Vec<Stmt>, Vec<Stmt>),
    /// The block for each number from the first up to the second, which it does not reach.
    Repeat(u16, u32, u32, Vec<Stmt>),
    /// The block as a section of a resource, and the offset of the resource's name.
    Locked(ResId, Vec<Stmt>, u32),
    Emit(Expr),
    /// A pend of a declared interrupt, by its index in the order of declaration.
    Pend(u8),
    Call(Spawn),
}

impl Stmt {
    /// The choice between two blocks by a value.
    pub fn branch(condition: Expr, first: Vec<Stmt>, second: Vec<Stmt>) -> Stmt
        ensures { statement_of result
            ≡ tree.Branch (expression_of condition) (block_of first.items) (block_of second.items) }
    {
        Stmt::Branch(condition, first, second)
    }

    /// The loop of a variable from a number up to another, which it does not reach.
    pub fn repeat(variable: u16, first: u32, last: u32, turn: Vec<Stmt>) -> Stmt
        ensures { statement_of result ≡ tree.Repeat variable first last (block_of turn.items) }
    {
        Stmt::Repeat(variable, first, last, turn)
    }

    /// A block as a section of a resource, whose name stands at an offset.
    pub fn lock(resource: ResId, inner: Vec<Stmt>, at: u32) -> Stmt
        ensures { statement_of result ≡ tree.Locked resource (block_of inner.items) at }
    {
        Stmt::Locked(resource, inner, at)
    }
}
