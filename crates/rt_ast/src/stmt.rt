// The tree of a statement.

ghost use Rattle.std.specs.Prelude.{◌≡◌};
ghost use Rattle.rt_ast.specs.Tree as tree;
ghost use Rattle.rt_ast.specs.View.{expression_of, statement_of, block_of};

use crate::expr::Expr;
use crate::ident::Ident;

/// What sends a message to a software task, or takes it back or puts it off by its handle.
#[derive(Drop)]
pub enum Spawn {
    /// At once: the task, and its arguments.
    Soon(Ident, Vec<Expr>),
    /// After a delay in ticks: the offset of the word, the delay, the task, and its arguments.
    After(u32, Expr, Ident, Vec<Expr>),
    /// A message is taken back: the offset of the word, the task, and the handle.
    Cancel(u32, Ident, Expr),
    /// A message is put off by a delay in ticks: the offset of the word, the delay, the task, and the handle. The delay
    /// is in a box, because no statement is to be wider for the sake of this form.
    Move(u32, Box<Expr>, Ident, Expr),
}

/// What a variable is bound to.
#[derive(Drop)]
pub enum Value {
    Calc(Expr),
    /// The time in ticks, and the offset of the word.
    Now(u32),
    /// What the spawn gives.
    Call(Spawn),
}

/// A statement.
#[derive(Drop)]
pub enum Stmt {
    Bind(Ident, Value),
    Assign(Ident, Expr),
    /// The first block where the value is not 0, else the second.
    Branch(Expr, Vec<Stmt>, Vec<Stmt>),
    /// The block for each number from the first up to the second, which it does not reach.
    Repeat(Ident, u32, u32, Vec<Stmt>),
    /// The block as a section of a resource.
    Locked(Ident, Vec<Stmt>),
    Emit(Expr),
    /// A pend of an interrupt.
    Pend(Ident),
    Call(Spawn),
}

impl Stmt {
    /// The choice between two blocks by a value.
    #[tactic(auto, using(crate::proofs::Statements::branch_is))]
    pub fn branch(condition: Expr, first: Vec<Stmt>, second: Vec<Stmt>) -> Stmt
        ensures { statement_of result
            ≡ tree.Branch (expression_of condition) (block_of first.items) (block_of second.items) }
    {
        Stmt::Branch(condition, first, second)
    }

    /// The loop of a variable from a number up to another, which it does not reach.
    pub fn repeat(variable: Ident, first: u32, last: u32, turn: Vec<Stmt>) -> Stmt
        ensures { statement_of result ≡ tree.Repeat variable first last (block_of turn.items) }
    {
        Stmt::Repeat(variable, first, last, turn)
    }

    /// A block as a section of a resource.
    pub fn lock(resource: Ident, inner: Vec<Stmt>) -> Stmt
        ensures { statement_of result ≡ tree.Locked resource (block_of inner.items) }
    {
        Stmt::Locked(resource, inner)
    }
}
