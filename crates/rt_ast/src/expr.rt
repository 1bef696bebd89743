// The tree of an expression.

use crate::ident::Ident;
use rt_ids::Op;

/// An expression. Parentheses leave no trace in it.
#[derive(Drop)]
pub enum Expr {
    Num(u32),
    /// The value of a variable, an argument or a resource.
    Read(Ident),
    Oper(Op, Box<Expr>, Box<Expr>),
}
