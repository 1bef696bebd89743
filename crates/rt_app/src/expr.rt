// An expression whose names are resolved.

use rt_ids::{Op, ResId};

/// What a name in an expression or an assignment stands for.
#[derive(Clone, Copy, PartialEq, Eq)]
pub enum Atom {
    /// A variable: its position among the arguments, `let` and `for` statements of its body in order of the text.
    Var(u16),
    Shared(ResId),
    /// A local resource, by its index in the order of declaration.
    Local(u8),
}

/// An expression.
#[derive(Drop)]
pub enum Expr {
    Num(u32),
    /// The value of a variable or a resource, and the offset of its name.
    Read(Atom, u32),
    Oper(Op, Box<Expr>, Box<Expr>),
}
