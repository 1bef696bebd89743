// The tree of an application: its declarations and bodies.

use crate::ident::{Ident, Number};
use crate::stmt::Stmt;

/// A declared interrupt and its number.
#[derive(Drop)]
pub struct IrqTree {
    pub name: Ident,
    pub number: Number,
}

/// The monotonic: its interrupt, and its priority.
#[derive(Drop)]
pub struct MonoTree {
    pub binds: Ident,
    pub priority: Number,
}

/// A shared resource and its first value.
#[derive(Drop)]
pub struct SharedTree {
    pub name: Ident,
    pub first: u32,
    pub lock_free: bool,
}

/// A local resource and its first value.
#[derive(Drop)]
pub struct LocalTree {
    pub name: Ident,
    pub first: u32,
}

/// A shared resource that a body lists.
#[derive(Drop)]
pub struct ListedTree {
    pub name: Ident,
    /// Whether it is listed as `&name`.
    pub by_ref: bool,
    /// The bytes of the text before the listing's first token.
    pub at: u32,
}

/// The resources that a body lists, and its statements.
#[derive(Drop)]
pub struct BodyTree {
    pub shared: Vec<ListedTree>,
    pub local: Vec<Ident>,
    pub block: Vec<Stmt>,
    /// The bytes of the text before the word `init` or `idle`, or before the task's name.
    pub at: u32,
}

/// A task. One with an interrupt that it binds is a hardware task, any other a software task.
pub struct TaskTree {
    pub name: Ident,
    pub binds: Option<Ident>,
    pub priority: Option<Number>,
    pub capacity: Option<u32>,
    pub args: Vec<Ident>,
    pub body: BodyTree,
}

impl Drop for TaskTree {
    fn drop(self) {
        let TaskTree {
            name: _,
            binds: _,
            priority: _,
            capacity: _,
            args: _,
            body: _,
        } = self;
    }
}

/// An application as it is written, before its names are resolved and its rules judged. An absent list and an empty one
/// are the same.
pub struct AppTree {
    pub name: Ident,
    pub bits: u32,
    /// Whether the core has the floating-point extension.
    pub fpu: bool,
    pub dispatchers: Vec<Ident>,
    pub irqs: Vec<IrqTree>,
    pub mono: Option<MonoTree>,
    pub shared: Vec<SharedTree>,
    pub locals: Vec<LocalTree>,
    pub init: Option<BodyTree>,
    pub idle: Option<BodyTree>,
    pub tasks: Vec<TaskTree>,
}

impl Drop for AppTree {
    fn drop(self) {
        let AppTree {
            name: _,
            bits: _,
            fpu: _,
            dispatchers: _,
            irqs: _,
            mono: _,
            shared: _,
            locals: _,
            init: _,
            idle: _,
            tasks: _,
        } = self;
    }
}
