// The trees of application texts.
// Promises: nothing yet is said of a tree: its canonical text is a definition.
// Stands on: rt_ids.
// Read next: specs/Tree.antt, then specs/Canonical.antt.
#![tactic(auto)]

pub mod app;
pub mod expr;
pub mod ident;
pub mod stmt;

pub use app::{AppTree, BodyTree, IrqTree, ListedTree, LocalTree, MonoTree, SharedTree, TaskTree};
pub use expr::Expr;
pub use ident::{Ident, Number};
pub use stmt::{Spawn, Stmt, Value};
