// Applications with their names resolved, and what they mean: rules, ceilings, costs, frames, bounds, memory.
// Promises: every accepted application is sound; most definitions of the theory are here.
// Stands on: rt_lemmas, rt_ids, rt_actions.
// Read next: specs/Tree.antt, then specs/Meaning.antt: what a statement means.
#![tactic(auto)]

pub mod app;
pub mod body;
pub mod bounds;
pub mod ceilings;
pub mod costs;
pub mod expr;
pub mod laws;
pub mod layout;
pub mod names;
pub mod plan;
pub mod stmt;
pub mod violation;

pub use app::{App, Dispatcher, IrqDecl, Local, Mono, Shared, Task};
pub use body::{Body, Listed, Owned};
pub use bounds::{BodyBound, Bounds, Wait};
pub use ceilings::{Ceilings, ReadyCeiling};
pub use expr::{Atom, Expr};
pub use laws::{accepted_applications_are_sound, costs_are_as_documented, costs_are_capped_sums};
pub use layout::Layout;
pub use plan::Plan;
pub use stmt::{Spawn, Stmt, Value};
pub use violation::Violation;

/// The number of a name that is not declared.
pub const UNKNOWN: u8 = 255;
