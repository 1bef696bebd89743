// Priority ceilings of applications, from one pass over their bodies.
// Promises: the ceilings are those of the definition.
// Stands on: rt_lemmas, rt_ids, rt_app.
// Read next: src/guarded.rt; the definition is rt_app/specs/Ceiling.antt.
#![tactic(auto)]

pub mod bodies;
pub mod guarded;
pub mod rows;
pub mod spawns;
pub mod tables;

pub use guarded::ceilings;
