// Why an image does not keep the seven rules: a witness of the least that it breaks, and its text.
// Promises: exact: an image is checked, or its least broken rule with a witness; the bytes that tell it; a witness
// refutes its rule.
// Stands on: rt_lemmas, rt_ids, rt_actions, rt_lines, rt_code, rt_listing, rt_points, rt_judge.
// Read next: specs/Witness.antt, then src/reason.rt.
#![tactic(auto)]

mod ceilings;
mod guards;
mod laws;
mod looking;
mod marks;
mod numbers;
mod parts;
pub mod point;
mod pushing;
mod reason;
mod search;
mod telling;
pub mod text;
mod walk;
mod wanted;
pub mod witness;

pub use laws::witnesses_refute;
pub use point::Point;
pub use reason::why;
pub use text::why_text;
pub use witness::{NotePart, OperandPart, Uncovered, Unguarded, Why, Witness};
