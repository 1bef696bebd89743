// The judge of images from anywhere: whether one keeps the seven rules, or the least that it breaks.
// Promises: exact: an image is checked, or the least rule that it breaks.
// Stands on: rt_lemmas, rt_ids, rt_actions, rt_code, rt_image_tables, rt_points.
// Read next: src/verdict.rt, then src/walk.rt.
#![tactic(auto)]

pub mod entering;
pub mod execution_priority;
pub mod exits;
pub mod findings;
pub mod nesting;
pub mod notes;
pub mod numbers;
pub mod operands;
pub mod table;
pub mod touching;
pub mod verdict;
pub mod walk;

pub use verdict::{Verified, judge};
