// Bounds of a checked image: the longest ways of its owners and sections, waiting, and the stack.
// Promises: exact: each bound is the greatest number of steps of a way through the code, on which loops that count turn
// as often as they do, or a loop that a way comes to.
// Stands on: rt_lemmas, rt_ids, rt_actions, rt_lines, rt_code, rt_listing, rt_points, rt_judge.
// Read next: specs/Ways.antt, specs/Counting.antt, specs/CountedWays.antt, specs/Bounds.antt, then src/bounding.rt.
#![tactic(auto)]

pub mod bound;
mod bounding;
mod changing;
mod counting;
mod folds;
mod gathered;
mod ground;
mod holding;
mod laws;
pub mod longest;
mod shape;
mod sources;
mod survey;
mod text;
mod turns;
mod written;

pub use bound::{Bounds, HandlerBound, SectionBound, WaitBound};
pub use bounding::bounds;
pub use laws::{bounds_reach_ends, counted_ways_are_ways, loops_have_no_bound};
pub use longest::Longest;
pub use text::bounds_text;
