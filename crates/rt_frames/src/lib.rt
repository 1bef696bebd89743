// What bodies take: core steps, instructions, words of their frames; how deep the stack gets, and how long jobs wait.
// Promises: costs, sizes, frames, waits and the stack bound are those of the definitions, and no number wraps.
// Stands on: rt_lemmas, rt_ids, rt_app.
// Read next: src/bound.rt; the definitions are in rt_app/specs, from Cost.antt on.
#![tactic(auto)]

pub mod armed;
pub mod bound;
pub mod cost;
pub mod flags;
pub mod form;
pub mod frame;
pub mod level;
pub mod measure;
pub mod rows;
pub mod stack;
pub mod waiting;
pub mod words;

pub use bound::bounds;
pub use cost::{body_cost, body_size, shared_size, timer_cost};
pub use form::{has_deepest_script, has_response_times};
pub use frame::Slots;
pub use level::{level_count, tasks_of_level};
pub use measure::Measure;
pub use rows::ArmedRows;
pub use words::body_frames;
