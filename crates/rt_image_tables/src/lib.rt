// An image with tables by number, so that a core looks for nothing while it runs.
// Promises: the tables are those of the image; whether a core runs it is tested exactly.
// Stands on: rt_lemmas, rt_ids, rt_code.
// Read next: src/program.rt, then src/runnable.rt.
#![tactic(auto)]

mod copy;
pub mod program;
pub mod runnable;
mod tables;

pub use program::Program;
pub use runnable::{is_runnable, numbers_differ, values_are_implemented};
