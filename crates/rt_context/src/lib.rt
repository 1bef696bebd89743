// The frames on a core's stack: the running one, that of a handler whose called body runs, and below them what each
// entered handler interrupted. They lie in one region of words, with the architecture's frame at each exception entry.
// Promises: entry, return, calls and their return do on frames what the definitions say.
// Stands on: rt_lemmas, rt_ids, rt_stack, rt_code.
// Read next: specs/Moves.antt, then src/frames.rt.
#![tactic(auto)]

mod body;
mod exception;
pub mod frames;
mod laws;
pub mod sizes;

pub use frames::Frames;
pub use laws::depth_counts_the_words;
