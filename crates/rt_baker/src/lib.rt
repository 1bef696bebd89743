// The audit of a trace: whether it is a run of Baker's machine.
// Promises: exact: a trace is judged right, or the number of its first wrong item is answered.
// Stands on: rt_ids, rt_app, rt_frames, rt_trace, rt_laws, rt_baker_work, rt_baker_moves.
// Read next: specs/Audit.antt, then src/coming.rt.
#![tactic(auto)]

pub mod coming;
pub mod done;
pub mod items;
pub mod judge;
mod judging;
pub mod verdict;

pub use done::Done;
pub use judge::Judge;
pub use judging::audit;
pub use verdict::Verdict;
