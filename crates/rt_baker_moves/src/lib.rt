// Baker's machine as an auditor follows it: the state that is kept of jobs, interrupts, values and time, what is known
// beforehand of the application, and the moves from a state to the next.
// Promises: the state that is kept is one of Baker's machine, after each move.
// Stands on: rt_lemmas, rt_ids, rt_actions, rt_app, rt_ceil, rt_frames, rt_trace, rt_laws, rt_baker_work.
// Read next: specs/State.antt, then src/moves.rt.
#![tactic(auto)]

mod candidate;
mod guards;
mod idle;
mod job;
pub mod machine;
mod moves;
mod reset;
mod served;
mod shows;
mod spending;
mod starts;
pub mod state;
mod system_ceiling;
pub mod tables;

pub use machine::{Machine, Served};
pub use state::State;
pub use tables::Tables;
