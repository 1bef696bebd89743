// `live`: a core runs beside device threads that pend interrupts through shared atomic words.
// Promises: the trace is that of the core with what its looks found, for one history; all memory is taken before the
// first byte.
// Stands on: rt_lemmas, rt_ids, rt_lines, rt_outside, rt_code, rt_core, rt_trace, rt_script, rt_run, rt_words,
// rt_devices.
// Read next: specs/Output.antt, then src/running.rt.
#![tactic(auto)]

pub mod account;
mod beside;
mod ending;
pub mod gathering;
mod laws;
pub mod making;
pub mod ready;
mod routes;
pub mod running;
mod share;
mod showing;
mod turns;

pub use account::{Account, AccountRow};
pub use ending::run_turns;
pub use laws::constants_are_as_documented;
pub use ready::Ready;
pub use routes::{CoreRole, NoRoutes, Routes};
pub use running::{LiveFail, live, run_beside};
pub use share::Share;
