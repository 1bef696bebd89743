// A core beside devices that give words: the order in which things happen, and the histories of the mailboxes.
// Promises: a live run is one of the image, with one legal history of the row and of each mailbox; a look finds the
// latest word given.
// Stands on: rt_lemmas, rt_ids, rt_outside, rt_app, rt_build, rt_code, rt_core, rt_trace, rt_laws, rt_sim, rt_script,
// rt_run, rt_board, rt_given, rt_inputs, rt_words, rt_devices, rt_live, rt_values, atomic_table.
// Read next: specs/Looking.antt and specs/Output.antt, then src/running.rt.
#![tactic(auto)]

mod beside;
pub mod boxes;
mod closing;
mod device;
mod ending;
mod happening;
pub mod laws;
mod looking;
mod making;
pub mod running;
mod turns;

pub use boxes::BoxKind;
pub use device::GivingDevice;
pub use laws::{live_runs_are_good, looks_find_the_latest};
pub use running::live;
