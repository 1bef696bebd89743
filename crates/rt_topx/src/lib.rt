// The top call of the second program: from its words, sources and sink to its status.
// Promises: bytes and status of each command, of the bytes that its reads gave; and what an executable does on a chip.
// Stands on: rt_lemmas, rt_ids, rt_outside, rt_lines, rt_app, rt_build, rt_code, rt_listing, rt_trace, rt_core,
// rt_laws, rt_script, rt_run, rt_sim, rt_thumb, rt_native, rt_native_runs, rt_points, rt_safe, rt_load, rt_why,
// rt_bounds, rt_timely, rt_board, rt_given, rt_target, rt_inputs, rt_inputs_audit, rt_devices, rt_live,
// rt_live_inputs, rt_baker_moves, rt_baker, rt_ceil, rt_frames, rt_cycles, rt_rta, rt_respond, rt_respond_laws,
// rt_image_times, rt_image_times_laws, rt_top.
// Read next: src/top.rt, then specs/Rticx.antt and specs/Outputs.antt.
#![tactic(auto)]

mod audit;
mod boards;
mod bounds;
pub mod command;
mod cycles;
mod decide;
pub mod laws;
mod live;
mod native;
mod respond;
mod run;
mod start;
mod target;
mod timed;
pub mod top;
mod why;

pub use command::Command;
pub use laws::{one_of_each_kind, one_status_is_due};
pub use top::rticx;
