// The top call: from the program's words, sources and sink to its status.
// Promises: bytes and status of each command, of the bytes that its reads gave.
// Stands on: rt_lemmas, rt_ids, rt_outside, rt_lines, rt_ast, rt_grammar, rt_parse, rt_print, rt_app, rt_resolve,
// rt_build, rt_ceil, rt_frames, rt_report, rt_code, rt_listing, rt_trace, rt_core, rt_script, rt_run, rt_devices,
// rt_live, rt_dual, rt_sim, rt_count, rt_soak, rt_reach, rt_rta, rt_baker_moves, rt_baker, rt_points, rt_safe,
// rt_load.
// Read next: src/top.rt, then specs/Program.antt, specs/Defined.antt and specs/Rtic.antt.
#![tactic(auto)]

mod audit;
mod auditor;
mod build;
mod check;
mod command;
mod decide;
mod deepest;
mod demo;
mod format;
pub mod laws;
mod live;
mod number;
mod pair;
pub mod reading;
mod refusal;
pub mod reply;
pub mod run;
mod soak;
mod start;
mod times;
pub mod top;
mod verify;

pub use laws::{
    one_of_each_kind, one_status_is_due, what_is_written_is_audited,
    what_is_written_shows_one_image,
};
pub use rt_devices::{Gate, NoGate};
pub use top::rtic;
