// The script that goes deepest: on it the stack reaches the printed bound.
// Promises: on the script the stack of a good image takes all of its bound.
// Stands on: rt_lemmas, rt_ids, rt_actions, rt_lines, rt_app, rt_frames, rt_script, rt_trace, rt_code, rt_core,
// rt_laws, rt_build, rt_run, rt_sim.
// Read next: specs/Reached.antt, then src/script.rt.
#![tactic(auto)]

mod priorities;
mod script;
mod take;
mod text;

pub use script::deepest;
