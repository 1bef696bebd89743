// Runs beside devices that give values: which words they put, and when, and the trace of a script with such words.
// Promises: whatever devices give, and whenever: a run with inputs is as good as one without, and its trace is written.
// Stands on: rt_lemmas, rt_ids, rt_actions, rt_lines, rt_outside, rt_app, rt_build, rt_code, rt_core, rt_trace,
// rt_laws, rt_script, rt_run, rt_sim, rt_board, rt_given.
// Read next: specs/Inputs.antt and specs/Shown.antt, then specs/Laws.antt and src/running.rt.
#![tactic(auto)]

mod event;
pub mod held;
pub mod laws;
mod lines;
mod putting;
pub mod registers;
pub mod running;

pub use held::{Held, put_held};
pub use laws::{
    inputs_are_unused_at_a_take, runs_with_inputs_are_good, runs_with_inputs_are_shown,
    runs_without_inputs_are_runs, takes_leave_cells, words_are_free,
};
pub use registers::Registers;
pub use running::{run_line, run_with_inputs};
