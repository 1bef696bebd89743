// The audit of traces with inputs: whether they are runs of Baker's machine beside devices.
// Promises: exact: a trace is judged right, or the number of its first wrong line is answered.
// Stands on: rt_lemmas, rt_ids, rt_actions, rt_lines, rt_outside, rt_app, rt_build, rt_code, rt_core, rt_trace,
// rt_laws, rt_sim, rt_board, rt_given, rt_inputs, rt_baker_work, rt_baker_moves, rt_baker.
// Read next: specs/Audit.antt, then specs/Following.antt and src/judge.rt.
#![tactic(auto)]

pub mod auditor;
pub mod followed;
pub mod held;
pub mod judge;
pub mod laws;
pub mod line;
pub mod reader;
pub mod refusal;

pub use auditor::{Chosen, InputsAuditor};
pub use judge::InputsJudge;
pub use laws::{
    runs_give_inputs, runs_with_inputs_are_right, texts_are_read_one_way, written_lines_are_read,
};
pub use line::TraceLine;
pub use reader::InputsReader;
pub use refusal::{Cause, InputsRefused, refusal_text};
