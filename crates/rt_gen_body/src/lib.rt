// From bodies to code.
// Promises: the code of each body stands, within the cost and the frame that `check` prints.
// Stands on: rt_lemmas, rt_ids, rt_actions, rt_app, rt_code, rt_frames, rt_gen_queue, rt_gen_timer.
// Read next: specs/Bodies.antt, then src/statement.rt.
#![tactic(auto)]

pub mod body;
pub mod generator;
pub mod spawn;
pub mod statement;

pub use body::gen_body;
