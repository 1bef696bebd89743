// The timer queue of the monotonic, as code: it arms, cancels and moves messages, and its handler makes the due one
// ready.
// Promises: the code of the calls and of the handler stands, also within the short cost of the heap.
// Stands on: rt_lemmas, rt_ids, rt_actions, rt_app, rt_code, rt_frames, rt_gen_queue.
// Read next: specs/TimerCalls.antt, then src/template.rt and src/heap.rt.
#![tactic(auto)]

mod after;
pub mod armed;
mod call;
mod calls;
mod columns;
mod emitter;
pub mod generate;
mod handler;
mod heap;
mod laws;
pub mod queue;
mod section;
pub mod slots;
mod template;
pub mod timer;

pub use generate::{gen_after, gen_cancel, gen_move};
pub use laws::{afters_stand, cancels_stand, moves_stand, timers_stand};
pub use timer::gen_timer;
