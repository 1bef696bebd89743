// A job's work: what bodies and handlers have to do, one thing after another up to the next action, what actions change
// in resources and queues, and which items show them.
// Promises: what is left of a job is what its body means, after each thing that is done.
// Stands on: rt_lemmas, rt_ids, rt_actions, rt_app, rt_frames, rt_trace.
// Read next: specs/Todo.antt, then src/statement.rt.
#![tactic(auto)]

pub mod action;
pub mod begin;
pub mod clock;
pub mod code;
mod dispatch;
pub mod handler;
mod handles;
pub mod lookup;
pub mod message;
mod sending;
pub mod shown;
mod statement;
pub mod store;
pub mod timer;
pub mod todo;
mod value;
pub mod walk;
pub mod work;

pub use action::Action;
pub use code::{Code, Handler};
pub use message::{Armed, Message};
pub use store::Store;
pub use todo::{Reading, Todo};
pub use work::Work;
