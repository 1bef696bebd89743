// The dispatchers of software tasks, as code.
// Promises: the code of a dispatcher stands wherever the bodies that it calls stand.
// Stands on: rt_lemmas, rt_ids, rt_actions, rt_app, rt_code, rt_gen_queue.
// Read next: specs/Dispatching.antt, then src/dispatcher.rt.
#![tactic(auto)]

pub mod called;
pub mod dispatcher;
pub mod laws;
pub mod lines;
pub mod slots;

pub use dispatcher::gen_dispatcher;
pub use laws::dispatchers_stand;
