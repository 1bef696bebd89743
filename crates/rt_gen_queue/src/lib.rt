// What code of bodies and of dispatchers is made with: lines, guards of sections, ready queues, and the code of spawns.
// Promises: the code of a spawn stands wherever it is, in at most 128 lines.
// Stands on: rt_lemmas, rt_ids, rt_actions, rt_app, rt_code.
// Read next: specs/Spawning.antt, then src/spawn.rt; proofs/Layer.antt for the proofs of all generated code.
#![tactic(auto)]

pub mod entry;
pub mod guard;
mod laws;
pub mod lines;
pub mod parts;
pub mod queue;
pub mod slots;
pub mod spawn;
pub mod target;

pub use entry::next_entry;
pub use guard::Guard;
pub use laws::spawns_stand;
pub use lines::Lines;
pub use queue::{ReadyQueue, queue_of};
pub use spawn::gen_spawn;
pub use target::{Target, find_target};
