// Two cores that run beside each other and pend each other's interrupts through shared atomic words.
// Promises: one history of the words of both cores explains both traces.
// Stands on: rt_lemmas, rt_ids, rt_outside, rt_code, rt_core, rt_trace, rt_listing, rt_script, rt_run, rt_words,
// rt_devices, rt_live.
// Read next: specs/Output.antt and specs/Laws.antt, then src/pairing.rt.
#![tactic(auto)]

mod closing;
mod kept;
mod laws;
mod making;
mod pairing;
mod routes;
mod running;
mod writing;

pub use laws::pairs_are_ordered;
pub use pairing::pair;
pub use rt_live::LiveFail;
