// The interrupt controller: which interrupts are enabled, pending and active, and which one is taken.
// Promises: of the interrupts that may be taken the most urgent is picked, of equal ones the lowest number.
// Stands on: rt_lemmas, rt_ids.
// Read next: specs/Nvic.antt, then src/nvic.rt.
#![tactic(auto)]

mod bits;
mod keys;
pub mod nvic;
pub mod sizes;

pub use nvic::Nvic;
