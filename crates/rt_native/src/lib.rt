// From an image to a program of ARMv7-M instructions, and its executable, or an object for a linker.
// Promises: the bytes are those of the definitions, sequence by sequence, or a refusal that is exact.
// Stands on: rt_lemmas, rt_ids, rt_code, rt_thumb, rt_elf.
// Read next: specs/Sequences.antt and specs/Layout.antt, then src/assembling.rt.
#![tactic(auto)]

pub mod assembling;
mod calculation;
mod frames;
mod laws;
mod layout;
mod object;
pub mod opening;
pub mod outside;
mod pieces;
mod program;
pub mod sequence;
pub mod service;
mod symbols;
pub mod target;

pub use assembling::native;
pub use laws::code_has_its_places;
pub use opening::push_stub;
pub use outside::Outside;
pub use sequence::push_sequence;
pub use service::{push_tick, timer_irq};
pub use target::{Input, Region, Target, Unfit};
