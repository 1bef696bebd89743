// Compiled code: instructions with their notes, the image that a core runs, and what one instruction does.
// Promises: one instruction does what the definition says; the laws of correct code are lemmas here.
// Stands on: rt_lemmas, rt_ids, rt_actions.
// Read next: specs/Effect.antt, then specs/Standing.antt: what it is for code to be correct.
#![tactic(auto)]

pub mod execution;
pub mod image;
pub mod instr;
mod laws;
pub mod processor;

pub use execution::execute;
pub use image::{BodyRow, Handler, Image, IrqRow};
pub use instr::{Instr, Line, Note};
pub use laws::{effect_is_done, names_are_writable};
pub use processor::{Registers, Request, Trap};
