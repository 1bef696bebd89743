// The instructions of ARMv7-M that native code uses, and their encodings.
// Promises: the halfwords of an instruction are those of the manual's encodings, and exactly these are decoded to it.
// Stands on: rt_ids.
// Read next: specs/Encoding.antt.
#![tactic(auto)]

pub mod decoding;
pub mod encodable;
pub mod encoding;
pub mod instruction;
mod laws;

pub use decoding::decode;
pub use encodable::is_encodable;
pub use encoding::{encode, size};
pub use instruction::{Condition, Halfwords, Instruction, Operation, Special};
pub use laws::halfwords_tell_programs_apart;
