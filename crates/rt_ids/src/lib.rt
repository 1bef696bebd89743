// The names and numbers that every crate of rtic speaks of: interrupts, priorities, tasks, sections, limits, statuses.
// Promises: limits and frame sizes are the documented numbers; a name, a number and a priority are within their limits.
// Stands on: nothing but the library.
// Read next: src/ids.rt and src/refusal.rt.
#![tactic(auto)]

pub mod cell;
pub mod exception;
pub mod ids;
pub mod irq;
pub mod laws;
pub mod limit;
pub mod limits;
pub mod memory;
pub mod name;
pub mod names;
pub mod op;
pub mod place;
pub mod priority;
pub mod refusal;
pub mod rule;
pub mod status;
pub mod text;
pub mod word;

pub use cell::CellRow;
pub use exception::{BASIC_FRAME_WORDS, EXTENDED_FRAME_WORDS, entry_words};
pub use ids::{BodyId, ResId, Section, TaskId};
pub use irq::Irq;
pub use laws::{constants_are_as_documented, values_tell_priorities};
pub use limit::Limit;
pub use memory::NoMemory;
pub use name::Name;
pub use names::Names;
pub use op::Op;
pub use place::Place;
pub use priority::Prio;
pub use refusal::{Fault, Refusal, Refused};
pub use rule::Rule;
pub use status::Status;
pub use text::{push_bytes, push_number};
pub use word::{is_identifier, is_letter, is_name, is_name_byte, is_word};
