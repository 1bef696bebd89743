// The lines and words of a text, the numbers that words spell, and refusals at a line.
// Promises: a text is read in one way or has a first wrong line; what a table of words writes is read again.
// Stands on: rt_lemmas, rt_ids.
// Read next: specs/Reading.antt, specs/Refusal.antt and specs/Table.antt, then src/operand.rt.
#![tactic(auto)]

pub mod number;
pub mod operand;
pub mod operands;
pub mod part;
pub mod refusal;
pub mod word;

pub use number::{all_digits, number_below, short_number};
pub use operand::{Operand, Wrong, read_byte, read_first_irq, read_lock, read_number, read_queue};
pub use operands::{both, none, one, three, two};
pub use part::{cut, first_line, next_word};
pub use refusal::{TextRefused, refusal_text};
pub use word::next_spaced_word;
