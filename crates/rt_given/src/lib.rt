// Scripts beside devices: what happens to a core, and which words devices give, line by line.
// Promises: exact: the script beside devices of a text, or its first wrong line.
// Stands on: rt_lemmas, rt_ids, rt_lines, rt_script, rt_app, rt_board.
// Read next: specs/Given.antt and specs/Wording.antt, then src/reading.rt.
#![tactic(auto)]

mod device;
mod input;
pub mod laws;
pub mod line;
mod reading;
pub mod refusal;
pub mod script;
pub mod source;
mod words;

pub use input::{irq_of, is_for};
pub use laws::{texts_are_read_one_way, words_are_drawn, words_count_up};
pub use line::GivenLine;
pub use reading::read_given;
pub use refusal::{Cause, GivenRefused, refusal_text};
pub use script::GivenScript;
pub use source::Source;
pub use words::input_named;
