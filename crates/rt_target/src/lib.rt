// Texts of boards: the inputs, and what a program for the chip takes: its memories, its port and the like.
// Promises: exact: what a text tells, or its first wrong line; and whether all is told that a program takes.
// Stands on: rt_lemmas, rt_ids, rt_lex, rt_lines, rt_script, rt_app, rt_board, rt_given.
// Read next: specs/Chip.antt and specs/Wording.antt, then src/reading.rt.
#![tactic(auto)]

mod adding;
mod bound;
pub mod fact;
pub mod laws;
mod line;
mod number;
mod place;
mod reading;
pub mod refusal;
pub mod setup;

pub use fact::Fact;
pub use laws::{
    refused_lines_are_wrong, setups_are_named, targets_are_read_one_way, texts_are_read_one_way,
};
pub use place::line_number;
pub use reading::{read_setup, read_target};
pub use refusal::{Cause, SetupRefused, refusal_text};
pub use setup::Setup;
