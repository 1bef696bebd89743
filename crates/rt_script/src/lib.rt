// Scripts: what happens to a core, line by line, and how a text says it.
// Promises: exact: the script of a text or its first wrong line; the script of a number and a stream.
// Stands on: rt_lemmas, rt_ids, rt_lines.
// Read next: specs/Script.antt, then src/reading.rt.
#![tactic(auto)]

mod generating;
pub mod laws;
pub mod line;
mod reading;
pub mod refusal;
pub mod script;
mod words;

pub use generating::generated;
pub use laws::texts_are_read_one_way;
pub use line::Line;
pub use reading::{first_line, read_script};
pub use refusal::ScriptRefused;
pub use script::Script;
pub use words::{Wrong, is_blank, is_comment, is_loose, read_line};
