// The items of a trace: what a run of a core shows, with the number of core steps before each.
// Promises: an item has one line and a line one item; a text is a trace or has a first wrong line.
// Stands on: rt_lemmas, rt_ids, rt_lines.
// Read next: specs/Words.antt, then src/reader.rt.
#![tactic(auto)]

pub mod args;
pub mod buffer;
pub mod item;
pub mod labels;
pub mod laws;
mod lined;
mod names;
pub mod reader;
mod reading;
pub mod refusal;
mod row;
mod text;
pub mod trace;

pub use args::Args;
pub use buffer::{BUFFER_BYTES, LINE_BYTES, LineBuffer};
pub use item::{Item, What};
pub use labels::labels_show_their_events;
pub use laws::{
    lines_are_read, lines_are_short, read_lines_are_lines, texts_are_read_one_way,
    trace_lines_are_read,
};
pub use lined::has_line;
pub use reader::TraceReader;
pub use reading::read_trace;
pub use refusal::TraceRefused;
pub use text::line;
pub use trace::Trace;
