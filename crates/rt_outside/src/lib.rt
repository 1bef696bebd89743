// Where bytes come from and go to: sources and sinks with counts of their faults, in memory and outside. A text is read
// as a whole or line by line.
// Promises: each fault is told, and only where its object counted one; what was given and taken is known to clauses.
// Stands on: rt_lemmas, rt_ids, rt_lines.
// Read next: specs/Faults.antt and specs/Bytes.antt, then src/source.rt and src/sink.rt.
#![tactic(auto)]

pub mod file_source;
pub mod lines;
pub mod mem_sink;
pub mod mem_source;
pub mod never_fails;
pub mod out_sink;
mod passed;
pub mod sink;
pub mod source;

pub use file_source::FileSource;
pub use lines::{LineSink, read_lines};
pub use mem_sink::MemSink;
pub use mem_source::MemSource;
pub use never_fails::NeverFails;
pub use out_sink::OutSink;
pub use sink::{Sink, put_all};
pub use source::{ReadFail, Source, read_text};
use thiserror::Error;

/// A read or a write failed, and the object counted it.
#[derive(Clone, Copy, Debug, PartialEq, Eq, Error)]
#[error("the outside failed")]
pub struct Failed;
