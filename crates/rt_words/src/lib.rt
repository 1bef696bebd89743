// Pending interrupts of one or two cores as a row of atomic words. Lines in threads of their own pend and latch, and
// all calls stand in one history.
// Promises: all calls on the words lie in one legal history, and none is lost.
// Stands on: rt_ids.
// Read next: README.md, then specs/History.antt and src/line.rt.
#![tactic(auto)]

mod call;
mod line;
mod row;
mod rule;
mod tally;
mod view;
mod words;

pub use call::{Call, Entry, Pended};
pub use line::Line;
pub use row::{CORE_WORDS, ROW_WORDS};
pub use tally::Tally;
pub use view::Part;
pub use words::{Left, Words};
