// Boards: which local resources of an application a device writes, and the line that names one.
// Promises: exact: the board behind a line, or what is wrong with the line; lines name each input once.
// Stands on: rt_lemmas, rt_ids, rt_lines, rt_script, rt_app.
// Read next: specs/Board.antt, then specs/Told.antt and src/adding.rt.
#![tactic(auto)]

mod adding;
pub mod board;
pub mod laws;
mod line;
pub mod refusal;

pub use adding::add_line;
pub use board::{Board, Input};
pub use laws::{lines_are_named, refused_lines_are_wrong};
pub use refusal::Cause;
