// Tables of cases as data: reads a file of cases, each with a name and parts. Programs of tests run on them.
// Promises: nothing is proved of cases: what is read is compared by those who use it.
// Stands on: nothing but the library.
// Read next: src/case.rt.
#![tactic(auto)]

pub mod case;
mod escape;
mod line;
pub mod unread;

pub use case::{Case, cases};
pub use unread::Unread;
