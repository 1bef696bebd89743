// Mailboxes: a word that a device gives together with its request, in one atomic step, and that a core takes together
// with it. All gives and takes stand in one history.
// Promises: all gives and takes of a mailbox make one legal history; a take finds the latest word given, or none.
// Stands on: rt_ids.
// Read next: specs/History.antt and specs/Latest.antt, then src/mailbox.rt.
#![tactic(auto)]

mod call;
mod giver;
pub mod laws;
mod mailbox;
mod rule;
mod taker;
mod view;
mod waiting;

pub use call::{Call, Given};
pub use giver::Giver;
pub use laws::{takes_find_nothing_twice, takes_find_the_latest};
pub use mailbox::{Left, Mailbox};
pub use taker::Taker;
