// What an image costs on a Cortex-M4, in cycles: of each kind of its instructions, of a step, and of what `check`
// counts in steps.
// Promises: the text of `cycles` is the definition's, byte for byte; a step's cycles hold of every executable of the
// image. The manual's table is trusted.
// Stands on: rt_ids, rt_app, rt_code, rt_thumb, rt_native, rt_listing, rt_report.
// Read next: specs/Table.antt, then specs/Sums.antt and specs/Report.antt.
#![tactic(auto)]

mod kind;
mod laws;
mod line;
mod sums;
pub mod table;
mod text;

pub use laws::steps_hold_for_each_target;
pub use text::report;
