// Running a script on a core: each event of the script happens to the core, and the lines of what it shows go out while
// it runs.
// Promises: the text of the core's trace is written as it comes, without memory; where the sink fails, a beginning of
// it.
// Stands on: rt_lemmas, rt_ids, rt_lines, rt_outside, rt_code, rt_core, rt_script, rt_trace.
// Read next: specs/Written.antt, then src/script.rt.
#![tactic(auto)]

mod event;
mod numbers;
pub mod script;
pub mod sending;
pub mod writing;

pub use numbers::numbers_fit;
pub use script::run_script;
pub use sending::{send_pend, send_tick};
pub use writing::put_end;
