// Runs that are counted: a script runs on a core, and what it shows is counted, not written.
// Promises: the counts are those of what the runs show.
// Stands on: rt_ids, rt_core, rt_trace, rt_script, rt_run.
// Read next: specs/Summary.antt, then src/counting.rt.
#![tactic(auto)]

pub mod counting;
pub mod summary;

pub use counting::count_run;
pub use summary::Summary;
