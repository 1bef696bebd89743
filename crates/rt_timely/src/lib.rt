// The bounds of a checked image hold on every run: for every list of events no job, no section, no waiting and no stack
// exceeds what `bounds` tells of it.
// Promises: whatever happens, each number that `bounds` tells of a checked image is kept.
// Stands on: rt_lemmas, rt_ids, rt_code, rt_trace, rt_core, rt_laws, rt_points, rt_bounds, rt_safe.
// Read next: specs/Watching.antt, specs/InTime.antt and specs/Waiting.antt, then src/laws.rt.
#![tactic(auto)]

mod laws;

pub use laws::{bounds_hold, bounds_tell_all};
