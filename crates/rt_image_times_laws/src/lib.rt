// The response times of a checked image hold on every run: for every list of events in which the requests of its
// interrupts are as far apart as the limits say, each is served within what `bounds` with limits tells of its priority.
// Promises: whatever happens within the limits, each response time that is told of a checked image is met.
// Stands on: rt_lemmas, rt_ids, rt_code, rt_trace, rt_core, rt_laws, rt_points, rt_bounds, rt_safe, rt_timely, rt_rta,
// rt_image_times.
// Read next: specs/Served.antt and specs/Laws.antt, then src/laws.rt.
#![tactic(auto)]

mod laws;

pub use laws::image_times_hold;
