// What the seven rules give to a listing made elsewhere: an image that keeps them is safe for every list of events.
// Promises: a checked image is safe for every list of events, and a core runs it.
// Stands on: rt_lemmas, rt_ids, rt_app, rt_code, rt_core, rt_trace, rt_laws, rt_points.
// Read next: specs/Safe.antt, then proofs/Safe.antt.
#![tactic(auto)]

pub mod laws;

pub use laws::{checked_images_are_safe, checked_images_run};
