// Response times of a checked image, whatever made it, for least distances between requests of its interrupts.
// Promises: exact: the limits of a text, or its first wrong line; each response time, or why there is none.
// Stands on: rt_lemmas, rt_ids, rt_lines, rt_app, rt_frames, rt_code, rt_listing, rt_script, rt_rta, rt_points,
// rt_bounds.
// Read next: specs/Limits.antt and specs/Response.antt, then src/search.rt.
#![tactic(auto)]

pub mod form;
mod laws;
mod line;
pub mod load;
pub mod needed;
mod reading;
pub mod response;
mod search;
mod text;

pub use form::requests_itself;
pub use laws::{image_limits_are_read_one_way, one_response_time};
pub use reading::read_image_limits;
pub use response::{Response, TimeBound};
pub use search::times;
pub use text::times_text;
