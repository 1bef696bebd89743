// Response times of applications whose interrupts come from outside alone, for least distances between requests.
// Promises: exact response times; requests that keep the limits are served within them.
// Stands on: rt_lemmas, rt_ids, rt_actions, rt_lines, rt_app, rt_ceil, rt_frames, rt_trace, rt_laws, rt_script.
// Read next: specs/Response.antt and specs/Kept.antt, then src/search.rt.
#![tactic(auto)]

pub mod laws;
pub mod limits;
pub mod line;
pub mod load;
mod reading;
pub mod refusal;
pub mod response;
pub mod search;
pub mod text;

pub use laws::{
    constants_are_as_documented, once_init_ends_says_more, response_times_hold_by_clock,
    runs_respond, runs_respond_once_init_ends, texts_are_read_one_way,
};
pub use limits::{Limit, Limits};
pub use reading::read_limits;
pub use refusal::LimitsRefused;
pub use response::ResponseTime;
pub use search::times;
pub use text::report;
