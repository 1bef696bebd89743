// Response times of each task, where bodies pend interrupts and spawn messages, and what comes of requests.
// Promises: exact limits, refusals and response times.
// Stands on: rt_lemmas, rt_ids, rt_lines, rt_app, rt_ceil, rt_frames, rt_script, rt_rta.
// Read next: specs/Work.antt, specs/Blocking.antt and specs/Response.antt, then src/response.rt.
#![tactic(auto)]

pub mod answer;
mod blocking;
mod dispatcher;
pub mod form;
pub mod handler;
pub mod limits;
pub mod line;
mod load;
pub mod number;
mod path;
mod pend;
mod reading;
pub mod refusal;
pub mod report;
pub mod response;
mod room;
pub mod text;
mod work;

pub use answer::{Answer, answer_of};
pub use form::is_of_form;
pub use limits::{Deadline, Delay, Limits};
pub use reading::read_limits;
pub use refusal::{Cause, LimitsRefused, refusal_text};
pub use report::{Report, respond};
pub use response::Response;
pub use text::report_text;
