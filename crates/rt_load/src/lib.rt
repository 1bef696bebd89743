// Listings that something else made: each is read as the image whose listing it is, or refused at its first wrong line.
// Promises: exact: the image of a listing, or its first wrong line.
// Stands on: rt_lemmas, rt_ids, rt_lines, rt_code, rt_listing, rt_trace, rt_points, rt_judge, rt_safe.
// Read next: specs/Reading.antt, then src/loading.rt.
#![tactic(auto)]

mod coding;
mod declaring;
mod front;
mod laws;
mod loading;
mod noting;
mod operand;
mod printed;
pub mod refusal;
mod rows;
mod verifying;

pub use laws::{constants_are_as_documented, texts_are_read_one_way};
pub use loading::load;
pub use refusal::{IMAGE_BYTES, LoadRefused};
pub use rt_judge::Verified;
pub use verifying::verify;
