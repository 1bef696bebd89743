// The text of an image. No other listable image over the same names has it.
// Promises: different images have different texts.
// Stands on: rt_lemmas, rt_ids, rt_lines, rt_code.
// Read next: specs/Listing.antt, then src/text.rt.
#![tactic(auto)]

mod law;
mod line;
mod names;
pub mod text;

pub use law::listings_tell_images_apart;
pub use line::{op_word, push_count, push_instr, push_note, push_section, push_spaced};
pub use text::{listing, push_body, push_cell, push_first_line, push_irq};
