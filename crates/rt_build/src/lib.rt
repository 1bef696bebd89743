// From the text of an application to the application, and on to its image.
// Promises: exact: the application of a text or its first refusal; an image of it, one and the same each time.
// Stands on: rt_lemmas, rt_ids, rt_actions, rt_ast, rt_grammar, rt_parse, rt_app, rt_resolve, rt_rules, rt_code,
// rt_frames, rt_layout, rt_gen_queue, rt_gen_timer, rt_gen_body, rt_gen_disp.
// Read next: specs/Image.antt, then src/image.rt.
#![tactic(auto)]

pub(crate) mod bodies;
pub(crate) mod code;
pub mod image;
pub mod laws;
pub(crate) mod tables;
pub mod text;
pub mod tree;

pub use image::build;
pub use laws::{
    code_that_stands_keeps_its_laws, fixed_code_has_one_image, images_exist, one_image_is_built,
};
pub use text::accept;
pub use tree::judge;
