// What the images of `build` give to the laws of native code, and what the processor does with their programs.
// Promises: the image that `build` makes of an accepted application lies well, part by part, and behaves well, also
// beside devices that write local resources of its hardware tasks; and its program does on the processor what it does,
// beside functions of C too.
// Stands on: rt_lemmas, rt_ids, rt_actions, rt_app, rt_code, rt_trace, rt_core, rt_laws, rt_gen_queue, rt_gen_timer,
// rt_gen_body, rt_gen_disp, rt_build, rt_points, rt_sim, rt_board, rt_given, rt_inputs, rt_thumb, rt_native,
// rt_priorities, rt_native_laws.
// Read next: specs/Running.antt, then specs/Laws.antt and specs/Lying.antt.
#![tactic(auto)]

pub mod laws;

pub use laws::{
    files_run_as_images, images_behave, images_lie_well, linked_programs_run_as_images,
    programs_run_as_images,
};
