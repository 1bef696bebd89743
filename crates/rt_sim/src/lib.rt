// Good images: whatever happens to a core that runs an image, what it shows is a run of Baker's machine on the
// application, within the stack bound, without a trap, and with shared resources touched only where they may be. A core
// with such an image, which runs scripts.
// Promises: the theorem: every image of an accepted application is good.
// Stands on: rt_lemmas, rt_ids, rt_actions, rt_app, rt_code, rt_trace, rt_core, rt_run, rt_laws, rt_gen_queue,
// rt_gen_body, rt_build, rt_rta.
// Read next: specs/Good.antt, then proofs/Good.antt from its end backwards.
#![tactic(auto)]

pub mod laws;
pub mod machine;

pub use laws::{
    counts_of_few_fit, images_are_good, images_are_good_beside, images_leave_steps, images_respond,
    images_respond_once_init_ends,
};
pub use machine::prepare;
pub use rt_run::run_script;
