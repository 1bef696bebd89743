// Many runs of an application, shared out to worker threads, counted as one thread would count them; and the
// demonstration application, as large as it is asked for.
// Promises: the six counts of a soak are those of one good image, whatever the number of workers; one text for each
// number, byte by byte.
// Stands on: rt_lemmas, rt_ids, rt_app, rt_build, rt_code, rt_core, rt_trace, rt_script, rt_count, rt_sim.
// Read next: specs/Soak.antt, then src/soaking.rt; specs/Demo.antt.
#![tactic(auto)]

pub mod demo_text;
mod run;
mod share;
pub mod soaking;

pub use demo_text::demo;
pub use rt_count::Summary;
pub use soaking::soak;
