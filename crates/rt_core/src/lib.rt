// The core with its interrupt controller: a call is one event of the model, or several of one kind.
// Promises: a call is one event of the model, or several of one kind; a step touches at most the one cell that it
// names.
// Stands on: rt_lemmas, rt_ids, rt_actions, rt_code, rt_nvic, rt_context, rt_image_tables, rt_trace.
// Read next: specs/Stepping.antt, then src/machine.rt.
#![tactic(auto)]

pub mod alarm;
mod execution;
mod laws;
pub mod machine;
mod step;

pub use alarm::Alarm;
pub use laws::{
    events_happen_in_turn, stacks_keep_within_their_region, steps_change_their_cell_alone,
    steps_depend_on_their_load_alone, steps_have_one_cause, the_first_interrupt_is_taken,
    traces_show_their_events,
};
pub use machine::Core;
