// Baker's machine on an application, and the laws of its runs: sections are exclusive, no job finds one taken, and none
// waits for more than one section of one lower job.
// Promises: every run of Baker's machine keeps the laws of locks, waiting and messages.
// Stands on: rt_lemmas, rt_ids, rt_actions, rt_app, rt_trace.
// Read next: specs/State.antt, Preemption.antt and Giving.antt, then src/laws.rt.
#![tactic(auto)]

pub mod laws;

pub use laws::{
    candidates_are_highest, counts_rise_by_one, equal_instants_fire_in_order, fronts_are_runs,
    judged_traces_keep_laws, runs_are_by_items, runs_beside_keep_laws, runs_beside_keep_messages,
    runs_keep_laws, runs_keep_messages, silent_steps_are_told_by_cost, steps_take_time,
    the_highest_runs, ticks_are_few, waits_are_short_in_time,
};
