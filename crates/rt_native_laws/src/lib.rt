// Laws of native code: each sequence of machine instructions does what its instruction does, and, but for `alarm`,
// others see at most one machine instruction of it; what is private to a job is not disturbed by others.
// Promises: each kind of instruction is done, run alone; so are a tick's handler, and what an entry leads to. From
// reset on, native code does what its image does, event after event, where that behaves well; and so does a program
// that is linked with functions of C, beside these.
// Stands on: rt_lemmas, rt_ids, rt_code, rt_core, rt_trace, rt_thumb, rt_native, rt_thumb_laws, rt_priorities.
// Read next: specs/Own.antt, Standing.antt, Doing.antt, then src/laws.rt; of the whole, specs/Simulating.antt.
#![tactic(auto)]

mod laws;

pub use laws::{
    accesses_are_done, alarms_are_done, alarms_are_owed, alarms_are_steps,
    alarms_change_no_other_step, calls_are_done, calls_go_on, each_kind_goes_on,
    entries_are_undone, entries_lead_on, events_are_steps, every_list_is_simulated,
    files_are_programs, functions_come_first, inputs_are_read, instructions_lead_on, jobs_leave,
    jobs_wait, jumps_are_done, linked_code_is_there, linked_simulates, loaded_code_is_there,
    masks_are_done, moves_are_done, native_simulates, native_simulates_from_reset,
    openings_are_done, others_are_left, phases_are_kept, private_is_unseen, requests_are_done,
    requests_come, requests_lead_on, reset_leads, returns_are_done, stack_is_no_deeper,
    ticks_are_served, words_are_kept,
};
