// Requests, messages and what comes of them are served within their response times, where bodies may pend interrupts of
// hardware tasks and spawn messages.
// Promises: nothing of a handler is left within its response time from any moment on; each turn of a dispatcher is for
// a message of its own; no more places of a task are out than there is room for.
// Stands on: rt_lemmas, rt_ids, rt_actions, rt_app, rt_trace, rt_laws, rt_rta, rt_respond.
// Read next: specs/Laws.antt.
#![tactic(auto)]

pub mod laws;

pub use laws::{
    runs_cause_within, runs_come_to_nothing, runs_have_room, runs_respond_each, runs_run_each,
    runs_turn_for_messages,
};
