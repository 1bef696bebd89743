// The processor and the core of the model take the same interrupts, from reset on.
// Promises: where both say the same of interrupts and priorities they have one execution priority, and take the same;
// the code of reset brings them there, and what both do leaves them there; a tick is one event, and vectors lead on.
// Stands on: rt_lemmas, rt_ids, rt_code, rt_nvic, rt_core, rt_trace, rt_thumb, rt_elf, rt_native, rt_thumb_laws.
// Read next: specs/Agreeing.antt and Keeping.antt, then Setting.antt, Ticking.antt, Vectors.antt, Controller.antt.
#![tactic(auto)]

mod laws;

pub use laws::{
    entries_lead_to_their_code, it_takes_what_is_picked, reset_sets_up, text_is_loaded,
    they_keep_agreeing, they_take_the_same, ticks_are_one_event,
};
