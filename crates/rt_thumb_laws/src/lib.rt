// Laws of the processor alone: exceptions and what they interrupt, which one is taken, late recognition, what leaves
// the interrupt controller's registers, and what nothing disturbs.
// Promises: an exception's return gives back what its entry interrupted; the first of those that may be taken is taken.
// Stands on: rt_lemmas, rt_ids, rt_thumb.
// Read next: specs/Interrupting.antt and Taking.antt, then Registers.antt, Late.antt and Undisturbed.antt.
#![tactic(auto)]

mod laws;

pub use laws::{
    entries_write_their_frame, late_is_plain, leave_is_given_by_writes, registers_are_kept,
    returns_give_back, the_first_is_taken, ticks_come_first, what_runs_at_top_is_undisturbed,
};
