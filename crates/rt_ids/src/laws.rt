// Laws on numbers: priority values tell priorities, and the limits are those of the documents.

ghost use Rattle.rt_ids.specs.Limits.{TellLimits, TellFrames};
ghost use Rattle.rt_ids.specs.Priority.{TellsPriorities};

/// The priority values of the interrupt controller tell the logical priorities: they fall as the priorities rise, from
/// the value of the thread for the priority 0 to 0 for the greatest.
#[tactic(auto, using(crate::proofs::Hardware::tells_priorities))]
pub fn values_tell_priorities()
    ensures { TellsPriorities }
{}

/// The limits and the sizes of exception frames in numbers, as the documents have them.
pub fn constants_are_as_documented()
    ensures limits { TellLimits }
    ensures frames { TellFrames }
{}
