// Laws of sums of cycles.

ghost use Rattle.rt_cycles.specs.Laws.{StepsHoldForEachTarget};

/// In the program of an image for any target each instruction costs no more cycles than a step at most.
pub fn steps_hold_for_each_target()
    ensures { StepsHoldForEachTarget }
{}
