// Laws of accepted applications: costs are sums, the documented numbers hold, and each is sound.

ghost use Rattle.rt_app.specs.Acceptance.{AcceptedAreSound};
ghost use Rattle.rt_app.specs.Constants.{TellCosts, TellUnknown};
ghost use Rattle.rt_app.specs.Steps.{CapSteps};

/// Costs and sizes are plain sums over statements, up to the cap at which they stop.
#[tactic(auto, using(crate::proofs::Capping::cap_steps))]
pub fn costs_are_capped_sums()
    ensures { CapSteps }
{}

/// What code takes, in numbers, as the documents have them; and the number of a name that is not declared, which no
/// declared interrupt, task or resource has.
pub fn costs_are_as_documented()
    ensures costs { TellCosts }
    ensures unknown { TellUnknown }
{}

/// An application that is accepted can be run: its bodies use what they may, as they may; they are short; and nothing
/// that serves interrupts, guards resources or holds the stack is missing or used for two things.
#[tactic(auto, using(crate::proofs::Sound::accepted_are_sound))]
pub fn accepted_applications_are_sound()
    ensures { AcceptedAreSound }
{}
