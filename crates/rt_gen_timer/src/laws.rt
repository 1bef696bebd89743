// The laws that the code of the calls and of the timer handler stands.

ghost use Rattle.rt_gen_timer.specs.TimerCalls.{AftersStand, CancelsStand, MovesStand, TimersStand};

/// The code of a `spawn_after`, wherever it stands in a body of an accepted application, does what a `spawn_after` has
/// to do, within its cost and its section's, and leaves what the job has as it was.
pub fn afters_stand()
    ensures { AftersStand }
{}

/// The code of a `cancel`, wherever it stands in a body of an accepted application, takes the armed message of the
/// handle back and frees its place, or finds none, within its cost; and what the job has is as it was.
pub fn cancels_stand()
    ensures { CancelsStand }
{}

/// The code of a `reschedule_after`, wherever it stands in a body of an accepted application, puts the armed message of
/// the handle to another instant, or finds none, within its cost; and what the job has is as it was.
pub fn moves_stand()
    ensures { MovesStand }
{}

/// The code of the timer handler of an accepted application, from a frame with any words, makes the due message ready
/// or sets the alarm alone, within its cost and its section's, and gives back what its priority keeps.
pub fn timers_stand()
    ensures { TimersStand }
{}
