// The law that bounds hold.

ghost use Rattle.rt_timely.specs.InTime.{JobsEndInTime, SectionsEndInTime, StackIsEnough};
ghost use Rattle.rt_timely.specs.Told.{RunsAreTold, WaitsAreTold};
ghost use Rattle.rt_timely.specs.Waiting.{NoneWaitsOnceStarted, WaitsAreShort};

/// What `bounds` tells of a checked image holds on every run, for every list of events.
pub fn bounds_hold()
    // `init` and each handler that is taken end by their last step at the latest.
    ensures jobs { JobsEndInTime }
    // So does each section that is entered.
    ensures sections { SectionsEndInTime }
    // An interrupt waits for lower jobs in one section alone, and no longer than is told.
    ensures waits { WaitsAreShort }
    // Once it is taken, it waits for none.
    ensures started { NoneWaitsOnceStarted }
    // No more bytes of the stack are in use than are told.
    ensures stack { StackIsEnough }
{}

/// `bounds` tells of all that a run shows: a line of each job, of each section, and of each wait.
pub fn bounds_tell_all()
    ensures runs { RunsAreTold }
    ensures waits { WaitsAreTold }
{}
