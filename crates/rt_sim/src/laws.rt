// The theorem: every image of an accepted application is good; and what follows from it.

ghost use Rattle.rt_sim.specs.Beside.{ImagesAreGoodBeside};
ghost use Rattle.rt_sim.specs.Good.{CountsOfFewFit, ImagesAreGood};
ghost use Rattle.rt_sim.specs.Responding.{ImagesRespond, ImagesRespondOnceInitEnds};
ghost use Rattle.rt_sim.specs.Unspent.{ImagesLeaveSteps};

/// Every image of an accepted application is good: for each list of events in which only declared interrupts arrive,
/// and where there is a monotonic with fewer than 2^31 ticks and armings, the trace is a run of Baker's machine that
/// shows just these events, sections are exclusive and no lock is found taken, messages start and fire in order and are
/// served, waiting and stack keep within the printed bounds, no job's cost is spent before it ends, nothing traps, and
/// each access to a shared resource is made where it may be.
pub fn images_are_good()
    ensures { ImagesAreGood }
{}

/// All that holds of a good image holds beside devices too, which may put words between events into the cells of local
/// resources that no started job may use: Baker's machine takes the same words, whatever they are.
pub fn images_are_good_beside()
    ensures { ImagesAreGoodBeside }
{}

/// Ticks and armings of fewer than 2^31 events are fewer than 2^31: each event is one tick or shows one arming at most.
pub fn counts_of_few_fit()
    ensures { CountsOfFewFit }
{}

/// In every trace of an image of an accepted application, at every moment, each started job has a core step of its cost
/// left, the thread that waits aside.
pub fn images_leave_steps()
    ensures { ImagesLeaveSteps }
{}

/// In every trace of an image of an accepted application whose requests keep limits, each of them is served within the
/// response time of its priority, which `times` prints.
pub fn images_respond()
    ensures { ImagesRespond }
{}

/// Where requests may also come during `init`, those behind its end keep limits, and so do the end and what was
/// requested before it, each request is served within the response time of its priority, and what was requested during
/// `init` within it from the end on.
pub fn images_respond_once_init_ends()
    ensures { ImagesRespondOnceInitEnds }
{}
