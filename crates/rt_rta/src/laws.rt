// Laws of response times: requests that keep the limits are served in time.

ghost use Rattle.rt_lines.specs.Reading.{IsReadOneWay};
ghost use Rattle.rt_app.specs.Tree.{App};
ghost use Rattle.rt_rta.specs.ByClock.{ResponseTimesHoldByClock};
ghost use Rattle.rt_rta.specs.Constants.{TellSteps};
ghost use Rattle.rt_rta.specs.Laws.{OnceInitEndsSaysMore, RunsRespond, RunsRespondOnceInitEnds};
ghost use Rattle.rt_rta.specs.Text.{limits_reader};

/// The greatest response time that is looked for in numbers, as the documents have it.
pub fn constants_are_as_documented()
    ensures { TellSteps }
{}

/// Each text that is not too long tells limits or has a first wrong line, not both, and in one way.
#[tactic(auto, using(rt_lines::proofs::Reading::read_one_way))]
pub fn texts_are_read_one_way()
    ensures { (app : App) → IsReadOneWay (limits_reader app) }
{}

/// Where requests keep the limits, and no job's cost is spent before it ends, each request of an interrupt is served
/// within the response time of its priority.
pub fn runs_respond()
    ensures { RunsRespond }
{}

/// Requests may also come during `init`: where they keep the limits once `init` ends, each request behind its end is
/// served within the response time of its priority, and what was requested during `init` is served within it from the
/// end on.
pub fn runs_respond_once_init_ends()
    ensures { RunsRespondOnceInitEnds }
{}

/// Where nothing is requested before `init` ends, that asks for no more than `runs_respond`, and says no less.
pub fn once_init_ends_says_more()
    ensures { OnceInitEndsSaysMore }
{}

/// Where no core step lasts longer than so many cycles or microseconds, requests whose distances are kept in steps of
/// that duration keep the limits, and each is served within the response time in such steps.
#[tactic(auto, using(crate::proofs::ByClock::response_times_hold_by_clock))]
pub fn response_times_hold_by_clock()
    ensures { ResponseTimesHoldByClock }
{}
