// Laws of response times where bodies may pend interrupts of hardware tasks and spawn messages.

ghost use Rattle.rt_respond_laws.specs.Laws.{RunsComeToNothing, RunsRespondEach, RunsRunEach, RunsCauseWithin};
ghost use Rattle.rt_respond_laws.specs.Laws.{RunsHaveRoom};
ghost use Rattle.rt_respond_laws.specs.Turns.{RunsTurnForMessages};

/// Each turn of a dispatcher that has begun, and one that waits to begin, is for a message of its level that has become
/// ready, and no other; so no turn finds nothing to start.
pub fn runs_turn_for_messages()
    ensures { RunsTurnForMessages }
{}

/// Where requests from outside keep the limits, and no job's cost is spent before it ends, from every moment behind the
/// end of `init` a moment comes within the response time of a handler at which nothing is left of it: no started job is
/// at it, no interrupt of a handler at it is pending, and no message is ready whose dispatcher is at it.
pub fn runs_come_to_nothing()
    ensures { RunsComeToNothing }
{}

/// So each request, from outside or of a body, is served within the response time of its interrupt's own handler; and
/// where the report says neither `never` nor `merge` of an interrupt, no request from outside finds it pending.
pub fn runs_respond_each()
    ensures { RunsRespondEach }
{}

/// Each message is started and done within the response time of its level's dispatcher, counted from the moment at
/// which it becomes ready, and of a message of `init` from its end.
pub fn runs_run_each()
    ensures { RunsRunEach }
{}

/// What comes of a request from outside by a chain of jobs, each of which asks for the next, is done within the
/// response time of the handler that stands last on the paths between the two, counted from the request.
pub fn runs_cause_within()
    ensures { RunsCauseWithin }
{}

/// No more places of a task are out at any moment than the report says that it has room for, and where the task has as
/// many places, no spawn finds it full.
pub fn runs_have_room()
    ensures { RunsHaveRoom }
{}
