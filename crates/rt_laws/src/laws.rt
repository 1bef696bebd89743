// The laws of Baker's machine; each is a function whose contract states it.

ghost use Rattle.rt_laws.specs.ByItems.{FrontsAreRuns, RunsAreByItems};
ghost use Rattle.rt_laws.specs.Counts.{CountsRiseByOne};
ghost use Rattle.rt_laws.specs.Durations.{StepsTakeTime, TicksAreFew, WaitsAreShortInTime};
ghost use Rattle.rt_laws.specs.Instants.{EqualInstantsFireInOrder};
ghost use Rattle.rt_laws.specs.Messages.{RunsKeepMessages};
ghost use Rattle.rt_laws.specs.Laws.{JudgedTracesKeepLaws, RunsKeepLaws, TheHighestRuns};
ghost use Rattle.rt_laws.specs.LawsBeside.{RunsBesideKeepLaws, RunsBesideKeepMessages};
ghost use Rattle.rt_laws.specs.Preemption.{CandidateIsHighest};
ghost use Rattle.rt_laws.specs.Silent.{SilentStepsByCost};

/// The interrupt that is to be taken is the one of greatest priority that may start, and of equal ones the one with the
/// lowest number.
#[tactic(auto, using(crate::proofs::Candidate::candidate_is_highest))]
pub fn candidates_are_highest()
    ensures { CandidateIsHighest }
{}

/// Every run of an accepted application keeps sections exclusive, finds no section taken, and lets no interrupt wait
/// for more than one outermost section of one lower job, in fewer steps than the waiting bound, if in any. Each section
/// that is left is the one that the running job entered last, and no job returns, and no body ends, inside a section.
pub fn runs_keep_laws()
    ensures { RunsKeepLaws }
{}

/// Every run beside devices keeps these laws too, where a device may put a word into a local resource that no started
/// job may use.
pub fn runs_beside_keep_laws()
    ensures { RunsBesideKeepLaws }
{}

/// Every trace that is judged right keeps these laws too.
pub fn judged_traces_keep_laws()
    ensures { JudgedTracesKeepLaws }
{}

/// A run given item by item, with as many silent steps before each as the step numbers say, is a run, and the other way
/// round.
#[tactic(auto, using(crate::proofs::ByItems::runs_are_by_items))]
pub fn runs_are_by_items()
    ensures { RunsAreByItems }
{}

/// The running job, which is the last started, is the one of the greatest priority.
pub fn the_highest_runs()
    ensures { TheHighestRuns }
{}

/// How many silent steps may pass, and what they lead to, follows from the costs at once.
pub fn silent_steps_are_told_by_cost()
    ensures { SilentStepsByCost }
{}

/// The front of a run is a run.
pub fn fronts_are_runs()
    ensures { FrontsAreRuns }
{}

/// In every run, at every moment: a place is taken where one is left and refused where none is; messages start in the
/// order in which they became ready; of armed messages the least fires, not before its instant; each armed message has
/// a handle that was given, and no other armed message has it; and the places that are out are those in transit, armed
/// and ready. At each beginning of the items the counts of each task, the order of each level's starts and what is
/// armed still are so by what is shown alone. Where messages are ready and no job has the section of their queue open,
/// the dispatcher of their level is pending, or has started and is about to enter that section. Where messages are due,
/// no alarm is owed and no job has the section of the timer queue open, the same holds of the monotonic's handler. Each
/// message waits for no more than one outermost section of one lower job from its `ready` until its start, and from the
/// moment at which it is due until it fires, in fewer steps than the waiting bound, if in any.
pub fn runs_keep_messages()
    ensures { RunsKeepMessages }
{}

/// All that holds of the messages of a run holds beside devices too, where a device may put a word into a local
/// resource that no started job may use.
pub fn runs_beside_keep_messages()
    ensures { RunsBesideKeepMessages }
{}

/// Messages of one instant fire in the order in which they were last armed or moved.
pub fn equal_instants_fire_in_order()
    ensures { EqualInstantsFireInOrder }
{}

/// The time, and how many handles, moves and places there are, rise by one at most with each label of a run.
pub fn counts_rise_by_one()
    ensures { CountsRiseByOne }
{}

/// Where each core step has a duration of its own, so many steps take so many times the longest duration at most, and
/// labels that take as long have as many steps.
#[tactic(auto, using(crate::proofs::Durations::steps_take_time))]
pub fn steps_take_time()
    ensures { StepsTakeTime }
{}

/// Of the time that an interrupt waits, lower jobs take no more than the waiting bound times the longest that one core
/// step lasts.
#[tactic(auto, using(crate::proofs::Durations::waits_are_short_in_time))]
pub fn waits_are_short_in_time()
    ensures { WaitsAreShortInTime }
{}

/// Where at least so many core steps lie between two ticks, steps see as many ticks as that goes into them, and one
/// more at most; and right behind a tick no more than that.
#[tactic(auto, using(crate::proofs::Durations::ticks_are_few))]
pub fn ticks_are_few()
    ensures { TicksAreFew }
{}
