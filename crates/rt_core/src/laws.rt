// Laws of the core: what it takes, what an event does, what a step may be.

ghost use Rattle.rt_core.specs.Taken.{TakesTheFirst};
ghost use Rattle.rt_core.specs.Touching.{ChangesItsCellAlone, DependsOnItsLoadAlone};
ghost use Rattle.rt_core.specs.Laws as laws;

/// The interrupt that a core takes is, of those that it may take, the one of the highest priority, and of equal ones
/// the one of the lowest number; none is taken only where it may take none.
#[tactic(auto, using(crate::proofs::Picking::taken))]
pub fn the_first_interrupt_is_taken()
    ensures { TakesTheFirst }
{}

/// What happens to a core at each event, and at events one after another.
#[tactic(auto, using(crate::proofs::Happening::happens_by_event))]
pub fn events_happen_in_turn()
    ensures { laws.HappensByEvent }
{}

/// What a core step does, by its cause.
#[tactic(auto, using(crate::proofs::Happening::steps_by_cause))]
pub fn steps_have_one_cause()
    ensures { laws.StepsByCause }
{}

/// A core step changes no cell but the one that it stores.
#[tactic(auto, using(crate::proofs::Storing::changes_its_cell_alone))]
pub fn steps_change_their_cell_alone()
    ensures { ChangesItsCellAlone }
{}

/// What a core step does depends on memory by what it loads alone, and on the value that a leave shows.
pub fn steps_depend_on_their_load_alone()
    ensures { DependsOnItsLoadAlone }
{}

/// The trace of events from reset shows just these events.
#[tactic(auto, using(crate::proofs::Showing::shows_its_events))]
pub fn traces_show_their_events()
    ensures { laws.ShowsItsEvents }
{}

/// The stack of a runnable image keeps within its region, whatever the events.
#[tactic(auto, using(crate::proofs::Room::keeps_within_the_region))]
pub fn stacks_keep_within_their_region()
    ensures { laws.KeepsWithinTheRegion }
{}
