// The law that labels show their events.

ghost use Rattle.rt_trace.specs.Shown.{ShowTheirEvents};

/// The items of labels show just the events that the labels come from, where no step shows the item of an arrival
/// or of a tick.
#[tactic(auto, using(crate::proofs::LabelsShown::show_their_events))]
pub fn labels_show_their_events()
    ensures { ShowTheirEvents }
{}
