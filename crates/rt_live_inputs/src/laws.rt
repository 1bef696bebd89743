ghost use Rattle.rt_live_inputs.specs.Laws.{LiveRunsAreGood, LooksFindTheLatest};

/// The word that a look finds in a mailbox is the latest that its device gave before the look.
#[tactic(auto, using(crate::proofs::Latest::find_the_latest_in_boxes))]
pub fn looks_find_the_latest()
    ensures { LooksFindTheLatest }
{}

/// Whatever the looks find: all that holds of a good image holds of its runs beside devices that give words.
pub fn live_runs_are_good()
    ensures { LiveRunsAreGood }
{}
