ghost use Rattle.rt_values.specs.Latest.{TakesFindNothingTwice, TakesFindTheLatest};

/// The word that a take finds was given by the call right before it: no later give and no other take stands between.
#[tactic(auto, using(crate::proofs::Latest::find_the_latest))]
pub fn takes_find_the_latest()
    ensures { TakesFindTheLatest }
{}

/// Right before a take that finds no word stands another take, or no call at all: no give has come since.
#[tactic(auto, using(crate::proofs::Latest::find_nothing_twice))]
pub fn takes_find_nothing_twice()
    ensures { TakesFindNothingTwice }
{}
