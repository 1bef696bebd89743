// The law of witnesses.

ghost use Rattle.rt_why.specs.Laws.{WitnessesRefute};

/// Where there is a witness, the image does not keep the witness's rule, and is not checked.
#[tactic(auto, using(crate::proofs::Refuting::witnesses_refute))]
pub fn witnesses_refute()
    ensures { WitnessesRefute }
{}
