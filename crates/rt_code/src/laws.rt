// Laws of instructions, of written names, and of correct code.

ghost use Rattle.rt_code.specs.Laws.{EffectIsDone};
ghost use Rattle.rt_code.specs.Listable.{NamesAreWritable};

/// The effect of an instruction is what it does, where its cells and its slots are there.
#[tactic(auto, using(crate::proofs::Done::effect_is_done))]
pub fn effect_is_done()
    ensures { EffectIsDone }
{}

/// Names are written so that they can be told apart: what the type of names keeps is enough.
#[tactic(auto, using(crate::proofs::Writable::names_writable))]
pub fn names_are_writable()
    ensures { NamesAreWritable }
{}
