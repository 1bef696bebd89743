// Laws of encodings.

ghost use Rattle.rt_thumb.specs.Laws.{ProgramsTellApart};

/// Lists of instructions that differ have halfwords that differ.
#[tactic(auto, using(crate::proofs::Starts::programs_tell_apart))]
pub fn halfwords_tell_programs_apart()
    ensures { ProgramsTellApart }
{}
