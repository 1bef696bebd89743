// The law that a script is read in one way.

ghost use Rattle.rt_ids.specs.Names.{Names};
ghost use Rattle.rt_lines.specs.Reading.{IsReadOneWay};
ghost use Rattle.rt_script.specs.Text.{script_reader};

/// Each text that is not too long is a script's or has a first wrong line, not both, and in one way.
#[tactic(auto, using(rt_lines::proofs::Reading::read_one_way))]
pub fn texts_are_read_one_way()
    ensures { (names : Names) → IsReadOneWay (script_reader names) }
{}
