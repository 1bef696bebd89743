// Laws on the texts of boards: a text is read in one way, and each refusal says what is wrong.

ghost use Rattle.rt_lines.specs.Reading.{IsReadOneWay};
ghost use Rattle.rt_app.specs.Tree.{App};
ghost use Rattle.rt_target.specs.Reading.{setup_reader, target_reader};
ghost use Rattle.rt_target.specs.Told.{SetupsAreNamed};
ghost use Rattle.rt_target.specs.Wrong.{RefusedLinesAreWrong};

/// Each text that is not too long tells a board or has a first wrong line, not both, and in one way.
#[tactic(auto, using(rt_lines::proofs::Reading::read_one_way))]
pub fn texts_are_read_one_way()
    ensures { (app : App) → IsReadOneWay (setup_reader app) }
{}

/// So does each text for a program.
#[tactic(auto, using(rt_lines::proofs::Reading::read_one_way))]
pub fn targets_are_read_one_way()
    ensures { (app : App) → IsReadOneWay (target_reader app) }
{}

/// What is read is what the lines tell, and each text whose lines tell something is read.
pub fn setups_are_named()
    ensures { SetupsAreNamed }
{}

/// A text is refused at a line that is wrong for the cause that is told.
pub fn refused_lines_are_wrong()
    ensures { RefusedLinesAreWrong }
{}
