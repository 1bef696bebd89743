// Laws of the seven rules: an image is checked or has one least broken rule.

ghost use Rattle.rt_points.specs.Constants.{TellBounds};
ghost use Rattle.rt_points.specs.Laws.{IsJudgedOneWay};

/// No checked image has a least broken rule, and no image has two.
#[tactic(auto, using(crate::proofs::Judged::judged_one_way))]
pub fn images_are_judged_one_way()
    ensures { IsJudgedOneWay }
{}

/// How many sections may be open, and how great a stack region may be, in numbers, as the documents have them.
pub fn constants_are_as_documented()
    ensures { TellBounds }
{}
