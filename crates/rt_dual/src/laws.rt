// The law that posts and looks of both cores are ordered.

ghost use Rattle.rt_dual.specs.Laws.{NothingComesOfNothing, PairsAreOrdered};

/// In the one history of both cores a post comes before the look that finds it, and a look before the posts that it
/// leads to. So two posts are never each other's only cause: where neither core posts by its own events alone, no look
/// finds anything.
pub fn pairs_are_ordered()
    ensures ordered { PairsAreOrdered }
    ensures nothing { NothingComesOfNothing }
{}
