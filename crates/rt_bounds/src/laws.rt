// The laws of bounds.

ghost use Rattle.rt_bounds.specs.Laws.{BoundsReachEnds, CountedWaysAreWays, LoopsHaveNoBound};

/// Where a way comes to a loop there are ways of any number of steps, counting left aside; and no bound is told where
/// there is none.
#[tactic(auto, using(crate::proofs::Loops::loops_have_no_bound))]
pub fn loops_have_no_bound()
    ensures { LoopsHaveNoBound }
{}

/// A way on which loops turn no more often than they count is a way, and stays one where they may turn more often.
#[tactic(auto, using(crate::proofs::Fewer::counted_ways_are_ways))]
pub fn counted_ways_are_ways()
    ensures { CountedWaysAreWays }
{}

/// In a checked image a bound that is a number is that of a whole run: the longest way of `init` goes to where it
/// serves interrupts, that of a handler to its return, and that of a section to its leaving.
#[tactic(auto, using(crate::proofs::Ends::bounds_reach_ends))]
pub fn bounds_reach_ends()
    ensures { BoundsReachEnds }
{}
