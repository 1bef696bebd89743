// The law that the depth is four bytes for each word.

ghost use Rattle.rt_context.specs.Laws.{DepthCountsTheWords};

/// The depth of frames is four bytes for each of their words.
#[tactic(auto, using(crate::proofs::Counting::depth_counts_the_words))]
pub fn depth_counts_the_words()
    ensures { DepthCountsTheWords }
{}
