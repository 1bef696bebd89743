// The law that a canonical text is read as its tree again.

ghost use Rattle.rt_print.specs.ReadsBack.{CanonicalTextsAreReadAsTheirTrees};

/// The tokens of a printable tree's canonical text are in the grammar as the same tree, offsets aside, and pass no
/// limit. Where the text is no longer than a text may be, it is read as the tree again.
pub fn canonical_texts_are_read_as_their_trees()
    ensures { CanonicalTextsAreReadAsTheirTrees }
{}
