// Laws of traces as texts: each item has one line, and each text is read in one way.

ghost use Rattle.rt_trace.specs.Laws.{AreReadOneWay, LinesAreRead, LinesAreShort, ReadLinesAreLines, RunsAreShort};
ghost use Rattle.rt_trace.specs.Laws.{TraceLinesAreRead};

/// Each item that has a line is what its line says.
#[tactic(auto, using(crate::proofs::LinesRead::lines_read))]
pub fn lines_are_read()
    ensures { LinesAreRead }
{}

/// A line that says an item is that item's.
pub fn read_lines_are_lines()
    ensures { ReadLinesAreLines }
{}

/// Each text that is not too long is a trace's or has a first wrong line, not both, and in one way.
pub fn texts_are_read_one_way()
    ensures { AreReadOneWay }
{}

/// A text of the lines of a trace, as whole lists, is read as that trace.
#[tactic(auto, using(crate::proofs::TextsRead::trace_lines_read))]
pub fn trace_lines_are_read()
    ensures { TraceLinesAreRead }
{}

/// How long the lines of items get, and that the trace of each run is shorter than a trace text may be.
#[tactic(auto, using(crate::proofs::Lengths::lines_short, crate::proofs::Lengths::runs_short))]
pub fn lines_are_short()
    ensures lines { LinesAreShort }
    ensures runs { RunsAreShort }
{}
