// Laws on the lines of a board: what each names, and what is wrong with one that is refused.

ghost use Rattle.rt_board.specs.Told.{LinesAreNamed};
ghost use Rattle.rt_board.specs.Wrong.{RefusedLinesAreWrong};

/// The board behind a line is the one that the line tells, and each line that tells one is right.
pub fn lines_are_named()
    ensures { LinesAreNamed }
{}

/// A line is refused for what is wrong with it.
pub fn refused_lines_are_wrong()
    ensures { RefusedLinesAreWrong }
{}
