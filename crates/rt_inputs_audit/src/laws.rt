// The laws of traces with inputs.

ghost use Rattle.rt_inputs_audit.specs.Laws.{AreReadOneWay, RunsGiveInputs, RunsWithInputsAreRight};
ghost use Rattle.rt_inputs_audit.specs.Laws.{WrittenLinesAreRead};

/// Each text that is not too long is read as one trace with inputs, or has one first wrong line.
pub fn texts_are_read_one_way()
    ensures { AreReadOneWay }
{}

/// Devices put words just before each take into the inputs of its task, in the order of the board, and nowhere else.
pub fn runs_give_inputs()
    ensures { RunsGiveInputs }
{}

/// What a run with inputs shows is judged right.
pub fn runs_with_inputs_are_right()
    ensures { RunsWithInputsAreRight }
{}

/// The lines of a run with inputs, behind a listing and with a total, are read as what they show.
pub fn written_lines_are_read()
    ensures { WrittenLinesAreRead }
{}
