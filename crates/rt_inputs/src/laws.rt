// Laws on runs with inputs: which words are put, that such runs are good, and what their traces show.

ghost use Rattle.rt_inputs.specs.Laws.{InputsAreUnused, GivenWordsAreFree, RunsWithInputsAreGood, TakesLeaveCells};
ghost use Rattle.rt_inputs.specs.Runs.{RunsWithInputsAreShown, RunsWithoutInputsAreRuns};

/// Where the interrupt of a hardware task is to be taken, no started job may use what devices write for the task.
pub fn inputs_are_unused_at_a_take()
    ensures { InputsAreUnused }
{}

/// Devices put words only where no started job may use them.
pub fn words_are_free()
    ensures { GivenWordsAreFree }
{}

/// Whatever devices give, and whenever: all that holds of a good image holds of its runs with inputs.
pub fn runs_with_inputs_are_good()
    ensures { RunsWithInputsAreGood }
{}

/// A word that is put behind a core step that takes an interrupt is as one that is put before it.
pub fn takes_leave_cells()
    ensures { TakesLeaveCells }
{}

/// The text of a run with inputs is that of a run of Baker's machine beside devices, which put the words that the
/// script gives.
pub fn runs_with_inputs_are_shown()
    ensures { RunsWithInputsAreShown }
{}

/// On a board without inputs the text of a run is that of the run of its script.
pub fn runs_without_inputs_are_runs()
    ensures { RunsWithoutInputsAreRuns }
{}
