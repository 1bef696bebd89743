// The reader of traces with inputs, line by line.

ghost use Rattle.std.specs.Prelude.{◌≡◌, Some, None, Err, IfOk, IfErr, OnErr, option_map};
ghost use Rattle.rt_lines.specs.Answers.{and_make};
ghost use Rattle.rt_lines.specs.declared.operand.Wrong.{Wrong};
ghost use Rattle.rt_app.specs.View.{app_of};
ghost use Rattle.rt_trace.specs.Reader.{refusal_of};
ghost use Rattle.rt_trace.specs.Reading.{missing, total_of};
ghost use Rattle.rt_trace.specs.declared.reader.Phase.TheVariants as phase;
ghost use Rattle.rt_inputs_audit.specs.Reading as spec;

use crate::line::{TraceLine, read_input};
use crate::refusal::Cause;
use rt_app::App;
use rt_board::Board;
use rt_ids::Names;
use rt_trace::{TraceReader, TraceRefused};

/// The text of a trace with inputs that is read line by line.
#[derive(Clone, Copy)]
pub struct InputsReader {
    inner: TraceReader,
}

/// What is wrong with a line, as it is told of a trace with inputs.
fn cause_of(refusal: TraceRefused) -> Cause
    ensures { (wrong : Wrong) → refusal ≡ refusal_of wrong 1
        → result ≡ spec.cause_of wrong }
{
    match refusal {
        TraceRefused::UnknownName(_line) => Cause::UnknownName,
        _other => Cause::BadLine,
    }
}

impl InputsReader {
    /// A reader of no line yet.
    pub fn new() -> InputsReader
        ensures { result.inner.phase ≡ phase.Start }
    {
        InputsReader {
            inner: TraceReader::new(),
        }
    }

    /// Takes the next line, and tells what it shows, where it shows anything. A wrong line is refused, and leaves the
    /// reader as it was: as of no form where it is, and else for a name in it that is in no table or of no input.
    pub fn take(
        &mut self,
        names: &Names,
        app: &App,
        board: &Board,
        line: &[u8],
    ) -> Result<Option<TraceLine>, Cause>
        ensures told { spec.line_told names.now (app_of app.now) board.now self.old.inner.phase line.now
            ≡ and_make result (λ read. (self.new.inner.phase, read)) }
        ensures unchanged { OnErr result (self.new ≡ self.old) }
    {
        match self.inner.take(names, 1, line) {
            Ok(None) => Ok(None),
            Ok(Some(item)) => Ok(Some(TraceLine::Shows(item))),
            Err(refusal) => self.or_input(app, board, line, cause_of(refusal)),
        }
    }

    /// What a line shows that is no line of a trace, where it is to be that of an input. Else this is wrong with it.
    fn or_input(
        &self,
        app: &App,
        board: &Board,
        line: &[u8],
        cause: Cause,
    ) -> Result<Option<TraceLine>, Cause>
        ensures { (wrong : Wrong) → cause ≡ spec.cause_of wrong
            → spec.or_input (app_of app.now) board.now self.now.inner.phase line.now (Err wrong)
            ≡ and_make result (λ read. (self.now.inner.phase, read)) }
    {
        if !self.takes_rows() {
            return Err(cause);
        }
        match read_input(app, board, line) {
            None => Err(cause),
            Some(Ok(read)) => Ok(Some(read)),
            Some(Err(cause)) => Err(cause),
        }
    }

    /// Whether a row of a trace may stand in the next line.
    fn takes_rows(&self) -> bool
        ensures { result ≡ spec.takes_rows self.now.inner.phase }
    {
        match self.inner.end(0) {
            Ok(None) => true,
            Ok(Some(_total)) => false,
            Err(_refusal) => false,
        }
    }

    /// Ends the text, and tells the total of core steps, where a line told it. Else something is missing.
    pub fn end(&self) -> Result<Option<u64>, Cause>
        ensures whole { IfOk result (λ total. (missing self.now.inner.phase ≡ None)
            × (total ≡ total_of self.now.inner.phase)) }
        ensures unended { IfErr result (λ cause. option_map spec.cause_of (missing self.now.inner.phase) ≡ Some cause) }
    {
        match self.inner.end(0) {
            Ok(total) => Ok(total),
            Err(refusal) => Err(cause_of(refusal)),
        }
    }
}
