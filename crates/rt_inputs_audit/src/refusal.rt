// Why a text is no trace with inputs, and what is printed then.

ghost use Rattle.std.specs.Prelude.{◌≡◌, IfOk};
ghost use Rattle.rt_inputs_audit.specs.Text as spec;

use rt_ids::NoMemory;
use rt_lines::TextRefused;
use std::alloc::Global;

/// What is wrong with a text, or with a line of it. Of several the first here is told.
#[derive(Clone, Copy)]
pub enum Cause {
    /// The text is longer than a trace may be.
    TooLong,
    /// The line is of no form.
    BadLine,
    /// All that is wrong with the line of an item is that a name in it is in no table.
    UnknownName,
    /// All that is wrong with the line of an input is that the board has no input of the name.
    UnknownInput,
}

/// Why a text is no trace with inputs.
pub type InputsRefused = TextRefused<Cause>;

/// What is printed where a text is refused at a line.
pub fn refusal_text(alloc: Global, line: u32, cause: Cause) -> Result<Vec<u8>, NoMemory>
    ensures { IfOk result (λ text. text.items ≡ spec.refusal_text line cause) }
{
    rt_lines::refusal_text(alloc, b"trace", line, words(cause))
}

/// The number and the words of a cause.
fn words(cause: Cause) -> &'static [u8]
    ensures { result.now ≡ spec.cause_words cause }
{
    match cause {
        Cause::TooLong => b"1 too long",
        Cause::BadLine => b"2 bad line",
        Cause::UnknownName => b"3 unknown name",
        Cause::UnknownInput => b"4 unknown input",
    }
}
