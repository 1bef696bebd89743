// Why a script beside devices is refused, and where.

ghost use Rattle.std.specs.Prelude.{◌≡◌, IfOk};
ghost use Rattle.rt_given.specs.Text as spec;

use rt_ids::NoMemory;
use rt_lines::TextRefused;
use std::alloc::Global;

/// What is wrong with a text, or with a line of it.
#[derive(Clone, Copy)]
pub enum Cause {
    /// The text is longer than a script may be.
    TooLong,
    /// The line is of no form.
    BadLine,
    /// The line names an interrupt that is not declared.
    UnknownInterrupt,
    /// The events up to this line, once they are expanded, are too many.
    TooManyEvents,
    /// The line's device has a number over 15.
    TooManyDevices,
    /// The board has no input of the name.
    UnknownInput,
    /// The board has no input whose task binds the interrupt of the line's device, which is to give words.
    NoInput,
    /// It has several.
    ManyInputs,
}

/// Why a text is no script beside devices.
pub type GivenRefused = TextRefused<Cause>;

/// What is printed where a text is refused at a line.
pub fn refusal_text(alloc: Global, line: u32, cause: Cause) -> Result<Vec<u8>, NoMemory>
    ensures { IfOk result (λ text. text.items ≡ spec.refusal_text line cause) }
{
    rt_lines::refusal_text(alloc, b"script", line, words(cause))
}

/// The number and the words of a cause.
fn words(cause: Cause) -> &'static [u8]
    ensures { result.now ≡ spec.cause_words cause }
{
    match cause {
        Cause::TooLong => b"1 too long",
        Cause::BadLine => b"2 bad line",
        Cause::UnknownInterrupt => b"3 unknown interrupt",
        Cause::TooManyEvents => b"4 too many events",
        Cause::TooManyDevices => b"5 too many devices",
        Cause::UnknownInput => b"6 unknown input",
        Cause::NoInput => b"7 no input",
        Cause::ManyInputs => b"8 many inputs",
    }
}
