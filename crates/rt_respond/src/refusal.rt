// Why a limits text is refused, and where.

ghost use Rattle.std.specs.Prelude.{◌≡◌, IfOk};
ghost use Rattle.rt_respond.specs.Text as spec;

use rt_ids::NoMemory;
use rt_lines::TextRefused;
use std::alloc::Global;

/// What is wrong with a text, or with a line of it.
#[derive(Clone, Copy)]
pub enum Cause {
    /// The text is longer than a limits text may be.
    TooLong,
    /// The line is of no form, or says what a line before it says.
    BadLine,
    /// Nothing has the name that the line could be about; `tick` without a monotonic is of this kind.
    UnknownName,
}

/// Why a text says no limits.
pub type LimitsRefused = TextRefused<Cause>;

/// What is printed where a text is refused at a line.
pub fn refusal_text(alloc: Global, line: u32, cause: Cause) -> Result<Vec<u8>, NoMemory>
    ensures { IfOk result (λ text. text.items ≡ spec.refusal_text line cause) }
{
    rt_lines::refusal_text(alloc, b"limits", line, words(cause))
}

/// The number and the words of a cause.
fn words(cause: Cause) -> &'static [u8]
    ensures { result.now ≡ spec.cause_words cause }
{
    match cause {
        Cause::TooLong => b"1 too long",
        Cause::BadLine => b"2 bad line",
        Cause::UnknownName => b"3 unknown name",
    }
}
