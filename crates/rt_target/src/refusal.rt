// Why a board's text is refused, and where.

ghost use Rattle.std.specs.Prelude.{◌≡◌, IfOk};
ghost use Rattle.rt_target.specs.Text as spec;
ghost use Rattle.rt_target.specs.Wording.{told_as};

use rt_board::Cause as BoardCause;
use rt_ids::NoMemory;
use rt_lines::TextRefused;
use std::alloc::Global;

/// What is wrong with a text, or with a line of it. Of several the first here is told.
#[derive(Clone, Copy)]
pub enum Cause {
    /// The text is longer than a board's text may be.
    TooLong,
    /// The line is of no form.
    BadLine,
    /// No task has the name.
    UnknownTask,
    /// The task binds no interrupt.
    SoftwareTask,
    /// No local resource has the name.
    UnknownLocal,
    /// The task does not list the local resource.
    LocalOfAnother,
    /// A line before names the local resource, or says the same of the chip.
    NamedTwice,
    /// No interrupt has the name.
    UnknownInterrupt,
    /// No line before names an input of the name.
    UnknownInput,
    /// The numbers are those of no chip.
    OutOfRange,
    /// A byte is of two memories, or of one and of a register.
    Overlap,
    /// The core has fewer priority bits than the application.
    TooFewBits,
    /// A function is to be called as an interrupt is taken that no task binds.
    UnboundInterrupt,
    /// Where a program is made: no line says where flash lies.
    NoFlash,
    /// No line says where RAM lies.
    NoRam,
    /// No line names the port.
    NoPort,
    /// No line tells the priority bits.
    NoBits,
    /// An interrupt of the application is past the lines of the core.
    TooFewLines,
    /// The stack and the cells do not fit into RAM.
    SmallRam,
    /// The code and the first values do not fit into flash.
    SmallFlash,
    /// A branch does not reach its target.
    FarBranch,
    /// The file would have 4 GiB or more.
    LongFile,
}

/// Why a text of a board is refused.
pub type SetupRefused = TextRefused<Cause>;

impl Cause {
    /// What is wrong with a line that should name an input, as it is told here.
    pub(crate) fn of(cause: BoardCause) -> Cause
        ensures { result ≡ told_as cause }
    {
        match cause {
            BoardCause::BadLine => Cause::BadLine,
            BoardCause::UnknownTask => Cause::UnknownTask,
            BoardCause::SoftwareTask => Cause::SoftwareTask,
            BoardCause::UnknownLocal => Cause::UnknownLocal,
            BoardCause::LocalOfAnother => Cause::LocalOfAnother,
            BoardCause::NamedTwice => Cause::NamedTwice,
        }
    }
}

/// What is printed where a text is refused at a line.
pub fn refusal_text(alloc: Global, line: u32, cause: Cause) -> Result<Vec<u8>, NoMemory>
    ensures { IfOk result (λ text. text.items ≡ spec.refusal_text line cause) }
{
    rt_lines::refusal_text(alloc, b"board", line, words(cause))
}

/// The number and the words of a cause.
fn words(cause: Cause) -> &'static [u8]
    ensures { result.now ≡ spec.cause_words cause }
{
    match cause {
        Cause::TooLong => b"1 too long",
        Cause::BadLine => b"2 bad line",
        Cause::UnknownTask => b"3 unknown task",
        Cause::SoftwareTask => b"4 software task",
        Cause::UnknownLocal => b"5 unknown local",
        Cause::LocalOfAnother => b"6 local of another",
        Cause::NamedTwice => b"7 named twice",
        Cause::UnknownInterrupt => b"8 unknown interrupt",
        Cause::UnknownInput => b"9 unknown input",
        Cause::OutOfRange => b"10 out of range",
        Cause::Overlap => b"11 overlap",
        Cause::TooFewBits => b"12 too few bits",
        Cause::UnboundInterrupt => b"13 unbound interrupt",
        Cause::NoFlash => b"14 no flash",
        Cause::NoRam => b"15 no ram",
        Cause::NoPort => b"16 no port",
        Cause::NoBits => b"17 no bits",
        Cause::TooFewLines => b"18 too few lines",
        Cause::SmallRam => b"19 ram too small",
        Cause::SmallFlash => b"20 flash too small",
        Cause::FarBranch => b"21 branch too far",
        Cause::LongFile => b"22 file too long",
    }
}
