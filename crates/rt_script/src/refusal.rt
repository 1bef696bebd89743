// Why a text is no script.

use thiserror::Error;

/// Why a text is no script. The number is that of the first line that is wrong, from 1.
#[derive(Clone, Copy, Debug, PartialEq, Eq, Error)]
pub enum ScriptRefused {
    /// The text is longer than a script may be.
    #[error("1 too long")]
    TooLong,
    /// The line is of no form.
    #[error("line {0}: 2 bad line")]
    BadLine(u32),
    /// The line is of a form, and names an interrupt that is not declared.
    #[error("line {0}: 3 unknown interrupt")]
    UnknownInterrupt(u32),
    /// The events up to this line, once they are expanded, are too many.
    #[error("line {0}: 4 too many events")]
    TooManyEvents(u32),
    /// The line's device has a number over 15.
    #[error("line {0}: 5 too many devices")]
    TooManyDevices(u32),
    /// Memory was wanted and not there.
    #[error("out of memory")]
    NoMemory,
}
