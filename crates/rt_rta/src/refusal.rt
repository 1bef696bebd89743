// Why a text tells no limits.

use thiserror::Error;

/// Why a text tells no limits. The number is that of the first line that is wrong, from 1.
#[derive(Clone, Copy, Debug, PartialEq, Eq, Error)]
pub enum LimitsRefused {
    /// The text is longer than a limits text may be.
    #[error("1 too long")]
    TooLong,
    /// The line is of no form, or is a second one for its interrupt.
    #[error("line {0}: 2 bad line")]
    BadLine(u32),
    /// The line is of the form, and no task binds the interrupt that it names.
    #[error("line {0}: 3 unknown interrupt")]
    UnknownInterrupt(u32),
    /// Memory was wanted.
    #[error("out of memory")]
    NoMemory,
}
