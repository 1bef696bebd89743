// Why a text is no trace.

ghost use Rattle.std.specs.Prelude.{◌≡◌};

use rt_ids::NoMemory;
use thiserror::Error;

/// Why a text is no trace. The number is that of the first line that is wrong, from 1.
#[derive(Clone, Copy, Debug, PartialEq, Eq, Error)]
pub enum TraceRefused {
    /// The text is longer than a trace may be.
    #[error("1 too long")]
    TooLong,
    /// The line is of no form.
    #[error("line {0}: 2 bad line")]
    BadLine(u32),
    /// All that is wrong with the line is that a name in it is in no table.
    #[error("line {0}: 3 unknown name")]
    UnknownName(u32),
    /// Memory was wanted.
    #[error("out of memory")]
    NoMemory,
}

impl From<NoMemory> for TraceRefused {
    ghost use Rattle.rt_trace.specs.declared.refusal.TraceRefused.TheVariants.{NoMemory};

    ghost from_gives = { λ _ r. r ≡ NoMemory };

    fn from(_error: NoMemory) -> TraceRefused {
        TraceRefused::NoMemory
    }
}
