// Why bytes are no listing.

ghost use Rattle.std.specs.Prelude.{◌≡◌};

use rt_ids::NoMemory;
use thiserror::Error;

/// Bytes that a listing may have to be loaded.
pub const IMAGE_BYTES: u32 = 16_777_216;

/// Why bytes are no listing of a loadable image. The number is that of the first line that is wrong, from 1; a line
/// that is missing counts as the line after the last.
#[derive(Clone, Copy, Debug, PartialEq, Eq, Error)]
pub enum LoadRefused {
    /// There are more bytes than a listing may have.
    #[error("1 too long")]
    TooLong,
    /// With the line the lines begin no listing.
    #[error("line {0}: 2 bad line")]
    BadLine(u64),
    /// All that is wrong with the line is that a name in it of an interrupt, a task or a resource is in no table.
    #[error("line {0}: 3 unknown name")]
    UnknownName(u64),
    /// Memory was wanted.
    #[error("out of memory")]
    NoMemory,
}

impl From<NoMemory> for LoadRefused {
    ghost use Rattle.rt_load.specs.declared.refusal.LoadRefused.TheVariants.{NoMemory};

    ghost from_gives = { λ _ r. r ≡ NoMemory };

    fn from(_error: NoMemory) -> LoadRefused {
        LoadRefused::NoMemory
    }
}
