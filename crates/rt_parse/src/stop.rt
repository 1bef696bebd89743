// How reading stops before its end: at a wrong token, or for want of memory.

ghost use Rattle.std.specs.Prelude.{◌≡◌};

use rt_ids::{NoMemory, Refusal};
use std::alloc::{AllocError, AllocFailed};

/// The first thing that is wrong with a text.
#[derive(Clone, Copy)]
pub(crate) struct Found {
    /// The bytes of the text before it; none where it is the end of the text.
    pub(crate) at: Option<u32>,
    pub(crate) refusal: Refusal,
}

/// Why no tree was read.
#[derive(Drop)]
pub(crate) enum Stop {
    Memory,
    At(Found),
}

impl From<AllocError> for Stop {
    ghost use Rattle.rt_parse.specs.declared.stop.Stop.TheVariants.{Memory};

    ghost from_gives = { λ _ e. e ≡ Memory };

    fn from(_error: AllocError) -> Stop {
        Stop::Memory
    }
}

impl<T: Drop> From<AllocFailed<T>> for Stop {
    ghost use Rattle.rt_parse.specs.declared.stop.Stop.TheVariants.{Memory};

    ghost from_gives = { λ _ e. e ≡ Memory };

    fn from(_error: AllocFailed<T>) -> Stop {
        Stop::Memory
    }
}

impl From<NoMemory> for Stop {
    ghost use Rattle.rt_parse.specs.declared.stop.Stop.TheVariants.{Memory};

    ghost from_gives = { λ _ e. e ≡ Memory };

    fn from(_error: NoMemory) -> Stop {
        Stop::Memory
    }
}
