// How a word of memory holds a device's word.
ghost use Rattle.std.specs.Prelude.{◌≡◌, ◌+◌, ◌^◌, ◌<◌};
ghost use Rattle.rt_values.specs.Object as spec;

/// The bit that says that a device's word waits. The bits below it are the word.
const WAITS: u64 = 1 << 32;

/// The word of memory in which this word of a device waits.
pub(crate) fn with_request(word: u32) -> u64
    ensures { result ≡ 2 ^ 32 + word }
{
    WAITS + u64::from(word)
}

/// The device's word that waits in a word of memory.
pub(crate) fn waiting(found: u64) -> Option<u32>
    requires small { found < 2 ^ 33 }
    ensures { result ≡ spec.waiting found }
{
    if found >= WAITS {
        Some((found - WAITS) as u32)
    } else {
        None
    }
}
