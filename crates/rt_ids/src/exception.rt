// The frame that exception entry pushes on the stack.
ghost use Rattle.std.specs.Prelude.{◌≡◌, ◌≤◌};
ghost use Rattle.rt_ids.specs.Exception.{entry_words};
ghost use Rattle.rt_ids.specs.declared.exception.TheConstants.{BASIC_FRAME_WORDS, EXTENDED_FRAME_WORDS};

/// Words of the basic frame: R0 to R3, R12, LR, the return address and xPSR (ARMv7-M Architecture Reference Manual,
/// section B1.5.6).
pub const BASIC_FRAME_WORDS: u32 = 8;

/// Words of the extended frame, where the core has the floating-point extension: the basic frame, and above it S0 to
/// S15, FPSCR and a reserved word (the same section).
pub const EXTENDED_FRAME_WORDS: u32 = 26;

/// The words that exception entry pushes, where the core has the floating-point extension or has not. It takes the
/// space of the extended frame at each entry, whatever the interrupted code did.
pub fn entry_words(fpu: bool) -> u32
    ensures value { result ≡ entry_words fpu }
    ensures basic { BASIC_FRAME_WORDS ≤ result }
    ensures extended { result ≤ EXTENDED_FRAME_WORDS }
{
    if fpu {
        EXTENDED_FRAME_WORDS
    } else {
        BASIC_FRAME_WORDS
    }
}
