// A flag for each number that a byte can hold.

ghost use Rattle.std.specs.Prelude.{◌≡◌, ◌∷◌, [], count_by, false};
ghost use Rattle.rt_frames.specs.Inside.Flags.{flags_with, HasFlags};

/// How many numbers a byte can hold.
pub(crate) const NUMBERS: usize = 256;

/// A flag for each number that a byte can hold.
pub(crate) type Flags = [bool; NUMBERS];

/// No flags.
pub(crate) fn none() -> Flags
    ensures { HasFlags result (λ n. false) }
{
    [false; NUMBERS]
}

/// Flags a number.
pub(crate) fn flag(flags: &mut Flags, number: u8)
    ensures { flags.new ≡ flags_with (number ∷ []) flags.old }
{
    flags[usize::from(number)] = true;
}

/// How many numbers are flagged.
pub(crate) fn count(flags: &Flags) -> usize
    ensures { result ≡ count_by (λ flag. flag) flags.now }
{
    flags.iter().filter(|flag| **flag).count()
}
