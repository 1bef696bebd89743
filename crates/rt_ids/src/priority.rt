// Logical priorities, and the values that the interrupt controller has for them.

ghost use Rattle.std.specs.Prelude.{◌≡◌, ◌≤◌, ◌^◌};
ghost use Rattle.rt_ids.specs.Priority.{hardware};

use std::marker::Model;

/// A logical priority of RTIC: a greater number is a higher priority. Tasks have 1 to 2^bits, `idle` has 0.
/// Contracts see the number.
#[derive(Clone, Copy, Debug, PartialEq, Eq, PartialOrd, Ord, Hash)]
pub struct Prio(pub u8);

impl Model for Prio {
    ghost use Rattle.std.specs.Prelude.{ℕ};

    ghost Value = { ℕ };

    ghost view = { λ priority. priority.0 };

    ghost inverse = { λ n. record { 0 = n } };
}

impl Prio {
    /// The value that the interrupt controller holds for this priority where it implements so many bits:
    /// a smaller value is a higher priority.
    pub fn hw(self, bits: u8) -> u8
        requires few_bits { 3 ≤ bits }
        requires many_bits { bits ≤ 7 }
        requires least { 1 ≤ self }
        requires greatest { self ≤ 2 ^ bits }
        ensures { result ≡ hardware bits self }
    {
        let priorities = 1u8 << bits;
        (priorities - self.0) << (8 - bits)
    }
}
