// The number of an external interrupt.

ghost use Rattle.std.specs.Prelude.{◌≡◌, ◌<◌, IfSome, IsSome, ◌↔◌};
ghost use Rattle.rt_ids.specs.declared.limits.TheConstants.{IRQ_NUMBERS};

use crate::limits::IRQ_NUMBERS;
use std::marker::Model;

/// The number of an external interrupt of the ARMv7-M interrupt controller, 0 to 495. Its exception number is
/// 16 more. Contracts see the number.
#[derive(Clone, Copy, Debug, PartialEq, Eq, PartialOrd, Ord, Hash)]
pub struct Irq(u16);

impl Model for Irq {
    ghost use Rattle.std.specs.Prelude.{ℕ, ◌<◌};
    ghost use Rattle.rt_ids.specs.declared.limits.TheConstants.{IRQ_NUMBERS};

    ghost Value = { ℕ };

    ghost view = { λ irq. irq.0 };

    ghost invariant = { λ irq. irq.0 < IRQ_NUMBERS };

    ghost inverse = { λ n. record { 0 = n } };
}

impl Irq {
    /// The interrupt of this number, or None where there is no such interrupt.
    pub fn new(number: u16) -> Option<Irq>
        ensures in_range { IsSome result ↔ (number < IRQ_NUMBERS) }
        ensures value { IfSome result (λ irq. irq ≡ number) }
    {
        if number < IRQ_NUMBERS {
            Some(Irq(number))
        } else {
            None
        }
    }

    /// Its number, 0 to 495.
    pub fn get(self) -> u16
        ensures value { result ≡ self }
        ensures in_range { result < IRQ_NUMBERS }
    {
        self.0
    }
}
