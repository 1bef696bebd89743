// How far an audit has come, in core steps.

ghost use Rattle.std.specs.Prelude.{◌≡◌, ℕ, suc, ◌<◌, ◌≤◌, ◌-◌, MatchOption, if◌then◌else◌};
ghost use Rattle.rt_laws.specs.ByItems.{label_of, steps_after};
ghost use Rattle.rt_baker.specs.Judge.{steps_done};

use rt_trace::{Item, What};

/// How many core steps are done: those in front of an item of this number, and one more where that is a step itself. So
/// the number is never one above the greatest.
#[derive(Clone, Copy)]
pub struct Done {
    step: u64,
    is_step: bool,
}

/// Whether an item is a core step. The alarm is one unless a tick owes it.
fn is_step(what: &What, owing: bool) -> bool
    ensures { (n : ℕ) → steps_after n (label_of owing what.now) ≡ (if result then suc n else n) }
{
    match what {
        What::Pend(_irq) => false,
        What::Tick => false,
        What::Alarm => !owing,
        _step => true,
    }
}

impl Done {
    /// None are done.
    pub fn none() -> Done
        ensures { steps_done result ≡ 0 }
    {
        Done {
            step: 0,
            is_step: false,
        }
    }

    /// Those that are done after an item, where an alarm is owed or not.
    pub fn behind(item: &Item, owing: bool) -> Done
        ensures { steps_done result ≡ steps_after item.now.step (label_of owing item.now.what) }
    {
        Done {
            step: item.step,
            is_step: is_step(&item.what, owing),
        }
    }

    /// How many more there are in front of an item of this number. None where it is out of order.
    pub fn until(self, number: u64) -> Option<u64>
        ensures { MatchOption result (number < steps_done self) (λ more.
            (steps_done self ≤ number) × (more ≡ number - steps_done self)) }
    {
        match number.checked_sub(self.step) {
            None => None,
            Some(more) => {
                if self.is_step {
                    return more.checked_sub(1);
                }
                Some(more)
            }
        }
    }
}
