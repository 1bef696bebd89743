// Counts the core steps up to the first exception entry.

ghost use Rattle.std.specs.Prelude.{◌≡◌, [], ◌∷◌, ◌↔◌, IsTrue};
ghost use Rattle.rt_ids.specs.Event.{Arrive};
ghost use Rattle.rt_core.specs.Machine.{IsFresh};
ghost use Rattle.rt_run.specs.Done.{Leads};
ghost use Rattle.rt_reach.specs.declared.take.TheConstants.{MOST_STEPS};
ghost use Rattle.rt_reach.specs.Deepest.{IsFirstTake};
ghost use Rattle.rt_reach.specs.Inside.Soon.{TakesWithin};
ghost use Rattle.rt_reach.specs.Take.{IsTake};

use rt_app::costs::BRIEF_INIT_COST;
use rt_core::Core;
use rt_ids::Irq;
use rt_trace::What;

/// Core steps up to the first exception entry at most: those of `init`, and the entry.
pub(crate) const MOST_STEPS: u32 = BRIEF_INIT_COST + 1;

/// Whether a core step shows that an interrupt is taken.
fn is_take(shown: &Option<What>) -> bool
    ensures { IsTrue result ↔ IsTake shown.now }
{
    match shown {
        Some(What::Take(_irq, _depth)) => true,
        _ => false,
    }
}

/// Requests an interrupt.
fn request(core: &mut Core, irq: Irq)
    ensures { Leads (Arrive irq ∷ []) core.old core.new }
{
    let number = irq.get();
    core.arrive((number / 32) as u8, 1 << (number % 32));
}

/// Requests an interrupt at reset. It answers in which core step, from 1, the first exception entry comes.
pub(crate) fn steps_to_take(core: &mut Core, irq: Irq) -> u32
    requires fresh { IsFresh core.old }
    requires soon { TakesWithin MOST_STEPS core.old.image irq }
    ensures first { IsFirstTake core.old.image irq result }
    ensures image { core.new.image ≡ core.old.image }
{
    request(core, irq);
    for done in 0..MOST_STEPS {
        let shown = core.step();
        if is_take(&shown) {
            return done + 1;
        }
    }
    unreachable!()
}
