// Gives a core one event, and writes the line that it shows.

ghost use Rattle.std.specs.Prelude.{◌≡◌, ◌<◌, ◌+◌, ◌-◌, ◌^◌, [], ◌∷◌, replicate, IfOk, OnOk, OnErr};
ghost use Rattle.rt_ids.specs.Event.{Arrive, Tick, Step};
ghost use Rattle.rt_ids.specs.Naming.{IsDeclared};
ghost use Rattle.rt_outside.specs.Faults.{HasCause};
ghost use Rattle.rt_run.specs.Writable.{IsWritable};
ghost use Rattle.rt_run.specs.Inside.Writing.{Writes, Cut};

use crate::writing::{put_item, put_shown, put_tick};
use rt_core::Core;
use rt_ids::Irq;
use rt_outside::{Failed, Sink};
use rt_trace::{Item, LineBuffer, What};

/// Core steps up to the first that shows an item, at most so many, with its line. It answers how many of so many are
/// left.
#[inline(always)]
pub(crate) fn run_to_item<K: Sink>(
    core: &mut Core,
    most: u32,
    out: &mut K,
    held: &mut LineBuffer,
) -> Result<u32, Failed>
    requires writable { IsWritable core.old }
    requires few { core.old.steps + most < 2 ^ 31 }
    requires some { 0 < most }
    ensures fewer { IfOk result (λ left. left < most) }
    ensures ok { IfOk result (λ left.
        Writes (replicate (most - left) Step) core.old core.new (K.taken out.old) (K.taken out.new)
        held.old held.new) }
    ensures err { OnErr result
        (Cut (replicate most Step) core.old core.new (K.taken out.old) (K.taken out.new) held.old) }
    ensures cause { HasCause (K.faults out.old) (K.faults out.new) result }
    ensures quiet { OnOk result (K.faults out.new ≡ K.faults out.old) }
{
    let before = core.steps();
    let Some(what) = core.steps_to_item(most) else {
        return Ok(0);
    };
    let behind = core.steps();
    put_shown(out, held, behind - 1, what, &core.image().names)?;
    Ok(most - (behind - before) as u32)
}

/// One tick, with its line, and that of the alarm where it comes.
pub(crate) fn run_tick<K: Sink>(
    core: &mut Core,
    out: &mut K,
    held: &mut LineBuffer,
) -> Result<(), Failed>
    requires writable { IsWritable core.old }
    requires few { core.old.steps < 2 ^ 31 }
    requires early { core.old.core.time < 2 ^ 31 }
    ensures ok { OnOk result
        (Writes (Tick ∷ []) core.old core.new (K.taken out.old) (K.taken out.new) held.old held.new) }
    ensures err { OnErr result (Cut (Tick ∷ []) core.old core.new (K.taken out.old) (K.taken out.new) held.old) }
    ensures none_left { OnErr result (held.new ≡ []) }
    ensures cause { HasCause (K.faults out.old) (K.faults out.new) result }
    ensures quiet { OnOk result (K.faults out.new ≡ K.faults out.old) }
{
    let came = core.tick();
    put_tick(out, held, core.steps(), came, &core.image().names)
}

/// One request of an interrupt, with its line.
pub(crate) fn run_pend<K: Sink>(
    core: &mut Core,
    irq: Irq,
    out: &mut K,
    held: &mut LineBuffer,
) -> Result<(), Failed>
    requires writable { IsWritable core.old }
    requires few { core.old.steps < 2 ^ 31 }
    requires declared { IsDeclared core.old.image.names irq }
    ensures ok { OnOk result
        (Writes (Arrive irq ∷ []) core.old core.new (K.taken out.old) (K.taken out.new) held.old held.new) }
    ensures err { OnErr result (Cut (Arrive irq ∷ []) core.old core.new (K.taken out.old) (K.taken out.new) held.old) }
    ensures none_left { OnErr result (held.new ≡ []) }
    ensures cause { HasCause (K.faults out.old) (K.faults out.new) result }
    ensures quiet { OnOk result (K.faults out.new ≡ K.faults out.old) }
{
    let number = irq.get();
    core.arrive((number / 32) as u8, 1 << (number % 32));
    let step = core.steps();
    let what = What::Pend(irq);
    put_item(out, held, &Item { step, what }, &core.image().names)
}
