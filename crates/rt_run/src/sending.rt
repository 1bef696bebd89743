// Events whose lines go out at once, so that nothing is held between them.
ghost use Rattle.std.specs.Prelude.{◌≡◌, ◌<◌, ◌^◌, [], ◌∷◌, OnOk, OnErr};
ghost use Rattle.rt_ids.specs.Event.{Arrive, Tick};
ghost use Rattle.rt_ids.specs.Naming.{IsDeclared};
ghost use Rattle.rt_outside.specs.Faults.{HasCause};
ghost use Rattle.rt_run.specs.Sending.{Sends, Breaks};
ghost use Rattle.rt_run.specs.Writable.{IsWritable};

use crate::event::{run_pend, run_tick};
use crate::writing::put_held;
use rt_core::Core;
use rt_ids::Irq;
use rt_outside::{Failed, Sink};
use rt_trace::LineBuffer;

/// One tick. Its line, and that of the alarm where it comes, go out at once, by way of an empty buffer.
pub fn send_tick<K: Sink>(core: &mut Core, out: &mut K, held: &mut LineBuffer) -> Result<(), Failed>
    requires writable { IsWritable core.old }
    requires few { core.old.steps < 2 ^ 31 }
    requires early { core.old.core.time < 2 ^ 31 }
    requires empty { held.old ≡ [] }
    ensures ok { OnOk result (Sends (Tick ∷ []) core.old core.new (K.taken out.old) (K.taken out.new)) }
    ensures none_held { OnOk result (held.new ≡ []) }
    ensures err { OnErr result (Breaks (Tick ∷ []) core.old core.new (K.taken out.old) (K.taken out.new)) }
    ensures none_left { OnErr result (held.new ≡ []) }
    ensures cause { HasCause (K.faults out.old) (K.faults out.new) result }
    ensures quiet { OnOk result (K.faults out.new ≡ K.faults out.old) }
{
    run_tick(core, out, held)?;
    put_held(out, held)
}

/// One request of an interrupt. Its line goes out at once, by way of an empty buffer.
pub fn send_pend<K: Sink>(
    core: &mut Core,
    irq: Irq,
    out: &mut K,
    held: &mut LineBuffer,
) -> Result<(), Failed>
    requires writable { IsWritable core.old }
    requires few { core.old.steps < 2 ^ 31 }
    requires declared { IsDeclared core.old.image.names irq }
    requires empty { held.old ≡ [] }
    ensures ok { OnOk result (Sends (Arrive irq ∷ []) core.old core.new (K.taken out.old) (K.taken out.new)) }
    ensures none_held { OnOk result (held.new ≡ []) }
    ensures err { OnErr result (Breaks (Arrive irq ∷ []) core.old core.new (K.taken out.old) (K.taken out.new)) }
    ensures none_left { OnErr result (held.new ≡ []) }
    ensures cause { HasCause (K.faults out.old) (K.faults out.new) result }
    ensures quiet { OnOk result (K.faults out.new ≡ K.faults out.old) }
{
    run_pend(core, irq, out, held)?;
    put_held(out, held)
}
