// One core step, whose line goes out at once and whose item is told.
ghost use Rattle.std.specs.Prelude.{IfOk, OnErr, OnOk, [], ◌<◌, ◌^◌, ◌∷◌, ◌≡◌};
ghost use Rattle.rt_ids.specs.Event.{Step};
ghost use Rattle.rt_outside.specs.Faults.{HasCause};
ghost use Rattle.rt_run.specs.{Sending.Breaks, Sending.Sends, Writable.IsWritable};
ghost use Rattle.rt_core.specs.Stepping as stepping;

use rt_core::Core;
use rt_outside::{Failed, Sink, put_all};
use rt_run::numbers_fit;
use rt_trace::{Item, What, line};

/// One core step. The line of its item, where it shows one, goes out at once, and the answer is what it shows.
pub(crate) fn show_step<K: Sink>(core: &mut Core, out: &mut K) -> Result<Option<What>, Failed>
    requires writable { IsWritable core.old }
    requires few { core.old.steps < 2 ^ 31 }
    ensures ok { OnOk result (Sends (Step ∷ []) core.old core.new (K.taken out.old) (K.taken out.new)) }
    ensures shown { IfOk result (λ shown. shown ≡ (stepping.step core.old.image core.old.core).1) }
    ensures err { OnErr result (Breaks (Step ∷ []) core.old core.new (K.taken out.old) (K.taken out.new)) }
    ensures cause { HasCause (K.faults out.old) (K.faults out.new) result }
    ensures quiet { OnOk result (K.faults out.new ≡ K.faults out.old) }
{
    let Some(what) = core.step() else {
        return Ok(None);
    };
    numbers_fit(&what);
    let step = core.steps() - 1;
    let text = line(&Item { step, what }, &core.image().names);
    put_all(out, text.as_slice())?;
    Ok(Some(what))
}
