// Writes lines through one buffer.

ghost use Rattle.std.specs.Prelude.{◌≡◌, ◌<◌, ◌≤◌, ◌^◌, [], ◌∷◌, ◌++◌, flat_map, length, if◌then◌else◌};
ghost use Rattle.std.specs.Prelude.{OnOk, OnErr};
ghost use Rattle.rt_outside.specs.Faults.{HasCause};
ghost use Rattle.rt_outside.specs.Bytes.{Took, TookPrefix};
ghost use Rattle.rt_trace.specs.Label.{Ticked, Rang, items_of};
ghost use Rattle.rt_trace.specs.Lined.{HasLine};
ghost use Rattle.rt_trace.specs.Text as spec;
ghost use Rattle.rt_trace.specs.declared.buffer.TheConstants.{BUFFER_BYTES};
ghost use Rattle.rt_run.specs.Inside.Writing.{HasRoomForLine, HasWords, Wrote};

use crate::numbers::numbers_fit;
use rt_ids::Names;
use rt_outside::{Failed, Sink, put_all};
use rt_trace::{Item, LineBuffer, What};

/// Lets out what is held, which is no more than a buffer.
pub(crate) fn put_held<K: Sink>(out: &mut K, held: &mut LineBuffer) -> Result<(), Failed>
    ensures ok { OnOk result (Took (K.taken out.old) (K.taken out.new) held.old) }
    ensures none_held { OnOk result (held.new ≡ []) }
    ensures err { OnErr result (TookPrefix (K.taken out.old) (K.taken out.new) held.old) }
    ensures few { length held.old ≤ BUFFER_BYTES }
    ensures none_left { OnErr result (held.new ≡ []) }
    ensures cause { HasCause (K.faults out.old) (K.faults out.new) result }
    ensures quiet { OnOk result (K.faults out.new ≡ K.faults out.old) }
{
    let done = put_all(out, held.bytes());
    held.clear();
    done
}

/// Makes room for a line: what is held goes out where the buffer has none.
fn make_room<K: Sink>(out: &mut K, held: &mut LineBuffer) -> Result<(), Failed>
    ensures ok { OnOk result (Wrote (K.taken out.old) (K.taken out.new) held.old held.new []) }
    ensures room { OnOk result (HasRoomForLine held.new) }
    ensures err { OnErr result (TookPrefix (K.taken out.old) (K.taken out.new) held.old) }
    ensures few { length held.old ≤ BUFFER_BYTES }
    ensures none_left { OnErr result (held.new ≡ []) }
    ensures cause { HasCause (K.faults out.old) (K.faults out.new) result }
    ensures quiet { OnOk result (K.faults out.new ≡ K.faults out.old) }
{
    if held.has_room() {
        return Ok(());
    }
    put_held(out, held)
}

/// Writes the line of an item.
pub(crate) fn put_item<K: Sink>(
    out: &mut K,
    held: &mut LineBuffer,
    item: &Item,
    names: &Names,
) -> Result<(), Failed>
    requires { HasLine names.now item.now }
    ensures ok { OnOk result
        (Wrote (K.taken out.old) (K.taken out.new) held.old held.new (spec.text names.now item.now)) }
    ensures err { OnErr result
        (TookPrefix (K.taken out.old) (K.taken out.new) (held.old ++ spec.text names.now item.now)) }
    ensures few { length held.old ≤ BUFFER_BYTES }
    ensures none_left { OnErr result (held.new ≡ []) }
    ensures cause { HasCause (K.faults out.old) (K.faults out.new) result }
    ensures quiet { OnOk result (K.faults out.new ≡ K.faults out.old) }
{
    make_room(out, held)?;
    held.put(item, names);
    Ok(())
}

/// Writes the line of what a core step shows, behind so many steps.
pub(crate) fn put_shown<K: Sink>(
    out: &mut K,
    held: &mut LineBuffer,
    step: u64,
    what: What,
    names: &Names,
) -> Result<(), Failed>
    requires few { step < 2 ^ 31 }
    requires words { HasWords names.now what }
    ensures line { HasLine names.now (record { step = step; what = what }) }
    ensures ok { OnOk result (Wrote (K.taken out.old) (K.taken out.new) held.old held.new
        (spec.text names.now (record { step = step; what = what }))) }
    ensures err { OnErr result (TookPrefix (K.taken out.old) (K.taken out.new)
        (held.old ++ spec.text names.now (record { step = step; what = what }))) }
    ensures few { length held.old ≤ BUFFER_BYTES }
    ensures none_left { OnErr result (held.new ≡ []) }
    ensures cause { HasCause (K.faults out.old) (K.faults out.new) result }
    ensures quiet { OnOk result (K.faults out.new ≡ K.faults out.old) }
{
    numbers_fit(&what);
    put_item(out, held, &Item { step, what }, names)
}

/// Writes the line of a tick, and that of the alarm where it came.
pub(crate) fn put_tick<K: Sink>(
    out: &mut K,
    held: &mut LineBuffer,
    step: u64,
    came: bool,
    names: &Names,
) -> Result<(), Failed>
    requires { step < 2 ^ 31 }
    ensures ok { OnOk result (Wrote (K.taken out.old) (K.taken out.new) held.old held.new
        (flat_map (spec.text names.now) (items_of step (Ticked ∷ (if came then Rang ∷ [] else []))))) }
    ensures err { OnErr result (TookPrefix (K.taken out.old) (K.taken out.new)
        (held.old ++ flat_map (spec.text names.now) (items_of step (Ticked ∷ (if came then Rang ∷ [] else []))))) }
    ensures few { length held.old ≤ BUFFER_BYTES }
    ensures none_left { OnErr result (held.new ≡ []) }
    ensures cause { HasCause (K.faults out.old) (K.faults out.new) result }
    ensures quiet { OnOk result (K.faults out.new ≡ K.faults out.old) }
{
    let what = What::Tick;
    put_item(out, held, &Item { step, what }, names)?;
    if !came {
        return Ok(());
    }
    let what = What::Alarm;
    put_item(out, held, &Item { step, what }, names)
}

/// Writes the last line, the number of core steps, and lets out what is held.
pub fn put_end<K: Sink>(out: &mut K, held: &mut LineBuffer, total: u64) -> Result<(), Failed>
    requires { total < 2 ^ 32 }
    ensures ok { OnOk result (Took (K.taken out.old) (K.taken out.new) (held.old ++ spec.total_text total)) }
    ensures none_held { OnOk result (held.new ≡ []) }
    ensures err { OnErr result (TookPrefix (K.taken out.old) (K.taken out.new) (held.old ++ spec.total_text total)) }
    ensures few { length held.old ≤ BUFFER_BYTES }
    ensures none_left { OnErr result (held.new ≡ []) }
    ensures cause { HasCause (K.faults out.old) (K.faults out.new) result }
    ensures quiet { OnOk result (K.faults out.new ≡ K.faults out.old) }
{
    make_room(out, held)?;
    held.put_total(total);
    put_held(out, held)
}
