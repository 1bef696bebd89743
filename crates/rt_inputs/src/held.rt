// Lines that wait to go out.
ghost use Rattle.std.specs.Prelude.{◌≡◌, ◌+◌, ◌≤◌, [], ◌++◌, length, OnOk, OnErr};
ghost use Rattle.rt_outside.specs.Faults.{HasCause};
ghost use Rattle.rt_outside.specs.Bytes.{Took, TookPrefix};
ghost use Rattle.rt_trace.specs.declared.buffer.TheConstants.{BUFFER_BYTES};
ghost use Rattle.rt_run.specs.Inside.Writing.{Wrote};

use arrayvec::ArrayVec;
use rt_outside::{Failed, Sink, put_all};
use rt_trace::BUFFER_BYTES;

/// Lines that wait to go out, at most `BUFFER_BYTES` bytes of them.
pub type Held = ArrayVec<u8, BUFFER_BYTES>;

/// Lets out what is held.
pub fn put_held<K: Sink>(out: &mut K, held: &mut Held) -> Result<(), Failed>
    ensures ok { OnOk result (Took (K.taken out.old) (K.taken out.new) held.old.items) }
    ensures none_held { held.new.items ≡ [] }
    ensures err { OnErr result (TookPrefix (K.taken out.old) (K.taken out.new) held.old.items) }
    ensures few { length held.old.items ≤ BUFFER_BYTES }
    ensures cause { HasCause (K.faults out.old) (K.faults out.new) result }
    ensures quiet { OnOk result (K.faults out.new ≡ K.faults out.old) }
{
    let done = put_all(out, held.as_slice());
    held.clear();
    done
}

/// Makes room for so many bytes: what is held goes out where there is none.
fn make_room<K: Sink>(out: &mut K, held: &mut Held, bytes: usize) -> Result<(), Failed>
    requires { bytes ≤ BUFFER_BYTES }
    ensures ok { OnOk result (Wrote (K.taken out.old) (K.taken out.new) held.old.items held.new.items []) }
    ensures room { OnOk result (length held.new.items + bytes ≤ BUFFER_BYTES) }
    ensures err { OnErr result (TookPrefix (K.taken out.old) (K.taken out.new) held.old.items) }
    ensures few { length held.old.items ≤ BUFFER_BYTES }
    ensures none_left { OnErr result (held.new.items ≡ []) }
    ensures cause { HasCause (K.faults out.old) (K.faults out.new) result }
    ensures quiet { OnOk result (K.faults out.new ≡ K.faults out.old) }
{
    if bytes <= held.remaining_capacity() {
        return Ok(());
    }
    put_held(out, held)
}

/// Writes a line.
pub(crate) fn put_line<K: Sink>(out: &mut K, held: &mut Held, line: &[u8]) -> Result<(), Failed>
    requires { length line.now ≤ BUFFER_BYTES }
    ensures ok { OnOk result (Wrote (K.taken out.old) (K.taken out.new) held.old.items held.new.items line.now) }
    ensures err { OnErr result (TookPrefix (K.taken out.old) (K.taken out.new) (held.old.items ++ line.now)) }
    ensures few { length held.old.items ≤ BUFFER_BYTES }
    ensures none_left { OnErr result (held.new.items ≡ []) }
    ensures cause { HasCause (K.faults out.old) (K.faults out.new) result }
    ensures quiet { OnOk result (K.faults out.new ≡ K.faults out.old) }
{
    make_room(out, held, line.len())?;
    let _all = held.try_extend_from_slice(line);
    Ok(())
}
