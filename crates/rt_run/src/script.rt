// The one public call: runs a script, and writes the trace.

ghost use Rattle.std.specs.Prelude.{◌≡◌, ◌<◌, ◌+◌, ◌^◌, length, replicate, OnOk, OnErr};
ghost use Rattle.rt_ids.specs.Event.{Arrive, Tick, Step};
ghost use Rattle.rt_ids.specs.declared.limits.TheConstants.{TRACE_BYTES};
ghost use Rattle.rt_ids.specs.Naming.{IsDeclared};
ghost use Rattle.rt_outside.specs.Faults.{HasCause};
ghost use Rattle.rt_outside.specs.Bytes.{Took, TookPrefix};
ghost use Rattle.rt_code.specs.Lines.{HasLines};
ghost use Rattle.rt_core.specs.Machine.{IsFresh};
ghost use Rattle.rt_script.specs.Script.{IsScript, HasName, HasNames, events, line_events, count_of};
ghost use Rattle.rt_run.specs.Done.{Leads};
ghost use Rattle.rt_run.specs.Sending.{BreaksOff};
ghost use Rattle.rt_run.specs.Written.{text_of};
ghost use Rattle.rt_run.specs.Writable.{IsWritable};
ghost use Rattle.rt_run.specs.Inside.Writing.{Writes, Cut};

use crate::event::{run_pend, run_tick, run_to_item};
use crate::writing::put_end;
use rt_core::Core;
use rt_ids::Irq;
use rt_outside::{Failed, Sink};
use rt_script::{Line, Script};
use rt_trace::LineBuffer;

/// So many core steps.
fn run_steps<K: Sink>(
    core: &mut Core,
    count: u32,
    out: &mut K,
    held: &mut LineBuffer,
) -> Result<(), Failed>
    requires writable { IsWritable core.old }
    requires few { core.old.steps + count < 2 ^ 31 }
    ensures ok { OnOk result
        (Writes (replicate count Step) core.old core.new (K.taken out.old) (K.taken out.new) held.old held.new) }
    ensures err { OnErr result
        (Cut (replicate count Step) core.old core.new (K.taken out.old) (K.taken out.new) held.old) }
    ensures cause { HasCause (K.faults out.old) (K.faults out.new) result }
    ensures quiet { OnOk result (K.faults out.new ≡ K.faults out.old) }
{
    let mut left = count;
    while left > 0 {
        left = run_to_item(core, left, out, held)?;
    }
    Ok(())
}

/// So many ticks.
fn run_ticks<K: Sink>(
    core: &mut Core,
    count: u32,
    out: &mut K,
    held: &mut LineBuffer,
) -> Result<(), Failed>
    requires writable { IsWritable core.old }
    requires few { core.old.steps + count < 2 ^ 31 }
    requires early { core.old.core.time + count < 2 ^ 31 }
    ensures ok { OnOk result
        (Writes (replicate count Tick) core.old core.new (K.taken out.old) (K.taken out.new) held.old held.new) }
    ensures err { OnErr result
        (Cut (replicate count Tick) core.old core.new (K.taken out.old) (K.taken out.new) held.old) }
    ensures cause { HasCause (K.faults out.old) (K.faults out.new) result }
    ensures quiet { OnOk result (K.faults out.new ≡ K.faults out.old) }
{
    for _done in 0..count {
        run_tick(core, out, held)?;
    }
    Ok(())
}

/// So many requests of an interrupt.
fn run_pends<K: Sink>(
    core: &mut Core,
    irq: Irq,
    count: u32,
    out: &mut K,
    held: &mut LineBuffer,
) -> Result<(), Failed>
    requires writable { IsWritable core.old }
    requires few { core.old.steps + count < 2 ^ 31 }
    requires declared { IsDeclared core.old.image.names irq }
    ensures ok { OnOk result
        (Writes (replicate count (Arrive irq)) core.old core.new (K.taken out.old) (K.taken out.new)
        held.old held.new) }
    ensures err { OnErr result
        (Cut (replicate count (Arrive irq)) core.old core.new (K.taken out.old) (K.taken out.new) held.old) }
    ensures cause { HasCause (K.faults out.old) (K.faults out.new) result }
    ensures quiet { OnOk result (K.faults out.new ≡ K.faults out.old) }
{
    for _done in 0..count {
        run_pend(core, irq, out, held)?;
    }
    Ok(())
}

/// The events of a line of a script.
fn run_line<K: Sink>(
    core: &mut Core,
    line: &Line,
    out: &mut K,
    held: &mut LineBuffer,
) -> Result<(), Failed>
    requires writable { IsWritable core.old }
    requires few { core.old.steps + count_of line.now < 2 ^ 31 }
    requires early { core.old.core.time + count_of line.now < 2 ^ 31 }
    requires declared { HasName core.old.image.names line.now }
    ensures ok { OnOk result
        (Writes (line_events line.now) core.old core.new (K.taken out.old) (K.taken out.new) held.old held.new) }
    ensures err { OnErr result
        (Cut (line_events line.now) core.old core.new (K.taken out.old) (K.taken out.new) held.old) }
    ensures cause { HasCause (K.faults out.old) (K.faults out.new) result }
    ensures quiet { OnOk result (K.faults out.new ≡ K.faults out.old) }
{
    match line {
        Line::Steps(count) => run_steps(core, *count, out, held),
        Line::Ticks(count) => run_ticks(core, *count, out, held),
        Line::Pends(irq, count) => run_pends(core, *irq, *count, out, held),
        Line::Device(_, irq, count) => run_pends(core, *irq, *count, out, held),
    }
}

/// The events of the lines of a script, from a core on to which no event has come.
fn run_lines<K: Sink>(
    core: &mut Core,
    lines: &[Line],
    out: &mut K,
    held: &mut LineBuffer,
) -> Result<(), Failed>
    requires fresh { IsFresh core.old }
    requires lines { HasLines core.old.image }
    requires script { IsScript lines.now }
    requires declared { HasNames core.old.image.names lines.now }
    ensures ok { OnOk result
        (Writes (events lines.now) core.old core.new (K.taken out.old) (K.taken out.new) held.old held.new) }
    ensures err { OnErr result
        (Cut (events lines.now) core.old core.new (K.taken out.old) (K.taken out.new) held.old) }
    ensures cause { HasCause (K.faults out.old) (K.faults out.new) result }
    ensures quiet { OnOk result (K.faults out.new ≡ K.faults out.old) }
{
    for line in lines {
        run_line(core, line, out, held)?;
    }
    Ok(())
}

/// Runs a script on a core to which no event has come, and writes the text of its trace, with its total of core steps.
/// The script's events come to the core line by line, the requests of a device at its line. It takes no
/// memory: lines gather in a buffer of 4 KiB, which goes out where the next line has no room, and at the end, before
/// the call answers.
pub fn run_script<K: Sink>(core: &mut Core, script: &Script, out: &mut K) -> Result<(), Failed>
    requires fresh { IsFresh core.old }
    requires lines { HasLines core.old.image }
    requires declared { HasNames core.old.image.names script.now }
    ensures ok { OnOk result (Took (K.taken out.old) (K.taken out.new) (text_of core.old.image script.now)) }
    ensures all { OnOk result (Leads (events script.now) core.old core.new) }

    // The text is short enough to be read as a trace.
    ensures short { OnOk result (length (text_of core.old.image script.now) < TRACE_BYTES) }

    // At a fault a beginning of the text was taken, and the core has done the first of its events, those at least of
    // which lines were taken.
    ensures err { OnErr result (TookPrefix (K.taken out.old) (K.taken out.new) (text_of core.old.image script.now)) }
    ensures part { OnErr result
        (BreaksOff (events script.now) core.old core.new (K.taken out.old) (K.taken out.new)) }
    ensures cause { HasCause (K.faults out.old) (K.faults out.new) result }
    ensures quiet { OnOk result (K.faults out.new ≡ K.faults out.old) }
{
    let mut held = LineBuffer::new();
    let lines = script.lines();
    run_lines(core, lines, out, &mut held)?;
    put_end(out, &mut held, core.steps())
}
