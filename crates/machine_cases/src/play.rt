// Runs a script on a core, and writes its trace.

ghost use Rattle.std.specs.Prelude.{◌≡◌, ◌+◌, ◌≤◌, ◌<◌, ◌^◌};

use anyhow::{Result, bail};
use rt_core::Core;
use rt_ids::{Irq, Names};
use rt_script::{Line, Script, read_script};
use rt_trace::{Item, What, has_line, line};
use std::alloc::Global;
use test_tables::Case;

/// Events of a script, at most.
const EVENTS: u32 = 10_000;

/// The script of a case, over these names.
pub fn script(alloc: Global, case: &Case, names: &Names) -> Result<Script> {
    match read_script(alloc, case.bytes("script"), names) {
        Ok(script) => Ok(script),
        Err(_refused) => bail!("the script is refused"),
    }
}

/// What happens to a core.
#[derive(Clone, Copy)]
enum Happening {
    Step,
    Tick,
    Pend(Irq),
}

/// What a line of a script asks for, and how many times.
fn happening_of(line: &Line) -> Option<(Happening, u32)> {
    match line {
        Line::Steps(count) => Some((Happening::Step, *count)),
        Line::Ticks(count) => Some((Happening::Tick, *count)),
        Line::Pends(irq, count) => Some((Happening::Pend(*irq), *count)),
        Line::Device(_device, _irq, _count) => None,
    }
}

/// Writes the line of an item.
pub fn write_item(trace: &mut Vec<u8>, item: &Item, names: &Names) -> Result<()> {
    if !has_line(item, names) {
        bail!("an item without a line");
    }
    trace.extend_from_slice(line(item, names).as_slice())?;
    Ok(())
}

/// Writes the line of what a core shows.
fn show(core: &Core, trace: &mut Vec<u8>, step: u64, what: What) -> Result<()> {
    write_item(trace, &Item { step, what }, &core.image().names)
}

/// One core step.
#[tactic(auto, using(rt_core::proofs::Keeping::step_keeps_time))]
fn step(core: &mut Core, trace: &mut Vec<u8>) -> Result<()>
    requires { core.old.steps < 2 ^ 31 }
    ensures steps { core.new.steps ≡ core.old.steps + 1 }
    ensures time { core.new.core.time ≡ core.old.core.time }
{
    let before = core.steps();
    match core.step() {
        Some(what) => show(core, trace, before, what),
        None => Ok(()),
    }
}

/// One tick.
#[tactic(auto, using(rt_core::proofs::Keeping::tick_adds_one))]
fn tick(core: &mut Core, trace: &mut Vec<u8>) -> Result<()>
    requires { core.old.core.time < 2 ^ 31 }
    ensures steps { core.new.steps ≡ core.old.steps }
    ensures time { core.new.core.time ≡ core.old.core.time + 1 }
{
    let came = core.tick();
    show(core, trace, core.steps(), What::Tick)?;
    if came {
        show(core, trace, core.steps(), What::Alarm)?;
    }
    Ok(())
}

/// One request of an interrupt.
#[tactic(auto, using(crate::proofs::Arriving::arrivals_keep_time))]
fn arrive(core: &mut Core, irq: Irq, trace: &mut Vec<u8>) -> Result<()>
    ensures steps { core.new.steps ≡ core.old.steps }
    ensures time { core.new.core.time ≡ core.old.core.time }
{
    let number = irq.get();
    core.arrive((number / 32) as u8, 1 << (number % 32));
    show(core, trace, core.steps(), What::Pend(irq))
}

/// The same some times over.
fn repeat(core: &mut Core, happening: Happening, count: u32, trace: &mut Vec<u8>) -> Result<()>
    requires few_steps { core.old.steps + count < 2 ^ 31 }
    requires few_ticks { core.old.core.time + count < 2 ^ 31 }
    ensures steps { core.new.steps ≤ core.old.steps + count }
    ensures time { core.new.core.time ≤ core.old.core.time + count }
{
    for _ in 0..count {
        match happening {
            Happening::Step => step(core, trace)?,
            Happening::Tick => tick(core, trace)?,
            Happening::Pend(irq) => arrive(core, irq, trace)?,
        }
    }
    Ok(())
}

/// Writes the trace of a core after reset under a script.
fn write_trace(core: &mut Core, script: &Script, trace: &mut Vec<u8>) -> Result<()>
    requires no_steps { core.old.steps ≡ 0 }
    requires no_ticks { core.old.core.time ≡ 0 }
{
    let mut left = EVENTS;
    for line in script.lines() {
        let Some((happening, count)) = happening_of(line) else {
            bail!("a device");
        };
        if count > left {
            bail!("too many events");
        }
        left -= count;
        repeat(core, happening, count, trace)?;
    }
    Ok(())
}

/// The lines of the trace of a core after reset under a script.
pub fn play(alloc: Global, core: &mut Core, script: &Script) -> Result<Vec<u8>>
    requires no_steps { core.old.steps ≡ 0 }
    requires no_ticks { core.old.core.time ≡ 0 }
{
    let mut trace = Vec::new(alloc);
    write_trace(core, script, &mut trace)?;
    Ok(trace)
}
