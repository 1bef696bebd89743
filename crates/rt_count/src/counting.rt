// Runs a script, and counts what the core shows.

ghost use Rattle.std.specs.Prelude.{◌≡◌, ◌<◌, ◌+◌, ◌-◌, ◌^◌, [], ◌∷◌, replicate};
ghost use Rattle.rt_ids.specs.Event.{Arrive, Tick, Step};
ghost use Rattle.rt_ids.specs.declared.limits.TheConstants.{SCRIPT_EVENTS};
ghost use Rattle.rt_core.specs.Machine.{IsFresh};
ghost use Rattle.rt_core.specs.Trace.{trace};
ghost use Rattle.rt_script.specs.Script.{IsScript, count_of, events, line_events};
ghost use Rattle.rt_run.specs.Done.{Leads};
ghost use Rattle.rt_count.specs.Summary.{summary_of};
ghost use Rattle.rt_count.specs.declared.summary.Summary.{Summary as Counts};
ghost use Rattle.rt_count.specs.Inside.Counting.{Counted};
ghost use Rattle.rt_count.specs.Joining.{CountsAtMost};

use crate::summary::Summary;
use rt_core::Core;
use rt_ids::Irq;
use rt_script::{Line, Script};

/// Core steps up to the first that shows an item, at most so many, and what it shows. It answers how many of so many
/// are left.
#[inline(always)]
fn count_to_item(core: &mut Core, most: u32, summary: &mut Summary) -> u32
    requires few { core.old.steps + most < 2 ^ 31 }
    requires some { 0 < most }
    requires within { CountsAtMost core.old.steps summary.old }
    ensures fewer { result < most }
    ensures counted { Counted (replicate (most - result) Step) core.old core.new summary.old summary.new }
    ensures within { CountsAtMost core.new.steps summary.new }
{
    let before = core.steps();
    let Some(what) = core.steps_to_item(most) else {
        return 0;
    };
    summary.count(&what);
    most - (core.steps() - before) as u32
}

/// So many core steps.
fn count_steps(core: &mut Core, count: u32, summary: &mut Summary)
    requires few { core.old.steps + count < 2 ^ 31 }
    requires within { CountsAtMost core.old.steps summary.old }
    ensures counted { Counted (replicate count Step) core.old core.new summary.old summary.new }
    ensures within { CountsAtMost core.new.steps summary.new }
{
    let mut left = count;
    while left > 0 {
        left = count_to_item(core, left, summary);
    }
}

/// One request of an interrupt, which is counted as nothing.
fn arrive(core: &mut Core, irq: Irq)
    ensures { Leads (Arrive irq ∷ []) core.old core.new }
{
    let number = irq.get();
    core.arrive((number / 32) as u8, 1 << (number % 32));
}

/// So many ticks, which are counted as nothing.
fn tick_on(core: &mut Core, count: u32)
    requires early { core.old.core.time + count < 2 ^ 31 }
    ensures steps { core.new.steps ≡ core.old.steps }
    ensures counted { (summary : Counts) → Counted (replicate count Tick) core.old core.new summary summary }
{
    for _done in 0..count {
        core.tick();
    }
}

/// So many requests of an interrupt, which are counted as nothing.
fn arrive_on(core: &mut Core, irq: Irq, count: u32)
    ensures steps { core.new.steps ≡ core.old.steps }
    ensures counted { (summary : Counts)
        → Counted (replicate count (Arrive irq)) core.old core.new summary summary }
{
    for _done in 0..count {
        arrive(core, irq);
    }
}

/// The events of a line of a script.
fn count_line(core: &mut Core, line: &Line, summary: &mut Summary)
    requires few { core.old.steps + count_of line.now < 2 ^ 31 }
    requires early { core.old.core.time + count_of line.now < 2 ^ 31 }
    requires within { CountsAtMost core.old.steps summary.old }
    ensures counted { Counted (line_events line.now) core.old core.new summary.old summary.new }
    ensures within { CountsAtMost core.new.steps summary.new }
{
    match line {
        Line::Steps(count) => count_steps(core, *count, summary),
        Line::Ticks(count) => tick_on(core, *count),
        Line::Pends(irq, count) => arrive_on(core, *irq, *count),
        Line::Device(_, irq, count) => arrive_on(core, *irq, *count),
    }
}

/// The events of the lines of a script, from a core on to which no event has come.
fn count_lines(core: &mut Core, lines: &[Line], summary: &mut Summary)
    requires fresh { IsFresh core.old }
    requires script { IsScript lines.now }
    requires within { CountsAtMost core.old.steps summary.old }
    ensures counted { Counted (events lines.now) core.old core.new summary.old summary.new }
    ensures within { CountsAtMost core.new.steps summary.new }
{
    for line in lines {
        count_line(core, line, summary);
    }
}

/// Runs a script on a core to which no event has come, and counts what it shows. The script's events come to the core
/// line by line, the requests of a device at its line.
pub fn count_run(core: &mut Core, script: &Script) -> Summary
    requires { IsFresh core.old }
    ensures counts { result ≡ summary_of 1 (trace core.old.image (events script.now)) }
    ensures all { Leads (events script.now) core.old core.new }

    // A core step is a take, an emitted value or a refused message at most once.
    ensures within { CountsAtMost SCRIPT_EVENTS result }
{
    let mut summary = Summary::of_silent_runs(1);
    count_lines(core, script.lines(), &mut summary);
    summary
}
