// The timer queue, as code finds it.

ghost use Rattle.std.specs.Prelude.{◌≡◌, ◌≤◌, ◌*◌, Some, IsSome};
ghost use Rattle.rt_ids.specs.declared.limits.TheConstants.{CAPACITY, TASKS};
ghost use Rattle.rt_app.specs.Accepted.{IsAccepted};
ghost use Rattle.rt_app.specs.Plan.{IsPlan};
ghost use Rattle.rt_app.specs.View.{app_of};
ghost use Rattle.rt_gen_timer.specs.TimerCode as spec;

use rt_app::{Ceilings, Layout, Mono, Plan};
use rt_frames::ArmedRows;
use rt_gen_queue::Guard;
use rt_gen_queue::queue::irq_number;
use rt_ids::Irq;

/// The timer queue, as code finds it.
#[derive(Clone, Copy)]
pub struct TimerQueue {
    /// Its first cell: how many messages are armed. The counts of armings and of handles follow, and the columns.
    pub at: u16,
    /// How many messages may be armed at once: the cells of each column.
    pub messages: u32,
    /// How its section masks.
    pub guard: Guard,
    /// The interrupt of the monotonic.
    pub irq: Irq,
}

/// The ceiling of the timer queue of an application with a monotonic.
fn top_of(ceilings: &Ceilings) -> u8
    requires timed { IsSome ceilings.now.timer }
    ensures { ceilings.now.timer ≡ Some result }
{
    let Some(ceiling) = ceilings.timer else {
        unreachable!()
    };
    ceiling
}

/// The first cell of the timer queue.
fn first_cell(layout: &Layout) -> u16
    ensures { result ≡ layout.now.timer }
{
    layout.timer
}

/// The timer queue of an application that has this monotonic.
pub(crate) fn queue_of(plan: &Plan<'_>, rows: &ArmedRows<'_>, mono: Mono) -> TimerQueue
    requires accepted { IsAccepted (app_of plan.now.app.now) }
    requires planned { IsPlan plan.now }
    requires rows { rows.now ≡ plan.now.app.now }
    requires timed { plan.now.app.now.mono ≡ Some mono }
    ensures is { result ≡ spec.queue_of (app_of plan.now.app.now) }
    ensures few { result.messages ≤ CAPACITY * TASKS }
{
    let app = plan.app;
    TimerQueue {
        at: first_cell(&plan.lay),
        messages: rows.messages(),
        guard: Guard::of(app.bits, top_of(&plan.ceil)),
        irq: irq_number(&app.irqs, mono.irq),
    }
}
