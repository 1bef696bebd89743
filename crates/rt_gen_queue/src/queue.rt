// The queues of tasks and levels, as code finds them.

ghost use Rattle.std.specs.Prelude.{◌≡◌, ◌<◌, ◌≤◌, ◌==◌, if◌then◌else◌, length, map, filter, position};
ghost use Rattle.std.specs.Prelude.{sum_by, slice_get, slice_index, option_map, Contains, Some, IsSome};
ghost use Rattle.rt_ids.specs.Lists.{or_zero, then_from};
ghost use Rattle.rt_ids.specs.declared.limits.TheConstants.{TASKS};
ghost use Rattle.rt_app.specs.Accepted.{IsAccepted};
ghost use Rattle.rt_app.specs.Handlers as handlers;
ghost use Rattle.rt_app.specs.Level as levels;
ghost use Rattle.rt_app.specs.Plan.{IsPlan};
ghost use Rattle.rt_app.specs.View.{app_of, task_of};
ghost use Rattle.rt_gen_queue.specs.Queue.{queue_at};

use crate::guard::Guard;
use rt_app::{App, IrqDecl, Plan, ReadyCeiling, Task};
use rt_ids::Irq;

/// The ready queue of a level of software tasks, as code finds it.
#[derive(Clone, Copy)]
pub struct ReadyQueue {
    pub level: u8,
    /// The first cell of its ring: where the oldest message is, before how many there are and the messages.
    pub at: u16,
    /// The messages that the ring holds.
    pub room: u32,
    /// How its section masks.
    pub guard: Guard,
    /// The interrupt that serves the level.
    pub irq: Irq,
}

/// The cell of a table at an index.
pub fn cell_at(cells: &[u16], index: usize) -> u16
    requires { index < length cells.now }
    ensures { result ≡ slice_index cells.now index }
{
    cells[index]
}

/// The index of a level among those of the ready queues.
fn find_level(queues: &[ReadyCeiling], level: u8) -> Option<usize>
    ensures { result ≡ position (λ r. r.level == level) queues.now }
{
    queues.iter().position(|queue| queue.level == level)
}

/// The same, of a level that is one of them.
fn index_of(queues: &[ReadyCeiling], level: u8) -> usize
    requires { IsSome (position (λ r. r.level == level) queues.now) }
    ensures { position (λ r. r.level == level) queues.now ≡ Some result }
{
    let Some(index) = find_level(queues, level) else {
        unreachable!()
    };
    index
}

/// The ceiling of the ready queue at an index.
fn ceiling_at(queues: &[ReadyCeiling], index: usize) -> u8
    requires { index < length queues.now }
    ensures { option_map (λ r. r.ceiling) (slice_get queues.now index) ≡ Some result }
{
    queues[index].ceiling
}

/// The number of a declared interrupt, by its index.
pub fn irq_number(irqs: &[IrqDecl], irq: u8) -> Irq
    requires { irq < length irqs.now }
    ensures { option_map (λ d. d.number) (slice_get irqs.now irq) ≡ Some result }
{
    match irqs.get(usize::from(irq)) {
        None => unreachable!(),
        Some(declared) => declared.number,
    }
}

/// The number of the interrupt of a dispatcher of an accepted application, by the dispatcher's index.
fn dispatcher_number(app: &App, index: usize) -> Irq
    requires accepted { IsAccepted (app_of app.now) }
    requires there { index < length (app_of app.now).dispatchers }
    ensures { result ≡ or_zero (then_from (option_map (λ d. d.irq) (slice_get (app_of app.now).dispatchers index))
        (handlers.irq_number (app_of app.now))) }
{
    irq_number(&app.irqs, app.dispatchers[index].irq)
}

/// The capacity of a task, where it is one of a level.
fn capacity_at(task: &Task, level: u8) -> u32
    ensures is { result ≡ (if levels.is_of_level level (task_of task.now) then (task_of task.now).capacity else 0) }
    ensures few { result < 256 }
{
    if task.is_of_level(level) {
        u32::from(task.capacity)
    } else {
        0
    }
}

/// The messages of a level that may be ready at once.
fn ready_room(tasks: &[Task], level: u8) -> u32
    requires few { length tasks.now ≤ TASKS }
    ensures { result ≡ sum_by (λ t. t.capacity) (filter (levels.is_of_level level) (map task_of tasks.now)) }
{
    let mut room: u32 = 0;
    for task in tasks {
        room += capacity_at(task, level);
    }
    room
}

/// The ready queue of a level that has software tasks.
pub fn queue_of(plan: &Plan<'_>, level: u8) -> ReadyQueue
    requires accepted { IsAccepted (app_of plan.now.app.now) }
    requires planned { IsPlan plan.now }
    requires software { Contains (levels.levels (app_of plan.now.app.now)) level }
    ensures { result ≡ queue_at (app_of plan.now.app.now) level }
{
    let app = plan.app;
    let queues = plan.ceil.ready.as_slice();
    let index = index_of(queues, level);
    let above = queues.len() - 1 - index;
    ReadyQueue {
        level,
        at: cell_at(&plan.lay.ready, index),
        room: ready_room(&app.tasks, level),
        guard: Guard::of(app.bits, ceiling_at(queues, index)),
        irq: dispatcher_number(app, above),
    }
}
