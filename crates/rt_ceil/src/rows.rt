// Reads the ceilings off the filled tables.

ghost use Rattle.std.specs.Prelude.{◌≡◌, length, map, IfOk};
ghost use Rattle.rt_app.specs.View.{task_of};
ghost use Rattle.rt_app.specs.declared.costs.TheConstants.{PRIORITIES};
ghost use Rattle.rt_ceil.specs.Inside.Rows as rows;

use crate::spawns::level;
use rt_app::costs::PRIORITIES;
use rt_app::{Mono, ReadyCeiling, Task};
use rt_ids::NoMemory;
use std::alloc::Global;

/// The ceiling of a task's free places, where bodies up to this priority spawn it or cancel messages of it.
fn free_row(task: &Task, priority: u8) -> Option<u8>
    ensures { result ≡ rows.free_row (task_of task.now) priority }
{
    if task.is_software() {
        Some(task.priority.max(priority))
    } else {
        None
    }
}

/// The ceilings of tasks' free places.
pub(crate) fn free_rows(
    alloc: Global,
    tasks: &[Task],
    table: &[u8],
) -> Result<Vec<Option<u8>>, NoMemory>
    requires { length tasks.now ≡ length table.now }
    ensures { IfOk result (λ free. free.items ≡ rows.free_rows table.now 0 (map task_of tasks.now)) }
{
    let mut free = Vec::new(alloc);
    for (number, task) in tasks.iter().enumerate() {
        free.push(free_row(task, table[number]))?;
    }
    Ok(free)
}

/// Marks a level, where there is one.
fn mark(served: &mut [bool], level: Option<u8>)
    ensures { served.new ≡ rows.served_with served.old level }
{
    if let Some(level) = level {
        let level = level as usize;
        if level < served.len() {
            served[level] = true;
        }
    }
}

/// For each level, whether there is a software task of it.
pub(crate) fn served_levels(alloc: Global, tasks: &[Task]) -> Result<Vec<bool>, NoMemory>
    ensures { IfOk result (λ served. served.items ≡ rows.served_levels (map task_of tasks.now)) }
{
    let mut served = vec![in alloc; false; PRIORITIES as usize]?;
    for task in tasks {
        mark(&mut served, level(task));
    }
    Ok(served)
}

/// The ceilings of the ready queues, by rising level.
pub(crate) fn ready_rows(
    alloc: Global,
    served: &[bool],
    table: &[u8],
) -> Result<Vec<ReadyCeiling>, NoMemory>
    requires served { length served.now ≡ PRIORITIES }
    requires table { length table.now ≡ PRIORITIES }
    ensures { IfOk result (λ ready. ready.items ≡ rows.ready_rows served.now table.now PRIORITIES) }
{
    let mut ready = Vec::new(alloc);
    for level in 0..PRIORITIES {
        if served[level as usize] {
            let level = level as u8;
            let ceiling = level.max(table[level as usize]);
            ready.push(ReadyCeiling { level, ceiling })?;
        }
    }
    Ok(ready)
}

/// The ceiling of the timer queue, `None` without a monotonic: the greater of its priority and this one, the greatest
/// of the bodies that use the queue.
pub(crate) fn timer_row(mono: Option<Mono>, priority: u8) -> Option<u8>
    ensures { result ≡ rows.timer_row mono priority }
{
    match mono {
        Some(mono) => Some(mono.priority.max(priority)),
        None => None,
    }
}
