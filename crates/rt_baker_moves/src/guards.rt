// The ceilings of sections.

ghost use Rattle.std.specs.Prelude.{◌≡◌, slice_index};
ghost use Rattle.rt_ids.specs.Lists.{or_zero};
ghost use Rattle.rt_app.specs.Ceiling.{ceiling};
ghost use Rattle.rt_app.specs.View.{app_of};
ghost use Rattle.rt_baker_moves.specs.Machine.{IsMachine};
ghost use Rattle.rt_baker_moves.specs.Inside.Guards.{free_or, ready_or};

use crate::machine::Machine;
use rt_app::{Ceilings, ReadyCeiling};
use rt_baker_work::lookup::priority;
use rt_ids::{ResId, Section, TaskId};

/// The ceiling of a resource; 0, which holds nobody off, for one that is not declared.
fn shared_ceiling(ceilings: &Ceilings, resource: ResId) -> u8
    ensures { result ≡ slice_index ceilings.now.shared resource }
{
    match ceilings.shared.get(usize::from(resource.0)) {
        None => 0,
        Some(ceiling) => *ceiling,
    }
}

/// The ceiling of the places of a task of this priority.
fn free(ceilings: &Ceilings, task: TaskId, priority: u8) -> u8
    ensures { result ≡ free_or ceilings.now task priority }
{
    match ceilings.free.get(usize::from(task.0)) {
        None => priority,
        Some(ceiling) => ceiling.unwrap_or(priority),
    }
}

/// The ceiling of the ready messages of a level.
fn ready(queues: &[ReadyCeiling], level: u8) -> u8
    ensures { result ≡ ready_or queues.now level }
{
    match queues.iter().find(|queue| queue.level == level) {
        None => level,
        Some(queue) => queue.ceiling,
    }
}

/// The ceiling of the armed messages; 0, which holds nobody off, without a monotonic.
fn timer(ceilings: &Ceilings) -> u8
    ensures { result ≡ or_zero ceilings.now.timer }
{
    ceilings.timer.unwrap_or(0)
}

/// The ceiling of a section: the priority that it holds off, with all below it.
pub(crate) fn ceiling<'a>(machine: &Machine<'a>, section: Section) -> u8
    requires { IsMachine machine.now }
    ensures { result ≡ ceiling (app_of machine.now.code.now.app.now) section }
{
    let ceilings = machine.ceilings;
    match section {
        Section::Res(resource) => shared_ceiling(ceilings, resource),
        Section::Free(task) => free(ceilings, task, priority(machine.code.app, task)),
        Section::Ready(level) => ready(&ceilings.ready, level.0),
        Section::Timer => timer(ceilings),
    }
}
