// What the code of a spawn has to know of its task.

ghost use Rattle.std.specs.Prelude.{◌≡◌, ◌≤◌, true, slice_get, Some, IsSome};
ghost use Rattle.rt_ids.specs.Lists.{is_some_and, then_from};
ghost use Rattle.rt_app.specs.Accepted.{IsAccepted};
ghost use Rattle.rt_app.specs.Level.{is_software};
ghost use Rattle.rt_app.specs.Plan.{IsPlan};
ghost use Rattle.rt_app.specs.View.{app_of, task_of};
ghost use Rattle.rt_gen_queue.specs.SpawnCode as spec;

use crate::guard::Guard;
use crate::queue::{ReadyQueue, cell_at, queue_of};
use rt_app::{Plan, Task};
use rt_ids::TaskId;

/// What the code of a spawn of a task is made of.
#[derive(Clone, Copy)]
pub struct Target {
    pub task: TaskId,
    /// How many arguments the task takes.
    pub args: u8,
    /// The first cell of the task's free places: how many there are, before the places.
    pub free: u16,
    /// The first cell of the arguments of its places.
    pub inputs: u16,
    /// How the section of its free places masks.
    pub guard: Guard,
    /// The ready queue of its level.
    pub queue: ReadyQueue,
}

/// The ceiling of the free places of a software task.
pub fn free_ceiling(ceilings: &[Option<u8>], task: TaskId) -> u8
    requires { IsSome (then_from (slice_get ceilings.now task) (λ c. c)) }
    ensures { then_from (slice_get ceilings.now task) (λ c. c) ≡ Some result }
{
    match ceilings.get(usize::from(task.0)) {
        None => unreachable!(),
        Some(None) => unreachable!(),
        Some(Some(ceiling)) => *ceiling,
    }
}

/// What the code of a spawn of a declared task is made of.
fn target_of(plan: &Plan<'_>, task: TaskId, declared: &Task) -> Target
    requires accepted { IsAccepted (app_of plan.now.app.now) }
    requires planned { IsPlan plan.now }
    requires is_there { slice_get (app_of plan.now.app.now).tasks task ≡ Some (task_of declared.now) }
    requires software { is_software (task_of declared.now) ≡ true }
    ensures is { result ≡ spec.target_of (app_of plan.now.app.now) task }
    ensures few { result.args ≤ 4 }
{
    let place = usize::from(task.0);
    let free = cell_at(&plan.lay.free, place);
    let inputs = cell_at(&plan.lay.inputs, place);
    Target {
        task,
        args: declared.args,
        free,
        inputs,
        guard: Guard::of(plan.app.bits, free_ceiling(&plan.ceil.free, task)),
        queue: queue_of(plan, declared.priority),
    }
}

/// What the code of a spawn of a software task is made of. A task takes at most four arguments.
pub fn find_target(plan: &Plan<'_>, task: TaskId) -> Target
    requires accepted { IsAccepted (app_of plan.now.app.now) }
    requires planned { IsPlan plan.now }
    requires software { is_some_and is_software (slice_get (app_of plan.now.app.now).tasks task) ≡ true }
    ensures is { result ≡ spec.target_of (app_of plan.now.app.now) task }
    ensures few { result.args ≤ 4 }
{
    target_of(plan, task, &plan.app.tasks[usize::from(task.0)])
}
