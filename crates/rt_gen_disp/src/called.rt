// The tasks whose bodies a dispatcher calls.

ghost use Rattle.std.specs.Prelude.{◌≡◌, ◌≤◌, slice_get, Some, true};
ghost use Rattle.rt_app.specs.Accepted.{IsAccepted};
ghost use Rattle.rt_app.specs.Level.{is_software};
ghost use Rattle.rt_app.specs.Plan.{IsPlan};
ghost use Rattle.rt_app.specs.View.{task_of, app_of};
ghost use Rattle.rt_gen_disp.specs.Code.{callee_of};

use rt_app::{Plan, Task};
use rt_gen_queue::Guard;
use rt_gen_queue::queue::cell_at;
use rt_gen_queue::target::free_ceiling;
use rt_ids::TaskId;

/// A task whose body a dispatcher calls.
#[derive(Clone, Copy)]
pub struct Called {
    pub task: TaskId,
    /// Its row among the bodies of software tasks.
    pub row: u32,
    /// How many arguments it takes.
    pub args: u8,
    /// The first cell of its free places: how many there are, before the places.
    pub free: u16,
    /// The first cell of the arguments of its places.
    pub inputs: u16,
    /// How the section of its free places masks.
    pub guard: Guard,
}

/// The software task of a number, whose body has this row.
pub(crate) fn callee_of(plan: &Plan<'_>, number: usize, row: u32, task: &Task) -> Called
    requires accepted { IsAccepted (app_of plan.now.app.now) }
    requires planned { IsPlan plan.now }
    requires task { slice_get (app_of plan.now.app.now).tasks number ≡ Some (task_of task.now) }
    requires software { is_software (task_of task.now) ≡ true }
    ensures is { result ≡ callee_of (app_of plan.now.app.now) number row (task_of task.now) }
    ensures few { result.args ≤ 4 }
{
    let id = TaskId(number as u8);
    let free = cell_at(&plan.lay.free, number);
    let inputs = cell_at(&plan.lay.inputs, number);
    Called {
        task: id,
        row,
        args: task.args,
        free,
        inputs,
        guard: Guard::of(plan.app.bits, free_ceiling(&plan.ceil.free, id)),
    }
}
