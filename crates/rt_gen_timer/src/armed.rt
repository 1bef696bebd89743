// The tasks whose messages may be armed, as code finds them.

ghost use Rattle.std.specs.Prelude.{◌≡◌, ◌≤◌, ◌*◌, ◌-◌, slice_get, true};
ghost use Rattle.rt_ids.specs.Lists.{is_some_and};
ghost use Rattle.rt_ids.specs.declared.limits.TheConstants.{CAPACITY};
ghost use Rattle.rt_app.specs.Accepted.{IsAccepted};
ghost use Rattle.rt_app.specs.Level.{is_software};
ghost use Rattle.rt_app.specs.Plan.{IsPlan};
ghost use Rattle.rt_app.specs.View.{app_of};
ghost use Rattle.rt_gen_timer.specs.TimerCode.{armed_task};

use rt_app::Plan;
use rt_frames::ArmedRows;
use rt_gen_queue::{Target, find_target};
use rt_ids::TaskId;
use rt_ids::limits::CAPACITY;

/// A task whose messages may be armed, as code finds it.
#[derive(Clone, Copy)]
pub struct ArmedTask {
    /// Where its places and arguments lie, and the ready queue of its level.
    pub target: Target,
    /// The row of its first place in the columns of the timer queue.
    pub first: u32,
    /// How many rows it has: its capacity, and 0 where no message of it is ever armed.
    pub rows: u32,
}

impl ArmedTask {
    /// How much more the word of a message of the task is than its row.
    pub(crate) fn word_offset(&self) -> u32
        requires before { self.now.first ≤ CAPACITY * self.now.target.task }
        ensures { result ≡ CAPACITY * self.now.target.task - self.now.first }
    {
        CAPACITY * u32::from(self.target.task.0) - self.first
    }
}

/// A software task, as the code that arms, cancels and moves its messages finds it.
pub(crate) fn armed_task(plan: &Plan<'_>, rows: &ArmedRows<'_>, task: TaskId) -> ArmedTask
    requires accepted { IsAccepted (app_of plan.now.app.now) }
    requires planned { IsPlan plan.now }
    requires rows { rows.now ≡ plan.now.app.now }
    requires software { is_some_and is_software (slice_get (app_of plan.now.app.now).tasks task) ≡ true }
    ensures is { result ≡ armed_task (app_of plan.now.app.now) task }
    ensures few_arguments { result.target.args ≤ 4 }
    ensures few_rows { result.rows ≤ CAPACITY }
    ensures few_before { result.first ≤ CAPACITY * task }
{
    ArmedTask {
        target: find_target(plan, task),
        first: rows.first(task),
        rows: rows.count(task),
    }
}
