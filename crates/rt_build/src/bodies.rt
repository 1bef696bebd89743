// The rows of the bodies that dispatchers call.

ghost use Rattle.std.specs.Prelude.{◌≡◌, ◌<◌, length, slice_get, Some, true, IfOk};
ghost use Rattle.rt_app.specs.Frame.{frame_words};
ghost use Rattle.rt_app.specs.Level.{is_software};
ghost use Rattle.rt_app.specs.Tree as tree;
ghost use Rattle.rt_app.specs.View.{app_of, task_of};
ghost use Rattle.rt_gen_queue.specs.Called.{row_for, rows_for};
ghost use Rattle.rt_build.specs.Inside.Plan.{IsAcceptedPlan};
ghost use Rattle.rt_build.specs.Inside.Code.{HasEntries, entries_of};

use crate::code::Code;
use rt_app::{Plan, Task};
use rt_code::BodyRow;
use rt_ids::{NoMemory, TaskId};
use std::alloc::Global;

/// Frames of `init` and `idle`, before those of the tasks.
const THREAD_FRAMES: usize = 2;

/// How the body of a task starts.
#[derive(Clone, Copy)]
pub(crate) struct Start {
    /// The address of its first line.
    pub(crate) entry: u32,
    /// The words of its frame.
    pub(crate) frame: u32,
}

/// How the body of the task at an index starts.
pub(crate) fn start_of(plan: &Plan<'_>, code: &Code, number: usize) -> Start
    requires plan { IsAcceptedPlan plan.now }
    requires entries { HasEntries (app_of plan.now.app.now) code.now }
    requires within { number < length (app_of plan.now.app.now).tasks }
    ensures entry { result.entry ≡ (entries_of (app_of plan.now.app.now) code.now).task number }
    ensures frame { (task : tree.Task) → slice_get (app_of plan.now.app.now).tasks number ≡ Some task →
        result.frame ≡ frame_words task.args task.body }
{
    Start {
        entry: code.tasks[number],
        frame: plan.frames[number + THREAD_FRAMES],
    }
}

/// The row of the body of a software task.
fn body_row(plan: &Plan<'_>, code: &Code, number: usize, task: &Task) -> BodyRow
    requires plan { IsAcceptedPlan plan.now }
    requires entries { HasEntries (app_of plan.now.app.now) code.now }
    requires task { slice_get (app_of plan.now.app.now).tasks number ≡ Some (task_of task.now) }
    requires software { is_software (task_of task.now) ≡ true }
    ensures { result ≡ row_for (entries_of (app_of plan.now.app.now) code.now).task number (task_of task.now) }
{
    let start = start_of(plan, code, number);
    BodyRow {
        task: TaskId(number as u8),
        entry: start.entry,
        frame: start.frame,
        args: task.args,
    }
}

/// The rows of the bodies that dispatchers call.
pub(crate) fn body_rows(
    alloc: Global,
    plan: &Plan<'_>,
    code: &Code,
) -> Result<Vec<BodyRow>, NoMemory>
    requires plan { IsAcceptedPlan plan.now }
    requires entries { HasEntries (app_of plan.now.app.now) code.now }
    ensures { let app = app_of plan.now.app.now in
        IfOk result (λ rows. rows.items ≡ rows_for (entries_of app code.now).task 0 app.tasks) }
{
    let mut rows = Vec::new(alloc);
    for (number, task) in plan.app.tasks.iter().enumerate() {
        if task.is_software() {
            rows.push(body_row(plan, code, number, task))?;
        }
    }
    Ok(rows)
}
