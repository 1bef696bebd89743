// The lines of `check` on ceilings.

ghost use Rattle.std.specs.Prelude.{◌≡◌, ◌++◌, map, flat_map, OnOk};
ghost use Rattle.rt_app.specs.View.{app_of, task_of};
ghost use Rattle.rt_report.specs.Report.{shared_lines, free_line, free_lines, ready_line, timer_line, ceiling_lines};

use crate::line::{push_dotted, push_line, push_numbered};
use rt_app::{App, Ceilings, ReadyCeiling, Shared, Task};
use rt_ids::NoMemory;

/// The word of a ceiling's line.
const CEILING: &[u8] = b"ceiling";

/// Appends the ceilings.
pub(crate) fn push_ceilings(
    out: &mut Vec<u8>,
    app: &App,
    ceilings: &Ceilings,
) -> Result<(), NoMemory>
    ensures { OnOk result (out.new.items ≡ out.old.items ++ ceiling_lines (app_of app.now) ceilings.now) }
{
    push_shared(out, &app.shared, &ceilings.shared)?;
    push_free(out, &app.tasks, &ceilings.free)?;
    push_ready(out, &ceilings.ready)?;
    push_timer(out, ceilings.timer)
}

/// Appends the ceilings of shared resources.
fn push_shared(out: &mut Vec<u8>, shared: &[Shared], ceilings: &[u8]) -> Result<(), NoMemory>
    ensures { OnOk result (out.new.items ≡ out.old.items ++ shared_lines shared.now ceilings.now) }
{
    let [resource, resources @ ..] = shared else {
        return Ok(());
    };
    let [ceiling, more @ ..] = ceilings else {
        return Ok(());
    };
    push_line(out, CEILING, resource.name.bytes(), u32::from(*ceiling))?;
    push_shared(out, resources, more)
}

/// Appends the ceilings of the free places of tasks.
fn push_free(out: &mut Vec<u8>, tasks: &[Task], ceilings: &[Option<u8>]) -> Result<(), NoMemory>
    ensures { OnOk result (out.new.items ≡ out.old.items ++ free_lines (map task_of tasks.now) ceilings.now) }
{
    let [task, tasks @ ..] = tasks else {
        return Ok(());
    };
    let [ceiling, more @ ..] = ceilings else {
        return Ok(());
    };
    push_free_line(out, task, *ceiling)?;
    push_free(out, tasks, more)
}

/// Appends the ceiling of the free places of a task, where it has some.
fn push_free_line(out: &mut Vec<u8>, task: &Task, ceiling: Option<u8>) -> Result<(), NoMemory>
    ensures { OnOk result (out.new.items ≡ out.old.items ++ free_line (task_of task.now) ceiling) }
{
    match ceiling {
        Some(ceiling) => push_dotted(
            out,
            CEILING,
            b"free.",
            task.name.bytes(),
            u32::from(ceiling),
        ),
        None => Ok(()),
    }
}

/// Appends the ceilings of the ready queues.
fn push_ready(out: &mut Vec<u8>, ready: &[ReadyCeiling]) -> Result<(), NoMemory>
    ensures { OnOk result (out.new.items ≡ out.old.items ++ flat_map ready_line ready.now) }
{
    for row in ready {
        push_ready_line(out, *row)?;
    }
    Ok(())
}

/// Appends the ceiling of a ready queue.
fn push_ready_line(out: &mut Vec<u8>, row: ReadyCeiling) -> Result<(), NoMemory>
    ensures { OnOk result (out.new.items ≡ out.old.items ++ ready_line row) }
{
    push_numbered(out, CEILING, b"ready.", row.level, u32::from(row.ceiling))
}

/// Appends the ceiling of the timer queue, where there is one.
fn push_timer(out: &mut Vec<u8>, timer: Option<u8>) -> Result<(), NoMemory>
    ensures { OnOk result (out.new.items ≡ out.old.items ++ timer_line timer) }
{
    match timer {
        Some(ceiling) => push_line(out, CEILING, b"timer.0", u32::from(ceiling)),
        None => Ok(()),
    }
}
