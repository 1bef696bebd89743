// Lays the cells of an application out in memory.

ghost use Rattle.std.specs.Prelude.{◌≡◌, ◌+◌, ◌^◌, ◌<◌, nat_lt, length, map, flat_map, if◌then◌else◌, IfOk, OnOk};
ghost use Rattle.std.specs.List.{fold};
ghost use Rattle.rt_app.specs.declared.costs.TheConstants.{PRIORITIES};
ghost use Rattle.rt_app.specs.Level.{armed_messages};
ghost use Rattle.rt_app.specs.Limits.{KeepsLimits};
ghost use Rattle.rt_app.specs.View.{task_of, app_of};
ghost use Rattle.rt_app.specs.Layout.{layout};
ghost use Rattle.rt_layout.specs.Inside.Rows.{queue_rows, task_rows};
ghost use Rattle.rt_layout.specs.Inside.Growing.{none, with_resources, with_queues, without_queues, with_task};
ghost use Rattle.rt_layout.specs.Inside.Growing.{with_level};
ghost use Rattle.rt_layout.specs.Inside.Growing.{with_levels, levels_rows, with_timer, with_mono};

use crate::queues::{push_free, push_inputs, push_ready, push_timer};
use crate::resources::{push_locals, push_resources};
use crate::rooms::{Rooms, rooms};
use rt_app::costs::PRIORITIES;
use rt_app::{App, Layout, Task};
use rt_frames::ArmedRows;
use rt_ids::NoMemory;
use std::alloc::Global;

/// A task that has no queues.
fn skip_task(layout: &mut Layout) -> Result<(), NoMemory>
    ensures { OnOk result (layout.new ≡ without_queues layout.old) }
{
    layout.free.push(0)?;
    layout.inputs.push(0)?;
    Ok(())
}

/// The number of a task's first input cell, where so many cells lie before it; 0 where it takes no arguments.
fn first_input(task: &Task, before: usize) -> u16
    requires room { before < 2 ^ 16 }
    ensures { result ≡ if nat_lt 0 task.now.args then before else 0 }
{
    if task.args > 0 { before as u16 } else { 0 }
}

/// Appends the queues of a software task.
fn push_queues(alloc: Global, layout: &mut Layout, task: &Task) -> Result<(), NoMemory>
    requires room { length layout.old.cells + length (queue_rows (task_of task.now)) < 2 ^ 16 }
    ensures { OnOk result (layout.new ≡ with_queues layout.old (task_of task.now)) }
{
    let free = layout.cells.len() as u16;
    layout.free.push(free)?;
    push_free(alloc, &mut layout.cells, task)?;
    let inputs = first_input(task, layout.cells.len());
    layout.inputs.push(inputs)?;
    push_inputs(alloc, &mut layout.cells, task)?;
    Ok(())
}

/// Appends the queues of a task, where it has some.
fn push_task(alloc: Global, layout: &mut Layout, task: &Task) -> Result<(), NoMemory>
    requires room { length layout.old.cells + length (task_rows (task_of task.now)) < 2 ^ 16 }
    ensures { OnOk result (layout.new ≡ with_task layout.old (task_of task.now)) }
{
    if task.is_software() {
        push_queues(alloc, layout, task)
    } else {
        skip_task(layout)
    }
}

/// Appends the queues of tasks.
fn push_tasks(alloc: Global, layout: &mut Layout, tasks: &[Task]) -> Result<(), NoMemory>
    requires room { length layout.old.cells + length (flat_map task_rows (map task_of tasks.now)) < 2 ^ 16 }
    ensures { OnOk result (layout.new ≡ fold with_task layout.old (map task_of tasks.now)) }
{
    for task in tasks {
        push_task(alloc, layout, task)?;
    }
    Ok(())
}

/// Appends the ready queue of a level, with room for so many messages.
fn push_level(alloc: Global, layout: &mut Layout, level: u8, room: u32) -> Result<(), NoMemory>
    requires room { length layout.old.cells < 2 ^ 16 }
    ensures { OnOk result (layout.new ≡ with_level layout.old level room) }
{
    let at = layout.cells.len() as u16;
    layout.ready.push(at)?;
    push_ready(alloc, &mut layout.cells, level, room)
}

/// Appends the ready queues of all levels that have room, by rising level.
fn push_levels(alloc: Global, layout: &mut Layout, rooms: &Rooms) -> Result<(), NoMemory>
    requires room { length layout.old.cells + length (levels_rows rooms.now PRIORITIES) < 2 ^ 16 }
    ensures { OnOk result (layout.new ≡ with_levels rooms.now layout.old PRIORITIES) }
{
    for level in 0..PRIORITIES {
        let room = rooms[usize::from(level)];
        if room > 0 {
            push_level(alloc, layout, level as u8, room)?;
        }
    }
    Ok(())
}

/// Appends the timer queue with room for so many messages.
fn push_timer_queue(alloc: Global, layout: &mut Layout, room: u32) -> Result<(), NoMemory>
    requires room { length layout.old.cells < 2 ^ 16 }
    ensures { OnOk result (layout.new ≡ with_timer room layout.old) }
{
    layout.timer = layout.cells.len() as u16;
    push_timer(alloc, &mut layout.cells, room)
}

/// Appends the timer queue of an application, where there is a monotonic.
fn push_mono(alloc: Global, layout: &mut Layout, app: &App) -> Result<(), NoMemory>
    requires room { length layout.old.cells < 2 ^ 16 }
    ensures { OnOk result (layout.new ≡ with_mono (armed_messages (app_of app.now)) app.now.mono layout.old) }
{
    match &app.mono {
        None => Ok(()),
        Some(_mono) => push_timer_queue(alloc, layout, ArmedRows::of(app).messages()),
    }
}

/// A layout without cells.
fn empty(alloc: Global) -> Layout
    ensures { result ≡ none }
{
    Layout {
        cells: Vec::new(alloc),
        inputs: Vec::new(alloc),
        free: Vec::new(alloc),
        ready: Vec::new(alloc),
        timer: 0,
    }
}

/// Appends the resources.
fn push_all_resources(alloc: Global, layout: &mut Layout, app: &App) -> Result<(), NoMemory>
    ensures { OnOk result (layout.new ≡ with_resources layout.old (app_of app.now)) }
{
    push_resources(alloc, &mut layout.cells, &app.shared)?;
    push_locals(alloc, &mut layout.cells, &app.locals)
}

/// Where everything that the code of an application keeps lies in memory: the names and first values of its cells, and
/// the numbers of the first cells of its queues. All accepted applications are within the limits.
pub fn layout(alloc: Global, app: &App) -> Result<Layout, NoMemory>
    requires limits { KeepsLimits (app_of app.now) }
    ensures { IfOk result (λ l. l ≡ layout (app_of app.now)) }
{
    let mut layout = empty(alloc);
    push_all_resources(alloc, &mut layout, app)?;
    push_tasks(alloc, &mut layout, &app.tasks)?;
    let rooms = rooms(&app.tasks);
    push_levels(alloc, &mut layout, &rooms)?;
    push_mono(alloc, &mut layout, app)?;
    Ok(layout)
}
