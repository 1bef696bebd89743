// Generates the code of a dispatcher.

ghost use Rattle.std.specs.Prelude.{◌≡◌, ◌+◌, ◌≤◌, length, map, take, drop, slice_get, Contains, IfOk, IsTrue};
ghost use Rattle.std.specs.Prelude.{OnOk};
ghost use Rattle.std.specs.Prelude.{OnErr};
ghost use Rattle.std.specs.List.{AllByRecursion, list_any};
ghost use Rattle.rt_app.specs.Accepted.{IsAccepted};
ghost use Rattle.rt_app.specs.BodyCost.{dispatcher_size};
ghost use Rattle.rt_app.specs.Level.{is_of_level, levels};
ghost use Rattle.rt_app.specs.Names.{names_of};
ghost use Rattle.rt_app.specs.Plan.{IsPlan};
ghost use Rattle.rt_app.specs.View.{app_of, task_of};
ghost use Rattle.rt_gen_queue.specs.Line.{IsNameable};
ghost use Rattle.rt_gen_queue.specs.Making.{next_address, Appends, Extends};
ghost use Rattle.rt_gen_queue.specs.Queue.{queue_at};
ghost use Rattle.rt_gen_disp.specs.Code.{choices_code, dispatcher_code, last_of};
ghost use Rattle.rt_gen_disp.specs.Inside.Generating.{task_code};

use crate::called::callee_of;
use crate::lines::{CHOICE_LINES, EMPTY_OFFSET, Exit, TASK_ROOM, push_choice, push_front};
use rt_app::{Plan, Task};
use rt_code::Line;
use rt_gen_queue::{Lines, ReadyQueue, next_entry, queue_of};
use rt_ids::NoMemory;
use std::alloc::Global;

/// The number of the last task of a level that has one.
fn last_of(tasks: &[Task], level: u8) -> usize
    requires served { IsTrue (list_any (is_of_level level) (map task_of tasks.now)) }
    ensures { result ≡ last_of level (map task_of tasks.now) }
{
    let mut last = None;
    for number in 0..tasks.len() {
        if tasks[number].is_of_level(level) {
            last = Some(number);
        }
    }
    match last {
        None => unreachable!(),
        Some(number) => number,
    }
}

/// The lines of the task of a number, where it is one of the level.
fn push_task(
    plan: &Plan<'_>,
    queue: &ReadyQueue,
    exit: Exit,
    number: usize,
    row: u32,
    lines: &mut Lines,
) -> Result<(), NoMemory>
    requires accepted { IsAccepted (app_of plan.now.app.now) }
    requires planned { IsPlan plan.now }
    requires queue { queue.now ≡ queue_at (app_of plan.now.app.now) queue.now.level }
    ensures lines { let app = app_of plan.now.app.now in OnOk result (Appends lines.old lines.new
        (task_code app queue.now.level exit (next_address lines.old) number row (slice_get app.tasks number))) }
    ensures left { OnErr result (Extends lines.old lines.new) }
{
    match plan.app.tasks.get(number) {
        Some(task) => {
            if !task.is_of_level(queue.level) {
                return Ok(());
            }
            let at = lines.address_with_room(TASK_ROOM)?;
            let next = exit.next_for(number, at + (CHOICE_LINES + u32::from(task.args)));
            push_choice(queue, &callee_of(plan, number, row, task), next, at, lines)
        }
        None => Ok(()),
    }
}

/// The lines of the tasks of a level.
fn push_choices(
    plan: &Plan<'_>,
    queue: &ReadyQueue,
    exit: Exit,
    lines: &mut Lines,
) -> Result<(), NoMemory>
    requires accepted { IsAccepted (app_of plan.now.app.now) }
    requires planned { IsPlan plan.now }
    requires queue { queue.now ≡ queue_at (app_of plan.now.app.now) queue.now.level }
    ensures lines { let app = app_of plan.now.app.now in OnOk result (Appends lines.old lines.new
        (choices_code app queue.now.level exit (next_address lines.old) 0 0 app.tasks)) }
    ensures left { OnErr result (Extends lines.old lines.new) }
{
    let mut row: u32 = 0;
    for number in 0..plan.app.tasks.len() {
        push_task(plan, queue, exit, number, row, lines)?;
        let task = &plan.app.tasks[number];
        row += u32::from(task.is_software());
    }
    Ok(())
}

/// The lines of the dispatcher of a level.
fn generate(plan: &Plan<'_>, level: u8, lines: &mut Lines) -> Result<(), NoMemory>
    requires accepted { IsAccepted (app_of plan.now.app.now) }
    requires planned { IsPlan plan.now }
    requires software { Contains (levels (app_of plan.now.app.now)) level }
    ensures lines { OnOk result (Appends lines.old lines.new
        (dispatcher_code (app_of plan.now.app.now) level (next_address lines.old))) }
    ensures left { OnErr result (Extends lines.old lines.new) }
{
    let queue = queue_of(plan, level);
    let at = lines.address_with_room(TASK_ROOM)?;
    push_front(&queue, at, lines)?;
    let last = last_of(&plan.app.tasks, level);
    let address = at + EMPTY_OFFSET;
    push_choices(plan, &queue, Exit { address, last }, lines)
}

/// Appends the code of the dispatcher of a level of software tasks to code, and answers the address where it begins.
/// Its lines name only what the application declares, and there are no more of them than the rule on sizes counts for
/// the dispatcher. An error leaves the code as it was.
pub fn gen_dispatcher(
    alloc: Global,
    plan: &Plan<'_>,
    level: u8,
    code: &mut Vec<Line>,
) -> Result<u32, NoMemory>
    requires accepted { IsAccepted (app_of plan.now.app.now) }
    requires planned { IsPlan plan.now }
    requires software { Contains (levels (app_of plan.now.app.now)) level }
    ensures entry { IfOk result (λ entry. entry ≡ length code.old.items) }
    ensures kept { IfOk result (λ entry. take entry code.new.items ≡ code.old.items) }
    ensures lines { IfOk result (λ entry. drop entry code.new.items
        ≡ dispatcher_code (app_of plan.now.app.now) level entry) }
    ensures names { IfOk result (λ entry. AllByRecursion (IsNameable (names_of (app_of plan.now.app.now)))
        (drop entry code.new.items)) }
    ensures size { OnOk result (length code.new.items
        ≤ length code.old.items + dispatcher_size (app_of plan.now.app.now) level) }
    ensures left { OnErr result (code.new.items ≡ code.old.items) }
{
    let entry = next_entry(code)?;
    let mut lines = Lines::new(alloc, entry);
    generate(plan, level, &mut lines)?;
    code.extend_from_slice(lines.as_slice())?;
    Ok(entry)
}
