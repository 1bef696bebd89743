// Generates the code of the timer handler.

ghost use Rattle.std.specs.Prelude.{◌≡◌, ◌+◌, ◌*◌, ◌<◌, ◌≤◌, ◌&&◌, length, take, drop, slice_get};
ghost use Rattle.std.specs.Prelude.{Some, IsSome};
ghost use Rattle.std.specs.Prelude.{IfOk, OnOk, OnErr};
ghost use Rattle.std.specs.List.{AllByRecursion};
ghost use Rattle.rt_ids.specs.declared.limits.TheConstants.{CAPACITY, TASKS};
ghost use Rattle.rt_app.specs.Accepted.{IsAccepted};
ghost use Rattle.rt_app.specs.BodyCost.{timer_size};
ghost use Rattle.rt_app.specs.Level.{is_software, is_armed};
ghost use Rattle.rt_app.specs.Names.{names_of};
ghost use Rattle.rt_app.specs.Plan.{IsPlan};
ghost use Rattle.rt_app.specs.View.{app_of, task_of};
ghost use Rattle.rt_gen_queue.specs.Line.{IsNameable};
ghost use Rattle.rt_gen_queue.specs.Making.{next_address, Appends};
ghost use Rattle.rt_gen_timer.specs.TimerLines as lines;
ghost use Rattle.rt_gen_timer.specs.TimerCode as spec;
ghost use Rattle.rt_gen_timer.specs.Inside.Choices.{task_code};

use crate::armed::armed_task;
use crate::emitter::Emitter;
use crate::generate::{CALL_ROOM, emitter_of};
use crate::handler::IDLE_OFFSET;
use rt_app::{Mono, Plan, Task};
use rt_code::{Instr, Line};
use rt_frames::ArmedRows;
use rt_gen_queue::{Lines, next_entry};
use rt_ids::{NoMemory, TaskId};
use std::alloc::Global;

/// Whether messages of a task, by its number, may be armed.
fn may_fire(rows: &ArmedRows<'_>, id: TaskId, task: &Task) -> bool
    ensures { result ≡ (is_software (task_of task.now) && is_armed (app_of rows.now) id) }
{
    task.is_software() && rows.is_armed(id)
}

/// The lines of a task, by its number, where messages of it may be armed.
fn push_task(
    plan: &Plan<'_>,
    rows: &ArmedRows<'_>,
    emitter: &Emitter,
    number: usize,
    task: &Task,
    threshold: u8,
    lines: &mut Lines,
) -> Result<(), NoMemory>
    requires accepted { IsAccepted (app_of plan.now.app.now) }
    requires planned { IsPlan plan.now }
    requires rows { rows.now ≡ plan.now.app.now }
    requires emitter { emitter.now ≡ record { queue = spec.queue_of (app_of plan.now.app.now); slot = 0 } }
    requires few { emitter.now.queue.messages ≤ CAPACITY * TASKS }
    requires task { slice_get (app_of plan.now.app.now).tasks number ≡ Some (task_of task.now) }
    requires small { number < TASKS }
    ensures { OnOk result (Appends lines.old lines.new (task_code (app_of plan.now.app.now) threshold
        (next_address lines.old) number (task_of task.now))) }
{
    let id = TaskId(number as u8);
    if !may_fire(rows, id, task) {
        return Ok(());
    }
    let at = lines.address_with_room(CALL_ROOM)?;
    emitter.push_choice(&armed_task(plan, rows, id), threshold, at, lines)
}

/// The lines of the tasks of which messages may be armed.
fn push_tasks(
    plan: &Plan<'_>,
    rows: &ArmedRows<'_>,
    emitter: &Emitter,
    threshold: u8,
    lines: &mut Lines,
) -> Result<(), NoMemory>
    requires accepted { IsAccepted (app_of plan.now.app.now) }
    requires planned { IsPlan plan.now }
    requires rows { rows.now ≡ plan.now.app.now }
    requires emitter { emitter.now ≡ record { queue = spec.queue_of (app_of plan.now.app.now); slot = 0 } }
    requires few { emitter.now.queue.messages ≤ CAPACITY * TASKS }
    ensures { let app = app_of plan.now.app.now in OnOk result (Appends lines.old lines.new
        (spec.choices_code app threshold (next_address lines.old) 0 app.tasks)) }
{
    for number in 0..plan.app.tasks.len() {
        let task = &plan.app.tasks[number];
        push_task(plan, rows, emitter, number, task, threshold, lines)?;
    }
    Ok(())
}

/// All lines of the timer handler.
fn generate(
    plan: &Plan<'_>,
    rows: &ArmedRows<'_>,
    threshold: u8,
    lines: &mut Lines,
) -> Result<(), NoMemory>
    requires accepted { IsAccepted (app_of plan.now.app.now) }
    requires planned { IsPlan plan.now }
    requires rows { rows.now ≡ plan.now.app.now }
    requires timed { IsSome (app_of plan.now.app.now).mono }
    ensures { OnOk result (Appends lines.old lines.new
        (spec.timer_code (app_of plan.now.app.now) threshold (next_address lines.old))) }
{
    let entry = lines.next_address()?;
    let emitter = emitter_of(plan, rows, 0, entry)?;
    emitter.push_front(threshold, entry, lines)?;
    push_tasks(plan, rows, &emitter, threshold, lines)?;
    lines.push(Instr::Jump(entry + IDLE_OFFSET))
}

/// Appends the code of the timer handler to code, and answers the address where it begins. Its lines name only what the
/// application declares, and there are no more of them than the rule on sizes counts for the handler. An error leaves
/// the code as it was.
pub fn gen_timer(
    alloc: Global,
    plan: &Plan<'_>,
    rows: &ArmedRows<'_>,
    mono: Mono,
    code: &mut Vec<Line>,
) -> Result<u32, NoMemory>
    requires accepted { IsAccepted (app_of plan.now.app.now) }
    requires planned { IsPlan plan.now }
    requires rows { rows.now ≡ plan.now.app.now }
    requires timed { plan.now.app.now.mono ≡ Some mono }
    ensures entry { IfOk result (λ entry. entry ≡ length code.old.items) }
    ensures kept { IfOk result (λ entry. take entry code.new.items ≡ code.old.items) }
    ensures lines { IfOk result (λ entry. drop entry code.new.items
        ≡ spec.timer_code (app_of plan.now.app.now) mono.priority entry) }
    ensures names { IfOk result (λ entry. AllByRecursion (IsNameable (names_of (app_of plan.now.app.now)))
        (drop entry code.new.items)) }
    ensures size { OnOk result (length code.new.items
        ≤ length code.old.items + timer_size (app_of plan.now.app.now) (Some mono)) }
    ensures left { OnErr result (code.new.items ≡ code.old.items) }
{
    let entry = next_entry(code)?;
    let mut lines = Lines::new(alloc, entry);
    generate(plan, rows, mono.priority, &mut lines)?;
    code.extend_from_slice(lines.as_slice())?;
    Ok(entry)
}
