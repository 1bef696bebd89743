// The code of an application: its parts in order, and where each begins.

ghost use Rattle.std.specs.Prelude.{◌≡◌, ◌<◌, List, [], ◌∷◌, ◌++◌, length, sum_by, slice_get, Some, None};
ghost use Rattle.std.specs.Prelude.{IfOk, OnOk};
ghost use Rattle.rt_app.specs.BodyCost.{size_measure, cost_of, dispatcher_size, timer_size};
ghost use Rattle.rt_app.specs.Level.{levels};
ghost use Rattle.rt_app.specs.Tree as tree;
ghost use Rattle.rt_app.specs.View.{app_of, task_of};
ghost use Rattle.rt_ids.specs.declared.ids.BodyId.TheVariants as body;
ghost use Rattle.rt_code.specs.declared.image.BodyRow.{BodyRow};
ghost use Rattle.rt_code.specs.declared.instr.Instr.TheVariants as instr;
ghost use Rattle.rt_gen_queue.specs.Line.{Line};
ghost use Rattle.rt_build.specs.Entries.{Entries};
ghost use Rattle.rt_build.specs.Image.{IdleStands};
ghost use Rattle.rt_build.specs.Order.{OfBody, timer_parts};
ghost use Rattle.rt_build.specs.Inside.Plan.{IsAcceptedPlan};
ghost use Rattle.rt_build.specs.Inside.Code.{Adds, AddsParts, is_of_kind, kind_size, TellsTask, LeavesOthers};
ghost use Rattle.rt_build.specs.Inside.Code.{AddsTask, AddsTasks, AddsDispatchers};
ghost use Rattle.rt_build.specs.Inside.Code.{HasTasks, HasDispatchers, HasTimer, IsCodeOf};

use rt_app::{Plan, Task};
use rt_code::{Instr, Line};
use rt_frames::ArmedRows;
use rt_gen_body::gen_body;
use rt_gen_disp::gen_dispatcher;
use rt_gen_queue::next_entry;
use rt_gen_timer::gen_timer;
use rt_ids::{BodyId, NoMemory, TaskId};
use std::alloc::Global;

/// The code of an application, and where its parts begin.
#[derive(Drop)]
pub(crate) struct Code {
    pub(crate) lines: Vec<Line>,
    /// Where the thread goes on after `init`, which begins at 0.
    pub(crate) idle: u32,
    /// Where the tasks begin, by their numbers.
    pub(crate) tasks: Vec<u32>,
    /// Where the dispatchers of the levels of software tasks begin, by rising level.
    pub(crate) dispatchers: Vec<u32>,
    /// Where the timer handler begins; 0 where there is no monotonic.
    pub(crate) timer: u32,
}

/// A task binds an interrupt, or a dispatcher calls it.
#[derive(Clone, Copy)]
pub(crate) enum TaskKind {
    Hardware,
    Software,
}

/// Whether a task is of a kind.
fn is_of_kind(task: &Task, kind: TaskKind) -> bool
    ensures { result ≡ is_of_kind kind (task_of task.now) }
{
    match kind {
        TaskKind::Hardware => !task.is_software(),
        TaskKind::Software => task.is_software(),
    }
}

/// Appends the line at which the thread waits for interrupts, and answers its address.
fn push_wait(lines: &mut Vec<Line>) -> Result<u32, NoMemory>
    ensures entry { IfOk result (λ entry. entry ≡ length lines.old.items) }
    ensures line { OnOk result (lines.new.items ≡ lines.old.items ++ (instr.Wait, None) ∷ []) }
{
    let entry = next_entry(lines)?;
    lines.push((Instr::Wait, None))?;
    Ok(entry)
}

/// Appends what the thread does after `init`, and answers where it begins: `idle`, or a wait where it is not declared.
fn push_idle(
    alloc: Global,
    plan: &Plan<'_>,
    rows: &ArmedRows<'_>,
    lines: &mut Vec<Line>,
) -> Result<u32, NoMemory>
    requires plan { IsAcceptedPlan plan.now }
    requires rows { rows.now ≡ plan.now.app.now }
    ensures entry { IfOk result (λ entry. entry ≡ length lines.old.items) }
    ensures adds { OnOk result (let app = app_of plan.now.app.now in
        Adds app (cost_of (size_measure app) app.idle) lines.old.items lines.new.items) }
    ensures part { IfOk result (λ entry. (at : Entries) → at.idle ≡ entry →
        AddsParts (app_of plan.now.app.now) at (OfBody body.Idle ∷ []) lines.old.items lines.new.items) }
    ensures stands { IfOk result (λ entry. (more : List Line) (bodies : List BodyRow) →
        IdleStands (app_of plan.now.app.now) (lines.new.items ++ more) bodies entry (app_of plan.now.app.now).idle) }
{
    match &plan.app.idle {
        Some(_body) => gen_body(alloc, plan, rows, BodyId::Idle, lines),
        None => push_wait(lines),
    }
}

/// Appends the code of a task of this kind, and notes where it begins; nothing for a task of the other.
fn push_task(
    alloc: Global,
    plan: &Plan<'_>,
    rows: &ArmedRows<'_>,
    kind: TaskKind,
    number: u8,
    entries: &mut [u32],
    lines: &mut Vec<Line>,
) -> Result<(), NoMemory>
    requires plan { IsAcceptedPlan plan.now }
    requires rows { rows.now ≡ plan.now.app.now }
    requires of_app { number < length (app_of plan.now.app.now).tasks }
    requires entries { length entries.old ≡ length (app_of plan.now.app.now).tasks }
    ensures adds { OnOk result (let app = app_of plan.now.app.now in
        (t : tree.Task) → slice_get app.tasks number ≡ Some t →
        Adds app (kind_size app kind t) lines.old.items lines.new.items) }
    ensures part { OnOk result (let app = app_of plan.now.app.now in
        (t : tree.Task) → slice_get app.tasks number ≡ Some t →
        AddsTask app kind number t entries.new lines.old.items lines.new.items) }
    ensures tells { OnOk result (let app = app_of plan.now.app.now in
        (t : tree.Task) → slice_get app.tasks number ≡ Some t →
        TellsTask app kind number t entries.old entries.new lines.new.items) }
{
    let index = usize::from(number);
    if is_of_kind(&plan.app.tasks[index], kind) {
        entries[index] = gen_body(alloc, plan, rows, BodyId::Task(TaskId(number)), lines)?;
    }
    Ok(())
}

/// Appends the code of the tasks of a kind, in order, and notes where they begin.
fn push_tasks(
    alloc: Global,
    plan: &Plan<'_>,
    rows: &ArmedRows<'_>,
    kind: TaskKind,
    entries: &mut [u32],
    lines: &mut Vec<Line>,
) -> Result<(), NoMemory>
    requires plan { IsAcceptedPlan plan.now }
    requires rows { rows.now ≡ plan.now.app.now }
    requires entries { length entries.old ≡ length (app_of plan.now.app.now).tasks }
    ensures adds { OnOk result (let app = app_of plan.now.app.now in
        Adds app (sum_by (kind_size app kind) app.tasks) lines.old.items lines.new.items) }
    ensures parts { OnOk result
        (AddsTasks (app_of plan.now.app.now) kind entries.new lines.old.items lines.new.items) }
    ensures others { OnOk result (LeavesOthers (app_of plan.now.app.now) kind entries.old entries.new) }
    ensures stands { OnOk result (HasTasks (app_of plan.now.app.now) lines.new.items kind entries.new) }
{
    for number in 0..plan.app.tasks.len() {
        push_task(alloc, plan, rows, kind, number as u8, entries, lines)?;
    }
    Ok(())
}

/// Appends the code of the dispatchers, by rising level, and answers where they begin.
fn push_dispatchers(
    alloc: Global,
    plan: &Plan<'_>,
    lines: &mut Vec<Line>,
) -> Result<Vec<u32>, NoMemory>
    requires plan { IsAcceptedPlan plan.now }
    ensures entries { IfOk result (λ entries. length entries.items ≡ length (levels (app_of plan.now.app.now))) }
    ensures adds { OnOk result (let app = app_of plan.now.app.now in
        Adds app (sum_by (dispatcher_size app) (levels app)) lines.old.items lines.new.items) }
    ensures parts { IfOk result (λ entries.
        AddsDispatchers (app_of plan.now.app.now) entries.items lines.old.items lines.new.items) }
    ensures stands { IfOk result (λ entries.
        HasDispatchers (app_of plan.now.app.now) lines.new.items entries.items) }
{
    let mut entries = Vec::new(alloc);
    for row in &plan.ceil.ready {
        entries.push(gen_dispatcher(alloc, plan, row.level, lines)?)?;
    }
    Ok(entries)
}

/// Appends the code of the timer handler where there is a monotonic, and answers where it begins; 0 where there is
/// none.
fn push_timer(
    alloc: Global,
    plan: &Plan<'_>,
    rows: &ArmedRows<'_>,
    lines: &mut Vec<Line>,
) -> Result<u32, NoMemory>
    requires plan { IsAcceptedPlan plan.now }
    requires rows { rows.now ≡ plan.now.app.now }
    ensures adds { OnOk result (let app = app_of plan.now.app.now in
        Adds app (timer_size app app.mono) lines.old.items lines.new.items) }
    ensures part { IfOk result (λ entry. (at : Entries) → at.timer ≡ entry →
        AddsParts (app_of plan.now.app.now) at (timer_parts (app_of plan.now.app.now).mono) lines.old.items
        lines.new.items) }
    ensures stands { IfOk result (λ entry. HasTimer (app_of plan.now.app.now) lines.new.items entry) }
{
    match plan.app.mono {
        Some(mono) => gen_timer(alloc, plan, rows, mono, lines),
        None => Ok(0),
    }
}

/// Appends the code of `init`, of `idle`, of the hardware tasks, of the software tasks, of the dispatchers and of the
/// timer handler, one after the other.
fn push_parts(
    alloc: Global,
    plan: &Plan<'_>,
    rows: &ArmedRows<'_>,
    code: &mut Code,
) -> Result<(), NoMemory>
    requires plan { IsAcceptedPlan plan.now }
    requires rows { rows.now ≡ plan.now.app.now }
    requires empty { code.old.lines.items ≡ [] }
    requires entries { length code.old.tasks.items ≡ length (app_of plan.now.app.now).tasks }
    ensures { OnOk result (IsCodeOf (app_of plan.now.app.now) code.new) }
{
    gen_body(alloc, plan, rows, BodyId::Init, &mut code.lines)?;
    code.idle = push_idle(alloc, plan, rows, &mut code.lines)?;
    push_tasks(
        alloc,
        plan,
        rows,
        TaskKind::Hardware,
        &mut code.tasks,
        &mut code.lines,
    )?;
    push_tasks(
        alloc,
        plan,
        rows,
        TaskKind::Software,
        &mut code.tasks,
        &mut code.lines,
    )?;
    code.dispatchers = push_dispatchers(alloc, plan, &mut code.lines)?;
    code.timer = push_timer(alloc, plan, rows, &mut code.lines)?;
    Ok(())
}

/// The code of an application.
pub(crate) fn generate(alloc: Global, plan: &Plan<'_>) -> Result<Code, NoMemory>
    requires { IsAcceptedPlan plan.now }
    ensures { IfOk result (λ code. IsCodeOf (app_of plan.now.app.now) code) }
{
    let rows = ArmedRows::of(plan.app);
    let mut code = Code {
        lines: Vec::new(alloc),
        idle: 0,
        tasks: vec![in alloc; 0; plan.app.tasks.len()]?,
        dispatchers: Vec::new(alloc),
        timer: 0,
    };
    push_parts(alloc, plan, &rows, &mut code)?;
    Ok(code)
}
