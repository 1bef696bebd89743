// The waiting bounds.

ghost use Rattle.std.specs.Prelude.{◌≡◌, ◌≤◌, ◌<◌, ◌==◌, length, find, slice_get, if◌then◌else◌};
ghost use Rattle.std.specs.Prelude.{Some, IsSome, true};
ghost use Rattle.rt_ids.specs.Lists.{or_zero, then_from};
ghost use Rattle.rt_app.specs.View.{spawn_of, value_of, statement_of, block_of, task_of, app_of};
ghost use Rattle.rt_app.specs.declared.costs.TheConstants.{PRIORITIES};
ghost use Rattle.rt_app.specs.Level as level;
ghost use Rattle.rt_app.specs.BodyCost as cost;
ghost use Rattle.rt_app.specs.Acceptance.{IsSound};
ghost use Rattle.rt_app.specs.Bodies.{task_priority};
ghost use Rattle.rt_app.specs.Ceiling as tables;
ghost use Rattle.rt_frames.specs.Inside.Reached as reach;
ghost use Rattle.rt_frames.specs.Inside.Waits as waiting;
ghost use Rattle.rt_ids.specs.declared.limits.TheConstants.{TASKS};
ghost use Rattle.rt_frames.specs.Inside.Flags.{HasFlags};

use crate::flags::Flags;
use crate::level::tasks_of_level;
use crate::measure::Measure;
use rt_app::costs::{
    FREE_COST, HANDLE_MESSAGE_COST, HANDLE_SECTION_COST, MESSAGE_COST, READY_COST, READY_TASK_COST,
    TIMER_SECTION_COST,
};
use rt_app::{App, Ceilings, ReadyCeiling, Spawn, Stmt, Task, Value};
use rt_ids::{ResId, TaskId};

/// The ceiling of a resource that is declared.
fn shared_ceiling(ceilings: &Ceilings, resource: ResId) -> u8
    requires { resource < length ceilings.now.shared }
    ensures { result ≡ waiting.shared_ceiling ceilings.now resource }
{
    match ceilings.shared.get(usize::from(resource.0)) {
        None => unreachable!(),
        Some(ceiling) => *ceiling,
    }
}

/// The ceiling of the free places of a software task.
fn free_at(ceilings: &Ceilings, task: usize) -> u8
    requires { IsSome (then_from (slice_get ceilings.now.free task) (λ c. c)) }
    ensures { result ≡ waiting.free_at ceilings.now task }
{
    match ceilings.free.get(task) {
        None => unreachable!(),
        Some(None) => unreachable!(),
        Some(Some(ceiling)) => *ceiling,
    }
}

/// The ceiling of the first of these ready queues that is of this level, which one is.
fn ready_in(queues: &[ReadyCeiling], level: u8) -> u8
    requires { IsSome (find (λ r. r.level == level) queues.now) }
    ensures { result ≡ waiting.ceiling_or_zero (find (λ r. r.level == level) queues.now) }
{
    match queues.iter().find(|queue| queue.level == level) {
        None => unreachable!(),
        Some(queue) => queue.ceiling,
    }
}

/// The ceiling of the ready queue of a level of software tasks.
fn ready_at(ceilings: &Ceilings, level: u8) -> u8
    requires { IsSome (find (λ r. r.level == level) ceilings.now.ready) }
    ensures { result ≡ waiting.ready_at ceilings.now level }
{
    ready_in(&ceilings.ready, level)
}

/// The ceiling of the timer queue, where there is a monotonic.
fn timer_at(ceilings: &Ceilings) -> u8
    requires { IsSome ceilings.now.timer }
    ensures { result ≡ or_zero ceilings.now.timer }
{
    match ceilings.timer {
        None => unreachable!(),
        Some(ceiling) => ceiling,
    }
}

/// The priority of a task that is declared.
fn task_priority(app: &App, task: TaskId) -> u8
    requires { task < length (app_of app.now).tasks }
    ensures { result ≡ task_priority (app_of app.now) task }
{
    match app.task(task) {
        None => unreachable!(),
        Some(task) => task.priority,
    }
}

/// The cost of a section, where its ceiling is at least the priority.
fn if_reaches(priority: u8, ceiling: u8, cost: u32) -> u32
    ensures { result ≡ waiting.if_reaches priority ceiling cost }
{
    if priority <= ceiling { cost } else { 0 }
}

/// Core steps of a section of the timer queue, where so many messages may be armed as the measure counts.
fn timer_section(measure: &Measure) -> u32
    ensures { result ≡ waiting.timer_section measure.now }
{
    TIMER_SECTION_COST + MESSAGE_COST * measure.messages()
}

/// Core steps of such a section in a `cancel` or a `reschedule_after`.
fn handle_section(measure: &Measure) -> u32
    ensures { result ≡ waiting.handle_section measure.now }
{
    HANDLE_SECTION_COST + HANDLE_MESSAGE_COST * measure.messages()
}

/// The greatest cost of a section of a spawn that counts.
fn spawn_wait(app: &App, ceilings: &Ceilings, measure: &Measure, priority: u8, spawn: &Spawn) -> u32
    requires ceilings { ceilings.now ≡ tables.ceilings (app_of app.now) }
    requires reached { reach.IsSpawnReached (app_of app.now) (spawn_of spawn.now) }
    ensures { result ≡ waiting.spawn_wait (app_of app.now) measure.now ceilings.now priority (spawn_of spawn.now) }
{
    match spawn {
        Spawn::Soon(task, _args, _at) => {
            let free = free_at(ceilings, usize::from(task.0));
            let ready = ready_at(ceilings, task_priority(app, *task));
            if_reaches(priority, free, FREE_COST).max(if_reaches(priority, ready, READY_COST))
        }
        Spawn::After(_word, _delay, task, _args, _at) => {
            let free = free_at(ceilings, usize::from(task.0));
            let timer = if_reaches(priority, timer_at(ceilings), timer_section(measure));
            if_reaches(priority, free, FREE_COST).max(timer)
        }
        Spawn::Cancel(_word, task, _handle, _at) => {
            let timer = if_reaches(priority, timer_at(ceilings), handle_section(measure));
            let free = free_at(ceilings, usize::from(task.0));
            timer.max(if_reaches(priority, free, FREE_COST))
        }
        Spawn::Move(_word, _delay, _task, _handle, _at) => {
            if_reaches(priority, timer_at(ceilings), handle_section(measure))
        }
    }
}

/// The greatest cost of a section that counts, of a value that a variable is bound to.
fn value_wait(app: &App, ceilings: &Ceilings, measure: &Measure, priority: u8, value: &Value) -> u32
    requires ceilings { ceilings.now ≡ tables.ceilings (app_of app.now) }
    requires reached { reach.IsValueReached (app_of app.now) (value_of value.now) }
    ensures { result ≡ waiting.value_wait (app_of app.now) measure.now ceilings.now priority (value_of value.now) }
{
    match value {
        Value::Calc(_expr) => 0,
        Value::Now(_at) => 0,
        Value::Call(spawn) => spawn_wait(app, ceilings, measure, priority, spawn),
    }
}

/// The greatest cost of a section of a statement that counts.
#[cycle(block)]
fn statement_wait(
    app: &App,
    ceilings: &Ceilings,
    measure: &Measure,
    priority: u8,
    stmt: &Stmt,
) -> u32
    requires ceilings { ceilings.now ≡ tables.ceilings (app_of app.now) }
    requires reached { reach.IsStatementReached (app_of app.now) (statement_of stmt.now) }
    ensures { let s = statement_of stmt.now in
        result ≡ waiting.statement_wait (app_of app.now) measure.now ceilings.now priority s }
{
    match stmt {
        Stmt::Bind(_variable, value) => value_wait(app, ceilings, measure, priority, value),
        Stmt::Assign(_atom, _expr, _at) => 0,
        Stmt::Branch(_condition, first, second) => {
            let wait = block_wait(app, ceilings, measure, priority, first);
            wait.max(block_wait(app, ceilings, measure, priority, second))
        }
        Stmt::Repeat(_variable, _first, _last, turn) => {
            block_wait(app, ceilings, measure, priority, turn)
        }
        Stmt::Locked(resource, inner, _at) => {
            if priority <= shared_ceiling(ceilings, *resource) {
                measure.statement(stmt)
            } else {
                block_wait(app, ceilings, measure, priority, inner)
            }
        }
        Stmt::Emit(_expr) => 0,
        Stmt::Pend(_irq) => 0,
        Stmt::Call(spawn) => spawn_wait(app, ceilings, measure, priority, spawn),
    }
}

/// The greatest cost of a section of statements that counts.
#[cycle(block)]
fn block_wait(
    app: &App,
    ceilings: &Ceilings,
    measure: &Measure,
    priority: u8,
    stmts: &[Stmt],
) -> u32
    requires ceilings { ceilings.now ≡ tables.ceilings (app_of app.now) }
    requires reached { reach.IsBlockReached (app_of app.now) (block_of stmts.now) }
    ensures { let b = block_of stmts.now in
        result ≡ waiting.block_wait (app_of app.now) measure.now ceilings.now priority b }
{
    let mut most: u32 = 0;
    for stmt in stmts {
        most = most.max(statement_wait(app, ceilings, measure, priority, stmt));
    }
    most
}

/// The greatest cost of a section of `idle` that counts.
fn idle_wait(app: &App, ceilings: &Ceilings, measure: &Measure, priority: u8) -> u32
    requires ceilings { ceilings.now ≡ tables.ceilings (app_of app.now) }
    requires sound { IsSound (app_of app.now) }
    ensures { let all = app_of app.now in
        result ≡ waiting.idle_wait all measure.now ceilings.now priority all.idle }
{
    match &app.idle {
        None => 0,
        Some(body) => {
            if 0 < priority {
                block_wait(app, ceilings, measure, priority, &body.block)
            } else {
                0
            }
        }
    }
}

/// Core steps of the section of the ready queue in the dispatcher of a level.
fn dispatcher_section(app: &App, level: u8) -> u32
    requires { length (app_of app.now).tasks ≤ TASKS }
    ensures { result ≡ cost.dispatcher_section_cost (app_of app.now) level }
{
    READY_COST + READY_TASK_COST * (tasks_of_level(&app.tasks, level) as u32)
}

/// The greatest cost of a section of a software task's dispatcher that counts.
fn dispatcher_wait(app: &App, ceilings: &Ceilings, priority: u8, number: usize, task: &Task) -> u32
    requires few { length (app_of app.now).tasks ≤ TASKS }
    requires ceilings { ceilings.now ≡ tables.ceilings (app_of app.now) }
    requires task { slice_get (app_of app.now).tasks number ≡ Some (task_of task.now) }
    requires software { level.is_software (task_of task.now) ≡ true }
    ensures { result ≡ waiting.dispatcher_wait (app_of app.now) ceilings.now priority number (task_of task.now) }
{
    let ready = ready_at(ceilings, task.priority);
    let section = if_reaches(priority, ready, dispatcher_section(app, task.priority));
    section.max(if_reaches(priority, free_at(ceilings, number), FREE_COST))
}

/// The greatest cost of a section of a task and its dispatcher that counts, where the task has a lower priority.
fn task_wait(
    app: &App,
    ceilings: &Ceilings,
    measure: &Measure,
    priority: u8,
    number: usize,
    task: &Task,
) -> u32
    requires few { length (app_of app.now).tasks ≤ TASKS }
    requires ceilings { ceilings.now ≡ tables.ceilings (app_of app.now) }
    requires sound { IsSound (app_of app.now) }
    requires task { slice_get (app_of app.now).tasks number ≡ Some (task_of task.now) }
    ensures { result ≡ waiting.task_wait (app_of app.now) measure.now ceilings.now priority number (task_of task.now) }
{
    if priority <= task.priority {
        return 0;
    }
    let own = block_wait(app, ceilings, measure, priority, &task.body.block);
    if task.is_software() {
        own.max(dispatcher_wait(app, ceilings, priority, number, task))
    } else {
        own
    }
}

/// The greatest cost of a section of the tasks that counts.
fn tasks_wait(app: &App, ceilings: &Ceilings, measure: &Measure, priority: u8) -> u32
    requires few { length (app_of app.now).tasks ≤ TASKS }
    requires ceilings { ceilings.now ≡ tables.ceilings (app_of app.now) }
    requires sound { IsSound (app_of app.now) }
    ensures { let all = app_of app.now in
        result ≡ waiting.tasks_wait all measure.now ceilings.now priority 0 all.tasks }
{
    let mut most: u32 = 0;
    for number in 0..app.tasks.len() {
        let task = &app.tasks[number];
        most = most.max(task_wait(app, ceilings, measure, priority, number, task));
    }
    most
}

/// The cost of the section of a task's ready queue, where the task can be armed and the section counts.
fn move_wait(ceilings: &Ceilings, priority: u8, task: &Task, is_armed: bool) -> u32
    requires { let t = task_of task.now in let ready = ceilings.now.ready in
        level.is_software t ≡ true → t.priority < PRIORITIES → IsSome (find (λ r. r.level == t.priority) ready) }
    ensures { let t = task_of task.now in
        let own = waiting.if_reaches priority (waiting.ready_at ceilings.now t.priority) READY_COST in
        result ≡ (if level.is_software t then (if is_armed then own else 0) else 0) }
{
    if task.is_software() && is_armed {
        if_reaches(priority, ready_at(ceilings, task.priority), READY_COST)
    } else {
        0
    }
}

/// The greatest cost of a section of a ready queue that counts, among those that the timer handler moves messages to.
fn moves_wait(app: &App, ceilings: &Ceilings, armed: &Flags, priority: u8) -> u32
    requires few { length (app_of app.now).tasks ≤ TASKS }
    requires armed { HasFlags armed.now (level.is_armed (app_of app.now)) }
    requires ceilings { ceilings.now ≡ tables.ceilings (app_of app.now) }
    requires sound { IsSound (app_of app.now) }
    ensures { let all = app_of app.now in result ≡ waiting.moves_wait all ceilings.now priority 0 all.tasks }
{
    let mut most: u32 = 0;
    for number in 0..app.tasks.len() {
        let task = &app.tasks[number];
        most = most.max(move_wait(ceilings, priority, task, armed[number]));
    }
    most
}

/// The greatest cost of a section of the timer handler that counts.
fn timer_wait(app: &App, ceilings: &Ceilings, measure: &Measure, armed: &Flags, priority: u8) -> u32
    requires few { length (app_of app.now).tasks ≤ TASKS }
    requires armed { HasFlags armed.now (level.is_armed (app_of app.now)) }
    requires ceilings { ceilings.now ≡ tables.ceilings (app_of app.now) }
    requires sound { IsSound (app_of app.now) }
    ensures { result ≡ waiting.timer_wait (app_of app.now) measure.now ceilings.now priority app.now.mono }
{
    match &app.mono {
        None => 0,
        Some(mono) => {
            if mono.priority < priority {
                let queue = if_reaches(priority, timer_at(ceilings), timer_section(measure));
                queue.max(moves_wait(app, ceilings, armed, priority))
            } else {
                0
            }
        }
    }
}

/// How long a job of this priority may wait for jobs of lower ones, in core steps.
pub(crate) fn wait_within(
    app: &App,
    ceilings: &Ceilings,
    measure: &Measure,
    armed: &Flags,
    priority: u8,
) -> u32
    requires few { length (app_of app.now).tasks ≤ TASKS }
    requires armed { HasFlags armed.now (level.is_armed (app_of app.now)) }
    requires ceilings { ceilings.now ≡ tables.ceilings (app_of app.now) }
    requires sound { IsSound (app_of app.now) }
    ensures { result ≡ waiting.wait_within (app_of app.now) measure.now ceilings.now priority }
{
    let idle = idle_wait(app, ceilings, measure, priority);
    let tasks = tasks_wait(app, ceilings, measure, priority);
    let timer = timer_wait(app, ceilings, measure, armed, priority);
    idle.max(tasks.max(timer))
}
