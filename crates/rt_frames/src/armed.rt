// How many messages may be armed at once, and which rows they have.

ghost use Rattle.std.specs.Prelude.{◌≡◌, ◌≤◌, ◌∷◌, [], map, option_map, flat_map, if◌then◌else◌};
ghost use Rattle.rt_app.specs.View.{spawn_of, value_of, statement_of, block_of, body_of, task_of, app_of};
ghost use Rattle.rt_app.specs.Spawned.{value_spawns, statement_spawns, spawns};
ghost use Rattle.rt_app.specs.Level as level;
ghost use Rattle.rt_frames.specs.Inside.Flags.{flags_with, HasFlags, delayed_targets, thread_spawns, task_spawns};

use crate::flags::{self, Flags, NUMBERS};
use rt_app::{App, Body, Spawn, Stmt, Task, Value};

/// Messages that may be armed at most: the greatest capacity, which is a byte, of a task for each number of a byte.
pub(crate) const MOST_ARMED: u32 = NUMBERS as u32 * u8::MAX as u32;

/// Flags the task of a spawn, where it is one after a delay.
fn flag_spawn(armed: &mut Flags, spawn: &Spawn)
    ensures { armed.new ≡ flags_with (delayed_targets (spawn_of spawn.now ∷ [])) armed.old }
{
    match spawn {
        Spawn::Soon(_task, _args, _at) => {}
        Spawn::After(_word, _delay, task, _args, _at) => flags::flag(armed, task.0),
        Spawn::Cancel(_word, _task, _handle, _at) => {}
        Spawn::Move(_word, _delay, _task, _handle, _at) => {}
    }
}

/// Flags the tasks that are armed by what a variable is bound to.
fn flag_value(armed: &mut Flags, value: &Value)
    ensures { armed.new ≡ flags_with (delayed_targets (value_spawns (value_of value.now))) armed.old }
{
    match value {
        Value::Calc(_expr) => {}
        Value::Now(_at) => {}
        Value::Call(spawn) => flag_spawn(armed, spawn),
    }
}

/// Flags the tasks that are armed by a statement.
#[cycle(block)]
fn flag_statement(armed: &mut Flags, stmt: &Stmt)
    ensures { armed.new ≡ flags_with (delayed_targets (statement_spawns (statement_of stmt.now))) armed.old }
{
    match stmt {
        Stmt::Bind(_variable, value) => flag_value(armed, value),
        Stmt::Assign(_atom, _expr, _at) => {}
        Stmt::Branch(_condition, first, second) => {
            flag_block(armed, first);
            flag_block(armed, second);
        }
        Stmt::Repeat(_variable, _first, _last, turn) => flag_block(armed, turn),
        Stmt::Locked(_resource, inner, _at) => flag_block(armed, inner),
        Stmt::Emit(_expr) => {}
        Stmt::Pend(_irq) => {}
        Stmt::Call(spawn) => flag_spawn(armed, spawn),
    }
}

/// Flags the tasks that are armed by statements.
#[cycle(block)]
fn flag_block(armed: &mut Flags, stmts: &[Stmt])
    ensures { armed.new ≡ flags_with (delayed_targets (spawns (block_of stmts.now))) armed.old }
{
    for stmt in stmts {
        flag_statement(armed, stmt);
    }
}

/// Flags the tasks that are armed by `init` or `idle`, where it is declared.
fn flag_thread(armed: &mut Flags, body: &Option<Body>)
    ensures { armed.new ≡ flags_with (delayed_targets (thread_spawns (option_map body_of body.now))) armed.old }
{
    match body {
        None => {}
        Some(body) => flag_block(armed, &body.block),
    }
}

/// Flags the tasks that are armed by a task.
fn flag_task(armed: &mut Flags, task: &Task)
    ensures { armed.new ≡ flags_with (delayed_targets (task_spawns (task_of task.now))) armed.old }
{
    flag_block(armed, &task.body.block);
}

/// Flags the tasks that are armed by tasks.
fn flag_tasks(armed: &mut Flags, tasks: &[Task])
    ensures { armed.new ≡ flags_with (delayed_targets (flat_map task_spawns (map task_of tasks.now))) armed.old }
{
    for task in tasks {
        flag_task(armed, task);
    }
}

/// Flags the tasks that are named in a `spawn_after`.
pub(crate) fn armed_flags(app: &App) -> Flags
    ensures { HasFlags result (level.is_armed (app_of app.now)) }
{
    let mut armed = flags::none();
    flag_thread(&mut armed, &app.init);
    flag_thread(&mut armed, &app.idle);
    flag_tasks(&mut armed, &app.tasks);
    armed
}

/// The messages of a task that may be armed at once, where it is named in a `spawn_after`.
fn armed_capacity(task: &Task, is_armed: bool) -> u32
    ensures value { result ≡ (if is_armed then (task_of task.now).capacity else 0) }
    ensures few { result ≤ u8.MAX }
{
    if is_armed {
        u32::from(task.capacity)
    } else {
        0
    }
}

/// How many messages of the tasks below this number may be armed at once.
pub(crate) fn messages_before(app: &App, armed: &Flags, end: usize) -> u32
    requires { HasFlags armed.now (level.is_armed (app_of app.now)) }
    ensures value { result ≡ level.capacities_before (app_of app.now) end }
    ensures few { result ≤ MOST_ARMED }
{
    let mut messages: u32 = 0;
    for number in 0..end.min(app.tasks.len()).min(NUMBERS) {
        messages += armed_capacity(&app.tasks[number], armed[number]);
    }
    messages
}

/// How many messages may be armed at once.
pub(crate) fn armed_messages(app: &App, armed: &Flags) -> u32
    requires { HasFlags armed.now (level.is_armed (app_of app.now)) }
    ensures value { result ≡ level.armed_messages (app_of app.now) }
    ensures few { result ≤ MOST_ARMED }
{
    messages_before(app, armed, app.tasks.len())
}

/// How many tasks are named in a `spawn_after`.
pub(crate) fn armed_tasks(app: &App, armed: &Flags) -> u32
    requires { HasFlags armed.now (level.is_armed (app_of app.now)) }
    ensures value { result ≡ level.armed_tasks (app_of app.now) }
    ensures few { result ≤ NUMBERS }
{
    let mut tasks: u32 = 0;
    for number in 0..app.tasks.len().min(NUMBERS) {
        tasks += u32::from(armed[number]);
    }
    tasks
}
