// Counts what the spawns of a body use.

ghost use Rattle.std.specs.Prelude.{◌≡◌, slice_get};
ghost use Rattle.std.specs.List.{fold};
ghost use Rattle.rt_app.specs.Spawned.{statement_spawns, spawns, value_spawns};
ghost use Rattle.rt_app.specs.View.{spawn_of, value_of, statement_of, block_of, task_of, app_of};
ghost use Rattle.rt_ceil.specs.Inside.Tables.{level_of, level_in, mono_priority, tables_after_spawn};

use crate::tables::{Tables, raise, raise_level};
use rt_app::{App, Mono, Spawn, Stmt, Task, Value};
use rt_ids::TaskId;

/// The level of a software task.
pub(crate) fn level(task: &Task) -> Option<u8>
    ensures { result ≡ level_of (task_of task.now) }
{
    task.is_software().then_some(task.priority)
}

/// The level of this task, where it is a software task.
fn level_at(app: &App, task: TaskId) -> Option<u8>
    ensures { result ≡ level_in (slice_get (app_of app.now).tasks task) }
{
    match app.task(task) {
        Some(task) => level(task),
        None => None,
    }
}

/// The priority of the monotonic; 0, which raises no entry, without one.
fn mono_priority(mono: Option<Mono>) -> u8
    ensures { result ≡ mono_priority mono }
{
    match mono {
        Some(mono) => mono.priority,
        None => 0,
    }
}

/// Raises the entries of what a spawn by a body of this priority uses.
fn count_spawn(tables: &mut Tables, app: &App, priority: u8, spawn: &Spawn)
    ensures { tables.new ≡ tables_after_spawn (app_of app.now) priority tables.old (spawn_of spawn.now) }
{
    match spawn {
        Spawn::Soon(task, _args, _at) => {
            raise(&mut tables.free, task.0, priority);
            raise_level(&mut tables.ready, level_at(app, *task), priority);
        }
        Spawn::After(_word, _delay, task, _args, _at) => {
            raise(&mut tables.free, task.0, priority);
            let level = level_at(app, *task);
            raise_level(&mut tables.ready, level, mono_priority(app.mono));
            tables.timer = tables.timer.max(priority);
        }
        Spawn::Cancel(_word, task, _handle, _at) => {
            raise(&mut tables.free, task.0, priority);
            tables.timer = tables.timer.max(priority);
        }
        Spawn::Move(_word, _delay, _task, _handle, _at) => {
            tables.timer = tables.timer.max(priority);
        }
    }
}

/// Raises the entries of what the spawn uses that a variable is bound to, by a body of this priority.
fn count_value(tables: &mut Tables, app: &App, priority: u8, value: &Value)
    ensures { tables.new ≡ fold (tables_after_spawn (app_of app.now) priority) tables.old
        (value_spawns (value_of value.now)) }
{
    if let Value::Call(spawn) = value {
        count_spawn(tables, app, priority, spawn);
    }
}

/// Raises the entries of what the spawns of a statement use, by a body of this priority.
#[cycle(block)]
fn count_statement(tables: &mut Tables, app: &App, priority: u8, stmt: &Stmt)
    ensures { let made = statement_spawns (statement_of stmt.now) in
        tables.new ≡ fold (tables_after_spawn (app_of app.now) priority) tables.old made }
{
    match stmt {
        Stmt::Bind(_variable, value) => count_value(tables, app, priority, value),
        Stmt::Branch(_condition, first, second) => {
            count_block(tables, app, priority, first);
            count_block(tables, app, priority, second);
        }
        Stmt::Repeat(_variable, _first, _last, turn) => count_block(tables, app, priority, turn),
        Stmt::Locked(_resource, inner, _at) => count_block(tables, app, priority, inner),
        Stmt::Call(spawn) => count_spawn(tables, app, priority, spawn),
        Stmt::Assign(_target, _value, _at) => {}
        Stmt::Emit(_value) => {}
        Stmt::Pend(_irq) => {}
    }
}

/// Raises the entries of what the spawns of a block use, by a body of this priority.
#[cycle(block)]
pub(crate) fn count_block(tables: &mut Tables, app: &App, priority: u8, block: &[Stmt])
    ensures { let made = spawns (block_of block.now) in
        tables.new ≡ fold (tables_after_spawn (app_of app.now) priority) tables.old made }
{
    for stmt in block {
        count_statement(tables, app, priority, stmt);
    }
}
