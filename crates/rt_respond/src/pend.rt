// Which bodies pend which interrupts, and which spawn which tasks.

ghost use Rattle.std.specs.Prelude.{◌≡◌, ◌||◌, option_map};
ghost use Rattle.std.specs.List.{list_any};
ghost use Rattle.rt_app.specs.View.{spawn_of, value_of, statement_of, block_of, body_of, task_of, app_of};
ghost use Rattle.rt_app.specs.Spawned.{value_spawns, statement_spawns};
ghost use Rattle.rt_respond.specs.Pends as spec;

use rt_app::{App, Body, Spawn, Stmt, Task, Value};
use rt_ids::TaskId;

/// Whether a statement holds a `pend` of an interrupt.
#[cycle(block)]
fn statement_pends(irq: u8, stmt: &Stmt) -> bool
    ensures { result ≡ spec.statement_pends irq (statement_of stmt.now) }
{
    match stmt {
        Stmt::Bind(_variable, _value) => false,
        Stmt::Assign(_atom, _expr, _at) => false,
        Stmt::Branch(_condition, first, second) => {
            block_pends(irq, first) || block_pends(irq, second)
        }
        Stmt::Repeat(_variable, _first, _last, turn) => block_pends(irq, turn),
        Stmt::Locked(_resource, inner, _at) => block_pends(irq, inner),
        Stmt::Emit(_expr) => false,
        Stmt::Pend(pended) => *pended == irq,
        Stmt::Call(_spawn) => false,
    }
}

/// Whether statements hold a `pend` of an interrupt.
#[cycle(block)]
pub(crate) fn block_pends(irq: u8, stmts: &[Stmt]) -> bool
    ensures { result ≡ spec.block_pends irq (block_of stmts.now) }
{
    for stmt in stmts {
        if statement_pends(irq, stmt) {
            return true;
        }
    }
    false
}

/// Whether a spawn makes a message of a task ready at once.
fn readies_task(task: TaskId, spawn: &Spawn) -> bool
    ensures { result ≡ spec.readies_task task (spawn_of spawn.now) }
{
    match spawn {
        Spawn::Soon(target, _args, _at) => *target == task,
        Spawn::After(_word, _delay, _target, _args, _at) => false,
        Spawn::Cancel(_word, _target, _handle, _at) => false,
        Spawn::Move(_word, _delay, _target, _handle, _at) => false,
    }
}

/// Whether the value of a `let` is a `spawn` of a task.
fn value_spawns(task: TaskId, value: &Value) -> bool
    ensures { result ≡ list_any (spec.readies_task task) (value_spawns (value_of value.now)) }
{
    match value {
        Value::Calc(_expr) => false,
        Value::Now(_at) => false,
        Value::Call(spawn) => readies_task(task, spawn),
    }
}

/// Whether a statement holds a `spawn` of a task.
#[cycle(spawning)]
fn statement_spawns(task: TaskId, stmt: &Stmt) -> bool
    ensures { result ≡ list_any (spec.readies_task task) (statement_spawns (statement_of stmt.now)) }
{
    match stmt {
        Stmt::Bind(_variable, value) => value_spawns(task, value),
        Stmt::Assign(_atom, _expr, _at) => false,
        Stmt::Branch(_condition, first, second) => {
            block_spawns(task, first) || block_spawns(task, second)
        }
        Stmt::Repeat(_variable, _first, _last, turn) => block_spawns(task, turn),
        Stmt::Locked(_resource, inner, _at) => block_spawns(task, inner),
        Stmt::Emit(_expr) => false,
        Stmt::Pend(_pended) => false,
        Stmt::Call(spawn) => readies_task(task, spawn),
    }
}

/// Whether statements hold a `spawn` of a task.
#[cycle(spawning)]
pub(crate) fn block_spawns(task: TaskId, stmts: &[Stmt]) -> bool
    ensures { result ≡ spec.block_spawns task (block_of stmts.now) }
{
    for stmt in stmts {
        if statement_spawns(task, stmt) {
            return true;
        }
    }
    false
}

/// Whether `init` or `idle` holds a `pend` of an interrupt, where it is declared.
fn body_pends(irq: u8, body: &Option<Body>) -> bool
    ensures { result ≡ spec.body_pends irq (option_map body_of body.now) }
{
    match body {
        None => false,
        Some(body) => block_pends(irq, &body.block),
    }
}

/// Whether `init` or `idle` holds a `pend` of an interrupt.
fn threads_pend(app: &App, irq: u8) -> bool
    ensures { let all = app_of app.now in result ≡ (spec.body_pends irq all.init || spec.body_pends irq all.idle) }
{
    body_pends(irq, &app.init) || body_pends(irq, &app.idle)
}

/// Whether one of these tasks does.
fn tasks_pend(irq: u8, tasks: &[Task]) -> bool
    ensures { result ≡ list_any (λ t. spec.block_pends irq (task_of t).body.block) tasks.now }
{
    tasks.iter().any(|task| block_pends(irq, &task.body.block))
}

/// Whether some body does.
pub(crate) fn is_pended(app: &App, irq: u8) -> bool
    ensures { result ≡ spec.is_pended (app_of app.now) irq }
{
    threads_pend(app, irq) || tasks_pend(irq, &app.tasks)
}
