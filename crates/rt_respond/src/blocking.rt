// What holds a handler off that is later in the order.

ghost use Rattle.std.specs.Prelude.{◌≡◌, ◌≤◌, ◌==◌, ℕ, not, length, map, count_by, get_or, find, option_map};
ghost use Rattle.rt_app.specs.View.{spawn_of, value_of, statement_of, block_of, body_of, task_of, app_of};
ghost use Rattle.rt_app.specs.Tree.{Locked};
ghost use Rattle.rt_app.specs.Bodies as bodies;
ghost use Rattle.rt_ids.specs.declared.limits.TheConstants.{TASKS};
ghost use Rattle.rt_app.specs.Accepted.{IsAccepted};
ghost use Rattle.rt_frames.specs.Inside.Waits as waits;
ghost use Rattle.rt_respond.specs.Blocking as definition;
ghost use Rattle.rt_respond.specs.Number as number;
ghost use Rattle.rt_respond.specs.Inside.Holding as spec;

use crate::dispatcher::dispatcher_section;
use crate::handler::{Handler, Quantity, Release, stands_before, steps_weight};
use crate::number::{greater_of, plus};
use crate::work::{Works, block_sends, handler_sends, release_asks};
use rt_app::costs::{FREE_COST, READY_COST};
use rt_app::{App, Body, Ceilings, ReadyCeiling, Spawn, Stmt, Task, Value};
use rt_frames::Measure;
use rt_ids::{ResId, TaskId};

/// A handler that is held off, and what counts of the application for it.
#[derive(Clone, Copy)]
pub(crate) struct Held<'a> {
    pub(crate) this: &'a Handler,
    pub(crate) counted: Quantity,
    pub(crate) all: Works<'a>,
    pub(crate) ceilings: &'a Ceilings,
    pub(crate) measure: &'a Measure,
    /// The priorities at which a job below may have a place in transit of the messages that are counted.
    pub(crate) transit: &'a [u8],
}

/// The ceiling of a resource. Where there is none of this index, it is 0: that is below each handler, so that no lock
/// of it counts.
fn shared_ceiling(ceilings: &Ceilings, resource: ResId) -> u8
    ensures { result ≡ get_or ceilings.now.shared resource 0 }
{
    match ceilings.shared.get(usize::from(resource.0)) {
        None => 0,
        Some(ceiling) => *ceiling,
    }
}

/// What a lock that counts holds off: its steps behind the first, and what is released in it.
fn section_holds(app: &App, held: &Held, stmt: &Stmt, inner: &[Stmt]) -> Option<u64>
    requires { (r at : ℕ) × (statement_of stmt.now ≡ Locked r (block_of inner.now) at) }
    ensures { result ≡ spec.held_section (app_of app.now) held.now (block_of inner.now) }
{
    let steps = held.measure.statement(stmt).saturating_sub(1);
    let own = Some(steps_weight(held.counted, steps));
    plus(own, block_sends(&held.all, inner))
}

/// The ceiling of the free places of a task. Where there is none of this number, or it is a hardware task, which has no
/// places, it is 0: that is below each handler, so that no section of them counts.
fn free_ceiling(ceilings: &Ceilings, task: TaskId) -> u8
    ensures { result ≡ waits.free_at ceilings.now task }
{
    match ceilings.free.get(usize::from(task.0)) {
        None => 0,
        Some(None) => 0,
        Some(Some(ceiling)) => *ceiling,
    }
}

/// The ceiling of the first of these ready queues that is of this level. Where there is none, it is 0: that is below
/// each handler, so that no section of it counts.
fn ready_in(queues: &[ReadyCeiling], level: u8) -> u8
    ensures { result ≡ waits.ceiling_or_zero (find (λ r. r.level == level) queues.now) }
{
    match queues.iter().find(|queue| queue.level == level) {
        None => 0,
        Some(queue) => queue.ceiling,
    }
}

/// The ceiling of the ready queue of a level, and 0, which is below each handler, where there is none.
fn ready_ceiling(ceilings: &Ceilings, level: u8) -> u8
    ensures { result ≡ waits.ready_at ceilings.now level }
{
    ready_in(&ceilings.ready, level)
}

/// The priority of a task. Where there is none of this number, it is 0, the priority of `idle`: no queue is of that
/// level, so that no section of it counts.
fn task_priority(app: &App, task: TaskId) -> u8
    ensures { result ≡ bodies.task_priority (app_of app.now) task }
{
    match app.task(task) {
        None => 0,
        Some(task) => task.priority,
    }
}

/// What a section of a queue holds off, with what is released in it, where it counts: its steps behind the first.
fn queue_holds(
    app: &App,
    held: &Held,
    ceiling: u8,
    steps: u32,
    released: Option<u64>,
) -> Option<u64>
    ensures { result ≡ spec.held_queue (app_of app.now) held.now ceiling steps released }
{
    if held.this.priority <= ceiling {
        let own = steps_weight(held.counted, steps.saturating_sub(1));
        plus(Some(own), released)
    } else {
        Some(0)
    }
}

/// What the section of a task's free places holds off, where it counts.
fn free_holds(app: &App, held: &Held, task: TaskId) -> Option<u64>
    ensures { result ≡ spec.held_free (app_of app.now) held.now task }
{
    queue_holds(
        app,
        held,
        free_ceiling(held.ceilings, task),
        FREE_COST,
        Some(0),
    )
}

/// The most that a section of a spawn holds off: the one that takes a place, or the one that makes the message ready.
fn spawn_holds(app: &App, held: &Held, spawn: &Spawn) -> Option<u64>
    ensures { result ≡ spec.held_spawn (app_of app.now) held.now (spawn_of spawn.now) }
{
    match spawn {
        Spawn::Soon(task, _args, _at) => {
            let ceiling = ready_ceiling(held.ceilings, task_priority(app, *task));
            let message = release_asks(&held.all, &Release::Message(*task));
            let ready = queue_holds(app, held, ceiling, READY_COST, message);
            greater_of(free_holds(app, held, *task), ready)
        }
        Spawn::After(_word, _delay, _task, _args, _at) => Some(0),
        Spawn::Cancel(_word, _task, _handle, _at) => Some(0),
        Spawn::Move(_word, _delay, _task, _handle, _at) => Some(0),
    }
}

/// The most that a section of the value of a `let` holds off.
fn value_holds(app: &App, held: &Held, value: &Value) -> Option<u64>
    ensures { result ≡ spec.held_value (app_of app.now) held.now (value_of value.now) }
{
    match value {
        Value::Calc(_expr) => Some(0),
        Value::Now(_at) => Some(0),
        Value::Call(spawn) => spawn_holds(app, held, spawn),
    }
}

/// The most that a section or a `pend` of a statement holds off.
#[cycle(block)]
fn statement_holds(app: &App, held: &Held, stmt: &Stmt) -> Option<u64>
    ensures { result ≡ spec.held_statement (app_of app.now) held.now (statement_of stmt.now) }
{
    match stmt {
        Stmt::Bind(_variable, value) => value_holds(app, held, value),
        Stmt::Assign(_atom, _expr, _at) => Some(0),
        Stmt::Branch(_condition, first, second) => {
            greater_of(
                block_holds(app, held, first),
                block_holds(app, held, second),
            )
        }
        Stmt::Repeat(_variable, _first, _last, turn) => block_holds(app, held, turn),
        Stmt::Locked(resource, inner, _at) => {
            if held.this.priority <= shared_ceiling(held.ceilings, *resource) {
                section_holds(app, held, stmt, inner)
            } else {
                block_holds(app, held, inner)
            }
        }
        Stmt::Emit(_expr) => Some(0),
        Stmt::Pend(irq) => release_asks(&held.all, &Release::Request(*irq)),
        Stmt::Call(spawn) => spawn_holds(app, held, spawn),
    }
}

/// The most that one of these statements holds off.
#[cycle(block)]
fn block_holds(app: &App, held: &Held, stmts: &[Stmt]) -> Option<u64>
    ensures { result ≡ spec.held_block (app_of app.now) held.now (block_of stmts.now) }
{
    let mut most = Some(0);
    for stmt in stmts {
        most = greater_of(most, statement_holds(app, held, stmt));
    }
    most
}

/// The most that `idle` holds off, where it is declared.
fn idle_holds(app: &App, held: &Held, body: &Option<Body>) -> Option<u64>
    ensures { result ≡ spec.held_idle (app_of app.now) held.now (option_map body_of body.now) }
{
    match body {
        None => Some(0),
        Some(body) => block_holds(app, held, &body.block),
    }
}

/// The most that a task holds off, where it is of lower priority.
fn task_holds(app: &App, held: &Held, task: &Task) -> Option<u64>
    ensures { result ≡ spec.held_task (app_of app.now) held.now (task_of task.now) }
{
    if task.priority < held.this.priority {
        block_holds(app, held, &task.body.block)
    } else {
        Some(0)
    }
}

/// How many places are in transit at other priorities than this one.
fn others_in_transit(transit: &[u8], priority: u8) -> u64
    ensures { result ≡ count_by (λ other. not (other == priority)) transit.now }
{
    let mut count = 0;
    for other in transit {
        if *other != priority {
            count += 1;
        }
    }
    count
}

/// The most that a body of this priority holds off, with the places in transit at the other priorities.
fn with_transit(held: &Held, priority: u8, most: Option<u64>) -> Option<u64>
    ensures { result ≡ spec.with_transit held.now.transit.now priority most }
{
    plus(Some(others_in_transit(held.transit, priority)), most)
}

/// The most that one of these tasks holds off.
fn tasks_hold(app: &App, held: &Held, tasks: &[Task]) -> Option<u64>
    ensures { result ≡ number.greatest_of (map (λ t. spec.whole_task (app_of app.now) held.now (task_of t)) tasks.now) }
{
    let mut most = Some(0);
    for task in tasks {
        let own = task_holds(app, held, task);
        most = greater_of(most, with_transit(held, task.priority, own));
    }
    most
}

/// What a handler of the same priority holds off that stands behind: its whole job, and what it releases.
fn equal_holds(app: &App, held: &Held, handler: &Handler) -> Option<u64>
    ensures { let asked = spec.asked_for (app_of app.now) held.now in
        result ≡ spec.equal_most (app_of app.now) held.now.counted asked held.now.this.now handler.now }
{
    if handler.priority == held.this.priority && stands_before(held.this, handler) {
        let own = Some(steps_weight(held.counted, handler.steps));
        plus(own, handler_sends(app, &held.all, handler))
    } else {
        Some(0)
    }
}

/// The most that a section of the dispatcher of a task holds off, where it is of lower priority.
fn dispatcher_holds(app: &App, held: &Held, handler: &Handler) -> Option<u64>
    requires { length (app_of app.now).tasks ≤ TASKS }
    ensures { result ≡ spec.held_dispatcher (app_of app.now) held.now handler.now }
{
    if handler.is_dispatcher && handler.priority < held.this.priority {
        let ceiling = ready_ceiling(held.ceilings, handler.priority);
        let steps = dispatcher_section(app, handler.priority);
        let ready = queue_holds(app, held, ceiling, steps, Some(0));
        greater_of(ready, free_holds(app, held, handler.task))
    } else {
        Some(0)
    }
}

/// The most that a handler holds off, with its own sections.
fn handler_holds(app: &App, held: &Held, handler: &Handler) -> Option<u64>
    requires { length (app_of app.now).tasks ≤ TASKS }
    ensures { result ≡ spec.held_handler (app_of app.now) held.now handler.now }
{
    greater_of(
        equal_holds(app, held, handler),
        dispatcher_holds(app, held, handler),
    )
}

/// The most that one of these handlers holds off.
fn handlers_hold(app: &App, held: &Held) -> Option<u64>
    requires { length (app_of app.now).tasks ≤ TASKS }
    ensures { let most = spec.whole_handler (app_of app.now) held.now in
        result ≡ number.greatest_of (map most held.now.all.handlers.now) }
{
    let mut most = Some(0);
    for handler in held.all.handlers {
        let own = handler_holds(app, held, handler);
        most = greater_of(most, with_transit(held, handler.priority, own));
    }
    most
}

/// The most that holds the handler off, with what it releases.
pub(crate) fn blocking(app: &App, held: &Held) -> Option<u64>
    requires accepted { IsAccepted (app_of app.now) }
    requires held { spec.IsHeld (app_of app.now) held.now }
    ensures { result ≡ definition.blocking (app_of app.now) held.now.counted held.now.this.now }
{
    let idle = with_transit(held, 0, idle_holds(app, held, &app.idle));
    let jobs = greater_of(tasks_hold(app, held, &app.tasks), handlers_hold(app, held));
    let places = Some(held.transit.len() as u64);
    let lower = greater_of(idle, jobs);
    greater_of(places, lower)
}
