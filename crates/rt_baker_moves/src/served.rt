// What serves each interrupt.

ghost use Rattle.std.specs.Prelude.{◌≡◌, ◌<◌, ◌≤◌, ℕ, length, map, filter, find, slice_index_or, nat_lt, None, IfOk};
ghost use Rattle.std.specs.Prelude.{if◌then◌else◌};
ghost use Rattle.rt_ids.specs.Lists.{greatest, is_some_and};
ghost use Rattle.rt_ids.specs.declared.limits.TheConstants.{IRQ_NUMBERS, TASKS};
ghost use Rattle.rt_app.specs.BodyCost as costs;
ghost use Rattle.rt_app.specs.Handlers.{dispatcher_of, task_services, timer_service};
ghost use Rattle.rt_app.specs.Level.{is_of_level, levels};
ghost use Rattle.rt_app.specs.Sending.{dispatcher_number};
ghost use Rattle.rt_app.specs.View.{task_of, app_of};
ghost use Rattle.rt_laws.specs.Services.{service_at};
ghost use Rattle.rt_baker_moves.specs.Machine.{IsServiceOf};
ghost use Rattle.rt_baker_moves.specs.Inside.Serving.{levels_of, has_number, serves, level_services};

use crate::machine::Served;
use rt_app::costs::{DISPATCHER_COST, READY_TASK_COST};
use rt_app::{App, ReadyCeiling, Task};
use rt_baker_work::Handler;
use rt_baker_work::lookup::number;
use rt_frames::{Measure, tasks_of_level, timer_cost};
use rt_ids::limits::IRQ_NUMBERS;
use rt_ids::{NoMemory, TaskId};
use std::alloc::Global;

/// Whether the interrupt at an index in the order of declaration has this number.
fn has_number(app: &App, index: u8, irq: u16) -> bool
    ensures { result ≡ has_number (app_of app.now) irq index }
{
    match app.irqs.get(usize::from(index)) {
        None => false,
        Some(declared) => declared.number.get() == irq,
    }
}

/// Whether a task binds the interrupt of this number.
fn binds(app: &App, task: &Task, irq: u16) -> bool
    ensures { result ≡ is_some_and (has_number (app_of app.now) irq) task.now.binds }
{
    match task.binds {
        None => false,
        Some(index) => has_number(app, index, irq),
    }
}

/// The hardware task whose interrupt has this number: the first that binds it.
fn hardware(app: &App, measure: &Measure, irq: u16) -> Option<Served>
    requires few { length (app_of app.now).tasks ≤ TASKS }
    requires measured { measure.now ≡ costs.cost_measure (app_of app.now) }
    ensures { let all = app_of app.now in
        IsServiceOf all result (find (serves all irq) (task_services 0 all.tasks)) }
{
    for number in 0..app.tasks.len() {
        let task = &app.tasks[number];
        if binds(app, task, irq) {
            return Some(Served {
                handler: Handler::Runs(TaskId(number as u8)),
                priority: task.priority,
                cost: u64::from(measure.body(&task.body)),
            });
        }
    }
    None
}

/// How many levels are above one.
fn levels_above(rows: &[ReadyCeiling], level: u8) -> usize
    ensures { result ≡ length (filter (nat_lt level) (levels_of rows.now)) }
{
    rows.iter().filter(|row| level < row.level).count()
}

/// The number of the dispatcher of a level; of a priority that no software task has, a number that means nothing.
pub(crate) fn dispatcher(app: &App, rows: &[ReadyCeiling], level: u8) -> u16
    requires { levels_of rows.now ≡ levels (app_of app.now) }
    ensures { result ≡ dispatcher_number (app_of app.now) level }
{
    match app.dispatchers.get(levels_above(rows, level)) {
        None => 0,
        Some(dispatcher) => number(app, dispatcher.irq),
    }
}

/// Whether the dispatcher of a level has the interrupt of this number.
fn dispatches(app: &App, rows: &[ReadyCeiling], level: u8, irq: u16) -> bool
    requires { levels_of rows.now ≡ levels (app_of app.now) }
    ensures { result ≡ is_some_and (has_number (app_of app.now) irq) (dispatcher_of (app_of app.now) level) }
{
    match app.dispatchers.get(levels_above(rows, level)) {
        None => false,
        Some(dispatcher) => has_number(app, dispatcher.irq, irq),
    }
}

/// The core steps of the body of a task, where it is a software task of this level, and else 0.
fn cost_at(task: &Task, measure: &Measure, level: u8) -> u32
    ensures { let t = task_of task.now in
        result ≡ (if is_of_level level t then costs.body_cost measure.now t.body else 0) }
{
    if task.is_of_level(level) {
        measure.body(&task.body)
    } else {
        0
    }
}

/// The greatest cost of the bodies of a level.
fn greatest_cost(tasks: &[Task], measure: &Measure, level: u8) -> u32
    ensures { result ≡ greatest (map (λ t. costs.body_cost measure.now t.body)
        (filter (is_of_level level) (map task_of tasks.now))) }
{
    let mut most: u32 = 0;
    for task in tasks {
        most = most.max(cost_at(task, measure, level));
    }
    most
}

/// The core steps of the dispatcher of a level, at most.
fn dispatcher_cost(app: &App, measure: &Measure, level: u8) -> u64
    requires few { length (app_of app.now).tasks ≤ TASKS }
    requires measured { measure.now ≡ costs.cost_measure (app_of app.now) }
    ensures { result ≡ costs.dispatcher_cost (app_of app.now) level }
{
    let tasks = tasks_of_level(&app.tasks, level) as u64;
    let own = u64::from(DISPATCHER_COST) + u64::from(READY_TASK_COST) * tasks;
    own + u64::from(greatest_cost(&app.tasks, measure, level))
}

/// The dispatcher whose interrupt has this number: that of the lowest level.
fn served_dispatcher(
    app: &App,
    measure: &Measure,
    rows: &[ReadyCeiling],
    irq: u16,
) -> Option<Served>
    requires few { length (app_of app.now).tasks ≤ TASKS }
    requires measured { measure.now ≡ costs.cost_measure (app_of app.now) }
    requires rows { levels_of rows.now ≡ levels (app_of app.now) }
    ensures { let all = app_of app.now in
        IsServiceOf all result (find (serves all irq) (level_services all (levels all))) }
{
    for row in rows {
        if dispatches(app, rows, row.level, irq) {
            return Some(Served {
                handler: Handler::Dispatches(row.level),
                priority: row.level,
                cost: dispatcher_cost(app, measure, row.level),
            });
        }
    }
    None
}

/// The timer handler, where its interrupt has this number.
fn served_timer(app: &App, irq: u16) -> Option<Served>
    ensures { let all = app_of app.now in
        IsServiceOf all result (find (serves all irq) (timer_service all.mono)) }
{
    match app.mono {
        None => None,
        Some(mono) => {
            if !has_number(app, mono.irq, irq) {
                return None;
            }
            Some(Served {
                handler: Handler::Times,
                priority: mono.priority,
                cost: u64::from(timer_cost(app)),
            })
        }
    }
}

/// What serves the interrupt of this number, where something does.
fn service(app: &App, measure: &Measure, rows: &[ReadyCeiling], irq: u16) -> Option<Served>
    requires few { length (app_of app.now).tasks ≤ TASKS }
    requires measured { measure.now ≡ costs.cost_measure (app_of app.now) }
    requires rows { levels_of rows.now ≡ levels (app_of app.now) }
    ensures { IsServiceOf (app_of app.now) result (service_at (app_of app.now) irq) }
{
    if let Some(task) = hardware(app, measure, irq) {
        return Some(task);
    }
    if let Some(served) = served_dispatcher(app, measure, rows, irq) {
        return Some(served);
    }
    served_timer(app, irq)
}

/// Fills a table of what serves the interrupts of an application whose levels have these rows, by number.
fn fill(served: &mut [Option<Served>], app: &App, measure: &Measure, rows: &[ReadyCeiling])
    requires long { length served.old ≡ IRQ_NUMBERS }
    requires few { length (app_of app.now).tasks ≤ TASKS }
    requires measured { measure.now ≡ costs.cost_measure (app_of app.now) }
    requires rows { levels_of rows.now ≡ levels (app_of app.now) }
    ensures { (irq : ℕ) → irq < IRQ_NUMBERS
        → IsServiceOf (app_of app.now) (slice_index_or served.new irq None) (service_at (app_of app.now) irq) }
{
    for irq in 0..IRQ_NUMBERS {
        served[usize::from(irq)] = service(app, measure, rows, irq);
    }
}

/// What serves the interrupts of an application whose levels have these rows, by number.
pub(crate) fn services(
    alloc: Global,
    app: &App,
    measure: &Measure,
    rows: &[ReadyCeiling],
) -> Result<Vec<Option<Served>>, NoMemory>
    requires few { length (app_of app.now).tasks ≤ TASKS }
    requires measured { measure.now ≡ costs.cost_measure (app_of app.now) }
    requires rows { levels_of rows.now ≡ levels (app_of app.now) }
    ensures { IfOk result (λ served. (irq : ℕ) → irq < IRQ_NUMBERS
        → IsServiceOf (app_of app.now) (slice_index_or served.items irq None) (service_at (app_of app.now) irq)) }
{
    let mut served = vec![in alloc; None; usize::from(IRQ_NUMBERS)]?;
    fill(&mut served, app, measure, rows);
    Ok(served)
}
