// The handlers of an application, and their order.

ghost use Rattle.std.specs.Prelude.{◌≡◌, ◌++◌, ◌==◌, ◌≤◌, length, map, IfOk, OnOk};
ghost use Rattle.rt_ids.specs.declared.limits.TheConstants.{TASKS};
ghost use Rattle.rt_app.specs.View.{task_of, app_of};
ghost use Rattle.rt_app.specs.BodyCost.{cost_measure};
ghost use Rattle.rt_app.specs.Handlers.{bound_number, irq_number};
ghost use Rattle.rt_ids.specs.Lists.{then_from};
ghost use Rattle.rt_respond.specs.Handlers as spec;
ghost use Rattle.rt_respond.specs.Work as works;

use crate::dispatcher::{dispatcher_cost, dispatcher_of};
use rt_app::{App, Task};
use rt_frames::Measure;
use rt_ids::{Irq, NoMemory, TaskId};
use std::alloc::Global;

/// The handler that runs the jobs of a task: of the interrupt that it binds, or the dispatcher of its level.
#[derive(Clone, Copy)]
pub struct Handler {
    /// The interrupt, by its index in the order of declaration.
    pub irq: u8,
    /// The number of the interrupt.
    pub number: Irq,
    pub priority: u8,
    /// The task that it runs.
    pub task: TaskId,
    /// The core steps of a run of it, at most. The step that takes the interrupt is not counted.
    pub steps: u32,
    /// Whether it is the dispatcher of the task's level.
    pub is_dispatcher: bool,
}

/// What code releases.
#[derive(Clone, Copy)]
pub enum Release {
    /// A request of an interrupt, by its index in the order of declaration.
    Request(u8),
    /// A message of a software task, which is ready at once.
    Message(TaskId),
}

/// What is counted of jobs.
#[derive(Clone, Copy)]
pub enum Quantity {
    /// Core steps, with the step that takes the interrupt.
    Steps,
    /// Messages of a task.
    Messages(TaskId),
}

/// What counts of a job of a handler.
pub(crate) fn weight(counted: &Quantity, handler: &Handler) -> u64
    ensures { result ≡ works.weight counted.now handler.now }
{
    match counted {
        Quantity::Steps => u64::from(handler.steps) + 1,
        Quantity::Messages(task) => u64::from(handler.is_dispatcher && handler.task == *task),
    }
}

/// What counts of core steps.
pub(crate) fn steps_weight(counted: Quantity, steps: u32) -> u64
    ensures { result ≡ works.steps_weight counted steps }
{
    match counted {
        Quantity::Steps => u64::from(steps),
        Quantity::Messages(_task) => 0,
    }
}

/// Whether a handler is that of a release.
pub(crate) fn takes(release: &Release, handler: &Handler) -> bool
    ensures { result ≡ works.takes release.now handler.now }
{
    match release {
        Release::Request(irq) => handler.irq == *irq,
        Release::Message(task) => handler.task == *task,
    }
}

/// Whether a handler stands before another in the order.
pub(crate) fn stands_before(first: &Handler, second: &Handler) -> bool
    ensures { result ≡ spec.stands_before first.now second.now }
{
    second.priority < first.priority
        || (first.priority == second.priority && first.number < second.number)
}

/// Whether a handler is this one, or stands before it.
pub(crate) fn is_at(this: &Handler, handler: &Handler) -> bool
    ensures { result ≡ spec.is_at this.now handler.now }
{
    !stands_before(this, handler)
}

/// The number of the interrupt that a task binds.
pub(crate) fn number_of(app: &App, task: &Task) -> Option<Irq>
    ensures { result ≡ bound_number (app_of app.now) (task_of task.now) }
{
    let index = task.binds?;
    app.irqs.get(usize::from(index)).map(|irq| irq.number)
}

/// The interrupt in which the jobs of a task run, by its index: the one that it binds, else that of its level's
/// dispatcher.
fn serving_irq(app: &App, task: &Task) -> Option<u8>
    ensures { result ≡ spec.serving_irq (app_of app.now) (task_of task.now) task.now.binds }
{
    match task.binds {
        None => dispatcher_of(app, task.priority),
        Some(irq) => Some(irq),
    }
}

/// The core steps of a job of a task, at most.
fn job_cost(app: &App, measure: &Measure, task: &Task) -> u32
    requires few { length (app_of app.now).tasks ≤ TASKS }
    requires measure { measure.now ≡ cost_measure (app_of app.now) }
    ensures { result ≡ spec.job_cost (app_of app.now) (task_of task.now) }
{
    if task.is_software() {
        dispatcher_cost(app, measure, task.priority)
    } else {
        measure.body(&task.body)
    }
}

/// The number of an interrupt, by its index, where there is one.
fn number_at(app: &App, irq: Option<u8>) -> Option<Irq>
    ensures { result ≡ then_from irq (irq_number (app_of app.now)) }
{
    let index = irq?;
    app.irqs.get(usize::from(index)).map(|irq| irq.number)
}

/// Appends the handler of a task of this number.
fn push_handler(
    all: &mut Vec<Handler>,
    app: &App,
    measure: &Measure,
    number: u8,
    task: &Task,
) -> Result<(), NoMemory>
    requires few { length (app_of app.now).tasks ≤ TASKS }
    requires measure { measure.now ≡ cost_measure (app_of app.now) }
    ensures { let t = task_of task.now in
        let irq = spec.serving_irq (app_of app.now) t t.binds in
        let own = spec.own_handler (app_of app.now) number t irq (then_from irq (irq_number (app_of app.now))) in
        OnOk result (all.new.items ≡ all.old.items ++ own) }
{
    let serving = serving_irq(app, task);
    if let (Some(irq), Some(number_served)) = (serving, number_at(app, serving)) {
        all.push(Handler {
            irq,
            number: number_served,
            priority: task.priority,
            task: TaskId(number),
            steps: job_cost(app, measure, task),
            is_dispatcher: task.is_software(),
        })?;
    }
    Ok(())
}

/// Appends the handlers of tasks, the first of which has the number 0.
fn push_handlers(
    all: &mut Vec<Handler>,
    app: &App,
    measure: &Measure,
    tasks: &[Task],
) -> Result<(), NoMemory>
    requires few { length tasks.now ≤ TASKS }
    requires all { length (app_of app.now).tasks ≤ TASKS }
    requires measure { measure.now ≡ cost_measure (app_of app.now) }
    ensures { let own = spec.task_handlers (app_of app.now) 0 (map task_of tasks.now) in
        OnOk result (all.new.items ≡ all.old.items ++ own) }
{
    for number in 0..tasks.len() {
        push_handler(all, app, measure, number as u8, &tasks[number])?;
    }
    Ok(())
}

/// The handlers of the tasks, in order of declaration.
pub(crate) fn handlers(alloc: Global, app: &App) -> Result<Vec<Handler>, NoMemory>
    requires { length (app_of app.now).tasks ≤ TASKS }
    ensures { IfOk result (λ all. all.items ≡ spec.handlers (app_of app.now)) }
{
    let measure = Measure::cost(app);
    let mut all = Vec::new(alloc);
    push_handlers(&mut all, app, &measure, &app.tasks)?;
    Ok(all)
}
