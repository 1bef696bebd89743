// Finds capacities, priorities and numbers in an application.

ghost use Rattle.std.specs.Prelude.{◌≡◌};
ghost use Rattle.rt_ids.specs.Lists.{or_zero};
ghost use Rattle.rt_app.specs.Bodies.{task_priority};
ghost use Rattle.rt_app.specs.Handlers.{irq_number};
ghost use Rattle.rt_app.specs.Sending.{capacity_of};
ghost use Rattle.rt_app.specs.View.{app_of};

use rt_app::App;
use rt_ids::TaskId;

/// The places that a task has for its messages; one that is not declared has none.
pub(crate) fn capacity(app: &App, task: TaskId) -> u8
    ensures { result ≡ capacity_of (app_of app.now) task }
{
    match app.task(task) {
        None => 0,
        Some(task) => task.capacity,
    }
}

/// The priority of a task; 0, that of the thread, for one that is not declared.
pub fn priority(app: &App, task: TaskId) -> u8
    ensures { result ≡ task_priority (app_of app.now) task }
{
    match app.task(task) {
        None => 0,
        Some(task) => task.priority,
    }
}

/// The number of an interrupt, by its index; 0 for one that is not declared.
pub fn number(app: &App, irq: u8) -> u16
    ensures { result ≡ or_zero (irq_number (app_of app.now) irq) }
{
    match app.irqs.get(usize::from(irq)) {
        None => 0,
        Some(declared) => declared.number.get(),
    }
}
