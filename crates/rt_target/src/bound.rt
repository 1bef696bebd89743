// Which interrupts tasks bind.

ghost use Rattle.std.specs.Prelude.{◌≡◌, ◌==◌};
ghost use Rattle.std.specs.List.{list_any};
ghost use Rattle.rt_ids.specs.Lists.{is_some_and};
ghost use Rattle.rt_app.specs.Handlers.{bound_number};
ghost use Rattle.rt_app.specs.View.{app_of, task_of};
ghost use Rattle.rt_target.specs.Chip as spec;

use crate::fact::Fact;
use rt_app::{App, Task};
use rt_ids::Irq;

/// Whether a function is to be called as an interrupt is taken that no task binds.
pub(crate) fn calls_for_none(app: &App, fact: &Fact) -> bool
    ensures { result ≡ spec.calls_for_none (app_of app.now) fact.now }
{
    match fact {
        Fact::Call(irq) => !is_bound(app, *irq),
        _ => false,
    }
}

/// Whether a task binds the interrupt of a number.
fn is_bound(app: &App, irq: Irq) -> bool
    ensures { result ≡ spec.is_bound (app_of app.now) irq }
{
    one_binds(app, &app.tasks, irq)
}

/// Whether one of these tasks does.
fn one_binds(app: &App, tasks: &[Task], irq: Irq) -> bool
    ensures { let all = app_of app.now in
        result ≡ list_any (λ t. is_some_and (λ n. n == irq) (bound_number all (task_of t))) tasks.now }
{
    tasks.iter().any(|task| binds(app, task, irq))
}

/// Whether this task does.
fn binds(app: &App, task: &Task, irq: Irq) -> bool
    ensures { result ≡ is_some_and (λ n. n == irq) (bound_number (app_of app.now) (task_of task.now)) }
{
    match number_of(app, task) {
        None => false,
        Some(number) => number == irq,
    }
}

/// The number of the interrupt that a task binds.
fn number_of(app: &App, task: &Task) -> Option<Irq>
    ensures { result ≡ bound_number (app_of app.now) (task_of task.now) }
{
    let index = task.binds?;
    app.irqs.get(usize::from(index)).map(|irq| irq.number)
}
