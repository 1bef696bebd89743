// Whether an application is of the form that answers are given for.

ghost use Rattle.std.specs.Prelude.{◌≡◌};
ghost use Rattle.std.specs.List.{list_any};
ghost use Rattle.rt_ids.specs.Lists.{is_some_and};
ghost use Rattle.rt_app.specs.View.{task_of, app_of};
ghost use Rattle.rt_respond.specs.Form as spec;
ghost use Rattle.rt_respond.specs.Pends as pends;

use crate::dispatcher::dispatcher_of;
use crate::pend::is_pended;
use rt_app::{App, Task};

/// Whether some body pends an interrupt, where there is one.
fn is_some_pended(app: &App, irq: Option<u8>) -> bool
    ensures { result ≡ is_some_and (pends.is_pended (app_of app.now)) irq }
{
    match irq {
        None => false,
        Some(irq) => is_pended(app, irq),
    }
}

/// Whether some body pends the interrupt of the dispatcher of a task's level.
fn dispatcher_is_pended(app: &App, task: &Task) -> bool
    ensures { result ≡ spec.dispatcher_is_pended (app_of app.now) (task_of task.now) }
{
    task.is_software() && is_some_pended(app, dispatcher_of(app, task.priority))
}

/// Whether some body pends the interrupt of the dispatcher of one of these tasks.
fn dispatchers_are_pended(app: &App, tasks: &[Task]) -> bool
    ensures { result ≡ list_any (λ t. spec.dispatcher_is_pended (app_of app.now) (task_of t)) tasks.now }
{
    tasks.iter().any(|task| dispatcher_is_pended(app, task))
}

/// Whether an application has no monotonic, and no body that pends the interrupt of a dispatcher.
pub fn is_of_form(app: &App) -> bool
    ensures { result ≡ spec.is_of_form (app_of app.now) }
{
    app.mono.is_none() && !dispatchers_are_pended(app, &app.tasks)
}
