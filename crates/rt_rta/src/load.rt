// What each task asks of the core.

ghost use Rattle.std.specs.Prelude.{◌≡◌, ◌++◌, IfOk, OnOk};
ghost use Rattle.rt_ids.specs.Lists.{then_from};
ghost use Rattle.rt_app.specs.View.{task_of, app_of};
ghost use Rattle.rt_app.specs.BodyCost.{cost_measure};
ghost use Rattle.rt_app.specs.Handlers.{bound_number};
ghost use Rattle.rt_rta.specs.Limits as spec;
ghost use Rattle.rt_rta.specs.Inside.Loads as inner;

use crate::limits::Limits;
use rt_app::{App, Task};
use rt_frames::Measure;
use rt_ids::{Irq, NoMemory};
use std::alloc::Global;

/// What a task that may be requested asks of the core.
#[derive(Clone, Copy)]
pub(crate) struct Load {
    /// The priority of the task.
    pub(crate) priority: u8,
    /// The least distance between two requests, in core steps.
    pub(crate) every: u32,
    /// The core steps of one handling, its take counted.
    pub(crate) steps: u32,
}

/// The number of the interrupt that a task binds.
pub(crate) fn number_of(app: &App, task: &Task) -> Option<Irq>
    ensures { result ≡ bound_number (app_of app.now) (task_of task.now) }
{
    let index = task.binds?;
    app.irqs.get(usize::from(index)).map(|irq| irq.number)
}

/// The least distance between requests of a task, where it has a limit.
fn every_of(app: &App, limits: &Limits, task: &Task) -> Option<u32>
    ensures { result ≡ then_from (bound_number (app_of app.now) (task_of task.now)) (spec.every_of limits.now) }
{
    limits.every(number_of(app, task)?)
}

/// Appends what a task asks for, where it may be requested.
fn push_load(
    loads: &mut Vec<Load>,
    app: &App,
    limits: &Limits,
    measure: &Measure,
    task: &Task,
) -> Result<(), NoMemory>
    requires { measure.now ≡ cost_measure (app_of app.now) }
    ensures { let own = inner.task_loads (app_of app.now) limits.now (task_of task.now) in
        OnOk result (loads.new.items ≡ loads.old.items ++ own) }
{
    if let Some(every) = every_of(app, limits, task) {
        loads.push(Load {
            priority: task.priority,
            every,
            steps: measure.body(&task.body) + 1,
        })?;
    }
    Ok(())
}

/// What the tasks that may be requested ask for.
pub(crate) fn loads_of(alloc: Global, app: &App, limits: &Limits) -> Result<Vec<Load>, NoMemory>
    ensures { IfOk result (λ all. all.items ≡ inner.loads (app_of app.now) limits.now) }
{
    let measure = Measure::cost(app);
    let mut all = Vec::new(alloc);
    for task in &app.tasks {
        push_load(&mut all, app, limits, &measure, task)?;
    }
    Ok(all)
}
