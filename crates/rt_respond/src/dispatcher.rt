// The dispatchers of levels: their interrupts, and what they take.

ghost use Rattle.std.specs.Prelude.{◌≡◌, ℕ, ◌≤◌, length, map, filter, nat_lt, ◌&&◌, if◌then◌else◌};
ghost use Rattle.std.specs.List.{list_any};
ghost use Rattle.rt_ids.specs.Lists.{greatest, those_below};
ghost use Rattle.rt_ids.specs.declared.limits.TheConstants.{TASKS};
ghost use Rattle.rt_app.specs.declared.costs.TheConstants.{PRIORITIES};
ghost use Rattle.rt_app.specs.BodyCost as costs;
ghost use Rattle.rt_app.specs.Handlers as services;
ghost use Rattle.rt_app.specs.Level.{is_of_level};
ghost use Rattle.rt_app.specs.View.{task_of, app_of};

use rt_app::costs::{DISPATCHER_COST, PRIORITIES, READY_COST, READY_TASK_COST};
use rt_app::{App, Task};
use rt_frames::{Measure, tasks_of_level};

/// Whether some software task is of a level.
fn is_level(tasks: &[Task], level: u8) -> bool
    ensures { result ≡ list_any (λ t. is_of_level level (task_of t)) tasks.now }
{
    tasks.iter().any(|task| task.is_of_level(level))
}

/// Whether a priority is a level of software tasks, and above another.
fn is_level_above(tasks: &[Task], priority: u8, level: u8) -> bool
    ensures { result ≡ (nat_lt priority level && list_any (λ t. is_of_level level (task_of t)) tasks.now) }
{
    priority < level && is_level(tasks, level)
}

/// How many levels of software tasks are above a priority.
fn levels_above(tasks: &[Task], priority: u8) -> usize
    ensures { let has_level = λ (p : ℕ). list_any (is_of_level p) (map task_of tasks.now) in
        result ≡ length (filter (nat_lt priority) (those_below has_level PRIORITIES)) }
{
    let mut count: usize = 0;
    for level in 0..PRIORITIES {
        count += usize::from(is_level_above(tasks, priority, level as u8));
    }
    count
}

/// The interrupt of the dispatcher of a level, by its index in the order of declaration.
pub(crate) fn dispatcher_of(app: &App, level: u8) -> Option<u8>
    ensures { result ≡ services.dispatcher_of (app_of app.now) level }
{
    let place = levels_above(&app.tasks, level);
    app.dispatchers.get(place).map(|dispatcher| dispatcher.irq)
}

/// The core steps of the body of a task, where it is a software task of this level, and else 0.
fn cost_at(task: &Task, measure: &Measure, level: u8) -> u32
    ensures { let t = task_of task.now in
        result ≡ (if is_of_level level t then costs.body_cost measure.now t.body else 0) }
{
    if task.is_of_level(level) {
        measure.body(&task.body)
    } else {
        0
    }
}

/// The greatest cost of the bodies of a level.
fn greatest_cost(tasks: &[Task], measure: &Measure, level: u8) -> u32
    ensures { result ≡ greatest (map (λ t. costs.body_cost measure.now t.body)
        (filter (is_of_level level) (map task_of tasks.now))) }
{
    let mut most: u32 = 0;
    for task in tasks {
        most = most.max(cost_at(task, measure, level));
    }
    most
}

/// The core steps of the dispatcher of a level, at most, with the body that it runs.
pub(crate) fn dispatcher_cost(app: &App, measure: &Measure, level: u8) -> u32
    requires few { length (app_of app.now).tasks ≤ TASKS }
    requires measured { measure.now ≡ costs.cost_measure (app_of app.now) }
    ensures { result ≡ costs.dispatcher_cost (app_of app.now) level }
{
    let tasks = tasks_of_level(&app.tasks, level) as u32;
    DISPATCHER_COST + READY_TASK_COST * tasks + greatest_cost(&app.tasks, measure, level)
}

/// The core steps of the section of the ready queue in the dispatcher of a level.
pub(crate) fn dispatcher_section(app: &App, level: u8) -> u32
    requires { length (app_of app.now).tasks ≤ TASKS }
    ensures { result ≡ costs.dispatcher_section_cost (app_of app.now) level }
{
    READY_COST + READY_TASK_COST * (tasks_of_level(&app.tasks, level) as u32)
}
