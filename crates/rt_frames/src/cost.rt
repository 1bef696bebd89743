// Costs of bodies, dispatchers and the timer handler, in core steps, and their sizes.

ghost use Rattle.std.specs.Prelude.{◌≡◌, ◌-◌, ◌^◌, min, option_map, sum_by};
ghost use Rattle.rt_app.specs.View.{body_of, app_of};
ghost use Rattle.rt_app.specs.Bodies.{body_at};
ghost use Rattle.rt_app.specs.Level.{levels};
ghost use Rattle.rt_app.specs.BodyCost as cost;

use crate::armed::{armed_flags, armed_messages, armed_tasks};
use crate::flags;
use crate::level::{level_flags, software_count};
use crate::measure::Measure;
use rt_app::costs::{
    DISPATCHER_COST, DISPATCHER_TASK_SIZE, MESSAGE_COST, SIZED_MESSAGES, THREAD_SIZE, TIMER_COST,
    TIMER_TASK_COST, TIMER_TASK_SIZE,
};
use rt_app::{App, Body};
use rt_ids::BodyId;

/// Of `init` or `idle`, where it is declared, else of an end alone.
fn thread_cost(measure: &Measure, body: &Option<Body>) -> u32
    ensures { result ≡ cost.cost_of measure.now (option_map body_of body.now) }
{
    match body {
        None => 1,
        Some(body) => measure.body(body),
    }
}

/// Of a body, where it is declared, else of an end alone.
fn cost_at(measure: &Measure, app: &App, body: BodyId) -> u32
    ensures { result ≡ cost.cost_of measure.now (body_at (app_of app.now) body) }
{
    match body {
        BodyId::Init => thread_cost(measure, &app.init),
        BodyId::Idle => thread_cost(measure, &app.idle),
        BodyId::Task(task) => match app.task(task) {
            None => 1,
            Some(task) => measure.body(&task.body),
        },
    }
}

/// The core steps of a declared body, at most, and 1 for one that is not declared. A sum stops one above the greatest
/// cost that a body may have.
pub fn body_cost(app: &App, body: BodyId) -> u32
    ensures { result ≡ cost.cost_of (cost.cost_measure (app_of app.now)) (body_at (app_of app.now) body) }
{
    cost_at(&Measure::cost(app), app, body)
}

/// The instructions of a declared body, and 1 for one that is not declared. A sum stops one above the greatest cost
/// that a body may have.
pub fn body_size(app: &App, body: BodyId) -> u32
    ensures { result ≡ cost.cost_of (cost.size_measure (app_of app.now)) (body_at (app_of app.now) body) }
{
    cost_at(&Measure::size(app), app, body)
}

/// The core steps of the timer handler, at most.
pub fn timer_cost(app: &App) -> u32
    ensures { result ≡ cost.timer_cost (app_of app.now) }
{
    let armed = armed_flags(app);
    let messages = armed_messages(app, &armed);
    TIMER_COST + MESSAGE_COST * messages + TIMER_TASK_COST * armed_tasks(app, &armed)
}

/// The instructions of the timer handler, and none where there is no monotonic.
fn timer_size(app: &App) -> u32
    ensures { result ≡ cost.timer_size (app_of app.now) app.now.mono }
{
    if app.mono.is_none() {
        return 0;
    }
    let armed = armed_flags(app);
    let messages = armed_messages(app, &armed).min(SIZED_MESSAGES);
    TIMER_COST + MESSAGE_COST * messages + TIMER_TASK_SIZE * armed_tasks(app, &armed)
}

/// A count as a number of 32 bits: the greatest one where it is above that.
fn saturated_count(count: usize) -> u32
    ensures { result ≡ min count (2 ^ 32 - 1) }
{
    u32::try_from(count).unwrap_or(u32::MAX)
}

/// The instructions of the dispatchers, up to the greatest number of 32 bits.
fn dispatchers_size(app: &App) -> u32
    ensures { let all = app_of app.now in result ≡ min (sum_by (cost.dispatcher_size all) (levels all)) (2 ^ 32 - 1) }
{
    let levels = saturated_count(flags::count(&level_flags(app)));
    let heads = levels.saturating_mul(DISPATCHER_COST);
    let tasks = saturated_count(software_count(&app.tasks)).saturating_mul(DISPATCHER_TASK_SIZE);
    heads.saturating_add(tasks)
}

/// The instructions of the code that belongs to no body, up to the greatest number of 32 bits.
pub fn shared_size(app: &App) -> u32
    ensures { result ≡ min (cost.shared_size (app_of app.now)) (2 ^ 32 - 1) }
{
    let handlers = dispatchers_size(app).saturating_add(timer_size(app));
    handlers.saturating_add(THREAD_SIZE)
}
