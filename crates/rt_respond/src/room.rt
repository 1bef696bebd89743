// How many messages of a task have their places out at once.

ghost use Rattle.std.specs.Prelude.{◌≡◌, option_map, IfOk};
ghost use Rattle.std.specs.List.{list_any};
ghost use Rattle.rt_app.specs.View.{body_of, app_of};
ghost use Rattle.rt_app.specs.Accepted.{IsAccepted};
ghost use Rattle.rt_app.specs.Ceiling as ceiling;
ghost use Rattle.rt_respond.specs.Blocking as blocking;
ghost use Rattle.rt_respond.specs.Handlers as order;
ghost use Rattle.rt_respond.specs.Pends as pends;
ghost use Rattle.rt_respond.specs.Room as spec;
ghost use Rattle.rt_respond.specs.Inside.Searching.{ArePositive};
ghost use Rattle.rt_respond.specs.declared.handler.Quantity.TheVariants as count;

use crate::blocking::Held;
use crate::handler::{Handler, Quantity, stands_before};
use crate::pend::block_spawns;
use crate::response::{Asked, Response, backlog_of, needed_within};
use crate::work::{Works, works_at};
use rt_app::costs::PRIORITIES;
use rt_app::{App, Body, Ceilings};
use rt_frames::Measure;
use rt_ids::{NoMemory, TaskId};
use rt_rta::Limit;
use std::alloc::Global;

/// Whether `idle` spawns messages of a task.
fn idle_spawns(task: TaskId, body: &Option<Body>) -> bool
    ensures { result ≡ blocking.idle_spawns task (option_map body_of body.now) }
{
    match body {
        None => false,
        Some(body) => block_spawns(task, &body.block),
    }
}

/// Whether the body of a handler spawns messages of a task.
fn handler_spawns(app: &App, task: TaskId, handler: &Handler) -> bool
    ensures { result ≡ pends.block_spawns task (order.handled_block (app_of app.now) handler.now) }
{
    match app.task(handler.task) {
        None => false,
        Some(own) => block_spawns(task, &own.body.block),
    }
}

/// Whether a handler of this priority stands behind another, and its body spawns messages of the other's task.
fn spawns_behind(app: &App, this: &Handler, priority: u8, handler: &Handler) -> bool
    ensures { result ≡ blocking.spawns_behind (app_of app.now) this.now this.now.task priority handler.now }
{
    handler.priority == priority
        && stands_before(this, handler)
        && handler_spawns(app, this.task, handler)
}

/// Whether one of these handlers of a priority stands behind another, and its body spawns messages of the other's task.
fn handlers_spawn(app: &App, handlers: &[Handler], this: &Handler, priority: u8) -> bool
    ensures { result ≡ list_any (blocking.spawns_behind (app_of app.now) this.now this.now.task priority) handlers.now }
{
    handlers
        .iter()
        .any(|handler| spawns_behind(app, this, priority, handler))
}

/// Whether a job of a priority below a dispatcher may take a place for a message of its task.
fn spawns_below(app: &App, handlers: &[Handler], this: &Handler, priority: u8) -> bool
    requires { handlers.now ≡ order.handlers (app_of app.now) }
    ensures { result ≡ blocking.spawns_below (app_of app.now) this.now this.now.task priority }
{
    (priority == 0 && idle_spawns(this.task, &app.idle))
        || handlers_spawn(app, handlers, this, priority)
}

/// The priorities of the bodies below a dispatcher that spawn messages of its task, rising: at each of them a job may
/// have taken a place for a message that it has not made ready yet.
fn transit_of(
    alloc: Global,
    app: &App,
    handlers: &[Handler],
    this: &Handler,
) -> Result<Vec<u8>, NoMemory>
    requires { handlers.now ≡ order.handlers (app_of app.now) }
    ensures { IfOk result (λ all.
        all.items ≡ blocking.transit (app_of app.now) (count.Messages this.now.task) this.now) }
{
    let mut all = Vec::new(alloc);
    for priority in 0..PRIORITIES {
        if spawns_below(app, handlers, this, priority as u8) {
            all.push(priority as u8)?;
        }
    }
    Ok(all)
}

/// How many messages of the task of a dispatcher have their places out at once, at most, where its response time is so
/// many core steps: those with which its busy period begins, and those that are asked for in it.
fn messages_within<'a>(
    alloc: Global,
    app: &'a App,
    limits: &'a [Limit],
    ceilings: &'a Ceilings,
    handlers: &'a [Handler],
    this: &'a Handler,
    steps: u32,
) -> Result<Option<u64>, NoMemory>
    requires accepted { IsAccepted (app_of app.now) }
    requires positive { ArePositive limits.now }
    requires ceilings { ceilings.now ≡ ceiling.ceilings (app_of app.now) }
    requires handlers { handlers.now ≡ order.handlers (app_of app.now) }
    ensures { IfOk result (λ most. most ≡ spec.messages_within (app_of app.now) limits.now this.now steps) }
{
    let works = works_at(alloc, app, handlers, this, &Quantity::Messages(this.task))?;
    let transit = transit_of(alloc, app, handlers, this)?;
    let measure = Measure::cost(app);
    let all = Works {
        handlers,
        works: &works,
    };
    let held = Held {
        this,
        counted: Quantity::Messages(this.task),
        all,
        ceilings,
        measure: &measure,
        transit: &transit,
    };
    let backlog = backlog_of(app, &held);
    let asked = Asked {
        this,
        all,
        limits,
        backlog,
    };
    Ok(needed_within(&asked, steps))
}

/// How many messages of the task of a dispatcher have their places out at once, at most, by its response time; None
/// where there is no such time.
pub(crate) fn room_of(
    alloc: Global,
    app: &App,
    limits: &[Limit],
    ceilings: &Ceilings,
    handlers: &[Handler],
    this: &Handler,
    response: Response,
) -> Result<Option<u64>, NoMemory>
    requires accepted { IsAccepted (app_of app.now) }
    requires positive { ArePositive limits.now }
    requires ceilings { ceilings.now ≡ ceiling.ceilings (app_of app.now) }
    requires handlers { handlers.now ≡ order.handlers (app_of app.now) }
    ensures { IfOk result (λ room. room ≡ spec.room (app_of app.now) limits.now this.now response) }
{
    match response {
        Response::Steps(steps) => {
            messages_within(alloc, app, limits, ceilings, handlers, this, steps)
        }
        Response::Cycle => Ok(None),
        Response::Over => Ok(None),
    }
}
