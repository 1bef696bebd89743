// What is answered: response times, what comes of requests, the load, and deadlines.

ghost use Rattle.std.specs.Prelude.{◌≡◌, ◌<◌, ◌≤◌, ◌++◌, [], not, true, List, length, slice_get};
ghost use Rattle.std.specs.Prelude.{None, IfOk, IfSome, OnOk, if◌then◌else◌};
ghost use Rattle.std.specs.List.{list_any};
ghost use Rattle.rt_ids.specs.declared.limits.TheConstants.{TASKS};
ghost use Rattle.rt_app.specs.Tree as tree;
ghost use Rattle.rt_app.specs.View.{app_of};
ghost use Rattle.rt_app.specs.Accepted.{IsAccepted};
ghost use Rattle.rt_app.specs.Ceiling as ceiling;
ghost use Rattle.rt_app.specs.Sending as capacities;
ghost use Rattle.rt_respond.specs.Form.{is_of_form};
ghost use Rattle.rt_respond.specs.Handlers as handler;
ghost use Rattle.rt_respond.specs.Limits.{Limits, AreLimits};
ghost use Rattle.rt_respond.specs.Load.{IsLast, IsLoad};
ghost use Rattle.rt_respond.specs.Report as spec;
ghost use Rattle.rt_respond.specs.Response.{IsResponse};
ghost use Rattle.rt_respond.specs.Room as rooms;
ghost use Rattle.rt_respond.specs.Rows.{BelongEach};
ghost use Rattle.rt_respond.specs.Inside.Causing as inner;
ghost use Rattle.rt_respond.specs.declared.handler.Handler.{Handler};

use crate::handler::{Handler, Quantity, handlers, stands_before};
use crate::limits::Limits;
use crate::load::{shares_of, sum_of};
use crate::path::{all_edges, all_reached, lowest_on};
use crate::pend::is_pended;
use crate::response::{Response, place_of, responses};
use crate::room::room_of;
use crate::work::works_at;
use rt_app::{App, Ceilings};
use rt_ceil::ceilings;
use rt_ids::{NoMemory, TaskId};
use std::alloc::Global;

/// How requests of an interrupt may come.
#[derive(Clone, Copy)]
pub enum Requests {
    /// There are none: it has no limit, and no body pends it.
    Never,
    /// One may come while one before it is pending.
    Merge,
    /// Each comes while none is pending.
    Apart,
    /// They are messages of a software task.
    Messages,
}

/// The answer for a task.
#[derive(Clone, Copy)]
pub struct Served {
    pub task: TaskId,
    pub priority: u8,
    pub response: Response,
    pub requests: Requests,
    /// Of a software task, how many of its messages have their places out at once, at most; None where there is no
    /// number.
    pub room: Option<u64>,
    /// Of a software task, how many may.
    pub capacity: u8,
}

/// How long a request takes at most until a job that comes of it is done.
#[derive(Clone, Copy)]
pub struct Caused {
    /// The interrupt, by its index in the order of declaration.
    pub from: u8,
    /// The task of the job.
    pub to: TaskId,
    pub response: Response,
}

/// A deadline, and whether it is met.
#[derive(Clone, Copy)]
pub struct Judged {
    pub task: TaskId,
    /// Core steps.
    pub deadline: u32,
    pub is_met: bool,
}

/// What is answered.
pub struct Report {
    /// For each task, in order of declaration.
    pub served: Vec<Served>,
    /// For each limit on requests, in order, the tasks whose jobs come of them, in order of declaration.
    pub caused: Vec<Caused>,
    /// Of 1,000 core steps, how many are asked for, rounded up; None where there is no number.
    pub load: Option<u64>,
    /// The deadlines, in order of declaration of the tasks.
    pub judged: Vec<Judged>,
}

impl Response {
    /// Whether it is a number up to this one.
    pub fn is_within(self, steps: u32) -> bool
        ensures { result ≡ spec.is_within steps self }
    {
        match self {
            Response::Steps(most) => most <= steps,
            Response::Cycle => false,
            Response::Over => false,
        }
    }
}

impl Drop for Report {
    fn drop(self) {
        let Report {
            served: _,
            caused: _,
            load: _,
            judged: _,
        } = self;
    }
}

impl Report {
    /// Whether a deadline is late.
    pub fn is_late(&self) -> bool
        ensures { result ≡ list_any (λ row. not row.is_met) self.now.judged.items }
    {
        self.judged.iter().any(|row| !row.is_met)
    }
}

/// How requests of a handler may come.
fn requests_of(app: &App, limits: &Limits, handler: &Handler, response: Response) -> Requests
    ensures { result ≡ spec.requests_of (app_of app.now) limits.now handler.now response }
{
    if handler.is_dispatcher {
        return Requests::Messages;
    }
    if is_pended(app, handler.irq) {
        return Requests::Merge;
    }
    match limits.every_of(handler.number) {
        None => Requests::Never,
        Some(every) if response.is_within(every) => Requests::Apart,
        Some(_every) => Requests::Merge,
    }
}

/// How many messages of a task may have their places out at once: 0 of a number that is no task's.
fn capacity_of(app: &App, task: TaskId) -> u8
    ensures { result ≡ capacities.capacity_of (app_of app.now) task }
{
    match app.task(task) {
        None => 0,
        Some(task) => task.capacity,
    }
}

/// The room that the task of a handler needs, where that is a dispatcher.
fn room_for(
    alloc: Global,
    app: &App,
    limits: &Limits,
    ceilings: &Ceilings,
    handlers: &[Handler],
    this: &Handler,
    response: Response,
) -> Result<Option<u64>, NoMemory>
    requires accepted { IsAccepted (app_of app.now) }
    requires limits { AreLimits (app_of app.now) limits.now }
    requires ceilings { ceilings.now ≡ ceiling.ceilings (app_of app.now) }
    requires handlers { handlers.now ≡ handler.handlers (app_of app.now) }
    ensures { let room = rooms.room (app_of app.now) limits.now.every this.now response in
        IfOk result (λ most. most ≡ (if this.now.is_dispatcher then room else None)) }
{
    if this.is_dispatcher {
        room_of(
            alloc,
            app,
            limits.every(),
            ceilings,
            handlers,
            this,
            response,
        )
    } else {
        Ok(None)
    }
}

/// The answers for the tasks, by the ceilings.
fn served_under(
    alloc: Global,
    app: &App,
    limits: &Limits,
    ceilings: &Ceilings,
    handlers: &[Handler],
    responses: &[Response],
) -> Result<Vec<Served>, NoMemory>
    requires accepted { IsAccepted (app_of app.now) }
    requires limits { AreLimits (app_of app.now) limits.now }
    requires ceilings { ceilings.now ≡ ceiling.ceilings (app_of app.now) }
    requires handlers { handlers.now ≡ handler.handlers (app_of app.now) }
    requires responses { BelongEach (IsResponse (app_of app.now) limits.now.every) handlers.now responses.now }
    ensures { IfOk result (λ rows.
        BelongEach (spec.IsServed (app_of app.now) limits.now) handlers.now rows.items) }
{
    let mut rows = Vec::new(alloc);
    for index in 0..handlers.len() {
        let handler = handlers[index];
        let response = responses[index];
        let room = room_for(alloc, app, limits, ceilings, handlers, &handler, response)?;
        rows.push(Served {
            task: handler.task,
            priority: handler.priority,
            response,
            requests: requests_of(app, limits, &handler, response),
            room,
            capacity: capacity_of(app, handler.task),
        })?;
    }
    Ok(rows)
}

/// The answers for the tasks.
fn served_rows(
    alloc: Global,
    app: &App,
    limits: &Limits,
    handlers: &[Handler],
    responses: &[Response],
) -> Result<Vec<Served>, NoMemory>
    requires accepted { IsAccepted (app_of app.now) }
    requires limits { AreLimits (app_of app.now) limits.now }
    requires handlers { handlers.now ≡ handler.handlers (app_of app.now) }
    requires responses { BelongEach (IsResponse (app_of app.now) limits.now.every) handlers.now responses.now }
    ensures { IfOk result (λ rows.
        BelongEach (spec.IsServed (app_of app.now) limits.now) handlers.now rows.items) }
{
    let ceilings = ceilings(alloc, app)?;
    served_under(alloc, app, limits, &ceilings, handlers, responses)
}

/// Appends what comes of the requests of a handler.
fn push_caused(
    rows: &mut Vec<Caused>,
    handlers: &[Handler],
    responses: &[Response],
    reached: &[Vec<bool>],
    from: usize,
) -> Result<(), NoMemory>
    requires there { from < length handlers.now }
    requires rows { inner.HasRows (length handlers.now) (length responses.now) reached.now }
    ensures { (app : tree.App) → (limits : Limits) →
        inner.IsGraph app limits handlers.now responses.now reached.now →
        (before : List (Handler × Handler)) → spec.AreCaused app limits before rows.old.items →
        OnOk result (spec.AreCaused app limits
        (before ++ spec.pairs_from app limits (slice_get handlers.now from)) rows.new.items) }
{
    for to in 0..handlers.len() {
        if handlers[to].irq != handlers[from].irq {
            if let Some(lowest) = lowest_on(handlers, reached, from, to) {
                rows.push(Caused {
                    from: handlers[from].irq,
                    to: handlers[to].task,
                    response: responses[lowest],
                })?;
            }
        }
    }
    Ok(())
}

/// What comes of requests.
fn caused_rows(
    alloc: Global,
    app: &App,
    limits: &Limits,
    handlers: &[Handler],
    responses: &[Response],
) -> Result<Vec<Caused>, NoMemory>
    requires handlers { handlers.now ≡ handler.handlers (app_of app.now) }
    requires responses { BelongEach (IsResponse (app_of app.now) limits.now.every) handlers.now responses.now }
    ensures { IfOk result (λ rows. spec.AreCaused (app_of app.now) limits.now
        (spec.pairs (app_of app.now) limits.now) rows.items) }
{
    let edges = all_edges(alloc, app, handlers)?;
    let reached = all_reached(alloc, &edges, handlers.len())?;
    let mut rows = Vec::new(alloc);
    for limit in limits.every() {
        if let Some(from) = place_of(handlers, limit) {
            push_caused(&mut rows, handlers, responses, &reached, from)?;
        }
    }
    Ok(rows)
}

/// The handler that stands last in the order.
fn last_of(handlers: &[Handler]) -> Option<Handler>
    ensures none { result ≡ None → handlers.now ≡ [] }
    ensures last { IfSome result (λ last. IsLast handlers.now last) }
{
    let mut last = *handlers.first()?;
    for handler in handlers {
        if stands_before(&last, handler) {
            last = *handler;
        }
    }
    Some(last)
}

/// The load: what is asked for at the last handler.
fn load_of(
    alloc: Global,
    app: &App,
    limits: &Limits,
    handlers: &[Handler],
) -> Result<Option<u64>, NoMemory>
    requires few { length (app_of app.now).tasks ≤ TASKS }
    requires handlers { handlers.now ≡ handler.handlers (app_of app.now) }
    requires limits { AreLimits (app_of app.now) limits.now }
    ensures { IfOk result (λ load. IsLoad (app_of app.now) limits.now load) }
{
    let Some(last) = last_of(handlers) else {
        return Ok(Some(0));
    };
    let works = works_at(alloc, app, handlers, &last, &Quantity::Steps)?;
    match shares_of(alloc, limits, handlers, &works)? {
        None => Ok(None),
        Some(shares) => Ok(Some(sum_of(alloc, &shares)?)),
    }
}

/// The deadlines, each judged.
fn judged_rows(
    alloc: Global,
    limits: &Limits,
    handlers: &[Handler],
    responses: &[Response],
) -> Result<Vec<Judged>, NoMemory>
    requires { length handlers.now ≡ length responses.now }
    ensures { (app : tree.App) → handlers.now ≡ handler.handlers app →
        BelongEach (IsResponse app limits.now.every) handlers.now responses.now →
        IfOk result (λ rows.
        BelongEach (spec.IsJudged app limits.now) (spec.judged_handlers app limits.now) rows.items) }
{
    let mut rows = Vec::new(alloc);
    for index in 0..handlers.len() {
        if let Some(deadline) = limits.deadline_of(handlers[index].task) {
            rows.push(Judged {
                task: handlers[index].task,
                deadline,
                is_met: responses[index].is_within(deadline),
            })?;
        }
    }
    Ok(rows)
}

/// The answers, by the response times of the handlers.
fn report_of(
    alloc: Global,
    app: &App,
    limits: &Limits,
    handlers: &[Handler],
    responses: &[Response],
) -> Result<Report, NoMemory>
    requires accepted { IsAccepted (app_of app.now) }
    requires limits { AreLimits (app_of app.now) limits.now }
    requires handlers { handlers.now ≡ handler.handlers (app_of app.now) }
    requires responses { BelongEach (IsResponse (app_of app.now) limits.now.every) handlers.now responses.now }
    ensures { IfOk result (λ report. spec.IsReport (app_of app.now) limits.now report) }
{
    let load = load_of(alloc, app, limits, handlers)?;
    let served = served_rows(alloc, app, limits, handlers, responses)?;
    let caused = caused_rows(alloc, app, limits, handlers, responses)?;
    let judged = judged_rows(alloc, limits, handlers, responses)?;
    Ok(Report {
        served,
        caused,
        load,
        judged,
    })
}

/// The answers for an application of the form, under these limits.
pub fn respond(alloc: Global, app: &App, limits: &Limits) -> Result<Report, NoMemory>
    requires accepted { IsAccepted (app_of app.now) }
    requires form { is_of_form (app_of app.now) ≡ true }
    requires limits { AreLimits (app_of app.now) limits.now }
    ensures { IfOk result (λ report. spec.IsReport (app_of app.now) limits.now report) }
{
    let handlers = handlers(alloc, app)?;
    let responses = responses(alloc, app, limits.every(), &handlers)?;
    report_of(alloc, app, limits, &handlers, &responses)
}
