// Finds the response times.

ghost use Rattle.std.specs.Prelude.{◌≡◌, ◌≤◌, ◌-◌, ◌^◌, ◌==◌, min, position, List, IfOk};
ghost use Rattle.rt_app.specs.View.{app_of};
ghost use Rattle.rt_app.specs.Tree as tree;
ghost use Rattle.rt_app.specs.Accepted.{IsAccepted};
ghost use Rattle.rt_app.specs.BodyCost.{cost_measure};
ghost use Rattle.rt_app.specs.Ceiling as ceiling;
ghost use Rattle.rt_rta.specs.Response as rta;
ghost use Rattle.rt_rta.specs.declared.limits.Limit as rows;
ghost use Rattle.rt_respond.specs.Handlers as order;
ghost use Rattle.rt_respond.specs.Response as spec;
ghost use Rattle.rt_respond.specs.Rows.{BelongEach};
ghost use Rattle.rt_respond.specs.Inside.Holding.{IsHeld};
ghost use Rattle.rt_respond.specs.Inside.Searching.{ArePositive, HasTables, IsAsked};
ghost use Rattle.rt_respond.specs.declared.handler.Quantity.{Quantity};
ghost use Rattle.rt_respond.specs.declared.handler.Quantity.TheVariants as count;

use crate::blocking::{Held, blocking};
use crate::handler::{Handler, Quantity, is_at};
use crate::number::{greater_of, plus, times};
use crate::work::{Works, body_sends, works_at};
use rt_app::{App, Ceilings};
use rt_ceil::ceilings;
use rt_frames::Measure;
use rt_ids::NoMemory;
use rt_rta::Limit;
use rt_rta::response::MOST_STEPS;
use std::alloc::Global;

/// How long a request takes at most to be served, in core steps.
#[derive(Clone, Copy)]
pub enum Response {
    /// So many core steps, a million at most.
    Steps(u32),
    /// A release comes back to itself, so what is asked for has no number.
    Cycle,
    /// No number up to a million is one.
    Over,
}

/// What is asked for at a handler.
#[derive(Clone, Copy)]
pub(crate) struct Asked<'a> {
    pub(crate) this: &'a Handler,
    pub(crate) all: Works<'a>,
    pub(crate) limits: &'a [Limit],
    /// What a busy period begins with.
    pub(crate) backlog: Option<u64>,
}

/// How many requests fall into so many core steps at most.
fn most_requests(steps: u32, every: u32) -> u64
    requires { 1 ≤ every }
    ensures { result ≡ rta.most_requests steps every }
{
    (u64::from(steps) + u64::from(every - 1)) / u64::from(every)
}

/// The handler of an interrupt of this number, by its place in order.
pub(crate) fn place_of(handlers: &[Handler], limit: &Limit) -> Option<usize>
    ensures { result ≡ position (λ h. h.number == limit.now.irq) handlers.now }
{
    handlers
        .iter()
        .position(|handler| handler.number == limit.irq)
}

/// What the requests under a limit ask for in so many core steps.
fn limit_demand(asked: &Asked, steps: u32, limit: &Limit) -> Option<u64>
    requires positive { 1 ≤ limit.now.every }
    requires tables { HasTables asked.now }
    ensures { (app : tree.App) → (what : Quantity) → IsAsked app what asked.now →
        result ≡ spec.limit_demand app asked.now.limits.now what asked.now.this.now steps limit.now }
{
    let Some(place) = place_of(asked.all.handlers, limit) else {
        return Some(0);
    };
    if is_at(asked.this, &asked.all.handlers[place]) {
        times(most_requests(steps, limit.every), asked.all.works[place])
    } else {
        Some(0)
    }
}

/// What all requests ask for in so many core steps.
fn demand(asked: &Asked, steps: u32) -> Option<u64>
    requires tables { HasTables asked.now }
    ensures { (app : tree.App) → (what : Quantity) → IsAsked app what asked.now →
        result ≡ spec.demand app asked.now.limits.now what asked.now.this.now steps }
{
    let mut sum = Some(0);
    for limit in asked.limits {
        sum = plus(sum, limit_demand(asked, steps, limit));
    }
    sum
}

/// All that there is to be room for in so many core steps.
pub(crate) fn needed_within(asked: &Asked, steps: u32) -> Option<u64>
    requires tables { HasTables asked.now }
    ensures { (app : tree.App) → (what : Quantity) → IsAsked app what asked.now →
        result ≡ spec.needed app asked.now.limits.now what asked.now.this.now steps }
{
    plus(asked.backlog, demand(asked, steps))
}

/// Core steps as a number of 32 bits: the greatest one where they are above that.
fn saturated_steps(steps: u64) -> u32
    ensures { result ≡ min steps (2 ^ 32 - 1) }
{
    u32::try_from(steps).unwrap_or(u32::MAX)
}

/// The least number of core steps up to a million in which there is room for all that is asked for.
fn search(asked: &Asked) -> Response
    requires tables { HasTables asked.now }
    ensures { (app : tree.App) → IsAsked app count.Steps asked.now →
        spec.IsResponse app asked.now.limits.now asked.now.this.now result }
{
    let mut steps: u32 = 1;
    while steps <= MOST_STEPS {
        let Some(needed) = needed_within(asked, steps) else {
            return Response::Cycle;
        };
        if needed <= u64::from(steps) {
            return Response::Steps(steps);
        }
        steps = saturated_steps(needed);
    }
    Response::Over
}

/// What a busy period of a handler begins with.
pub(crate) fn backlog_of(app: &App, held: &Held) -> Option<u64>
    requires accepted { IsAccepted (app_of app.now) }
    requires held { IsHeld (app_of app.now) held.now }
    ensures { (limits : List rows.Limit) →
        result ≡ spec.backlog (app_of app.now) limits held.now.counted held.now.this.now }
{
    greater_of(blocking(app, held), body_sends(&held.all, &app.init))
}

/// The response time of a handler.
fn response_of<'a>(
    alloc: Global,
    app: &'a App,
    limits: &'a [Limit],
    ceilings: &'a Ceilings,
    measure: &'a Measure,
    handlers: &'a [Handler],
    this: &'a Handler,
) -> Result<Response, NoMemory>
    requires accepted { IsAccepted (app_of app.now) }
    requires positive { ArePositive limits.now }
    requires ceilings { ceilings.now ≡ ceiling.ceilings (app_of app.now) }
    requires measure { measure.now ≡ cost_measure (app_of app.now) }
    requires handlers { handlers.now ≡ order.handlers (app_of app.now) }
    ensures { IfOk result (λ response. spec.IsResponse (app_of app.now) limits.now this.now response) }
{
    let works = works_at(alloc, app, handlers, this, &Quantity::Steps)?;
    let all = Works {
        handlers,
        works: &works,
    };
    let held = Held {
        this,
        counted: Quantity::Steps,
        all,
        ceilings,
        measure,
        transit: &[],
    };
    let backlog = backlog_of(app, &held);
    Ok(search(&Asked {
        this,
        all,
        limits,
        backlog,
    }))
}

/// The response time of each handler, in order, by the ceilings.
fn responses_under(
    alloc: Global,
    app: &App,
    limits: &[Limit],
    ceilings: &Ceilings,
    handlers: &[Handler],
) -> Result<Vec<Response>, NoMemory>
    requires accepted { IsAccepted (app_of app.now) }
    requires positive { ArePositive limits.now }
    requires ceilings { ceilings.now ≡ ceiling.ceilings (app_of app.now) }
    requires handlers { handlers.now ≡ order.handlers (app_of app.now) }
    ensures { IfOk result (λ all.
        BelongEach (spec.IsResponse (app_of app.now) limits.now) (order.handlers (app_of app.now)) all.items) }
{
    let measure = Measure::cost(app);
    let mut all = Vec::new(alloc);
    for this in handlers {
        all.push(response_of(alloc, app, limits, ceilings, &measure, handlers, this)?)?;
    }
    Ok(all)
}

/// The response time of each handler, in order.
pub(crate) fn responses(
    alloc: Global,
    app: &App,
    limits: &[Limit],
    handlers: &[Handler],
) -> Result<Vec<Response>, NoMemory>
    requires accepted { IsAccepted (app_of app.now) }
    requires positive { ArePositive limits.now }
    requires handlers { handlers.now ≡ order.handlers (app_of app.now) }
    ensures { IfOk result (λ all.
        BelongEach (spec.IsResponse (app_of app.now) limits.now) (order.handlers (app_of app.now)) all.items) }
{
    let ceilings = ceilings(alloc, app)?;
    responses_under(alloc, app, limits, &ceilings, handlers)
}
