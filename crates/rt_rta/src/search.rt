// Finds the response times.

ghost use Rattle.std.specs.Prelude.{◌≡◌, ◌≤◌, ◌-◌, ◌*◌, ◌^◌, min, true, length, IfOk};
ghost use Rattle.std.specs.List.{AllByRecursion};
ghost use Rattle.rt_ids.specs.declared.limits.TheConstants.{TASKS};
ghost use Rattle.rt_app.specs.View.{app_of};
ghost use Rattle.rt_app.specs.Accepted.{IsAccepted};
ghost use Rattle.rt_app.specs.Forms.{has_response_times};
ghost use Rattle.rt_rta.specs.Limits.{AreLimits};
ghost use Rattle.rt_rta.specs.Response as spec;
ghost use Rattle.rt_rta.specs.Inside.Loads as inner;
ghost use Rattle.rt_rta.specs.Inside.Least.{IsSmall, IsLeast, IsTimeOf, AreTimesOf};

use crate::limits::Limits;
use crate::load::{Load, loads_of};
use crate::response::{MOST_STEPS, ResponseTime};
use rt_app::{App, Wait};
use rt_ceil::ceilings;
use rt_frames::bounds;
use rt_ids::NoMemory;
use std::alloc::Global;

/// What one task asks for in so many core steps, at most.
pub(crate) const MOST_DEMAND: u64 = 1_000_002_000_000;

/// What a task asks for in so many core steps, where it is of this priority or a higher one.
fn load_demand(load: &Load, priority: u8, steps: u32) -> u64
    requires small { IsSmall load.now }
    requires few { steps ≤ MOST_STEPS }
    ensures value { result ≡ inner.load_demand priority steps load.now }
    ensures most { result ≤ MOST_DEMAND }
{
    if load.priority < priority {
        return 0;
    }
    let requests = (u64::from(steps) + u64::from(load.every - 1)) / u64::from(load.every);
    requests * u64::from(load.steps)
}

/// What the tasks of this priority and higher ones ask for in so many core steps.
fn demand(all: &[Load], priority: u8, steps: u32) -> u64
    requires small { AllByRecursion IsSmall all.now }
    requires few { length all.now ≤ TASKS }
    requires within { steps ≤ MOST_STEPS }
    ensures value { result ≡ inner.loads_demand priority steps all.now }
    ensures most { result ≤ TASKS * MOST_DEMAND }
{
    let mut sum = 0;
    for load in all {
        sum += load_demand(load, priority, steps);
    }
    sum
}

/// Core steps as a number of 32 bits: the greatest one where they are above that.
fn saturated_steps(steps: u64) -> u32
    ensures { result ≡ min steps (2 ^ 32 - 1) }
{
    u32::try_from(steps).unwrap_or(u32::MAX)
}

/// The least number of core steps up to a million in which there is room for the wait of a priority and for what the
/// tasks of this priority and higher ones ask for.
fn response(all: &[Load], wait: &Wait) -> Option<u32>
    requires small { AllByRecursion IsSmall all.now }
    requires few { length all.now ≤ TASKS }
    ensures { IsLeast all.now wait.now result }
{
    let mut steps: u32 = 1;
    while steps <= MOST_STEPS {
        let needed = u64::from(wait.steps) + demand(all, wait.priority, steps);
        if needed <= u64::from(steps) {
            return Some(steps);
        }
        steps = saturated_steps(needed);
    }
    None
}

/// The response time of the priority of a wait.
fn time_of(all: &[Load], wait: &Wait) -> ResponseTime
    requires small { AllByRecursion IsSmall all.now }
    requires few { length all.now ≤ TASKS }
    ensures { IsTimeOf all.now wait.now result }
{
    ResponseTime {
        priority: wait.priority,
        steps: response(all, wait),
    }
}

/// The response time of each of these priorities.
fn times_of(alloc: Global, waits: &[Wait], all: &[Load]) -> Result<Vec<ResponseTime>, NoMemory>
    requires small { AllByRecursion IsSmall all.now }
    requires few { length all.now ≤ TASKS }
    ensures { IfOk result (λ rows. AreTimesOf all.now waits.now rows.items) }
{
    let mut rows = Vec::new(alloc);
    for wait in waits {
        rows.push(time_of(all, wait))?;
    }
    Ok(rows)
}

/// The response time of each priority that has a handler, rising, under these limits.
pub fn times(alloc: Global, app: &App, limits: &Limits) -> Result<Vec<ResponseTime>, NoMemory>
    requires accepted { IsAccepted (app_of app.now) }
    requires form { has_response_times (app_of app.now) ≡ true }
    requires limits { AreLimits (app_of app.now) limits.now }
    ensures { IfOk result (λ rows. spec.AreResponseTimes (app_of app.now) limits.now rows.items) }
{
    let ceilings = ceilings(alloc, app)?;
    let bounds = bounds(alloc, app, &ceilings)?;
    let all = loads_of(alloc, app, limits)?;
    times_of(alloc, &bounds.waits, &all)
}
