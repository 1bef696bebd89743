// Finds the response times.

ghost use Rattle.std.specs.Prelude.{◌≡◌, ◌≤◌, ◌-◌, ◌^◌, min, length, IfOk};
ghost use Rattle.std.specs.List.{AllByRecursion};
ghost use Rattle.rt_ids.specs.declared.limits.TheConstants.{IRQS};
ghost use Rattle.rt_rta.specs.declared.response.TheConstants.{MOST_STEPS};
ghost use Rattle.rt_points.specs.Limits.{IsWithinLimits};
ghost use Rattle.rt_bounds.specs.Bounds.{AreBounds};
ghost use Rattle.rt_bounds.specs.Inside.Gathered.{ArePriorities, IsPriority};
ghost use Rattle.rt_image_times.specs.Limits.{AreImageLimits};
ghost use Rattle.rt_image_times.specs.Response as spec;
ghost use Rattle.rt_image_times.specs.Inside.Sums.{IsPositive};

use crate::load::{Load, loads_of};
use crate::needed::{Needed, held_off, load_needed, plus};
use crate::response::{Response, TimeBound};
use rt_bounds::{Bounds, HandlerBound, Longest, WaitBound};
use rt_code::Image;
use rt_ids::NoMemory;
use rt_rta::Limits;
use rt_rta::response::MOST_STEPS;
use std::alloc::Global;

/// All that there is to be room for in so many core steps.
fn needed(loads: &[Load], longest: Option<Longest>, steps: u32) -> Needed
    requires positive { AllByRecursion IsPositive loads.now }
    requires few { length loads.now ≤ IRQS }
    requires within { steps ≤ MOST_STEPS }
    ensures { result ≡ spec.needed loads.now longest steps }
{
    let mut sum = held_off(longest);
    for load in loads {
        sum = plus(sum, load_needed(steps, load));
    }
    sum
}

/// Core steps as a number of 32 bits: the greatest one where they are above that.
fn saturated_steps(steps: u64) -> u32
    ensures { result ≡ min steps (2 ^ 32 - 1) }
{
    u32::try_from(steps).unwrap_or(u32::MAX)
}

/// The least number of core steps up to a million in which there is room for what is held off and for all that is asked
/// for.
fn response(loads: &[Load], longest: Option<Longest>) -> Response
    requires positive { AllByRecursion IsPositive loads.now }
    requires few { length loads.now ≤ IRQS }
    ensures { spec.IsResponse loads.now longest result }
{
    let mut steps: u32 = 1;
    while steps <= MOST_STEPS {
        match needed(loads, longest, steps) {
            Needed::Loop(address) => return Response::Loop(address),
            Needed::Steps(need) => {
                if need <= u64::from(steps) {
                    return Response::Steps(steps);
                }
                steps = saturated_steps(need);
            }
        }
    }
    Response::Over
}

/// The response time of the priority of a wait.
fn time_of(
    alloc: Global,
    image: &Image,
    limits: &Limits,
    handlers: &[HandlerBound],
    wait: &WaitBound,
) -> Result<TimeBound, NoMemory>
    requires few_bits { 3 ≤ image.now.bits }
    requires many_bits { image.now.bits ≤ 7 }
    requires valued { IsPriority image.now.bits wait.now }
    requires limits { AreImageLimits image.now limits.now }
    requires few { length handlers.now ≤ IRQS }
    ensures { IfOk result (spec.IsTimeOf image.now limits.now handlers.now wait.now) }
{
    let value = wait.priority.hw(image.bits);
    let loads = loads_of(alloc, image, limits, value, handlers)?;
    Ok(TimeBound {
        priority: wait.priority,
        response: response(&loads, wait.longest),
    })
}

/// The response times of these priorities.
fn times_of(
    alloc: Global,
    image: &Image,
    limits: &Limits,
    handlers: &[HandlerBound],
    waits: &[WaitBound],
) -> Result<Vec<TimeBound>, NoMemory>
    requires few_bits { 3 ≤ image.now.bits }
    requires many_bits { image.now.bits ≤ 7 }
    requires valued { ArePriorities image.now.bits waits.now }
    requires limits { AreImageLimits image.now limits.now }
    requires few { length handlers.now ≤ IRQS }
    ensures { IfOk result (λ rows. spec.AreTimesOf image.now limits.now handlers.now waits.now rows.items) }
{
    let mut rows = Vec::new(alloc);
    for wait in waits {
        let row = time_of(alloc, image, limits, handlers, wait)?;
        rows.push(row)?;
    }
    Ok(rows)
}

/// The response time of each priority of an enabled interrupt, rising, under these limits: of a checked image whose
/// bounds these are.
pub fn times(
    alloc: Global,
    image: &Image,
    bounds: &Bounds,
    limits: &Limits,
) -> Result<Vec<TimeBound>, NoMemory>
    requires within { IsWithinLimits image.now }
    requires bounds { AreBounds image.now bounds.now }
    requires limits { AreImageLimits image.now limits.now }
    ensures { IfOk result (λ rows. spec.AreTimes image.now bounds.now limits.now rows.items) }
{
    times_of(alloc, image, limits, &bounds.handlers, &bounds.waits)
}
