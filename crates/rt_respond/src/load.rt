// How much of the core's time is asked for.

ghost use Rattle.std.specs.Prelude.{◌≡◌, ◌+◌, ◌*◌, ◌/◌, ◌%◌, ◌^◌, ◌≤◌, ◌++◌, [], ◌∷◌, length, IfOk, OnOk};
ghost use Rattle.std.specs.List.{AllByRecursion};
ghost use Rattle.rt_ids.specs.declared.limits.TheConstants.{TASKS};
ghost use Rattle.rt_respond.specs.Load as spec;
ghost use Rattle.rt_respond.specs.Inside.Places as inner;

use crate::handler::Handler;
use crate::limits::Limits;
use crate::number::MOST_WORK;
use rt_ids::NoMemory;
use std::alloc::Global;

/// A number of core steps over a distance.
#[derive(Clone, Copy)]
pub(crate) struct Share {
    pub(crate) steps: u64,
    pub(crate) every: u32,
}

/// Adds what is left of a share, a fraction below 1, to a sum in the places of the distances before it. Its own
/// distance gives one place more.
fn add_share(places: &mut Vec<u64>, before: &[Share], share: Share) -> Result<(), NoMemory>
    requires long { length places.old.items ≡ length before.now }
    requires few { length before.now ≤ TASKS }
    requires positive { AllByRecursion inner.IsSmall before.now }
    requires own { inner.IsSmall share }
    requires small { inner.AreBelow (length before.now * 2 ^ 32) places.old.items }
    ensures long { OnOk result (length places.new.items ≡ length before.now + 1) }
    ensures small { OnOk result (inner.AreBelow ((length before.now + 1) * 2 ^ 32) places.new.items) }
    ensures value { OnOk result (inner.worth places.new.items (before.now ++ share ∷ [])
        ≡ inner.worth places.old.items before.now * share.every
        + (share.steps % share.every) * inner.unit before.now) }
{
    let every = u64::from(share.every);
    let mut rest = share.steps % every;
    for place in 0..before.len() {
        let parts = rest * u64::from(before[place].every);
        places[place] += parts / every;
        rest = parts % every;
    }
    places.push(rest)?;
    Ok(())
}

/// The whole of a sum in the places of these distances, rounded up.
fn rounded_up(places: &[u64], shares: &[Share]) -> u64
    requires long { length places.now ≡ length shares.now }
    requires few { length shares.now ≤ TASKS }
    requires positive { AllByRecursion inner.IsSmall shares.now }
    requires small { inner.AreBelow (TASKS * 2 ^ 32) places.now }
    ensures value { spec.IsRoundedUp (inner.sum_in_places places.now shares.now) result }
    ensures most { result ≤ 2 ^ 45 }
{
    let mut over = 0;
    let mut is_broken = false;
    for back in 0..places.len() {
        let place = places.len() - 1 - back;
        let parts = places[place] + over;
        let every = u64::from(shares[place].every);
        over = parts / every;
        if parts % every != 0 {
            is_broken = true;
        }
    }
    over + u64::from(is_broken)
}

/// The sum of the whole numbers of shares.
fn whole_of(shares: &[Share]) -> u64
    requires few { length shares.now ≤ TASKS }
    requires small { AllByRecursion inner.IsSmall shares.now }
    ensures value { result ≡ inner.whole_of shares.now }
    ensures most { result ≤ TASKS * inner.MOST_SHARE }
{
    let mut sum: u64 = 0;
    for share in shares {
        sum += share.steps / u64::from(share.every);
    }
    sum
}

/// The fractions of shares, summed up in the places of their distances.
fn places_of(alloc: Global, shares: &[Share]) -> Result<Vec<u64>, NoMemory>
    requires few { length shares.now ≤ TASKS }
    requires small { AllByRecursion inner.IsSmall shares.now }
    ensures { IfOk result (λ places. inner.ArePlaces shares.now places.items) }
{
    let mut places = Vec::new(alloc);
    for index in 0..shares.len() {
        add_share(&mut places, &shares[..index], shares[index])?;
    }
    Ok(places)
}

/// The sum of shares, rounded up.
pub(crate) fn sum_of(alloc: Global, shares: &[Share]) -> Result<u64, NoMemory>
    requires few { length shares.now ≤ TASKS }
    requires small { AllByRecursion inner.IsSmall shares.now }
    ensures { IfOk result (λ sum. spec.IsRoundedUp (spec.sum_of shares.now) sum) }
{
    let places = places_of(alloc, shares)?;
    Ok(whole_of(shares) + rounded_up(&places, shares))
}

/// What requests of this distance ask for of 1,000 core steps; None where the work has no number, or none below where
/// sums stop.
fn share_of(every: u32, work: Option<u64>) -> Option<Share>
    ensures { result ≡ inner.exact_share every work }
{
    match work {
        Some(steps) if steps < MOST_WORK => Some(Share {
            steps: 1_000 * steps,
            every,
        }),
        _ => None,
    }
}

/// The shares of the handlers whose requests are limited, in order; None where one has none.
pub(crate) fn shares_of(
    alloc: Global,
    limits: &Limits,
    handlers: &[Handler],
    works: &[Option<u64>],
) -> Result<Option<Vec<Share>>, NoMemory>
    requires { length works.now ≡ length handlers.now }
    ensures { IfOk result (λ shares. inner.AreSharesOf limits.now handlers.now works.now shares) }
{
    let mut shares = Vec::new(alloc);
    for index in 0..handlers.len() {
        if let Some(every) = limits.every_of(handlers[index].number) {
            match share_of(every, works[index]) {
                None => return Ok(None),
                Some(share) => shares.push(share)?,
            }
        }
    }
    Ok(Some(shares))
}
