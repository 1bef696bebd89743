// Core steps that are asked for, where a loop asks for no number of them.

ghost use Rattle.std.specs.Prelude.{◌≡◌, ◌≤◌, ◌*◌};
ghost use Rattle.rt_rta.specs.Response.{most_requests};
ghost use Rattle.rt_rta.specs.declared.response.TheConstants.{MOST_STEPS};
ghost use Rattle.rt_image_times.specs.Response as spec;
ghost use Rattle.rt_image_times.specs.Inside.Sums.{HaveRoom, IsAtMost};

use crate::load::Load;
use rt_bounds::Longest;

/// What is asked for.
#[derive(Clone, Copy, PartialEq, Eq)]
pub enum Needed {
    /// So many core steps.
    Steps(u64),
    /// No number of them: a way comes to a loop, and this is the address of an instruction of it.
    Loop(u32),
}

/// What one handler asks for at most in as many core steps as are looked at: a request in each, and for each request
/// the greatest bound and the step of its take.
pub(crate) const MOST_DEMAND: u64 = 4_294_967_296_000_000;

/// What is asked for together.
pub(crate) fn plus(one: Needed, other: Needed) -> Needed
    requires { HaveRoom one other }
    ensures { result ≡ spec.plus one other }
{
    match (one, other) {
        (Needed::Loop(address), _) => Needed::Loop(address),
        (Needed::Steps(_), Needed::Loop(address)) => Needed::Loop(address),
        (Needed::Steps(steps), Needed::Steps(more)) => Needed::Steps(steps + more),
    }
}

/// What lower owners hold off, where any does.
pub(crate) fn held_off(longest: Option<Longest>) -> Needed
    ensures value { result ≡ spec.held_off longest }
    ensures most { IsAtMost MOST_DEMAND result }
{
    match longest {
        None => Needed::Steps(0),
        Some(Longest::Steps(steps)) => Needed::Steps(u64::from(steps)),
        Some(Longest::Loop(address)) => Needed::Loop(address),
    }
}

/// What so many handlings by a handler of this bound ask for, the take of each counted.
fn handlings(count: u64, longest: Longest) -> Needed
    requires { count ≤ MOST_STEPS }
    ensures value { result ≡ spec.handlings count longest }
    ensures most { IsAtMost MOST_DEMAND result }
{
    match longest {
        Longest::Steps(steps) => Needed::Steps(count * (u64::from(steps) + 1)),
        Longest::Loop(address) => Needed::Loop(address),
    }
}

/// How many requests fall into so many core steps at most.
fn most_requests(steps: u32, every: u32) -> u64
    requires few { steps ≤ MOST_STEPS }
    requires positive { 1 ≤ every }
    ensures value { result ≡ most_requests steps every }
    ensures most { result ≤ MOST_STEPS }
{
    (u64::from(steps) + u64::from(every - 1)) / u64::from(every)
}

/// What a handler asks for in so many core steps.
pub(crate) fn load_needed(steps: u32, load: &Load) -> Needed
    requires few { steps ≤ MOST_STEPS }
    requires positive { 1 ≤ load.now.every }
    ensures value { result ≡ spec.load_needed steps load.now }
    ensures most { IsAtMost MOST_DEMAND result }
{
    handlings(most_requests(steps, load.every), load.longest)
}
