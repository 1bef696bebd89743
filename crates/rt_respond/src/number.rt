// Core steps, where there may be no number.

ghost use Rattle.std.specs.Prelude.{◌≡◌};
ghost use Rattle.rt_respond.specs.Number as spec;

/// Where sums stop, in core steps: far above each response time that is looked for.
pub const MOST_WORK: u64 = 1_000_000_000_000;

/// A number up to where sums stop.
fn capped(steps: u64) -> u64
    ensures { result ≡ spec.capped steps }
{
    steps.min(MOST_WORK)
}

/// A sum, where there are both numbers.
pub(crate) fn plus(first: Option<u64>, second: Option<u64>) -> Option<u64>
    ensures { result ≡ spec.plus first second }
{
    match (first, second) {
        (Some(first), Some(second)) => Some(capped(first.saturating_add(second))),
        _ => None,
    }
}

/// The greater of two, where there are both numbers.
pub(crate) fn greater_of(first: Option<u64>, second: Option<u64>) -> Option<u64>
    ensures { result ≡ spec.greater_of first second }
{
    match (first, second) {
        (Some(first), Some(second)) => Some(first.max(second)),
        _ => None,
    }
}

/// So many times a number: what comes no times asks for nothing.
pub(crate) fn times(count: u64, steps: Option<u64>) -> Option<u64>
    ensures { result ≡ spec.times count steps }
{
    match steps {
        None if count == 0 => Some(0),
        None => None,
        Some(steps) => Some(capped(count.saturating_mul(steps))),
    }
}
