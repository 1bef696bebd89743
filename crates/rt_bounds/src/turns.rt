// How often a loop turns, from the values that its counter has.

ghost use Rattle.std.specs.Prelude.{◌≡◌, ◌⊎◌, ◌<◌, ◌≤◌, ◌^◌, ◌==◌, ℕ, true, false, not, MatchOption};
ghost use Rattle.rt_ids.specs.Operation.{operate};
ghost use Rattle.rt_bounds.specs.Counting.{is_comparison, tested};
ghost use Rattle.rt_bounds.specs.Inside.Turns as spec;

use crate::counting::{Direction, Test};
use rt_ids::Op;

/// The values on which the jump of a loop goes on.
#[derive(Clone, Copy, Debug, PartialEq, Eq)]
pub enum Staying {
    /// Those below.
    Below(u64),
    /// Those from here on.
    From(u64),
    /// This one alone.
    Only(u64),
    /// All others.
    Except(u64),
}

impl Staying {
    /// The other values.
    fn others(self) -> Staying
        ensures { result ≡ spec.others self }
    {
        match self {
            Staying::Below(limit) => Staying::From(limit),
            Staying::From(limit) => Staying::Below(limit),
            Staying::Only(limit) => Staying::Except(limit),
            Staying::Except(limit) => Staying::Only(limit),
        }
    }

    /// Whether a value is one of these.
    fn has(self, value: u64) -> bool
        ensures { result ≡ spec.has self value }
    {
        match self {
            Staying::Below(limit) => value < limit,
            Staying::From(limit) => limit <= value,
            Staying::Only(limit) => value == limit,
            Staying::Except(limit) => value != limit,
        }
    }
}

/// The values that compare so with a limit.
fn compared(op: Op, limit: u64) -> Option<Staying>
    requires { limit < 2 ^ 32 }
    ensures values { MatchOption result (is_comparison op ≡ false) (λ staying. (is_comparison op ≡ true)
        × ((value : ℕ) → spec.has staying value ≡ not (operate op value limit == 0))) }
    ensures limit { MatchOption result (Unit {0}) (λ staying. spec.limit_of staying ≤ 2 ^ 32) }
{
    match op {
        Op::Eq => Some(Staying::Only(limit)),
        Op::Ne => Some(Staying::Except(limit)),
        Op::Lt => Some(Staying::Below(limit)),
        Op::Le => Some(Staying::Below(limit + 1)),
        Op::Gt => Some(Staying::From(limit + 1)),
        Op::Ge => Some(Staying::From(limit)),
        _ => None,
    }
}

/// The values with which a limit compares so.
fn compared_with(op: Op, limit: u64) -> Option<Staying>
    requires { limit < 2 ^ 32 }
    ensures values { MatchOption result (is_comparison op ≡ false) (λ staying. (is_comparison op ≡ true)
        × ((value : ℕ) → spec.has staying value ≡ not (operate op limit value == 0))) }
    ensures limit { MatchOption result (Unit {0}) (λ staying. spec.limit_of staying ≤ 2 ^ 32) }
{
    match op {
        Op::Eq => Some(Staying::Only(limit)),
        Op::Ne => Some(Staying::Except(limit)),
        Op::Lt => Some(Staying::From(limit + 1)),
        Op::Le => Some(Staying::From(limit)),
        Op::Gt => Some(Staying::Below(limit)),
        Op::Ge => Some(Staying::Below(limit + 1)),
        _ => None,
    }
}

/// The values of a counter on which a slot that a jump looks at is not 0.
fn on_which_not_0(test: Test) -> Option<Staying>
    ensures values { MatchOption result (¬ spec.IsComparing test) (λ staying. spec.IsComparing test
        × ((value : ℕ) → spec.has staying value ≡ not (tested test value == 0))) }
    ensures limit { MatchOption result (Unit {0}) (λ staying. spec.limit_of staying ≤ 2 ^ 32) }
{
    match test {
        Test::Itself => Some(Staying::Except(0)),
        Test::Compared(op, limit) => compared(op, u64::from(limit)),
        Test::ComparedWith(op, limit) => compared_with(op, u64::from(limit)),
    }
}

/// How many steps lead over a distance, if so many do without a rest.
fn exactly(distance: u64, step: u64) -> Option<u64>
    ensures { MatchOption result ((n : ℕ) → ¬ spec.Hits distance step n) (spec.Hits distance step) }
{
    if step != 0 && distance % step == 0 {
        Some(distance / step)
    } else {
        None
    }
}

/// One step, if it changes a value.
fn once(step: u64) -> Option<u64>
    ensures { MatchOption result (step ≡ 0) (λ n. (n ≡ 1) × (0 < step)) }
{
    if step == 0 { None } else { Some(1) }
}

/// How many steps lead as far as a distance at least.
fn at_least(distance: u64, step: u64) -> Option<u64>
    requires distance { distance ≤ 2 ^ 32 }
    requires step { step < 2 ^ 32 }
    ensures { MatchOption result (step ≡ 0) (spec.Covers distance step) }
{
    if step == 0 {
        None
    } else {
        Some((distance + (step - 1)) / step)
    }
}

/// How often a value can be added until these values are left, which has the first of them. It may wrap before.
fn rising(start: u64, step: u64, staying: Staying) -> Option<u64>
    requires start { start < 2 ^ 32 }
    requires step { step < 2 ^ 32 }
    requires limit { spec.limit_of staying ≤ 2 ^ 32 }
    requires begins { spec.has staying start ≡ true }
    ensures first { MatchOption result (spec.IsNever Direction.Rises start step staying)
        (spec.IsFirst Direction.Rises start step staying) }
    ensures few { MatchOption result (Unit {0}) (λ n. n ≤ 2 ^ 32) }
{
    match staying {
        Staying::Below(limit) => at_least(limit - start, step),
        Staying::From(_) => None,
        Staying::Only(_) => once(step),
        Staying::Except(limit) if start < limit => exactly(limit - start, step),
        Staying::Except(_) => None,
    }
}

/// How often a value can be subtracted until these values are left, which has the first of them. It may wrap before.
fn falling(start: u64, step: u64, staying: Staying) -> Option<u64>
    requires start { start < 2 ^ 32 }
    requires step { step < 2 ^ 32 }
    requires limit { spec.limit_of staying ≤ 2 ^ 32 }
    requires begins { spec.has staying start ≡ true }
    ensures first { MatchOption result (spec.IsNever Direction.Falls start step staying)
        (spec.IsFirst Direction.Falls start step staying) }
    ensures few { MatchOption result (Unit {0}) (λ n. n ≤ 2 ^ 32) }
{
    match staying {
        Staying::Below(_) => None,
        Staying::From(limit) => at_least(start - limit + 1, step),
        Staying::Only(_) => once(step),
        Staying::Except(limit) if limit < start => exactly(start - limit, step),
        Staying::Except(_) => None,
    }
}

/// How often a counter that begins so is changed until these values are left, if it does not wrap before.
fn turns_until(direction: Direction, start: u64, step: u64, staying: Staying) -> Option<u64>
    requires start { start < 2 ^ 32 }
    requires step { step < 2 ^ 32 }
    requires limit { spec.limit_of staying ≤ 2 ^ 32 }
    ensures until { MatchOption result ((n : ℕ) → ¬ spec.IsUntil direction start step staying n)
        (spec.IsUntil direction start step staying) }
    ensures few { MatchOption result (Unit {0}) (λ n. n < 2 ^ 32) }
{
    if !staying.has(start) {
        return Some(0);
    }
    match direction {
        Direction::Rises => {
            let turns = rising(start, step, staying)?;
            if start + turns * step <= u64::from(u32::MAX) {
                Some(turns)
            } else {
                None
            }
        }
        Direction::Falls => {
            let turns = falling(start, step, staying)?;
            if turns * step <= start {
                Some(turns)
            } else {
                None
            }
        }
    }
}

/// How often a jump goes on before it leads out, if it does: on what is not 0, or else on 0, by a counter that begins so
/// and does not wrap.
pub fn turns_of(
    direction: Direction,
    start: u32,
    step: u32,
    test: Test,
    is_not_0: bool,
) -> Option<u32>
    ensures { MatchOption result ((¬ spec.IsComparing test) ⊎ ((n : ℕ) → ¬ spec.AreTurns direction start step test is_not_0 n))
        (λ n. spec.IsComparing test × spec.AreTurns direction start step test is_not_0 n) }
{
    let values = on_which_not_0(test)?;
    let staying = if is_not_0 { values } else { values.others() };
    match turns_until(direction, u64::from(start), u64::from(step), staying) {
        Some(turns) => Some(turns as u32),
        None => None,
    }
}
