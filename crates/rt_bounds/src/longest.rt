// The longest way from somewhere, or a loop.

ghost use Rattle.std.specs.Prelude.{◌≡◌};
ghost use Rattle.rt_bounds.specs.Inside.Gathered as spec;

/// More core steps than these are not told: the time of the model's core stays below them.
pub const MOST_STEPS: u32 = 2_147_483_648;

/// How many steps the longest way has, or why there is none.
#[derive(Clone, Copy, Debug, PartialEq, Eq)]
pub enum Longest {
    /// It has so many core steps, at least 1.
    Steps(u32),
    /// A way comes to a loop, and this is the address of an instruction of it.
    Loop(u32),
}

/// The worse of two: a loop, or the greater number.
pub fn worse(one: Longest, other: Longest) -> Longest
    ensures { result ≡ spec.worse one other }
{
    match (one, other) {
        (Longest::Loop(address), _) => Longest::Loop(address),
        (Longest::Steps(_), Longest::Loop(address)) => Longest::Loop(address),
        (Longest::Steps(steps), Longest::Steps(more)) => Longest::Steps(steps.max(more)),
    }
}

/// The worse of what was found so far, if anything was, and another.
pub fn worst(kept: Option<Longest>, other: Longest) -> Longest
    ensures { result ≡ spec.worst kept other }
{
    match kept {
        Some(longest) => worse(longest, other),
        None => other,
    }
}
