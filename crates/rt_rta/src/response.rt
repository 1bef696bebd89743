/// The greatest response time that is looked for, in core steps.
pub const MOST_STEPS: u32 = 1_000_000;

/// The response time of a priority.
#[derive(Clone, Copy, PartialEq, Eq)]
pub struct ResponseTime {
    pub priority: u8,
    /// The core steps from a request to the return of its handler, at most; None where no number up to a million is
    /// one.
    pub steps: Option<u32>,
}
