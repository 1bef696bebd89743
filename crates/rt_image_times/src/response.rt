// The response time of a priority of an image.

use rt_ids::Prio;

/// How long a request takes at most to be served, in core steps.
#[derive(Clone, Copy, PartialEq, Eq)]
pub enum Response {
    /// So many core steps, a million at most.
    Steps(u32),
    /// What holds the priority off, or what is asked for, has no bound: a way comes to a loop, at this address.
    Loop(u32),
    /// No number up to a million is one.
    Over,
}

/// The response time of a priority.
#[derive(Clone, Copy, PartialEq, Eq)]
pub struct TimeBound {
    /// 1 to 2^bits.
    pub priority: Prio,
    pub response: Response,
}
