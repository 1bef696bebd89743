// The alarm of the monotonic.

use rt_ids::Irq;

/// When the alarm of the monotonic comes, in ticks since reset, and the interrupt that it makes pending.
#[derive(Clone, Copy, PartialEq, Eq)]
pub struct Alarm {
    pub instant: u32,
    pub irq: Irq,
}
