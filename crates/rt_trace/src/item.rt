// The items of a trace.

use crate::args::Args;
use rt_ids::{BodyId, Irq, Section, TaskId};

/// What an item of a trace shows.
#[derive(Clone, Copy, PartialEq, Eq)]
pub enum What {
    /// An interrupt request arrives from outside.
    Pend(Irq),
    /// The time rises by one.
    Tick,
    /// The alarm comes, by a tick or by a step.
    Alarm,
    /// A step sets the alarm to an instant that is not due, or to none.
    AlarmSet,
    /// An interrupt is taken, with so many stack bytes in use after exception entry.
    Take(Irq, u32),
    /// A handler returns.
    Ret(Irq),
    /// A section is entered.
    Enter(Section),
    /// A section is left; a resource's with its value.
    Leave(Section, Option<u32>),
    /// A value is emitted.
    Emit(u32),
    /// A place of a software task is taken.
    Placed(TaskId),
    /// All places of a software task are out.
    Full(TaskId),
    /// A message goes to the ready queue.
    Ready(TaskId),
    /// A message leaves the ready queue, and the task's body with it starts.
    Start(TaskId, Args),
    /// A place of a software task is given back.
    Free(TaskId),
    /// An interrupt is made pending by software.
    Post(Irq),
    /// The time is read.
    Clock(u32),
    /// A message goes to the timer queue, for an instant.
    Arm(TaskId, u32),
    /// A due message leaves the timer queue.
    Fire(TaskId),
    /// The message of a handle leaves the timer queue.
    Cancel(TaskId, u32),
    /// The message of a handle waits for another instant.
    Move(TaskId, u32, u32),
    /// A body ends, and the code goes on.
    End(BodyId),
    /// The core traps, for the reason of this number.
    Trap(u8),
}

/// An item of a trace: the number of core steps before it, and what it shows.
#[derive(Clone, Copy, PartialEq, Eq)]
pub struct Item {
    pub step: u64,
    pub what: What,
}
