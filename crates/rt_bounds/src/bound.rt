// The bounds of an image.

use crate::longest::Longest;
use rt_ids::{Prio, Section};
use rt_points::Owner;

/// The bound of a handler.
#[derive(Clone, Copy, PartialEq, Eq)]
pub struct HandlerBound {
    /// The index of its interrupt in the table of interrupts.
    pub index: usize,
    /// From its entry to its return.
    pub longest: Longest,
}

/// The bound of the sections of one name that an owner enters.
#[derive(Clone, Copy, PartialEq, Eq)]
pub struct SectionBound {
    pub owner: Owner,
    pub section: Section,
    /// From the entering to the leaving, both counted.
    pub longest: Longest,
}

/// How long a priority may be held off by lower owners.
#[derive(Clone, Copy, PartialEq, Eq)]
pub struct WaitBound {
    /// 1 to 2^bits.
    pub priority: Prio,
    /// The longest section that holds it off, or None where none does.
    pub longest: Option<Longest>,
}

/// The bounds of an image, in core steps, and its stack.
#[derive(Drop)]
pub struct Bounds {
    /// From the address 0 to the end of `init`.
    pub init: Longest,
    /// Of each enabled interrupt, in the order of the table.
    pub handlers: Vec<HandlerBound>,
    /// Of each owner and section that it enters.
    pub sections: Vec<SectionBound>,
    /// Of each priority of an enabled interrupt, rising.
    pub waits: Vec<WaitBound>,
    /// The bytes of the stack at the deepest.
    pub stack: u64,
}
