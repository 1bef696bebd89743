// A point of an image: an address, whose code runs there, which sections are open.

use rt_ids::Section;

/// Whose code runs.
#[derive(Clone, Copy, PartialEq, Eq)]
pub enum Owner {
    /// `init`.
    Starting,
    /// The thread behind `init`.
    Thread,
    /// The handler of the interrupt at this index in the table of interrupts.
    Handling(usize),
}

/// How an open section holds others off.
#[derive(Clone, Copy, PartialEq, Eq)]
pub enum SectionKind {
    /// By nothing: what runs does already.
    Mark,
    /// By BASEPRI. What it was before is saved in the slot, and it is raised to the value.
    Raise(u32, u32),
    /// By PRIMASK. What it was before is saved in the slot.
    Mask(u32),
}

/// An open section.
#[derive(Clone, Copy, PartialEq, Eq)]
pub struct Opened {
    pub section: Section,
    pub kind: SectionKind,
}
