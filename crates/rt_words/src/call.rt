/// What became of an interrupt that was pended.
#[derive(Clone, Copy, Debug, PartialEq, Eq)]
pub enum Pended {
    /// It was not pending, and is now.
    Raised,
    /// It was pending already, so that the two are one.
    Merged,
}

/// A call of a line, with the answer that it got. Contracts name its values; no program makes one.
pub enum Call {
    /// The bit of the row that was pended, and what became of it.
    Pend(u16, Pended),
    /// The word of the row that was latched, and its bits that stood.
    Latch(u8, u32),
}

/// A call in a history of several lines, with the number of its line. Contracts name its values; no program makes one.
pub struct Entry {
    pub line: u8,
    pub call: Call,
}
