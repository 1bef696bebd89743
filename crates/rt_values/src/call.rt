/// What became of the request that goes with a word.
#[derive(Clone, Copy, Debug, PartialEq, Eq)]
pub enum Given {
    /// No word waited.
    Raised,
    /// A word waited, which is lost, so that the two requests are one.
    Merged,
}

/// A call of a side of a mailbox, with the answer that it got. Contracts name its values; no program makes one.
pub enum Call {
    /// The word that was given, and what became of its request.
    Give(u32, Given),
    /// The word that waited and was taken, where one did.
    Take(Option<u32>),
}
