// The slots of a spawn's code after the first four, which hold the arguments, counted from the first of its 16.

/// A number of places or of messages.
pub const COUNT: u32 = 4;

/// An index in the ring.
pub const INDEX: u32 = 5;

/// The place that is taken, and then its message as a word.
pub const PLACE: u32 = 6;

/// A number beside these.
pub const WORK: u32 = 7;

/// What the mask was, while a section is open.
pub const MASK: u32 = 8;
