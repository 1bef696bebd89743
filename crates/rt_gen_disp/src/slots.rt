// The slots of a dispatcher's frame, after the first four, which take the arguments of a message.

/// The word of the message.
pub const WORD: u32 = 4;

/// How many messages are left.
pub const LEFT: u32 = 5;

/// Where the ring's oldest message is, and then how many places of the task are free.
pub const INDEX: u32 = 6;

/// A number beside another one.
pub const OTHER: u32 = 7;

/// The number 1.
pub const ONE: u32 = 8;

/// The place of the message.
pub const PLACE: u32 = 9;

/// The task of the message.
pub const TASK: u32 = 10;

/// What the mask was, while a section is open.
pub const MASK: u32 = 14;
