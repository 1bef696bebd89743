// The slots of code for the timer queue, from the first of its 24 on. Slots 1 to 9 are also those of a spawn's code,
// which begins at slot 1.

/// A delay or a handle, and then the answer.
pub const ANSWER: u32 = 0;

/// The first argument of a message; in a move, the handle.
pub const ARGUMENTS: u32 = 1;

/// The row of the message in hand, once its arguments are stored.
pub const HAND: u32 = 4;

/// How many messages are armed.
pub const COUNT: u32 = 5;

/// The position in the heap for which a message is looked for.
pub const HOLE: u32 = 6;

/// A place of a task, the word of its message, or the row of a message that leaves.
pub const PLACE: u32 = 7;

/// A number beside another one.
pub const WORK: u32 = 8;

/// What the mask was, while a section is open.
pub const MASK: u32 = 9;

/// The instant of the message in hand.
pub const INSTANT: u32 = 10;

/// The number of its arming.
pub const NUMBER: u32 = 11;

/// The number 1.
pub const ONE: u32 = 12;

/// A position in the heap above or below the hole; elsewhere an operand or the result of a test.
pub const OTHER: u32 = 13;

/// The position of the right child, or of the left one where there is no right; elsewhere an operand or the result of a
/// test.
pub const RIGHT: u32 = 14;

/// The row of the message at the other position, its instant and the number of its arming.
pub const OTHER_ROW: u32 = 15;

pub const OTHER_INSTANT: u32 = 16;

pub const OTHER_NUMBER: u32 = 17;

/// The row of the message of the right child, its instant and the number of its arming.
pub const RIGHT_ROW: u32 = 18;

pub const RIGHT_INSTANT: u32 = 19;

pub const RIGHT_NUMBER: u32 = 20;

/// Whether one of two keys is the lesser, as 1 or 0.
pub const LESS: u32 = 21;

/// Whether their instants are equal, and then whether the numbers decide.
pub const EQUAL: u32 = 22;

/// The number 2.
pub const TWO: u32 = 23;
