// How many words and frames a stack may have.

/// Handlers that may be active at once.
pub const CONTEXTS: usize = 128;

/// Words of a stack: there are at most as many.
pub const STACK_WORDS: u32 = 1 << 18;
