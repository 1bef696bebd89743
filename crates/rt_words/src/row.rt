// How many words a core and a row have.

/// Words of a core, which has a bit for each of 512 interrupts.
pub const CORE_WORDS: u8 = 16;

/// Words of a row of two cores.
pub const ROW_WORDS: u8 = 32;
