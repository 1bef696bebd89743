// How much an interrupt controller holds.
use rt_ids::limits::IRQ_NUMBERS;

/// Interrupts that may be enabled or pending: one for each number from 0 on.
pub const NUMBERS: usize = IRQ_NUMBERS as usize;

/// Words of 32 bits with a bit for each number.
pub const WORDS: usize = 16;

/// Interrupts that may be active at once: one for each priority value where 7 bits are implemented.
pub const ACTIVE: usize = 128;

/// Leaves of the tournament: a power of two, with one for each number.
pub const LEAVES: u32 = 512;

/// Nodes of the tournament: its leaves, those above them, and node 0, which is none of it.
pub const NODES: usize = 1024;

/// The key of an interrupt that is not ready: it is above that of every one that is.
pub const NO_KEY: u32 = u32::MAX;
