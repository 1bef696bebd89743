// The limits of application texts, scripts and applications.

/// Bytes of an application text.
pub const TEXT_BYTES: u32 = 262_144;

/// Bytes of a script text.
pub const SCRIPT_BYTES: u32 = 1_048_576;

/// Events of a script, once its counts are expanded.
pub const SCRIPT_EVENTS: u32 = 1_000_000;

/// Devices that a script may name: their numbers are 0 to 15.
pub const DEVICES: u8 = 16;

/// Bytes of a trace text.
pub const TRACE_BYTES: u32 = 268_435_456;

/// Interrupt numbers that there are: 0 to 495.
pub const IRQ_NUMBERS: u16 = 496;

/// The priority value of the thread: it is lower than the priority of every interrupt, and masks nothing.
pub const THREAD_VALUE: u16 = 256;

/// Interrupts that an application may declare.
pub const IRQS: usize = 240;

/// Tasks of an application.
pub const TASKS: usize = 64;

/// Shared resources of an application.
pub const SHARED: usize = 64;

/// Local resources of an application.
pub const LOCALS: usize = 64;

/// Arguments of a task.
pub const ARGUMENTS: usize = 4;

/// Messages of a task that may be out at once.
pub const CAPACITY: u32 = 16;

/// Blocks inside each other, the body included.
pub const NESTING: u32 = 16;

/// Open parentheses of one expression.
pub const PARENTHESES: u32 = 64;

/// The depth of an expression, where a name or a number is 1 deep.
pub const DEPTH: u32 = 16;

/// Turns of a `for`.
pub const TURNS: u32 = 1_000;

/// Ticks that a delay counts at most.
pub const LONGEST_DELAY: u32 = 2_147_483_647;

/// Bytes of a name.
pub const NAME_BYTES: usize = 32;

/// Statements of a body, those of inner blocks included.
pub const STATEMENTS: usize = 1_000;

/// Core steps that a body may take.
pub const BODY_COST: u32 = 1_000_000;

/// Instructions of an application's whole code.
pub const CODE_SIZE: u32 = 65_535;

/// The least number of implemented priority bits.
pub const LEAST_BITS: u32 = 3;

/// The greatest number of implemented priority bits.
pub const MOST_BITS: u32 = 7;
