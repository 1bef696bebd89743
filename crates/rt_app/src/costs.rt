// What code takes: core steps, instructions, words of a frame, bytes of the stack. They are this project's own.

/// Core steps of a `spawn`, its arguments aside.
pub const SPAWN_COST: u32 = 128;

/// Core steps of a `spawn_after`, its delay, its arguments and the armed messages aside.
pub const SPAWN_AFTER_COST: u32 = 192;

/// Core steps for each message that may be armed, where the timer queue is touched.
pub const MESSAGE_COST: u32 = 48;

/// Core steps of a `cancel` or a `reschedule_after`, its expressions and the armed messages aside.
pub const HANDLE_COST: u32 = 256;

/// Core steps of these for each message that may be armed.
pub const HANDLE_MESSAGE_COST: u32 = 96;

/// Core steps of a section of a task's free places.
pub const FREE_COST: u32 = 48;

/// Core steps of a section of a ready queue.
pub const READY_COST: u32 = 48;

/// Core steps of a dispatcher, and of its section of the ready queue, for each task of its level.
pub const READY_TASK_COST: u32 = 8;

/// Core steps of a section of the timer queue, the armed messages aside.
pub const TIMER_SECTION_COST: u32 = 80;

/// Core steps of such a section in a `cancel` or a `reschedule_after`, the armed messages aside.
pub const HANDLE_SECTION_COST: u32 = 128;

/// Core steps of a dispatcher, its tasks and their bodies aside.
pub const DISPATCHER_COST: u32 = 128;

/// Core steps of the timer handler, the armed messages and the tasks aside.
pub const TIMER_COST: u32 = 192;

/// Core steps of the timer handler for each task that may be armed.
pub const TIMER_TASK_COST: u32 = 8;

/// Core steps of a `for` beside its turns.
pub const LOOP_COST: u32 = 4;

/// Core steps of a turn of a `for` beside its block.
pub const TURN_COST: u32 = 6;

/// Messages that may be armed, as sizes count them: more take no more code.
pub const SIZED_MESSAGES: u32 = 8;

/// Instructions of a dispatcher for each task of its level.
pub const DISPATCHER_TASK_SIZE: u32 = 64;

/// Instructions of the timer handler for each task that may be armed.
pub const TIMER_TASK_SIZE: u32 = 32;

/// Core steps of an `init` that a script to the stack bound goes through, at most.
pub const BRIEF_INIT_COST: u32 = 900_000;

/// Instructions of the thread: the end of an absent `init`, and the wait of an absent `idle`.
pub const THREAD_SIZE: u32 = 2;

/// Words of the frame for a `spawn`.
pub const SPAWN_WORDS: u32 = 16;

/// Words of the frame for a `spawn_after`, a `cancel` or a `reschedule_after`.
pub const TIMER_QUEUE_WORDS: u32 = 24;

/// Words of a dispatcher's own frame.
pub const DISPATCHER_WORDS: u32 = 16;

/// Words of the timer handler's frame.
pub const TIMER_WORDS: u32 = 24;

/// Priorities that a byte can tell.
pub const PRIORITIES: u16 = 256;
