// The actions of a job that others can see.

use crate::message::Message;
use rt_ids::{Section, TaskId};

/// What a job does that others can see, a reading of the clock and its last action aside.
#[derive(Drop)]
pub enum Action {
    /// Enters a section, for so many core steps at most.
    Enter(Section, u32),
    Leave(Section),
    Emit(u32),
    /// Makes the interrupt of this number pending.
    Post(u16),
    /// Takes a place of a task.
    Place(TaskId),
    /// Finds no place of a task.
    Full(TaskId),
    /// Puts a message last among those of a level.
    Ready(u8, Message),
    /// Takes the oldest message of a level, to start it.
    Start(u8, Message),
    /// Gives a place of a task back.
    Free(TaskId),
    /// Arms a message for an instant.
    Arm(u64, Message),
    /// Takes the least armed message.
    Fire(Message),
    /// Takes back the armed message of a task that has a handle.
    Cancel(TaskId, u32),
    /// Puts the armed message of a task that has a handle to another instant.
    Move(TaskId, u32, u64),
    /// Sets the alarm to the least armed instant.
    SetAlarm,
    /// Ends the body of a software task.
    End(TaskId),
}
