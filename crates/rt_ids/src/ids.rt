// What things are called by number: tasks, resources, bodies, and the sections that guard them.

use crate::priority::Prio;
use std::marker::Model;

/// A task, by its index in the order of declaration. Contracts see the number.
#[derive(Clone, Copy, Debug, PartialEq, Eq, PartialOrd, Ord, Hash)]
pub struct TaskId(pub u8);

impl Model for TaskId {
    ghost use Rattle.std.specs.Prelude.{ℕ};

    ghost Value = { ℕ };

    ghost view = { λ task. task.0 };

    ghost inverse = { λ n. record { 0 = n } };
}

/// A shared resource, by its index in the order of declaration. Contracts see the number.
#[derive(Clone, Copy, Debug, PartialEq, Eq, PartialOrd, Ord, Hash)]
pub struct ResId(pub u8);

impl Model for ResId {
    ghost use Rattle.std.specs.Prelude.{ℕ};

    ghost Value = { ℕ };

    ghost view = { λ resource. resource.0 };

    ghost inverse = { λ n. record { 0 = n } };
}

/// What a critical section guards.
#[derive(Clone, Copy, Debug, PartialEq, Eq, PartialOrd, Ord, Hash)]
pub enum Section {
    /// A shared resource.
    Res(ResId),
    /// The places that a software task's messages have left.
    Free(TaskId),
    /// The ready messages of a level.
    Ready(Prio),
    /// The armed messages of the timer queue.
    Timer,
}

/// A body of code of an application.
#[derive(Clone, Copy, Debug, PartialEq, Eq, PartialOrd, Ord, Hash)]
pub enum BodyId {
    Init,
    Idle,
    Task(TaskId),
}
