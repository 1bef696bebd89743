// The things that are left to do for a job, as a list over its statements.

ghost use Rattle.std.specs.Prelude.{◌≡◌};
ghost use Rattle.rt_baker_work.specs.Work.{is_seen};

use crate::action::Action;
use crate::message::Message;
use rt_app::Stmt;
use rt_ids::TaskId;

/// What the clock is read for.
#[derive(Drop)]
pub enum Reading {
    /// A variable.
    Bind(u16),
    /// The instant of a message, so many ticks later.
    Arm(u32, Message),
    /// The instant of a task's message that has a handle, so many ticks later.
    Move(u32, TaskId, u32),
    /// The choice of the message that the timer handler makes ready.
    Fire,
}

/// A thing to do for a job.
#[derive(Drop)]
pub enum Todo<'a> {
    /// Statements in order.
    Run(&'a [Stmt]),
    /// The turns of a loop that are left: its variable, the next number, and the one that it does not reach.
    Turns(u16, u32, u32, &'a [Stmt]),
    /// A variable comes to hold a number.
    Set(u16, u32),
    /// Inside the section of its task's places, a message is sent where one is left: the variable for the answer, and
    /// the delay.
    Place(Option<u16>, Option<u32>, Message),
    /// Inside the section of a level's messages, the oldest is started.
    Dispatch(u8),
    /// The body of a message's task begins.
    Begin(Message),
    /// Inside the section of the armed messages, one that is due at this time becomes ready.
    Due(u64),
    /// A variable comes to hold the handle that was given last.
    Handle(u16),
    /// Inside the section of the armed messages, the message of a task that has a handle is taken back, where there is
    /// one: the variable for the answer, the task, and the handle.
    Cancel(Option<u16>, TaskId, u32),
    /// Likewise it is put off: the variable for the answer, the delay, the task, and the handle.
    Move(Option<u16>, u32, TaskId, u32),
    Act(Action),
    Clock(Reading),
}

impl<'a> Todo<'a> {
    /// Whether others can see it.
    pub(crate) fn is_seen(&self) -> bool
        ensures { result ≡ is_seen self.now }
    {
        match self {
            Todo::Run(_stmts) => false,
            Todo::Turns(_variable, _next, _last, _stmts) => false,
            Todo::Set(_variable, _value) => false,
            Todo::Place(_variable, _delay, _message) => false,
            Todo::Dispatch(_level) => false,
            Todo::Begin(_message) => false,
            Todo::Due(_time) => false,
            Todo::Handle(_variable) => false,
            Todo::Cancel(_variable, _task, _handle) => false,
            Todo::Move(_variable, _delay, _task, _handle) => false,
            Todo::Act(_action) => true,
            Todo::Clock(_reading) => true,
        }
    }
}
