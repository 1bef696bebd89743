// The calls that go to the timer queue.

ghost use Rattle.std.specs.Prelude.{◌≡◌, ◌+◌, ◌*◌, ◌<◌, ◌≤◌, ◌^◌, OnOk};
ghost use Rattle.rt_ids.specs.declared.limits.TheConstants.{CAPACITY, TASKS};
ghost use Rattle.rt_app.specs.declared.costs.TheConstants.{TIMER_QUEUE_WORDS};
ghost use Rattle.rt_gen_queue.specs.Making.{Appends};
ghost use Rattle.rt_gen_timer.specs.Inside.Calls as spec;
ghost use Rattle.rt_gen_timer.specs.declared.generate.TheConstants.{CALL_ROOM};

use crate::armed::ArmedTask;
use crate::emitter::Emitter;
use rt_gen_queue::Lines;
use rt_ids::{NoMemory, TaskId};

/// A call that goes to the timer queue, with the software task of its message.
#[derive(Clone, Copy)]
pub(crate) enum TimerCall {
    After(TaskId),
    Cancel(TaskId),
    Move(TaskId),
}

impl TimerCall {
    /// The task.
    pub(crate) fn task(&self) -> TaskId
        ensures { result ≡ spec.message_task self.now }
    {
        match self {
            TimerCall::After(task) | TimerCall::Cancel(task) | TimerCall::Move(task) => *task,
        }
    }
}

/// Appends the lines of a call of a task.
pub(crate) fn push_call(
    emitter: &Emitter,
    armed: &ArmedTask,
    call: &TimerCall,
    threshold: u8,
    at: u32,
    lines: &mut Lines,
) -> Result<(), NoMemory>
    requires few { emitter.now.queue.messages ≤ CAPACITY * TASKS }
    requires slots { emitter.now.slot + TIMER_QUEUE_WORDS < 2 ^ 32 }
    requires room { at + CALL_ROOM < 2 ^ 32 }
    requires arguments { armed.now.target.args ≤ 4 }
    requires rows { armed.now.rows ≤ CAPACITY }
    requires before { armed.now.first ≤ CAPACITY * armed.now.target.task }
    requires first { armed.now.first ≤ CAPACITY * TASKS }
    ensures { OnOk result (Appends lines.old lines.new
        (spec.lines_of call.now emitter.now.queue emitter.now.slot threshold armed.now at)) }
{
    match call {
        TimerCall::After(_) => emitter.push_after(armed, threshold, at, lines),
        TimerCall::Cancel(_) => emitter.push_cancel(armed, threshold, at, lines),
        TimerCall::Move(_) => emitter.push_move(armed, threshold, at, lines),
    }
}
