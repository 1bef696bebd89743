// Whether an item shows this action.

ghost use Rattle.std.specs.Prelude.{◌≡◌, ◌↔◌, IsTrue};
ghost use Rattle.rt_ids.specs.declared.ids.BodyId.TheVariants as body;

use crate::message::Message;
use rt_ids::{BodyId, Section, TaskId};
use rt_trace::What;

/// Whether two sections are one.
fn is_same_section(one: Section, other: Section) -> bool
    ensures { IsTrue result ↔ (one ≡ other) }
{
    one == other
}

/// Whether an item shows that a section is entered.
pub fn is_enter(what: &What, section: Section) -> bool
    ensures { IsTrue result ↔ (what.now ≡ What.Enter section) }
{
    match what {
        What::Enter(entered) => is_same_section(*entered, section),
        _other => false,
    }
}

/// Whether an item shows that a section is left, with this value.
pub fn is_leave(what: &What, section: Section, value: Option<u32>) -> bool
    ensures { IsTrue result ↔ (what.now ≡ What.Leave section value) }
{
    match what {
        What::Leave(left, shown) => {
            if !is_same_section(*left, section) {
                return false;
            }
            *shown == value
        }
        _other => false,
    }
}

/// Whether an item shows that a value is emitted.
pub fn is_emit(what: &What, value: u32) -> bool
    ensures { IsTrue result ↔ (what.now ≡ What.Emit value) }
{
    match what {
        What::Emit(emitted) => *emitted == value,
        _other => false,
    }
}

/// Whether an item shows that a place of a task is taken.
pub fn is_placed(what: &What, task: TaskId) -> bool
    ensures { IsTrue result ↔ (what.now ≡ What.Placed task) }
{
    match what {
        What::Placed(placed) => *placed == task,
        _other => false,
    }
}

/// Whether an item shows that all places of a task are out.
pub fn is_full(what: &What, task: TaskId) -> bool
    ensures { IsTrue result ↔ (what.now ≡ What.Full task) }
{
    match what {
        What::Full(full) => *full == task,
        _other => false,
    }
}

/// Whether an item shows that a message to a task becomes ready.
pub fn is_ready(what: &What, task: TaskId) -> bool
    ensures { IsTrue result ↔ (what.now ≡ What.Ready task) }
{
    match what {
        What::Ready(ready) => *ready == task,
        _other => false,
    }
}

/// Whether an item shows that this message starts.
pub fn is_start(what: &What, message: &Message) -> bool
    ensures { IsTrue result ↔ (what.now ≡ What.Start message.now.task message.now.args) }
{
    match what {
        What::Start(task, args) => {
            if *task != message.task() {
                return false;
            }
            args.values() == message.values()
        }
        _other => false,
    }
}

/// Whether an item shows that a place of a task is given back.
pub fn is_free(what: &What, task: TaskId) -> bool
    ensures { IsTrue result ↔ (what.now ≡ What.Free task) }
{
    match what {
        What::Free(free) => *free == task,
        _other => false,
    }
}

/// Whether an item shows that the interrupt of this number is made pending.
pub fn is_post(what: &What, irq: u16) -> bool
    ensures { IsTrue result ↔ (what.now ≡ What.Post irq) }
{
    match what {
        What::Post(posted) => posted.get() == irq,
        _other => false,
    }
}

/// Whether an item shows that the handler of the interrupt of this number returns.
pub fn is_return(what: &What, irq: u16) -> bool
    ensures { IsTrue result ↔ (what.now ≡ What.Ret irq) }
{
    match what {
        What::Ret(left) => left.get() == irq,
        _other => false,
    }
}

/// Whether an item shows a reading of this time.
pub fn is_clock(what: &What, time: u64) -> bool
    ensures { IsTrue result ↔ (what.now ≡ What.Clock time) }
{
    match what {
        What::Clock(read) => u64::from(*read) == time,
        _other => false,
    }
}

/// Whether an item shows that a message to a task is armed for this instant.
pub fn is_arm(what: &What, task: TaskId, instant: u64) -> bool
    ensures { IsTrue result ↔ (what.now ≡ What.Arm task instant) }
{
    match what {
        What::Arm(armed, at) => {
            if *armed != task {
                return false;
            }
            u64::from(*at) == instant
        }
        _other => false,
    }
}

/// Whether an item shows that a message to a task fires.
pub fn is_fire(what: &What, task: TaskId) -> bool
    ensures { IsTrue result ↔ (what.now ≡ What.Fire task) }
{
    match what {
        What::Fire(fired) => *fired == task,
        _other => false,
    }
}

/// Whether an item shows that the message of a task that has this handle is taken back.
pub fn is_cancel(what: &What, task: TaskId, handle: u32) -> bool
    ensures { IsTrue result ↔ (what.now ≡ What.Cancel task handle) }
{
    match what {
        What::Cancel(cancelled, told) => {
            if *cancelled != task {
                return false;
            }
            *told == handle
        }
        _other => false,
    }
}

/// Whether an item shows that the message of a task that has this handle is put to this instant.
pub fn is_move(what: &What, task: TaskId, handle: u32, instant: u64) -> bool
    ensures { IsTrue result ↔ (what.now ≡ What.Move task handle instant) }
{
    match what {
        What::Move(moved, told, at) => {
            if *moved != task {
                return false;
            }
            if *told != handle {
                return false;
            }
            u64::from(*at) == instant
        }
        _other => false,
    }
}

/// Whether an item shows that the alarm comes.
pub fn is_alarm(what: &What) -> bool
    ensures { IsTrue result ↔ (what.now ≡ What.Alarm) }
{
    match what {
        What::Alarm => true,
        _other => false,
    }
}

/// Whether an item shows that the alarm is set.
pub fn is_set(what: &What) -> bool
    ensures { IsTrue result ↔ (what.now ≡ What.AlarmSet) }
{
    match what {
        What::AlarmSet => true,
        _other => false,
    }
}

/// Whether an item shows that the body of a task ends.
pub fn is_task_end(what: &What, task: TaskId) -> bool
    ensures { IsTrue result ↔ (what.now ≡ What.End (body.Task task)) }
{
    match what {
        What::End(BodyId::Task(ended)) => *ended == task,
        _other => false,
    }
}

/// Whether an item shows that `init` ends.
pub fn is_init_end(what: &What) -> bool
    ensures { IsTrue result ↔ (what.now ≡ What.End body.Init) }
{
    match what {
        What::End(BodyId::Init) => true,
        _other => false,
    }
}

/// Whether an item shows that `idle` ends.
pub fn is_idle_end(what: &What) -> bool
    ensures { IsTrue result ↔ (what.now ≡ What.End body.Idle) }
{
    match what {
        What::End(BodyId::Idle) => true,
        _other => false,
    }
}
