// What is done with the time that was read.

ghost use Rattle.std.specs.Prelude.{◌≡◌, ◌+◌, ◌<◌, ◌^◌, min, OnOk};
ghost use Rattle.rt_ids.specs.declared.limits.TheConstants.{LONGEST_DELAY};
ghost use Rattle.rt_app.specs.Tree.{App};
ghost use Rattle.rt_baker_work.specs.Store as store;
ghost use Rattle.rt_baker_work.specs.Todo.{use_clock};
ghost use Rattle.rt_baker_work.specs.Work.{Becomes};

use crate::action::Action;
use crate::message::Message;
use crate::todo::{Reading, Todo};
use crate::work::Work;
use rt_ids::limits::LONGEST_DELAY;
use rt_ids::{NoMemory, TaskId};

/// A variable comes to hold the time.
fn bind<'a>(variable: u16, time: u64, work: &mut Work<'a>)
    requires { time < 2 ^ 32 }
    ensures { (app : App) (s : store.Store) → Becomes app (use_clock app (Reading.Bind variable) time) work.old s
        work.new
        s }
{
    work.set(variable, time as u32);
}

/// The instant so many ticks from a time.
fn instant_after(time: u64, delay: u32) -> u64
    requires { time < 2 ^ 32 }
    ensures { result ≡ time + min delay LONGEST_DELAY }
{
    time + u64::from(delay.min(LONGEST_DELAY))
}

/// A message is armed, so many ticks from this time.
fn arm<'a>(delay: u32, message: Message, time: u64, work: &mut Work<'a>) -> Result<(), NoMemory>
    requires { time < 2 ^ 32 }
    ensures { OnOk result ((app : App) (s : store.Store) → Becomes app (use_clock app (Reading.Arm delay message) time)
        work.old s work.new s) }
{
    let instant = instant_after(time, delay);
    work.push(Todo::Act(Action::Arm(instant, message)))?;
    Ok(())
}

/// The message of a handle is put off, to so many ticks from this time.
fn put_off<'a>(
    delay: u32,
    task: TaskId,
    handle: u32,
    time: u64,
    work: &mut Work<'a>,
) -> Result<(), NoMemory>
    requires { time < 2 ^ 32 }
    ensures { OnOk result ((app : App) (s : store.Store) → Becomes app (use_clock app (Reading.Move delay task handle)
        time) work.old s work.new s) }
{
    let instant = instant_after(time, delay);
    work.push(Todo::Act(Action::Move(task, handle, instant)))?;
    Ok(())
}

/// The clock, which was read for this, answers the time, in ticks.
pub fn answer<'a>(reading: Reading, time: u64, work: &mut Work<'a>) -> Result<(), NoMemory>
    requires { time < 2 ^ 32 }
    ensures { OnOk result ((app : App) (s : store.Store) → Becomes app (use_clock app reading time) work.old s work.new
        s) }
{
    match reading {
        Reading::Bind(variable) => {
            bind(variable, time, work);
            Ok(())
        }
        Reading::Arm(delay, message) => {
            arm(delay, message, time, work)?;
            Ok(())
        }
        Reading::Move(delay, task, handle) => {
            put_off(delay, task, handle, time, work)?;
            Ok(())
        }
        Reading::Fire => {
            work.push(Todo::Due(time))?;
            Ok(())
        }
    }
}
