// What a `cancel` and a `reschedule_after` do.

ghost use Rattle.std.specs.Prelude.{◌+◌, ◌<◌, ◌≤◌, ◌^◌, OnOk};
ghost use Rattle.rt_actions.specs.Action.{Leaves};
ghost use Rattle.rt_ids.specs.declared.ids.Section.TheVariants as section;
ghost use Rattle.rt_app.specs.Tree.{App};
ghost use Rattle.rt_app.specs.Sending.{act};
ghost use Rattle.rt_baker_work.specs.Todo.{give_answer, meaning};
ghost use Rattle.rt_baker_work.specs.Work.{Becomes};
ghost use Rattle.rt_baker_work.specs.Inside.Pushes.{Pushes};
ghost use Rattle.rt_baker_work.specs.Inside.Weights.{weights};

use crate::action::Action;
use crate::dispatch::free_place;
use crate::sending::tell;
use crate::store::Store;
use crate::todo::{Reading, Todo};
use crate::work::Work;
use rt_ids::{NoMemory, Section, TaskId};

/// A variable comes to hold the handle that was given last.
pub(crate) fn told_handle<'a>(variable: u16, work: &mut Work<'a>, store: &Store)
    requires { store.now.timed.given < 2 ^ 32 }
    ensures same { (app : App) → Becomes app (meaning app (Todo.Handle variable)) work.old store.now work.new
        store.now }
    ensures lighter { (app : App) → weights app work.new.todos ≤ weights app work.old.todos }
{
    work.set(variable, store.last_handle() as u32);
}

/// No armed message has the handle: a variable comes to hold 1.
fn miss<'a>(variable: Option<u16>, work: &mut Work<'a>) -> Result<(), NoMemory>
    ensures same { OnOk result ((app : App) → Pushes app
        (λ later vars. act (Leaves section.Timer) (give_answer variable 1
        later vars)) work.old work.new) }
    ensures lighter { OnOk result ((app : App) → weights app work.new.todos ≤ weights app work.old.todos + 1) }
{
    tell(variable, 1, work)?;
    work.push(Todo::Act(Action::Leave(Section::Timer)))?;
    Ok(())
}

/// Inside the section of the armed messages, the message of a task that has a handle is taken back, where there is one.
pub(crate) fn cancel<'a>(
    variable: Option<u16>,
    task: TaskId,
    handle: u32,
    work: &mut Work<'a>,
    store: &Store,
) -> Result<(), NoMemory>
    ensures same { OnOk result ((app : App) → Becomes app (meaning app (Todo.Cancel variable task handle)) work.old
        store.now work.new store.now) }
    ensures lighter { OnOk result ((app : App) → weights app work.new.todos ≤ weights app work.old.todos + 1) }
{
    if !store.is_armed_as(task, handle) {
        miss(variable, work)?;
        return Ok(());
    }
    tell(variable, 0, work)?;
    free_place(task, work)?;
    work.push(Todo::Act(Action::Leave(Section::Timer)))?;
    work.push(Todo::Act(Action::SetAlarm))?;
    work.push(Todo::Act(Action::Cancel(task, handle)))?;
    Ok(())
}

/// Likewise it is put off, to so many ticks from the time that is then.
pub(crate) fn put_off<'a>(
    variable: Option<u16>,
    delay: u32,
    task: TaskId,
    handle: u32,
    work: &mut Work<'a>,
    store: &Store,
) -> Result<(), NoMemory>
    ensures same { OnOk result ((app : App) → Becomes app (meaning app (Todo.Move variable delay task handle)) work.old
        store.now work.new store.now) }
    ensures lighter { OnOk result ((app : App) → weights app work.new.todos ≤ weights app work.old.todos + 1) }
{
    if !store.is_armed_as(task, handle) {
        miss(variable, work)?;
        return Ok(());
    }
    tell(variable, 0, work)?;
    work.push(Todo::Act(Action::Leave(Section::Timer)))?;
    work.push(Todo::Act(Action::SetAlarm))?;
    work.push(Todo::Clock(Reading::Move(delay, task, handle)))?;
    Ok(())
}
