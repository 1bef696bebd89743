// The armed messages: the first that is due, and the one of a handle.

ghost use Rattle.std.specs.Prelude.{◌≡◌, ◌≤◌, OnOk, None, Some, option_map, position};
ghost use Rattle.rt_actions.specs.Content.{least_instant, lesser, has_instant, has_handle};
ghost use Rattle.rt_app.specs.Tree as tree;
ghost use Rattle.rt_app.specs.View.{app_of};
ghost use Rattle.rt_app.specs.Doings.{due};
ghost use Rattle.rt_baker_work.specs.Code.{IsCode};
ghost use Rattle.rt_baker_work.specs.Todo.{meaning};
ghost use Rattle.rt_baker_work.specs.Work.{Becomes};
ghost use Rattle.rt_baker_work.specs.Inside.Weights.{weights};

use crate::action::Action;
use crate::code::Code;
use crate::message::Armed;
use crate::sending::make_ready;
use crate::store::Store;
use crate::todo::Todo;
use crate::work::Work;
use rt_ids::{NoMemory, Section, TaskId};

/// The lesser of an instant and of another, where there is one.
fn lesser(instant: u64, other: Option<u64>) -> u64
    ensures { result ≡ lesser instant other }
{
    match other {
        None => instant,
        Some(other) => instant.min(other),
    }
}

/// The least instant that is armed.
pub fn least_instant(armed: &[Armed]) -> Option<u64>
    ensures { result ≡ least_instant armed.now }
{
    let mut least = None;
    for message in armed {
        least = Some(lesser(message.instant, least));
    }
    least
}

/// The index of the first that was armed of those of the least instant.
pub(crate) fn least(armed: &[Armed]) -> Option<usize>
    ensures { result ≡ position (has_instant (least_instant armed.now)) armed.now }
{
    match least_instant(armed) {
        None => None,
        Some(instant) => armed.iter().position(|message| message.instant == instant),
    }
}

/// Whether it is a message of a task, and has a handle.
fn has_handle(armed: &Armed, task: TaskId, handle: u32) -> bool
    ensures { result ≡ has_handle task handle armed.now }
{
    armed.message.task == task && armed.handle == u64::from(handle)
}

/// The index of the armed message of a task that has a handle.
pub(crate) fn by_handle(armed: &[Armed], task: TaskId, handle: u32) -> Option<usize>
    ensures { result ≡ position (has_handle task handle) armed.now }
{
    armed
        .iter()
        .position(|message| has_handle(message, task, handle))
}

/// The least armed message, where its instant is not later than the time.
fn due(armed: &[Armed], time: u64) -> Option<&Armed>
    ensures { (app : tree.App) → option_map (λ a. a.now) result ≡ due app time armed.now }
{
    match least(armed) {
        None => None,
        Some(index) => match armed.get(index) {
            None => None,
            Some(first) => {
                if first.instant > time {
                    return None;
                }
                Some(first)
            }
        },
    }
}

/// Inside the section of the armed messages, one that is due becomes ready.
pub(crate) fn fire<'a>(
    code: &Code<'a>,
    time: u64,
    work: &mut Work<'a>,
    store: &Store,
) -> Result<(), NoMemory>
    requires { IsCode code.now }
    ensures same { let app = app_of code.now.app.now in
        OnOk result (Becomes app (meaning app (Todo.Due time)) work.old store.now work.new store.now) }
    ensures lighter { let app = app_of code.now.app.now in
        OnOk result (weights app work.new.todos ≤ weights app work.old.todos) }
{
    match due(store.delays(), time) {
        None => {
            work.push(Todo::Act(Action::Leave(Section::Timer)))?;
            work.push(Todo::Act(Action::SetAlarm))?;
            Ok(())
        }
        Some(first) => {
            let fired = first.message.duplicate(code.alloc)?;
            make_ready(code, first.message.duplicate(code.alloc)?, work)?;
            work.push(Todo::Act(Action::Leave(Section::Timer)))?;
            work.push(Todo::Act(Action::SetAlarm))?;
            work.push(Todo::Act(Action::Fire(fired)))?;
            Ok(())
        }
    }
}
