// What a dispatcher does.

ghost use Rattle.std.specs.Prelude.{◌≡◌, ◌+◌, ◌≤◌, ◌∷◌, [], ◌++◌, OnOk, List, if◌then◌else◌};
ghost use Rattle.rt_ids.specs.Lists.{is_empty};
ghost use Rattle.rt_actions.specs.Content as content;
ghost use Rattle.rt_ids.specs.declared.ids.Section.TheVariants as section;
ghost use Rattle.rt_app.specs.declared.costs.TheConstants.{FREE_COST};
ghost use Rattle.rt_app.specs.View.{app_of};
ghost use Rattle.rt_app.specs.Sending.{dispatcher_number};
ghost use Rattle.rt_baker_work.specs.Code.{IsCode};
ghost use Rattle.rt_baker_work.specs.Todo.{meaning, start_message};
ghost use Rattle.rt_baker_work.specs.Work.{Becomes};
ghost use Rattle.rt_baker_work.specs.Inside.Pushes.{Pushes};
ghost use Rattle.rt_baker_work.specs.Inside.Weights.{bodies_weight, weights};

use crate::action::Action;
use crate::code::Code;
use crate::message::Message;
use crate::sending::dispatcher;
use crate::store::Store;
use crate::todo::Todo;
use crate::work::Work;
use rt_app::costs::FREE_COST;
use rt_ids::{NoMemory, Prio, Section, TaskId};
use std::alloc::Global;

/// A place of a task is given back.
pub(crate) fn free_place<'a>(task: TaskId, work: &mut Work<'a>) -> Result<(), NoMemory>
    ensures { OnOk result (work.new ≡ record work.old {
      todos = work.old.todos ++ Todo.Act (Action.Leave (section.Free task)) ∷ Todo.Act (Action.Free task)
          ∷ Todo.Act (Action.Enter (section.Free task) FREE_COST) ∷ [];
    }) }
{
    work.push(Todo::Act(Action::Leave(Section::Free(task))))?;
    work.push(Todo::Act(Action::Free(task)))?;
    work.push(Todo::Act(Action::Enter(Section::Free(task), FREE_COST)))?;
    Ok(())
}

/// The place of a message is given back, and then its task's body runs with it, to its end.
fn serve<'a>(alloc: Global, message: &Message, work: &mut Work<'a>) -> Result<(), NoMemory>
    ensures { OnOk result (work.new ≡ record work.old {
      todos = work.old.todos ++ Todo.Act (Action.End message.now.task) ∷ Todo.Begin message.now
          ∷ Todo.Act (Action.Leave (section.Free message.now.task)) ∷ Todo.Act (Action.Free message.now.task)
          ∷ Todo.Act (Action.Enter (section.Free message.now.task) FREE_COST) ∷ [];
    }) }
{
    let carried = message.duplicate(alloc)?;
    work.push(Todo::Act(Action::End(message.task)))?;
    work.push(Todo::Begin(carried))?;
    free_place(message.task, work)?;
    Ok(())
}

/// The dispatcher of a level is pended again, but for the last of its messages.
fn repost<'a>(
    code: &Code<'a>,
    level: u8,
    is_last: bool,
    work: &mut Work<'a>,
) -> Result<(), NoMemory>
    requires { IsCode code.now }
    ensures { OnOk result (work.new ≡ record work.old {
      todos = work.old.todos ++ (if is_last then [] else Todo.Act (Action.Post (dispatcher_number (app_of
          code.now.app.now) level)) ∷ []);
    }) }
{
    if is_last {
        return Ok(());
    }
    work.push(Todo::Act(Action::Post(dispatcher(code, level))))?;
    Ok(())
}

/// The oldest message of a level starts.
fn start<'a>(
    code: &Code<'a>,
    level: u8,
    oldest: &Message,
    is_last: bool,
    work: &mut Work<'a>,
) -> Result<(), NoMemory>
    requires { IsCode code.now }
    ensures same { let app = app_of code.now.app.now in
        OnOk result ((rest : List content.Message) → is_empty rest ≡ is_last
        → Pushes app (start_message app level (oldest.now ∷ rest)) work.old work.new) }
    ensures lighter { let app = app_of code.now.app.now in
        OnOk result (weights app work.new.todos ≤ weights app work.old.todos + (bodies_weight app.tasks + 1)) }
{
    let started = oldest.duplicate(code.alloc)?;
    serve(code.alloc, oldest, work)?;
    work.push(Todo::Act(Action::Leave(Section::Ready(Prio(level)))))?;
    repost(code, level, is_last, work)?;
    work.push(Todo::Act(Action::Start(level, started)))?;
    Ok(())
}

/// Inside the section of a level's messages, the oldest of them starts, where there is one.
pub(crate) fn dispatch<'a>(
    code: &Code<'a>,
    level: u8,
    work: &mut Work<'a>,
    store: &Store,
) -> Result<(), NoMemory>
    requires { IsCode code.now }
    ensures same { let app = app_of code.now.app.now in
        OnOk result (Becomes app (meaning app (Todo.Dispatch level)) work.old store.now work.new store.now) }
    ensures lighter { let app = app_of code.now.app.now in
        OnOk result (weights app work.new.todos ≤ weights app work.old.todos + (bodies_weight app.tasks + 1)) }
{
    match store.ready(level).split_first() {
        None => {
            work.push(Todo::Act(Action::Leave(Section::Ready(Prio(level)))))?;
            Ok(())
        }
        Some((oldest, rest)) => {
            start(code, level, oldest, rest.len() == 0, work)?;
            Ok(())
        }
    }
}
