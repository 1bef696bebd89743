// What a spawn does.

ghost use Rattle.std.specs.Prelude.{◌≡◌, ◌+◌, ◌≤◌, OnOk};
ghost use Rattle.rt_app.specs.Tree.{App};
ghost use Rattle.rt_app.specs.View.{app_of};
ghost use Rattle.rt_app.specs.Bodies.{task_priority};
ghost use Rattle.rt_app.specs.BodyCost.{timer_section_cost};
ghost use Rattle.rt_app.specs.Sending.{act_all, arm_actions, dispatcher_number, ready_actions};
ghost use Rattle.rt_baker_work.specs.Code.{IsCode};
ghost use Rattle.rt_baker_work.specs.Todo.{give_answer, give_handle, send_message, place_message};
ghost use Rattle.rt_baker_work.specs.Work.{Becomes};
ghost use Rattle.rt_baker_work.specs.Inside.Pushes.{Pushes};
ghost use Rattle.rt_baker_work.specs.Inside.Weights.{weights};

use crate::action::Action;
use crate::code::Code;
use crate::lookup::{capacity, priority};
use crate::message::Message;
use crate::store::Store;
use crate::todo::{Reading, Todo};
use crate::work::Work;
use rt_app::costs::READY_COST;
use rt_ids::{NoMemory, Prio, Section};

/// The number of the dispatcher of a level.
pub(crate) fn dispatcher<'a>(code: &Code<'a>, level: u8) -> u16
    requires { IsCode code.now }
    ensures { result ≡ dispatcher_number (app_of code.now.app.now) level }
{
    code.dispatchers[usize::from(level)]
}

/// A variable, where there is one, comes to hold what a spawn gave.
pub(crate) fn tell<'a>(
    variable: Option<u16>,
    value: u32,
    work: &mut Work<'a>,
) -> Result<(), NoMemory>
    ensures same { OnOk result ((app : App) → Pushes app (give_answer variable value) work.old work.new) }
    ensures lighter { OnOk result ((app : App) → weights app work.new.todos ≤ weights app work.old.todos + 1) }
{
    match variable {
        None => Ok(()),
        Some(variable) => {
            work.push(Todo::Set(variable, value))?;
            Ok(())
        }
    }
}

/// A variable, where there is one, comes to hold the handle that was given last.
fn tell_handle<'a>(variable: Option<u16>, work: &mut Work<'a>) -> Result<(), NoMemory>
    ensures same { OnOk result ((app : App) → Pushes app (give_handle variable) work.old work.new) }
    ensures lighter { OnOk result ((app : App) → weights app work.new.todos ≤ weights app work.old.todos + 1) }
{
    match variable {
        None => Ok(()),
        Some(variable) => {
            work.push(Todo::Handle(variable))?;
            Ok(())
        }
    }
}

/// A message becomes ready at the level of its task.
pub(crate) fn make_ready<'a>(
    code: &Code<'a>,
    message: Message,
    work: &mut Work<'a>,
) -> Result<(), NoMemory>
    requires { IsCode code.now }
    ensures same { let app = app_of code.now.app.now in
        OnOk result (Pushes app (λ later vars. act_all (ready_actions app (task_priority app message.task) message)
        (later vars)) work.old work.new) }
    ensures lighter { let app = app_of code.now.app.now in
        OnOk result (weights app work.new.todos ≤ weights app work.old.todos) }
{
    let level = priority(code.app, message.task);
    work.push(Todo::Act(Action::Leave(Section::Ready(Prio(level)))))?;
    work.push(Todo::Act(Action::Post(dispatcher(code, level))))?;
    work.push(Todo::Act(Action::Ready(level, message)))?;
    work.push(Todo::Act(Action::Enter(Section::Ready(Prio(level)), READY_COST)))?;
    Ok(())
}

/// A message is armed, so many ticks from the time that is then. A variable comes to hold its handle.
fn arm<'a>(
    code: &Code<'a>,
    variable: Option<u16>,
    ticks: u32,
    message: Message,
    work: &mut Work<'a>,
) -> Result<(), NoMemory>
    requires { IsCode code.now }
    ensures same { let app = app_of code.now.app.now in
        OnOk result (Pushes app (λ later vars. arm_actions app (timer_section_cost app) ticks message (λ handle.
        give_answer variable handle later vars)) work.old work.new) }
    ensures lighter { let app = app_of code.now.app.now in
        OnOk result (weights app work.new.todos ≤ weights app work.old.todos + 1) }
{
    work.push(Todo::Act(Action::Leave(Section::Timer)))?;
    work.push(Todo::Act(Action::SetAlarm))?;
    tell_handle(variable, work)?;
    work.push(Todo::Clock(Reading::Arm(ticks, message)))?;
    work.push(Todo::Act(Action::Enter(Section::Timer, code.timer_section)))?;
    Ok(())
}

/// A message goes to its queue, at once or after a delay. A variable comes to hold 1, or its handle where it is armed.
fn send<'a>(
    code: &Code<'a>,
    variable: Option<u16>,
    delay: Option<u32>,
    message: Message,
    work: &mut Work<'a>,
) -> Result<(), NoMemory>
    requires { IsCode code.now }
    ensures same { let app = app_of code.now.app.now in
        OnOk result (Pushes app (λ later vars. send_message app delay message (λ value.
        give_answer variable value later vars)) work.old work.new) }
    ensures lighter { let app = app_of code.now.app.now in
        OnOk result (weights app work.new.todos ≤ weights app work.old.todos + 1) }
{
    match delay {
        None => {
            tell(variable, 1, work)?;
            make_ready(code, message, work)?;
            Ok(())
        }
        Some(ticks) => {
            arm(code, variable, ticks, message, work)?;
            Ok(())
        }
    }
}

/// Inside the section of its task's places, a message is sent where one is left.
pub(crate) fn place<'a>(
    code: &Code<'a>,
    variable: Option<u16>,
    delay: Option<u32>,
    message: Message,
    work: &mut Work<'a>,
    store: &Store,
) -> Result<(), NoMemory>
    requires { IsCode code.now }
    ensures same { let app = app_of code.now.app.now in
        OnOk result (Becomes app (place_message app variable delay message) work.old store.now work.new store.now) }
    ensures lighter { let app = app_of code.now.app.now in
        OnOk result (weights app work.new.todos ≤ weights app work.old.todos + 1) }
{
    let task = message.task;
    if store.places_out(task) >= u32::from(capacity(code.app, task)) {
        tell(variable, 0, work)?;
        work.push(Todo::Act(Action::Leave(Section::Free(task))))?;
        work.push(Todo::Act(Action::Full(task)))?;
        return Ok(());
    }
    send(code, variable, delay, message, work)?;
    work.push(Todo::Act(Action::Leave(Section::Free(task))))?;
    work.push(Todo::Act(Action::Place(task)))?;
    Ok(())
}
