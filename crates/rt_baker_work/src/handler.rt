// How a handler begins.

ghost use Rattle.std.specs.Prelude.{◌≡◌, ◌≤◌, OnOk, length};
ghost use Rattle.rt_ids.specs.declared.limits.TheConstants.{TASKS};
ghost use Rattle.rt_app.specs.View.{app_of};
ghost use Rattle.rt_app.specs.BodyCost.{dispatcher_section_cost};
ghost use Rattle.rt_baker_work.specs.Code.{IsCode, handler_of};
ghost use Rattle.rt_baker_work.specs.Handlers.{run_handler};
ghost use Rattle.rt_baker_work.specs.Store as store;
ghost use Rattle.rt_baker_work.specs.Work.{Becomes};

use crate::action::Action;
use crate::begin::begin;
use crate::code::{Code, Handler};
use crate::message::Message;
use crate::todo::{Reading, Todo};
use crate::work::Work;
use rt_app::App;
use rt_app::costs::{READY_COST, READY_TASK_COST};
use rt_frames::tasks_of_level;
use rt_ids::{NoMemory, Prio, Section};

/// Core steps of the section of a level's messages in their dispatcher.
fn section_cost(app: &App, level: u8) -> u32
    requires { length (app_of app.now).tasks ≤ TASKS }
    ensures { result ≡ dispatcher_section_cost (app_of app.now) level }
{
    READY_COST + READY_TASK_COST * (tasks_of_level(&app.tasks, level) as u32)
}

/// The handler of an interrupt begins. Its return is no thing to do: it comes after all of them.
pub fn handle<'a>(code: &Code<'a>, handler: Handler, work: &mut Work<'a>) -> Result<(), NoMemory>
    requires { IsCode code.now }
    ensures { let app = app_of code.now.app.now in
        OnOk result ((s : store.Store) → Becomes app (run_handler app (handler_of handler)) work.old s work.new s) }
{
    match handler {
        Handler::Runs(task) => {
            let args = Vec::new(code.alloc);
            begin(code.app, Message { task, args }, work)?;
            Ok(())
        }
        Handler::Dispatches(level) => {
            let cost = section_cost(code.app, level);
            work.push(Todo::Dispatch(level))?;
            work.push(Todo::Act(Action::Enter(Section::Ready(Prio(level)), cost)))?;
            Ok(())
        }
        Handler::Times => {
            work.push(Todo::Clock(Reading::Fire))?;
            work.push(Todo::Act(Action::Enter(Section::Timer, code.timer_section)))?;
            Ok(())
        }
    }
}
