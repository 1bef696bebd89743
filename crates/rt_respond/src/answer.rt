// What is written for an application under limits.

ghost use Rattle.std.specs.Prelude.{◌≡◌, ◌≤◌, ◌++◌, length, map, IfOk, OnOk};
ghost use Rattle.rt_ids.specs.declared.limits.TheConstants.{TASKS};
ghost use Rattle.rt_app.specs.View.{task_of, app_of};
ghost use Rattle.rt_app.specs.Accepted.{IsAccepted};
ghost use Rattle.rt_respond.specs.Limits.{AreLimits, deadline_of};
ghost use Rattle.rt_respond.specs.Answer as spec;

use crate::form::is_of_form;
use crate::limits::Limits;
use crate::report::respond;
use crate::text::{push_judged_name, report_text};
use rt_app::{App, Task};
use rt_ids::{NoMemory, TaskId, push_bytes, push_number};
use std::alloc::Global;

/// What is written, and whether a deadline is late.
#[derive(Drop)]
pub struct Answer {
    pub text: Vec<u8>,
    pub is_late: bool,
}

/// Appends the line of a deadline that has no number, where there is one.
fn push_late(
    out: &mut Vec<u8>,
    app: &App,
    task: &Task,
    deadline: Option<u32>,
) -> Result<(), NoMemory>
    ensures { let own = spec.late_text (app_of app.now) (task_of task.now) deadline in
        OnOk result (out.new.items ≡ out.old.items ++ own) }
{
    if let Some(steps) = deadline {
        push_bytes(out, b"late ")?;
        push_judged_name(out, app, task)?;
        push_bytes(out, b" ")?;
        push_number(out, steps)?;
        push_bytes(out, b"\n")?;
    }
    Ok(())
}

/// Appends the lines of the deadlines of tasks, the first of which has the number 0.
fn push_lates(out: &mut Vec<u8>, app: &App, limits: &Limits, tasks: &[Task]) -> Result<(), NoMemory>
    requires { length tasks.now ≤ TASKS }
    ensures { let own = spec.late_texts (app_of app.now) limits.now 0 (map task_of tasks.now) in
        OnOk result (out.new.items ≡ out.old.items ++ own) }
{
    for number in 0..tasks.len() {
        let deadline = limits.deadline_of(TaskId(number as u8));
        push_late(out, app, &tasks[number], deadline)?;
    }
    Ok(())
}

/// What is written of an application that is not of the form.
fn formless_text(alloc: Global, app: &App, limits: &Limits) -> Result<Vec<u8>, NoMemory>
    requires { length (app_of app.now).tasks ≤ TASKS }
    ensures { IfOk result (λ text. text.items ≡ spec.formless_text (app_of app.now) limits.now) }
{
    let mut out = Vec::new(alloc);
    push_bytes(&mut out, b"- form\n")?;
    push_lates(&mut out, app, limits, &app.tasks)?;
    Ok(out)
}

/// What is answered for an application under limits: its report, or that it is not of the form.
pub fn answer_of(alloc: Global, app: &App, limits: &Limits) -> Result<Answer, NoMemory>
    requires accepted { IsAccepted (app_of app.now) }
    requires limits { AreLimits (app_of app.now) limits.now }
    ensures { IfOk result (λ answer. spec.IsAnswer (app_of app.now) limits.now answer) }
{
    if !is_of_form(app) {
        return Ok(Answer {
            text: formless_text(alloc, app, limits)?,
            is_late: !limits.deadlines().is_empty(),
        });
    }
    let report = respond(alloc, app, limits)?;
    Ok(Answer {
        text: report_text(alloc, app, &report)?,
        is_late: report.is_late(),
    })
}
