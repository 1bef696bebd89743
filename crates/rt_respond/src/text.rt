// Writes the lines of the report.

ghost use Rattle.std.specs.Prelude.{◌≡◌, ◌++◌, flat_map, slice_get, IfOk, OnOk};
ghost use Rattle.rt_app.specs.View.{task_of, app_of};
ghost use Rattle.rt_rta.specs.Report.{steps_text};
ghost use Rattle.rt_respond.specs.Lines as spec;

use crate::report::{Caused, Judged, Report, Requests, Served};
use crate::response::Response;
use rt_app::{App, Task};
use rt_ids::{NoMemory, TaskId, push_bytes, push_number};
use std::alloc::Global;

/// Appends the name of an interrupt, by its index.
pub(crate) fn push_irq(out: &mut Vec<u8>, app: &App, irq: u8) -> Result<(), NoMemory>
    ensures { OnOk result (out.new.items ≡ out.old.items ++ spec.irq_text (app_of app.now) irq) }
{
    match app.irqs.get(usize::from(irq)) {
        None => Ok(()),
        Some(irq) => push_bytes(out, irq.name.bytes()),
    }
}

/// Appends the name of a task: that of the interrupt that it binds, or its own.
pub(crate) fn push_judged_name(out: &mut Vec<u8>, app: &App, task: &Task) -> Result<(), NoMemory>
    ensures { let t = task_of task.now in
        OnOk result (out.new.items ≡ out.old.items ++ spec.judged_name (app_of app.now) t t.binds) }
{
    match task.binds {
        None => push_bytes(out, task.name.bytes()),
        Some(irq) => push_irq(out, app, irq),
    }
}

/// Appends the name of the task of this number.
fn push_task(out: &mut Vec<u8>, app: &App, task: TaskId) -> Result<(), NoMemory>
    ensures { OnOk result (out.new.items ≡ out.old.items ++ spec.task_text (app_of app.now) task) }
{
    match app.task(task) {
        None => Ok(()),
        Some(task) => push_judged_name(out, app, task),
    }
}

/// The word of the line of a task.
fn answer_word(app: &App, task: TaskId) -> &'static [u8]
    ensures { let all = app_of app.now in result.now ≡ spec.answer_word all (slice_get all.tasks task) }
{
    match app.task(task) {
        None => b"irq ",
        Some(task) => {
            if task.is_software() {
                b"task "
            } else {
                b"irq "
            }
        }
    }
}

/// Appends a response time.
fn push_response(out: &mut Vec<u8>, response: Response) -> Result<(), NoMemory>
    ensures { OnOk result (out.new.items ≡ out.old.items ++ spec.response_text response) }
{
    match response {
        Response::Steps(steps) => push_number(out, steps),
        Response::Cycle => push_bytes(out, b"- cycle"),
        Response::Over => push_bytes(out, b"- over"),
    }
}

/// Appends a line of a word and a task.
fn push_note(out: &mut Vec<u8>, app: &App, word: &[u8], task: TaskId) -> Result<(), NoMemory>
    ensures { OnOk result (out.new.items ≡ out.old.items ++ spec.note (app_of app.now) word.now task) }
{
    push_bytes(out, word)?;
    push_task(out, app, task)?;
    push_bytes(out, b"\n")
}

/// Appends how requests of an interrupt may come, where that is told.
fn push_requests(
    out: &mut Vec<u8>,
    app: &App,
    requests: Requests,
    task: TaskId,
) -> Result<(), NoMemory>
    ensures { OnOk result (out.new.items ≡ out.old.items ++ spec.requests_text (app_of app.now) requests task) }
{
    match requests {
        Requests::Never => push_note(out, app, b"never ", task),
        Requests::Merge => push_note(out, app, b"merge ", task),
        Requests::Apart => Ok(()),
        Requests::Messages => Ok(()),
    }
}

/// Appends the line of the response time of a task.
fn push_answer(out: &mut Vec<u8>, app: &App, row: &Served) -> Result<(), NoMemory>
    ensures { OnOk result (out.new.items ≡ out.old.items ++ spec.answer_text (app_of app.now) row.now) }
{
    push_bytes(out, answer_word(app, row.task))?;
    push_task(out, app, row.task)?;
    push_bytes(out, b" ")?;
    push_number(out, u32::from(row.priority))?;
    push_bytes(out, b" ")?;
    push_response(out, row.response)?;
    push_bytes(out, b"\n")
}

/// Appends the line of the room that a task's messages need, and of its capacity.
#[tactic(auto, unfolding(crate::specs::Lines::room_text))]
fn push_room(out: &mut Vec<u8>, app: &App, row: &Served) -> Result<(), NoMemory>
    ensures { OnOk result (out.new.items ≡ out.old.items ++ spec.room_text (app_of app.now) row.now) }
{
    push_bytes(out, b"room ")?;
    push_task(out, app, row.task)?;
    push_bytes(out, b" ")?;
    push_load(out, row.room)?;
    push_bytes(out, b" ")?;
    push_number(out, u32::from(row.capacity))?;
    push_bytes(out, b"\n")
}

/// Appends the line of a task's messages, where it is a software task.
fn push_messages(out: &mut Vec<u8>, app: &App, row: &Served) -> Result<(), NoMemory>
    ensures { OnOk result (out.new.items
        ≡ out.old.items ++ spec.messages_text (app_of app.now) row.now.requests row.now) }
{
    match row.requests {
        Requests::Messages => push_room(out, app, row),
        Requests::Never => Ok(()),
        Requests::Merge => Ok(()),
        Requests::Apart => Ok(()),
    }
}

/// Appends the lines of a task.
#[tactic(auto, unfolding(crate::specs::Lines::served_text))]
fn push_served(out: &mut Vec<u8>, app: &App, row: &Served) -> Result<(), NoMemory>
    ensures { OnOk result (out.new.items ≡ out.old.items ++ spec.served_text (app_of app.now) row.now) }
{
    push_answer(out, app, row)?;
    push_requests(out, app, row.requests, row.task)?;
    push_messages(out, app, row)
}

/// Appends the line of what comes of a request.
#[tactic(auto, unfolding(crate::specs::Lines::caused_text))]
fn push_caused(out: &mut Vec<u8>, app: &App, row: &Caused) -> Result<(), NoMemory>
    ensures { OnOk result (out.new.items ≡ out.old.items ++ spec.caused_text (app_of app.now) row.now) }
{
    push_bytes(out, b"from ")?;
    push_irq(out, app, row.from)?;
    push_bytes(out, b" ")?;
    push_task(out, app, row.to)?;
    push_bytes(out, b" ")?;
    push_response(out, row.response)?;
    push_bytes(out, b"\n")
}

/// Appends a number that may need more than 32 bits, or a dash.
fn push_load(out: &mut Vec<u8>, load: Option<u64>) -> Result<(), NoMemory>
    ensures { OnOk result (out.new.items ≡ out.old.items ++ steps_text load) }
{
    match load {
        None => push_bytes(out, b"-"),
        Some(load) => push_bytes(out, itoa::Buffer::new().format(load).as_bytes()),
    }
}

/// Appends the line of a deadline.
#[tactic(auto, unfolding(crate::specs::Lines::judged_text))]
fn push_judged(out: &mut Vec<u8>, app: &App, row: &Judged) -> Result<(), NoMemory>
    ensures { OnOk result (out.new.items ≡ out.old.items ++ spec.judged_text (app_of app.now) row.now) }
{
    push_bytes(
        out,
        if row.is_met {
            b"met ".as_slice()
        } else {
            b"late ".as_slice()
        },
    )?;
    push_task(out, app, row.task)?;
    push_bytes(out, b" ")?;
    push_number(out, row.deadline)?;
    push_bytes(out, b"\n")
}

/// Appends the lines of tasks.
fn push_all_served(out: &mut Vec<u8>, app: &App, rows: &[Served]) -> Result<(), NoMemory>
    ensures { OnOk result (out.new.items
        ≡ out.old.items ++ flat_map (spec.served_text (app_of app.now)) rows.now) }
{
    for row in rows {
        push_served(out, app, row)?;
    }
    Ok(())
}

/// Appends the lines of what comes of requests.
fn push_all_caused(out: &mut Vec<u8>, app: &App, rows: &[Caused]) -> Result<(), NoMemory>
    ensures { OnOk result (out.new.items
        ≡ out.old.items ++ flat_map (spec.caused_text (app_of app.now)) rows.now) }
{
    for row in rows {
        push_caused(out, app, row)?;
    }
    Ok(())
}

/// Appends the lines of deadlines.
fn push_all_judged(out: &mut Vec<u8>, app: &App, rows: &[Judged]) -> Result<(), NoMemory>
    ensures { OnOk result (out.new.items
        ≡ out.old.items ++ flat_map (spec.judged_text (app_of app.now)) rows.now) }
{
    for row in rows {
        push_judged(out, app, row)?;
    }
    Ok(())
}

/// The report as text.
pub fn report_text(alloc: Global, app: &App, report: &Report) -> Result<Vec<u8>, NoMemory>
    ensures { IfOk result (λ text. text.items ≡ spec.report_text (app_of app.now) report.now) }
{
    let mut out = Vec::new(alloc);
    push_all_served(&mut out, app, &report.served)?;
    push_all_caused(&mut out, app, &report.caused)?;
    push_bytes(&mut out, b"load ")?;
    push_load(&mut out, report.load)?;
    push_bytes(&mut out, b"\n")?;
    push_all_judged(&mut out, app, &report.judged)?;
    Ok(out)
}
