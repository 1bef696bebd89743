// Reads one line of limits.

ghost use Rattle.std.specs.Prelude.{◌≡◌, ◌≤◌, ◌<◌, length, position, IfSome};
ghost use Rattle.rt_ids.specs.declared.limits.TheConstants.{TASKS};
ghost use Rattle.rt_lines.specs.Parts.{spaced_words};
ghost use Rattle.rt_lines.specs.Numbers as numbers;
ghost use Rattle.rt_app.specs.View.{task_of, app_of};
ghost use Rattle.rt_app.specs.Level.{is_armed};
ghost use Rattle.rt_respond.specs.Wording as spec;

use crate::handler::number_of;
use crate::limits::{Deadline, Delay, Limits};
use crate::refusal::Cause;
use rt_app::{App, Task};
use rt_frames::ArmedRows;
use rt_ids::{Irq, TaskId, is_identifier};
use rt_lines::{next_spaced_word, short_number};
use rt_rta::Limit;
use rt_script::{is_blank, is_comment, is_loose};

/// What a line says.
#[derive(Clone, Copy)]
pub enum Line {
    /// How often an interrupt is requested at most.
    Every(Limit),
    /// The least core steps between two ticks.
    Tick(u32),
    Delay(Delay),
    Deadline(Deadline),
}

/// What a line says behind these limits; None where it is blank or a comment.
pub(crate) fn read_line(app: &App, so_far: &Limits, line: &[u8]) -> Result<Option<Line>, Cause>
    requires { length (app_of app.now).tasks ≤ TASKS }
    ensures { result ≡ spec.limit_line (app_of app.now) so_far.now line.now }
{
    if is_blank(line) || is_comment(line) {
        return Ok(None);
    }
    if is_loose(line) {
        return Err(Cause::BadLine);
    }
    read_words(app, so_far, line).map(Some)
}

/// What the words of a line say.
fn read_words(app: &App, so_far: &Limits, line: &[u8]) -> Result<Line, Cause>
    requires { length (app_of app.now).tasks ≤ TASKS }
    ensures { result ≡ spec.words_tell (app_of app.now) so_far.now (spaced_words line.now) }
{
    let (verb, rest) = next_spaced_word(line).ok_or(Cause::BadLine)?;
    let (first, rest) = next_spaced_word(rest).ok_or(Cause::BadLine)?;
    match next_spaced_word(rest) {
        None => read_tick(app, so_far, verb, first),
        Some((count, rest)) => {
            if next_spaced_word(rest).is_none() && is_identifier(first) {
                let number = read_number(count)?;
                read_named(app, so_far, verb, first, number)
            } else {
                Err(Cause::BadLine)
            }
        }
    }
}

/// What a word and a number say.
fn read_tick(app: &App, so_far: &Limits, verb: &[u8], count: &[u8]) -> Result<Line, Cause>
    ensures { result ≡ spec.unnamed (app_of app.now) so_far.now verb.now count.now }
{
    if verb != b"tick".as_slice() {
        return Err(Cause::BadLine);
    }
    let steps = read_number(count)?;
    if app.mono.is_none() {
        return Err(Cause::UnknownName);
    }
    if_new(so_far.tick(), Line::Tick(steps))
}

/// What a word, a name and a number say.
fn read_named(
    app: &App,
    so_far: &Limits,
    verb: &[u8],
    name: &[u8],
    number: u32,
) -> Result<Line, Cause>
    requires { length (app_of app.now).tasks ≤ TASKS }
    ensures { result ≡ spec.named (app_of app.now) so_far.now verb.now name.now number }
{
    if verb == b"every".as_slice() {
        every_line(so_far, number, bound_irq(app, name))
    } else if verb == b"delay".as_slice() {
        delay_line(so_far, number, armed_task(app, name))
    } else if verb == b"deadline".as_slice() {
        deadline_line(so_far, number, judged_task(app, name))
    } else {
        Err(Cause::BadLine)
    }
}

/// The number that a word spells, at least 1.
fn read_number(word: &[u8]) -> Result<u32, Cause>
    ensures { result ≡ spec.number_of (numbers.short_number word.now) }
{
    match short_number(word) {
        Some(number) if number >= 1 => Ok(number),
        _ => Err(Cause::BadLine),
    }
}

/// What is said, where nothing was said of the same before.
fn if_new(before: Option<u32>, said: Line) -> Result<Line, Cause>
    ensures { result ≡ spec.if_new before said }
{
    if before.is_some() {
        Err(Cause::BadLine)
    } else {
        Ok(said)
    }
}

/// A least distance between requests of an interrupt, where there is one.
fn every_line(so_far: &Limits, every: u32, irq: Option<Irq>) -> Result<Line, Cause>
    ensures { result ≡ spec.every_line so_far.now every irq }
{
    match irq {
        None => Err(Cause::UnknownName),
        Some(irq) => if_new(so_far.every_of(irq), Line::Every(Limit { irq, every })),
    }
}

/// A least delay of a task, where there is one.
fn delay_line(so_far: &Limits, ticks: u32, task: Option<TaskId>) -> Result<Line, Cause>
    ensures { result ≡ spec.delay_line so_far.now ticks task }
{
    match task {
        None => Err(Cause::UnknownName),
        Some(task) => if_new(so_far.delay_of(task), Line::Delay(Delay { task, ticks })),
    }
}

/// A deadline of a task, where there is one.
fn deadline_line(so_far: &Limits, steps: u32, task: Option<TaskId>) -> Result<Line, Cause>
    ensures { result ≡ spec.deadline_line so_far.now steps task }
{
    match task {
        None => Err(Cause::UnknownName),
        Some(task) => if_new(
            so_far.deadline_of(task),
            Line::Deadline(Deadline { task, steps }),
        ),
    }
}

/// Whether a task binds the interrupt of a name.
fn binds_name(app: &App, name: &[u8], task: &Task) -> bool
    ensures { result ≡ spec.binds_name (app_of app.now) name.now (task_of task.now) }
{
    match task.binds {
        None => false,
        Some(irq) => match app.irqs.get(usize::from(irq)) {
            None => false,
            Some(irq) => irq.name.bytes() == name,
        },
    }
}

/// The first of these tasks that binds the interrupt of a name, by its index.
fn hardware_place(app: &App, tasks: &[Task], name: &[u8]) -> Option<usize>
    ensures index { result ≡ position (λ t. spec.binds_name (app_of app.now) name.now (task_of t)) tasks.now }
    ensures within { IfSome result (λ n. n < length tasks.now) }
{
    tasks.iter().position(|task| binds_name(app, name, task))
}

/// The task that binds the interrupt of a name.
fn hardware_task(app: &App, name: &[u8]) -> Option<TaskId>
    requires { length (app_of app.now).tasks ≤ TASKS }
    ensures { result ≡ spec.hardware_task (app_of app.now) name.now }
{
    match hardware_place(app, &app.tasks, name) {
        None => None,
        Some(place) => Some(TaskId(place as u8)),
    }
}

/// The first of these tasks that is a software task of a name, by its index.
fn software_place(tasks: &[Task], name: &[u8]) -> Option<usize>
    ensures index { result ≡ position (λ t. spec.is_software_named name.now (task_of t)) tasks.now }
    ensures within { IfSome result (λ n. n < length tasks.now) }
{
    tasks
        .iter()
        .position(|task| task.is_software() && task.name.bytes() == name)
}

/// The software task of a name.
fn software_task(app: &App, name: &[u8]) -> Option<TaskId>
    requires { length (app_of app.now).tasks ≤ TASKS }
    ensures { result ≡ spec.software_task (app_of app.now) name.now }
{
    match software_place(&app.tasks, name) {
        None => None,
        Some(place) => Some(TaskId(place as u8)),
    }
}

/// The number of the interrupt of a name, where a task binds it.
fn bound_irq(app: &App, name: &[u8]) -> Option<Irq>
    requires { length (app_of app.now).tasks ≤ TASKS }
    ensures { result ≡ spec.bound_irq (app_of app.now) name.now }
{
    let task = hardware_task(app, name)?;
    number_of(app, app.task(task)?)
}

/// The software task of a name, where it is sent after a delay.
fn armed_task(app: &App, name: &[u8]) -> Option<TaskId>
    requires { length (app_of app.now).tasks ≤ TASKS }
    ensures { result ≡ spec.armed_task (app_of app.now) name.now }
{
    let task = software_task(app, name)?;
    if ArmedRows::of(app).is_armed(task) {
        Some(task)
    } else {
        None
    }
}

/// The task of which an interrupt or a software task of a name is.
fn judged_task(app: &App, name: &[u8]) -> Option<TaskId>
    requires { length (app_of app.now).tasks ≤ TASKS }
    ensures { result ≡ spec.judged_task (app_of app.now) name.now }
{
    match hardware_task(app, name) {
        Some(task) => Some(task),
        None => software_task(app, name),
    }
}
