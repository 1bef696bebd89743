// What a line of a board text says.

ghost use Rattle.std.specs.Prelude.{◌≡◌, slice_get};
ghost use Rattle.std.specs.List.{list_any};
ghost use Rattle.rt_ids.specs.Lists.{is_some_and, then_from};
ghost use Rattle.rt_lines.specs.Parts.{spaced_words};
ghost use Rattle.rt_app.specs.Level.{is_software};
ghost use Rattle.rt_app.specs.View.{app_of};
ghost use Rattle.rt_board.specs.Wording as spec;

use crate::board::{Board, Input};
use crate::refusal::Cause;
use rt_app::{App, Local, Owned};
use rt_ids::{Names, TaskId, is_identifier};
use rt_lines::next_spaced_word;

/// The input that the words behind `input` name.
pub(crate) fn read_input(
    names: &Names,
    app: &App,
    board: &Board,
    words: &[u8],
) -> Result<Input, Cause>
    ensures { let named = spec.input_of names.now (app_of app.now) board.now in
        result ≡ spec.two_names named (spaced_words words.now) }
{
    let (task, rest) = next_spaced_word(words).ok_or(Cause::BadLine)?;
    let (local, rest) = next_spaced_word(rest).ok_or(Cause::BadLine)?;
    if next_spaced_word(rest).is_none() && is_identifier(task) && is_identifier(local) {
        named_input(names, app, board, task, local)
    } else {
        Err(Cause::BadLine)
    }
}

/// The input of the names of a task and of a local resource, where a device may write it and no line before names it.
fn named_input(
    names: &Names,
    app: &App,
    board: &Board,
    task: &[u8],
    local: &[u8],
) -> Result<Input, Cause>
    ensures { result ≡ spec.input_of names.now (app_of app.now) board.now task.now local.now }
{
    let task = hardware_task(names, app, task)?;
    let local = own_local(app, task, local)?;
    if board.writes(local) {
        Err(Cause::NamedTwice)
    } else {
        Ok(Input { task, local })
    }
}

/// The hardware task of a name.
fn hardware_task(names: &Names, app: &App, name: &[u8]) -> Result<TaskId, Cause>
    ensures { result ≡ spec.hardware_task names.now (app_of app.now) name.now }
{
    let task = names.task_named(name).ok_or(Cause::UnknownTask)?;
    if is_software_task(app, task) {
        Err(Cause::SoftwareTask)
    } else {
        Ok(task)
    }
}

/// Whether it is a software task.
fn is_software_task(app: &App, task: TaskId) -> bool
    ensures { result ≡ is_some_and is_software (slice_get (app_of app.now).tasks task) }
{
    match app.task(task) {
        Some(task) => task.is_software(),
        None => false,
    }
}

/// The local resource of a name, where the task lists it.
fn own_local(app: &App, task: TaskId, name: &[u8]) -> Result<u8, Cause>
    ensures { result ≡ spec.own_local (app_of app.now) task name.now }
{
    if is_declared(&app.locals, name) {
        listed_by(app, task, name).ok_or(Cause::LocalOfAnother)
    } else {
        Err(Cause::UnknownLocal)
    }
}

/// Whether one of these local resources has the name.
fn is_declared(locals: &[Local], name: &[u8]) -> bool
    ensures { result ≡ list_any (spec.is_named name.now) locals.now }
{
    locals.iter().any(|local| local.name.bytes() == name)
}

/// The local resource of a name among those that a task lists.
fn listed_by(app: &App, task: TaskId, name: &[u8]) -> Option<u8>
    ensures { let all = app_of app.now in
        result ≡ then_from (slice_get all.tasks task) (spec.listed_local all name.now) }
{
    match app.task(task) {
        Some(task) => local_among(&app.locals, &task.body.local, name),
        None => None,
    }
}

/// The local resource of a name among these.
fn local_among(locals: &[Local], listed: &[Owned], name: &[u8]) -> Option<u8>
    ensures { result ≡ spec.local_among locals.now name.now listed.now }
{
    let own = listed.iter().find(|own| has_name(locals, own.local, name));
    own.map(|own| own.local)
}

/// Whether the local resource of this index has the name.
fn has_name(locals: &[Local], local: u8, name: &[u8]) -> bool
    ensures { result ≡ is_some_and (spec.is_named name.now) (slice_get locals.now local) }
{
    match locals.get(usize::from(local)) {
        Some(local) => local.name.bytes() == name,
        None => false,
    }
}
