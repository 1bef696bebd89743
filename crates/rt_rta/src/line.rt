// Reads one line of limits.

ghost use Rattle.std.specs.Prelude.{◌≡◌, ◌==◌, Some};
ghost use Rattle.std.specs.List.{list_any};
ghost use Rattle.rt_ids.specs.Lists.{is_some_and};
ghost use Rattle.rt_lines.specs.Parts.{spaced_words};
ghost use Rattle.rt_lines.specs.Numbers as numbers;
ghost use Rattle.rt_app.specs.View.{task_of, app_of};
ghost use Rattle.rt_app.specs.Handlers.{bound_number};
ghost use Rattle.rt_rta.specs.Limits as limits;
ghost use Rattle.rt_rta.specs.Wording as spec;

use crate::limits::{Limit, Limits};
use crate::load::number_of;
use rt_app::{App, IrqDecl, Task};
use rt_ids::{Irq, is_identifier};
use rt_lines::{next_spaced_word, short_number};
use rt_script::{is_blank, is_comment, is_loose};

/// What is wrong with a line.
#[derive(Clone, Copy, PartialEq, Eq)]
pub enum Wrong {
    /// It is of no form, or is a second one for its interrupt.
    Form,
    /// No task binds its interrupt.
    Interrupt,
}

/// What a line tells behind these limits; None where it is blank or a comment.
pub(crate) fn read_line(app: &App, so_far: &Limits, line: &[u8]) -> Result<Option<Limit>, Wrong>
    ensures { result ≡ spec.limit_line (app_of app.now) so_far.now line.now }
{
    if is_blank(line) || is_comment(line) {
        return Ok(None);
    }
    if is_loose(line) {
        return Err(Wrong::Form);
    }
    read_words(app, so_far, line).map(Some)
}

/// What the words of a line tell.
fn read_words(app: &App, so_far: &Limits, line: &[u8]) -> Result<Limit, Wrong>
    ensures { result ≡ spec.words_tell (app_of app.now) so_far.now (spaced_words line.now) }
{
    let (verb, rest) = next_spaced_word(line).ok_or(Wrong::Form)?;
    let (name, rest) = next_spaced_word(rest).ok_or(Wrong::Form)?;
    let (count, rest) = next_spaced_word(rest).ok_or(Wrong::Form)?;
    if next_spaced_word(rest).is_none() && verb == b"every".as_slice() && is_identifier(name) {
        read_limit(app, so_far, name, count)
    } else {
        Err(Wrong::Form)
    }
}

/// The limit of an interrupt of a name.
fn read_limit(app: &App, so_far: &Limits, name: &[u8], count: &[u8]) -> Result<Limit, Wrong>
    ensures { result ≡ spec.limit_of (app_of app.now) so_far.now name.now count.now }
{
    let every = read_distance(count)?;
    limit_for(so_far, every, bound_irq(app, name))
}

/// The distance that a word spells, at least 1.
fn read_distance(word: &[u8]) -> Result<u32, Wrong>
    ensures { result ≡ spec.distance_of (numbers.short_number word.now) }
{
    match short_number(word) {
        Some(every) if every >= 1 => Ok(every),
        _ => Err(Wrong::Form),
    }
}

/// The limit of an interrupt that a task binds, where it has none yet.
fn limit_for(so_far: &Limits, every: u32, irq: Option<Irq>) -> Result<Limit, Wrong>
    ensures { result ≡ spec.limit_for so_far.now every irq }
{
    match irq {
        None => Err(Wrong::Interrupt),
        Some(irq) => {
            if so_far.every(irq).is_some() {
                Err(Wrong::Form)
            } else {
                Ok(Limit { irq, every })
            }
        }
    }
}

/// The declared interrupt of a name, where a task binds it.
fn bound_irq(app: &App, name: &[u8]) -> Option<Irq>
    ensures { result ≡ spec.bound_irq (app_of app.now) name.now }
{
    let irq = declared_irq(&app.irqs, name)?;
    if is_bound(app, irq) { Some(irq) } else { None }
}

/// The number of the declared interrupt of a name.
fn declared_irq(irqs: &[IrqDecl], name: &[u8]) -> Option<Irq>
    ensures { result ≡ spec.irq_of irqs.now name.now }
{
    let row = irqs.iter().find(|irq| irq.name.bytes() == name);
    row.map(|irq| irq.number)
}

/// Whether a task binds the interrupt of a number.
fn is_bound(app: &App, irq: Irq) -> bool
    ensures { result ≡ limits.is_bound (app_of app.now) irq }
{
    one_binds(app, &app.tasks, irq)
}

/// Whether one of these tasks does.
fn one_binds(app: &App, tasks: &[Task], irq: Irq) -> bool
    ensures { let all = app_of app.now in
        result ≡ list_any (λ t. is_some_and (λ n. n == irq) (bound_number all (task_of t))) tasks.now }
{
    tasks.iter().any(|task| binds(app, task, irq))
}

/// Whether this task does.
fn binds(app: &App, task: &Task, irq: Irq) -> bool
    ensures { result ≡ is_some_and (λ n. n == irq) (bound_number (app_of app.now) (task_of task.now)) }
{
    match number_of(app, task) {
        None => false,
        Some(number) => number == irq,
    }
}
