// The names of a case.

use anyhow::{Result, bail};
use rt_ids::limits::{IRQS, SHARED, TASKS};
use rt_ids::{BodyId, Irq, Names, Prio, Section, TaskId, is_name};
use std::alloc::Global;

/// An interrupt of a number.
pub fn irq_of(number: &str) -> Option<Irq> {
    Irq::new(number.parse::<u16>().ok()?)
}

/// Declares an interrupt.
pub fn add_irq(alloc: Global, names: &mut Names, name: &[u8], number: Irq) -> Result<()> {
    if !is_name(name) || names.irq_named(name).is_some() || names.irq_count() >= IRQS {
        bail!("no name of an interrupt");
    }
    Ok(names.add_irq(alloc, name, number)?)
}

/// Declares a task.
fn add_task(alloc: Global, names: &mut Names, name: &[u8]) -> Result<()> {
    if !is_name(name) || names.task_named(name).is_some() || names.task_count() >= TASKS {
        bail!("no name of a task");
    }
    Ok(names.add_task(alloc, name)?)
}

/// Declares a shared resource.
fn add_resource(alloc: Global, names: &mut Names, name: &[u8]) -> Result<()> {
    if !is_name(name) || names.resource_named(name).is_some() || names.resource_count() >= SHARED {
        bail!("no name of a shared resource");
    }
    Ok(names.add_resource(alloc, name)?)
}

/// Declares tasks.
pub fn add_tasks(alloc: Global, names: &mut Names, tasks: &str) -> Result<()> {
    for word in tasks.split_whitespace() {
        add_task(alloc, names, word.as_bytes())?;
    }
    Ok(())
}

/// Declares shared resources.
pub fn add_resources(alloc: Global, names: &mut Names, shared: &str) -> Result<()> {
    for word in shared.split_whitespace() {
        add_resource(alloc, names, word.as_bytes())?;
    }
    Ok(())
}

/// The interrupt of a name, or of a number.
pub fn irq(names: &Names, word: &str) -> Option<Irq> {
    match names.irq_named(word.as_bytes()) {
        Some(irq) => Some(irq),
        None => irq_of(word),
    }
}

/// The task of a name.
pub fn task(names: &Names, word: &str) -> Option<TaskId> {
    names.task_named(word.as_bytes())
}

/// A body: `init`, `idle` or a task.
pub fn body(names: &Names, word: &str) -> Option<BodyId> {
    match word {
        "init" => Some(BodyId::Init),
        "idle" => Some(BodyId::Idle),
        _ => Some(BodyId::Task(task(names, word)?)),
    }
}

/// A section: a resource, or `free.` with a task, `ready.` with a level, or `timer.0`.
pub fn section(names: &Names, word: &str) -> Option<Section> {
    match word.split_once('.') {
        None => Some(Section::Res(names.resource_named(word.as_bytes())?)),
        Some(("free", word)) => Some(Section::Free(task(names, word)?)),
        Some(("ready", level)) => Some(Section::Ready(Prio(level.parse::<u8>().ok()?))),
        Some(_) => Some(Section::Timer),
    }
}
