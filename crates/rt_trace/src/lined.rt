// Whether an item can be written.

ghost use Rattle.std.specs.Prelude.{◌↔◌, ◌<◌, ◌^◌, IsTrue};
ghost use Rattle.rt_ids.specs.Naming.{IsDeclared, IsTask, IsBody};
ghost use Rattle.rt_lines.specs.Operand as operand;
ghost use Rattle.rt_lines.specs.Numbers.{Is32Bits};
ghost use Rattle.rt_trace.specs.Lined as spec;

use crate::item::{Item, What};
use rt_ids::{BodyId, Irq, Names, Section, TaskId};

/// Whether an item has a line of its own: its names stand in the tables, a section is left with a value exactly
/// where it is a resource's, and its step number is below 2^31.
pub fn has_line(item: &Item, names: &Names) -> bool
    ensures { IsTrue result ↔ spec.HasLine names.now item.now }
{
    item.step < 1 << 31 && has_operands(&item.what, names)
}

fn has_operands(what: &What, names: &Names) -> bool
    ensures { IsTrue result ↔ spec.HasOperands names.now what.now }
{
    match what {
        What::Tick | What::Alarm | What::AlarmSet => true,
        What::Emit(value) | What::Clock(value) => is_word(*value),
        What::Trap(reason) => is_byte(*reason),
        What::Pend(irq) | What::Ret(irq) | What::Post(irq) => is_declared(*irq, names),
        What::Take(irq, depth) => is_declared(*irq, names) && is_word(*depth),
        What::Enter(section) => is_section(*section, names),
        What::Leave(section, None) => is_queue(*section, names),
        What::Leave(section, Some(value)) => is_lock(*section, names) && is_word(*value),
        What::Placed(task) | What::Full(task) | What::Ready(task) => is_task(*task, names),
        What::Free(task) | What::Fire(task) => is_task(*task, names),
        What::Start(task, args) => is_task(*task, names) && args.len() <= args.values().len(),
        What::Arm(task, instant) => is_task(*task, names) && is_word(*instant),
        What::Cancel(task, handle) => is_task(*task, names) && is_word(*handle),
        What::Move(task, handle, instant) => {
            is_task(*task, names) && is_word(*handle) && is_word(*instant)
        }
        What::End(body) => is_body(*body, names),
    }
}

/// Whether a number is of 32 bits, as each is that the code holds.
fn is_word(number: u32) -> bool
    ensures { IsTrue result ↔ Is32Bits number }
{
    u64::from(number) < 1 << 32
}

/// Whether a number is of 8 bits, as each is that the code holds.
fn is_byte(number: u8) -> bool
    ensures { IsTrue result ↔ (number < 2 ^ 8) }
{
    u16::from(number) < 1 << 8
}

fn is_declared(irq: Irq, names: &Names) -> bool
    ensures { IsTrue result ↔ IsDeclared names.now irq }
{
    names.irq_name(irq).is_some()
}

fn is_task(task: TaskId, names: &Names) -> bool
    ensures { IsTrue result ↔ IsTask names.now task }
{
    usize::from(task.0) < names.task_count()
}

fn is_lock(section: Section, names: &Names) -> bool
    ensures { IsTrue result ↔ operand.IsLock names.now section }
{
    match section {
        Section::Res(resource) => usize::from(resource.0) < names.resource_count(),
        Section::Free(_) | Section::Ready(_) | Section::Timer => false,
    }
}

fn is_queue(section: Section, names: &Names) -> bool
    ensures { IsTrue result ↔ operand.IsQueue names.now section }
{
    match section {
        Section::Res(_) => false,
        Section::Free(task) => is_task(task, names),
        Section::Ready(_) | Section::Timer => true,
    }
}

fn is_section(section: Section, names: &Names) -> bool
    ensures { IsTrue result ↔ operand.IsSection names.now section }
{
    match section {
        Section::Res(_) => is_lock(section, names),
        _ => is_queue(section, names),
    }
}

fn is_body(body: BodyId, names: &Names) -> bool
    ensures { IsTrue result ↔ IsBody names.now body }
{
    match body {
        BodyId::Task(task) => is_task(task, names),
        _ => true,
    }
}
