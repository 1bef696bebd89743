// The names that lines of a trace have.

ghost use Rattle.std.specs.Prelude.{◌≡◌, ◌≤◌, length};
ghost use Rattle.rt_ids.specs.declared.limits.TheConstants.{NAME_BYTES};
ghost use Rattle.rt_ids.specs.Naming as naming;

use rt_ids::{Irq, Names, ResId, TaskId};

/// The name of an interrupt, of at most 32 bytes.
pub fn irq_name(names: &Names, irq: Irq) -> &[u8]
    ensures name { result.now ≡ naming.irq_name names.now irq }
    ensures short { length result.now ≤ NAME_BYTES }
{
    let _count = names.irq_count();
    names.irq_name(irq).unwrap_or(b"")
}

/// The name of a task, of at most 32 bytes.
pub fn task_name(names: &Names, task: TaskId) -> &[u8]
    ensures name { result.now ≡ naming.task_name names.now task }
    ensures short { length result.now ≤ NAME_BYTES }
{
    let _count = names.task_count();
    names.task_at(task).unwrap_or(b"")
}

/// The name of a shared resource, of at most 32 bytes.
pub fn resource_name(names: &Names, resource: ResId) -> &[u8]
    ensures name { result.now ≡ naming.resource_name names.now resource }
    ensures short { length result.now ≤ NAME_BYTES }
{
    let _count = names.resource_count();
    names.resource_at(resource).unwrap_or(b"")
}
