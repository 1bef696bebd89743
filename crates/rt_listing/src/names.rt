// The names that lines of a listing have.

ghost use Rattle.std.specs.Prelude.{◌≡◌};
ghost use Rattle.rt_ids.specs.Naming as spec;

use rt_ids::{BodyId, Irq, Names, ResId, TaskId};

/// The name of the first declared interrupt of this number.
pub(crate) fn irq_name(names: &Names, irq: Irq) -> &[u8]
    ensures { result.now ≡ spec.irq_name names.now irq }
{
    names.irq_name(irq).unwrap_or(b"")
}

/// The name of a task.
pub(crate) fn task_name(names: &Names, task: TaskId) -> &[u8]
    ensures { result.now ≡ spec.task_name names.now task }
{
    names.task_at(task).unwrap_or(b"")
}

/// The name of a shared resource.
pub(crate) fn resource_name(names: &Names, resource: ResId) -> &[u8]
    ensures { result.now ≡ spec.resource_name names.now resource }
{
    names.resource_at(resource).unwrap_or(b"")
}

/// The name of a body: that of its task, or the word of the other bodies.
pub(crate) fn body_name(names: &Names, body: BodyId) -> &[u8]
    ensures { result.now ≡ spec.body_name names.now body }
{
    match body {
        BodyId::Init => b"init",
        BodyId::Idle => b"idle",
        BodyId::Task(task) => task_name(names, task),
    }
}
