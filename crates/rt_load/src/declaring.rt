// Which names a row of a listing may declare.

ghost use Rattle.std.specs.Prelude.{◌≡◌, ◌<◌, ◌||◌, ◌==◌, is_none};
ghost use Rattle.rt_ids.specs.declared.limits.TheConstants.{IRQS, TASKS, SHARED};
ghost use Rattle.rt_load.specs.Loadable as loadable;
ghost use Rattle.rt_load.specs.Inside.Taking as spec;

use rt_ids::limits::{IRQS, SHARED, TASKS};
use rt_ids::{Names, is_name};

/// Whether a cell of this name is of no resource: there is a dot in it.
pub fn has_dot(name: &[u8]) -> bool
    ensures { result ≡ loadable.has_dot name.now }
{
    name.iter().any(|b| *b == b'.')
}

/// Whether there is a tab, a line feed, a carriage return or a space in it.
fn has_blank(name: &[u8]) -> bool
    ensures { result ≡ spec.has_blank name.now }
{
    name.iter().any(|b| *b == b'\t' || *b == b'\n' || *b == b'\r' || *b == b' ')
}

/// Whether it is a name that may be declared.
fn may_declare(name: &[u8]) -> bool
    ensures { result ≡ spec.may_declare name.now }
{
    is_name(name)
}

/// Whether a resource more may be declared by this name.
fn is_new_resource(names: &Names, name: &[u8]) -> bool
    ensures { result ≡ spec.is_new_resource names.now name.now }
{
    may_declare(name) && names.resource_named(name).is_none() && names.resource_count() < SHARED
}

/// Whether an interrupt more may be declared by this name.
pub fn is_new_irq(names: &Names, name: &[u8]) -> bool
    ensures { result ≡ spec.is_new_irq names.now name.now }
{
    may_declare(name) && names.irq_named(name).is_none() && names.irq_count() < IRQS
}

/// Whether a task more may be declared by this name.
pub fn is_new_task(names: &Names, name: &[u8]) -> bool
    ensures { result ≡ spec.is_new_task names.now name.now }
{
    may_declare(name) && names.task_named(name).is_none() && names.task_count() < TASKS
}

/// Whether a cell more may have this name.
pub fn may_name_cell(names: &Names, name: &[u8]) -> bool
    ensures { result ≡ spec.may_name_cell names.now name.now }
{
    if has_dot(name) {
        !has_blank(name)
    } else {
        is_new_resource(names, name)
    }
}
