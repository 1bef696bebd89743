// Notes the names that are declared twice.

ghost use Rattle.std.specs.Prelude.{◌≡◌, ◌++◌, [], map, OnOk};
ghost use Rattle.std.specs.List.{list_any};
ghost use Rattle.rt_ast.specs.View as written;
ghost use Rattle.rt_resolve.specs.Scope as named;
ghost use Rattle.rt_resolve.specs.NameRules.{declared_twice, declaration_faults};

use crate::faults::push_when;
use crate::naming::Named;
use crate::scope::is_named;
use rt_app::Violation;
use rt_ast::{AppTree, Ident, TaskTree};
use rt_ids::{NoMemory, Rule};
use std::alloc::Global;

/// Whether one of these has this name.
fn is_among(idents: &[&Ident], name: &[u8]) -> bool
    ensures { result ≡ list_any (named.is_named name.now) (map (λ x. x.now) idents.now) }
{
    idents.iter().any(|x| is_named(x, name))
}

/// Appends the faults of the names that one before has.
fn push_declared_twice(faults: &mut Vec<Violation>, idents: &[&Ident]) -> Result<(), NoMemory>
    ensures { OnOk result (faults.new.items ≡ faults.old.items ++ declared_twice [] (map (λ x. x.now) idents.now)) }
{
    for (i, x) in idents.iter().enumerate() {
        let is_twice = is_among(&idents[..i], x.name.bytes());
        push_when(faults, is_twice, Rule::DeclaredTwice, x.at)?;
    }
    Ok(())
}

/// Appends the names of what is declared.
fn push_names<'a, T: Named>(idents: &mut Vec<&'a Ident>, declared: &'a [T]) -> Result<(), NoMemory>
    ensures { OnOk result (map (λ x. x.now) idents.new.items ≡
        map (λ x. x.now) idents.old.items ++ map T.ident declared.now) }
{
    for d in declared {
        idents.push(d.ident())?;
    }
    Ok(())
}

/// Appends the names of tasks.
fn push_tasks<'a>(idents: &mut Vec<&'a Ident>, tasks: &'a [TaskTree]) -> Result<(), NoMemory>
    ensures { OnOk result (map (λ x. x.now) idents.new.items ≡
        map (λ x. x.now) idents.old.items ++ map (λ t. t.name) (map written.task_of tasks.now)) }
{
    push_names(idents, tasks)
}

/// Appends the faults of the names that are declared twice: interrupts, resources of both kinds together, and tasks
/// have names of their own.
pub(crate) fn push_declaration_faults(
    alloc: Global,
    faults: &mut Vec<Violation>,
    app: &AppTree,
) -> Result<(), NoMemory>
    ensures { OnOk result (faults.new.items ≡ faults.old.items ++ declaration_faults (written.app_of app.now)) }
{
    let mut irqs = Vec::new(alloc);
    push_names(&mut irqs, &app.irqs)?;
    push_declared_twice(faults, &irqs)?;
    let mut resources = Vec::new(alloc);
    push_names(&mut resources, &app.shared)?;
    push_names(&mut resources, &app.locals)?;
    push_declared_twice(faults, &resources)?;
    let mut tasks = Vec::new(alloc);
    push_tasks(&mut tasks, &app.tasks)?;
    push_declared_twice(faults, &tasks)
}
