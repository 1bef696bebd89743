// The names of an application, for the texts that name things of it.

ghost use Rattle.std.specs.Prelude.{◌≡◌, ◌≤◌, [], length, map, IfOk, OnOk};
ghost use Rattle.std.specs.List.{AllByRecursion};
ghost use Rattle.rt_ids.specs.Lists.{AreDifferent};
ghost use Rattle.rt_ids.specs.Word.{IsName};
ghost use Rattle.rt_ids.specs.declared.limits.TheConstants.{IRQS, TASKS, SHARED};
ghost use Rattle.rt_app.specs.View.{app_of};
ghost use Rattle.rt_app.specs.Names.{names_of};
ghost use Rattle.rt_app.specs.Accepted.{IsAccepted};

use crate::app::{App, IrqDecl, Shared, Task};
use rt_ids::{Names, NoMemory};
use std::alloc::Global;

/// Declares the interrupts.
fn add_irqs(alloc: Global, irqs: &[IrqDecl], names: &mut Names) -> Result<(), NoMemory>
    requires named { AllByRecursion (λ d. IsName d.name) irqs.now }
    requires differ { AreDifferent (map (λ d. d.name) irqs.now) }
    requires few { length irqs.now ≤ IRQS }
    requires none { names.old.irqs ≡ [] }
    ensures { OnOk result (names.new ≡ record names.old { irqs = map (λ d. (d.name, d.number)) irqs.now }) }
{
    for d in irqs {
        names.add_irq(alloc, d.name.bytes(), d.number)?;
    }
    Ok(())
}

/// Declares the tasks.
fn add_tasks(alloc: Global, tasks: &[Task], names: &mut Names) -> Result<(), NoMemory>
    requires named { AllByRecursion (λ t. IsName t.name) tasks.now }
    requires differ { AreDifferent (map (λ t. t.name) tasks.now) }
    requires few { length tasks.now ≤ TASKS }
    requires none { names.old.tasks ≡ [] }
    ensures { OnOk result (names.new ≡ record names.old { tasks = map (λ t. t.name) tasks.now }) }
{
    for t in tasks {
        names.add_task(alloc, t.name.bytes())?;
    }
    Ok(())
}

/// Declares the shared resources.
fn add_resources(alloc: Global, shared: &[Shared], names: &mut Names) -> Result<(), NoMemory>
    requires named { AllByRecursion (λ r. IsName r.name) shared.now }
    requires differ { AreDifferent (map (λ r. r.name) shared.now) }
    requires few { length shared.now ≤ SHARED }
    requires none { names.old.shared ≡ [] }
    ensures { OnOk result (names.new ≡ record names.old { shared = map (λ r. r.name) shared.now }) }
{
    for r in shared {
        names.add_resource(alloc, r.name.bytes())?;
    }
    Ok(())
}

impl App {
    /// The names of the interrupts, the tasks and the shared resources, in order of declaration. The application is
    /// one that is accepted, so they are names and differ.
    pub fn names(&self, alloc: Global) -> Result<Names, NoMemory>
        requires { IsAccepted (app_of self.now) }
        ensures { IfOk result (λ names. names ≡ names_of (app_of self.now)) }
    {
        let mut names = Names::new(alloc);
        add_irqs(alloc, &self.irqs, &mut names)?;
        add_tasks(alloc, &self.tasks, &mut names)?;
        add_resources(alloc, &self.shared, &mut names)?;
        Ok(names)
    }
}
