// Resolves the names of a whole application.

ghost use Rattle.std.specs.Prelude.{◌≡◌, ◌++◌, map, flat_map, IfOk, OnOk};
ghost use Rattle.std.specs.List.{AllByRecursion};
ghost use Rattle.rt_ast.specs.View as written;
ghost use Rattle.rt_ast.specs.Printable.{IsPrintable, IsPrintableTask};
ghost use Rattle.rt_app.specs.View as built;
ghost use Rattle.rt_resolve.specs.Resolved as meant;
ghost use Rattle.rt_resolve.specs.NameRules as rules_on;
ghost use Rattle.rt_resolve.specs.Inside.NamesView.{IsCounted};

use crate::body::{resolve_task, resolve_thread};
use crate::declared::{
    resolve_dispatchers, resolve_irqs, resolve_locals, resolve_mono, resolve_shared,
};
use crate::twice::push_declaration_faults;
use rt_app::{App, Task, Violation};
use rt_ast::{AppTree, TaskTree};
use rt_ids::NoMemory;
use std::alloc::Global;

/// The tasks.
fn resolve_tasks(
    alloc: Global,
    faults: &mut Vec<Violation>,
    app: &AppTree,
    tasks: &[TaskTree],
) -> Result<Vec<Task>, NoMemory>
    requires counted { IsCounted (written.app_of app.now) }
    requires printable { AllByRecursion IsPrintableTask (map written.task_of tasks.now) }
    ensures trees { IfOk result (λ ts. map built.task_of ts.items ≡
        map (meant.task (written.app_of app.now)) (map written.task_of tasks.now)) }
    ensures faults { OnOk result (faults.new.items ≡
        faults.old.items ++ flat_map (rules_on.task_faults (written.app_of app.now)) (map written.task_of tasks.now)) }
{
    let mut resolved = Vec::new(alloc);
    for task in tasks {
        resolved.push(resolve_task(alloc, faults, app, task)?)?;
    }
    Ok(resolved)
}

/// The application of a tree. Its faults are found in order of the rules on names, not of the text.
pub(crate) fn resolve_app(
    alloc: Global,
    faults: &mut Vec<Violation>,
    app: &AppTree,
) -> Result<App, NoMemory>
    requires { IsPrintable (written.app_of app.now) }
    ensures tree { IfOk result (λ a. built.app_of a ≡ meant.resolved_app (written.app_of app.now)) }
    ensures faults { OnOk result (faults.new.items ≡
        faults.old.items ++ rules_on.name_violations (written.app_of app.now)) }
{
    push_declaration_faults(alloc, faults, app)?;
    let dispatchers = resolve_dispatchers(alloc, faults, app, &app.dispatchers)?;
    let mono = resolve_mono(faults, app, &app.mono)?;
    let init = resolve_thread(alloc, faults, app, &app.init)?;
    let idle = resolve_thread(alloc, faults, app, &app.idle)?;
    let tasks = resolve_tasks(alloc, faults, app, &app.tasks)?;
    Ok(App {
        bits: app.bits as u8,
        fpu: app.fpu,
        irqs: resolve_irqs(alloc, &app.irqs)?,
        dispatchers,
        mono,
        shared: resolve_shared(alloc, &app.shared)?,
        locals: resolve_locals(alloc, &app.locals)?,
        init,
        idle,
        tasks,
        name_at: app.name.at,
    })
}
