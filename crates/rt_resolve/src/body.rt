// Resolves `init`, `idle` and tasks.

ghost use Rattle.std.specs.Prelude.{◌≡◌, ◌≤◌, ◌++◌, [], length, option_map, IfOk, OnOk};
ghost use Rattle.rt_ids.specs.declared.limits.TheConstants.{ARGUMENTS};
ghost use Rattle.rt_ast.specs.View as written;
ghost use Rattle.rt_ast.specs.Printable.{IfThere, IsPrintableTask};
ghost use Rattle.rt_app.specs.View as built;
ghost use Rattle.rt_resolve.specs.Scope as named;
ghost use Rattle.rt_resolve.specs.Resolved as meant;
ghost use Rattle.rt_resolve.specs.NameRules as rules_on;
ghost use Rattle.rt_resolve.specs.Inside.NamesView.{names_of, IsCounted, IsShort};

use crate::block::{push_if_taken, resolve_block};
use crate::faults::number_or_fault;
use crate::listing::{push_local_twice, push_shared_twice, resolve_local, resolve_shared};
use crate::lookup::irq_named;
use crate::scope::Names;
use crate::variables::Variables;
use rt_app::{Body, Task, Violation};
use rt_ast::{AppTree, BodyTree, Ident, Number, TaskTree};
use rt_ids::{Name, NoMemory};
use std::alloc::Global;

/// Declares the arguments of a body.
fn declare_arguments<'a>(
    faults: &mut Vec<Violation>,
    names: &mut Names<'a>,
    args: &'a [Ident],
) -> Result<(), NoMemory>
    requires counted { IsCounted (names_of names.old).app }
    requires few { length args.now ≤ ARGUMENTS }
    ensures names { OnOk result (names_of names.new ≡ meant.with_arguments (names_of names.old) 0 args.now) }
    ensures faults { OnOk result (faults.new.items ≡
        faults.old.items ++ rules_on.argument_faults (names_of names.old) 0 args.now) }
{
    for (i, x) in args.iter().enumerate() {
        push_if_taken(faults, names, x)?;
        names.variables.declare(x.name.bytes(), i as u16)?;
    }
    Ok(())
}

/// The statements of a body that takes these arguments.
#[tactic(auto, using(crate::proofs::Few::few))]
fn resolve_statements<'a>(
    alloc: Global,
    faults: &mut Vec<Violation>,
    app: &'a AppTree,
    args: &'a [Ident],
    body: &'a BodyTree,
) -> Result<Vec<rt_app::Stmt>, NoMemory>
    requires counted { IsCounted (written.app_of app.now) }
    requires few { length args.now ≤ ARGUMENTS }
    requires short { IsShort (written.body_of body.now) }
    ensures tree { IfOk result (λ b. built.block_of b.items ≡
        meant.body_block (written.app_of app.now) args.now (written.body_of body.now)) }
    ensures faults { OnOk result (faults.new.items ≡
        faults.old.items ++ rules_on.code_faults (written.app_of app.now) args.now (written.body_of body.now)) }
{
    let mut names = Names {
        app,
        local: &body.local,
        variables: Variables::new(alloc),
    };
    declare_arguments(faults, &mut names, args)?;
    let mut next = args.len() as u16;
    resolve_block(alloc, faults, &mut names, &mut next, &body.block)
}

/// A body that takes these arguments.
fn resolve_body<'a>(
    alloc: Global,
    faults: &mut Vec<Violation>,
    app: &'a AppTree,
    args: &'a [Ident],
    body: &'a BodyTree,
) -> Result<Body, NoMemory>
    requires counted { IsCounted (written.app_of app.now) }
    requires few { length args.now ≤ ARGUMENTS }
    requires short { IsShort (written.body_of body.now) }
    ensures tree { IfOk result (λ b. built.body_of b ≡
        meant.body (written.app_of app.now) args.now (written.body_of body.now)) }
    ensures faults { OnOk result (faults.new.items ≡
        faults.old.items ++ rules_on.body_faults (written.app_of app.now) args.now (written.body_of body.now)) }
{
    let shared = resolve_shared(alloc, faults, app, &body.shared)?;
    let local = resolve_local(alloc, faults, app, &body.local)?;
    push_shared_twice(alloc, faults, app, &body.shared)?;
    push_local_twice(alloc, faults, app, &body.local)?;
    let block = resolve_statements(alloc, faults, app, args, body)?;
    Ok(Body {
        shared,
        local,
        block,
        at: body.at,
    })
}

/// The body of `init` or `idle`, where there is one.
pub(crate) fn resolve_thread(
    alloc: Global,
    faults: &mut Vec<Violation>,
    app: &AppTree,
    body: &Option<BodyTree>,
) -> Result<Option<Body>, NoMemory>
    requires counted { IsCounted (written.app_of app.now) }
    requires short { IfThere IsShort (written.option_map written.body_of body.now) }
    ensures tree { IfOk result (λ o. option_map built.body_of o ≡
        option_map (meant.body (written.app_of app.now) []) (written.option_map written.body_of body.now)) }
    ensures faults { OnOk result (faults.new.items ≡ faults.old.items
        ++ rules_on.thread_faults (written.app_of app.now) (written.option_map written.body_of body.now)) }
{
    match body {
        None => Ok(None),
        Some(body) => {
            let body = resolve_body(alloc, faults, app, &[], body)?;
            Ok(Some(body))
        }
    }
}

/// The interrupt that a task binds, where it binds one.
fn resolve_binds(
    faults: &mut Vec<Violation>,
    app: &AppTree,
    binds: &Option<Ident>,
) -> Result<Option<u8>, NoMemory>
    requires { IsCounted (written.app_of app.now) }
    ensures irq { IfOk result (λ o. o ≡
        option_map (λ x. named.or_unknown (named.irq_named (written.app_of app.now) x.name)) binds.now) }
    ensures faults { OnOk result (faults.new.items ≡
        faults.old.items ++ rules_on.binds_fault (written.app_of app.now) binds.now) }
{
    match binds {
        None => Ok(None),
        Some(x) => {
            let irq = number_or_fault(faults, irq_named(app, x.name.bytes()), x.at)?;
            Ok(Some(irq))
        }
    }
}

/// The offset of a name, and 0 where there is none.
fn ident_at(x: &Option<Ident>) -> u32
    ensures { result ≡ meant.ident_at x.now }
{
    match x {
        None => 0,
        Some(x) => x.at,
    }
}

/// The offset of a number, and 0 where there is none.
fn number_at(number: Option<Number>) -> u32
    ensures { result ≡ meant.number_offset number }
{
    match number {
        None => 0,
        Some(number) => number.at,
    }
}

/// A priority as it is stored: one above 255 as 255.
pub(crate) fn stored_priority(priority: u32) -> u8
    ensures { result ≡ meant.stored_priority priority }
{
    priority.min(255) as u8
}

/// A task's priority as it is stored, and 1 where none is written.
fn priority_or_one(priority: Option<Number>) -> u8
    ensures { result ≡ meant.priority_or_one priority }
{
    match priority {
        None => 1,
        Some(number) => stored_priority(number.value),
    }
}

/// A task's capacity, and 1 where none is written.
fn capacity_or_one(capacity: Option<u32>) -> u8
    requires { IfThere (λ n. n ≤ 255) capacity }
    ensures { result ≡ meant.capacity_or_one capacity }
{
    match capacity {
        None => 1,
        Some(capacity) => capacity as u8,
    }
}

/// A task.
pub(crate) fn resolve_task(
    alloc: Global,
    faults: &mut Vec<Violation>,
    app: &AppTree,
    task: &TaskTree,
) -> Result<Task, NoMemory>
    requires counted { IsCounted (written.app_of app.now) }
    requires printable { IsPrintableTask (written.task_of task.now) }
    ensures tree { IfOk result (λ t. built.task_of t ≡ meant.task (written.app_of app.now) (written.task_of task.now)) }
    ensures faults { OnOk result (faults.new.items ≡
        faults.old.items ++ rules_on.task_faults (written.app_of app.now) (written.task_of task.now)) }
{
    let binds = resolve_binds(faults, app, &task.binds)?;
    let body = resolve_body(alloc, faults, app, &task.args, &task.body)?;
    Ok(Task {
        name: Name::of(alloc, task.name.name.bytes())?,
        at: task.name.at,
        binds,
        binds_at: ident_at(&task.binds),
        priority: priority_or_one(task.priority),
        priority_at: number_at(task.priority),
        capacity: capacity_or_one(task.capacity),
        has_capacity: task.capacity.is_some(),
        args: task.args.len() as u8,
        body,
    })
}
