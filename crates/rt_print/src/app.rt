// The one public call: the canonical text of an application.

ghost use Rattle.std.specs.Prelude.{◌≡◌, ◌++◌, [], codes, flat_map, map, OnOk, IfOk};
ghost use Rattle.rt_ast.specs.View as view;
ghost use Rattle.rt_ast.specs.CanonicalExpression.{newline};
ghost use Rattle.rt_ast.specs.CanonicalBlock.{block_text};
ghost use Rattle.rt_ast.specs.Canonical.{arguments_text, body_text, task_text};
ghost use Rattle.rt_ast.specs.Canonical as spec;

use crate::block::push_block;
use crate::declarations::{push_head, push_irqs, push_locals, push_mono, push_shared};
use crate::list::push_separated;
use crate::options::{push_body_options, push_task_options};
use crate::text::push_name;
use rt_ast::{AppTree, BodyTree, Ident, Stmt, TaskTree};
use rt_ids::{NoMemory, push_bytes};
use std::alloc::Global;

/// Appends a space, a body's block and the end of its line.
fn push_whole_block(alloc: Global, out: &mut Vec<u8>, block: &[Stmt]) -> Result<(), NoMemory>
    ensures { OnOk result (out.new.items
        ≡ out.old.items ++ (codes " " ++ block_text [] (view.block_of block.now) ++ newline)) }
{
    push_bytes(out, b" ")?;
    push_block(alloc, out, b"", block)?;
    push_bytes(out, b"\n")
}

/// Appends the lines of `init` or `idle`, as this word, where it is there.
fn push_body(
    alloc: Global,
    out: &mut Vec<u8>,
    word: &[u8],
    body: &Option<BodyTree>,
) -> Result<(), NoMemory>
    ensures { OnOk result (out.new.items
        ≡ out.old.items ++ body_text word.now (view.option_map view.body_of body.now)) }
{
    match body {
        Some(body) => {
            push_bytes(out, word)?;
            push_body_options(out, body)?;
            push_whole_block(alloc, out, &body.block)
        }
        None => Ok(()),
    }
}

/// Appends a task's arguments, where it has any.
fn push_arguments(out: &mut Vec<u8>, args: &[Ident]) -> Result<(), NoMemory>
    ensures { OnOk result (out.new.items ≡ out.old.items ++ arguments_text args.now) }
{
    if args.is_empty() {
        return Ok(());
    }
    push_bytes(out, b" with ")?;
    push_separated(out, args)
}

/// Appends the lines of a task.
fn push_task(alloc: Global, out: &mut Vec<u8>, task: &TaskTree) -> Result<(), NoMemory>
    ensures { OnOk result (out.new.items ≡ out.old.items ++ task_text (view.task_of task.now)) }
{
    push_bytes(out, b"task ")?;
    push_name(out, &task.name)?;
    push_task_options(out, task)?;
    push_arguments(out, &task.args)?;
    push_whole_block(alloc, out, &task.body.block)
}

/// Appends the lines of tasks.
fn push_tasks(alloc: Global, out: &mut Vec<u8>, tasks: &[TaskTree]) -> Result<(), NoMemory>
    ensures { OnOk result (out.new.items ≡ out.old.items ++ flat_map task_text (map view.task_of tasks.now)) }
{
    for task in tasks {
        push_task(alloc, out, task)?;
    }
    Ok(())
}

/// Appends the lines of `init`, of `idle` and of the tasks.
fn push_bodies(alloc: Global, out: &mut Vec<u8>, tree: &AppTree) -> Result<(), NoMemory>
    ensures { OnOk result (out.new.items ≡ out.old.items
        ++ (body_text (codes "init") (view.app_of tree.now).init ++ body_text (codes "idle") (view.app_of tree.now).idle
        ++ flat_map task_text (view.app_of tree.now).tasks)) }
{
    push_body(alloc, out, b"init", &tree.init)?;
    push_body(alloc, out, b"idle", &tree.idle)?;
    push_tasks(alloc, out, &tree.tasks)
}

/// The canonical text of an application's tree.
pub fn canonical(alloc: Global, tree: &AppTree) -> Result<Vec<u8>, NoMemory>
    ensures { IfOk result (λ text. text.items ≡ spec.canonical (view.app_of tree.now)) }
{
    let mut out = Vec::new(alloc);
    push_head(&mut out, tree)?;
    push_irqs(&mut out, &tree.irqs)?;
    push_mono(&mut out, &tree.mono)?;
    push_shared(&mut out, &tree.shared)?;
    push_locals(&mut out, &tree.locals)?;
    push_bodies(alloc, &mut out, tree)?;
    Ok(out)
}
