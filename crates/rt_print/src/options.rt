// Prints the options of a body or a task.

ghost use Rattle.std.specs.Prelude.{◌≡◌, ◌++◌, ◌||◌, IfOk, OnOk};
ghost use Rattle.rt_ast.specs.View as view;
ghost use Rattle.rt_ast.specs.CanonicalOptions.{listed_text, binds_option_text, priority_option_text};
ghost use Rattle.rt_ast.specs.CanonicalOptions.{capacity_option_text, shared_option_text, local_option_text};
ghost use Rattle.rt_ast.specs.CanonicalOptions.{body_options, task_options, options_text};
ghost use Rattle.rt_print.specs.Opened.{has_any, opening_text, opened_text, closing_text};

use crate::list::{ListItem, push_bracketed};
use crate::text::push_name;
use rt_ast::{BodyTree, Ident, ListedTree, Number, TaskTree};
use rt_ids::{NoMemory, push_bytes, push_number};

/// Appends what comes before an option: an open parenthesis before the first, and a comma before each other.
fn push_opening(out: &mut Vec<u8>, opened: bool) -> Result<(), NoMemory>
    ensures { OnOk result (out.new.items ≡ out.old.items ++ opening_text opened) }
{
    if opened {
        push_bytes(out, b", ")
    } else {
        push_bytes(out, b"(")
    }
}

/// Appends the end of the options, where there were any.
fn push_closing(out: &mut Vec<u8>, opened: bool) -> Result<(), NoMemory>
    ensures { OnOk result (out.new.items ≡ out.old.items ++ closing_text opened) }
{
    if opened {
        push_bytes(out, b")")
    } else {
        Ok(())
    }
}

/// Appends the interrupt that a task binds, where it binds one. Gives whether there were options so far.
fn push_binds(out: &mut Vec<u8>, opened: bool, binds: &Option<Ident>) -> Result<bool, NoMemory>
    ensures text { OnOk result (out.new.items ≡ out.old.items ++ opened_text opened (binds_option_text binds.now)) }
    ensures any { IfOk result (λ any. any ≡ (opened || has_any (binds_option_text binds.now))) }
{
    match binds {
        Some(name) => {
            push_opening(out, opened)?;
            push_bytes(out, b"binds = ")?;
            push_name(out, name)?;
            Ok(true)
        }
        None => Ok(opened),
    }
}

/// Appends a task's priority, where it has one. Gives whether there were options so far.
fn push_priority(
    out: &mut Vec<u8>,
    opened: bool,
    priority: &Option<Number>,
) -> Result<bool, NoMemory>
    ensures text { OnOk result
        (out.new.items ≡ out.old.items ++ opened_text opened (priority_option_text priority.now)) }
    ensures any { IfOk result (λ any. any ≡ (opened || has_any (priority_option_text priority.now))) }
{
    match priority {
        Some(number) => {
            push_opening(out, opened)?;
            push_bytes(out, b"priority = ")?;
            push_number(out, number.value)?;
            Ok(true)
        }
        None => Ok(opened),
    }
}

/// Appends a task's capacity, where it has one. Gives whether there were options so far.
fn push_capacity(out: &mut Vec<u8>, opened: bool, capacity: Option<u32>) -> Result<bool, NoMemory>
    ensures text { OnOk result (out.new.items ≡ out.old.items ++ opened_text opened (capacity_option_text capacity)) }
    ensures any { IfOk result (λ any. any ≡ (opened || has_any (capacity_option_text capacity))) }
{
    match capacity {
        Some(number) => {
            push_opening(out, opened)?;
            push_bytes(out, b"capacity = ")?;
            push_number(out, number)?;
            Ok(true)
        }
        None => Ok(opened),
    }
}

impl ListItem for ListedTree {
    ghost text = { listed_text };

    fn push(&self, out: &mut Vec<u8>) -> Result<(), NoMemory> {
        let mark: &[u8] = if self.by_ref { b"&" } else { b"" };
        push_bytes(out, mark)?;
        push_name(out, &self.name)
    }
}

/// Appends the shared resources that a body lists, where it lists any. Gives whether there were options so far.
fn push_shared(out: &mut Vec<u8>, opened: bool, shared: &[ListedTree]) -> Result<bool, NoMemory>
    ensures text { OnOk result (out.new.items ≡ out.old.items ++ opened_text opened (shared_option_text shared.now)) }
    ensures any { IfOk result (λ any. any ≡ (opened || has_any (shared_option_text shared.now))) }
{
    if shared.is_empty() {
        return Ok(opened);
    }
    push_opening(out, opened)?;
    push_bytes(out, b"shared = ")?;
    push_bracketed(out, shared)?;
    Ok(true)
}

/// Appends the local resources that a body lists, where it lists any. Gives whether there were options so far.
fn push_local(out: &mut Vec<u8>, opened: bool, local: &[Ident]) -> Result<bool, NoMemory>
    ensures text { OnOk result (out.new.items ≡ out.old.items ++ opened_text opened (local_option_text local.now)) }
    ensures any { IfOk result (λ any. any ≡ (opened || has_any (local_option_text local.now))) }
{
    if local.is_empty() {
        return Ok(opened);
    }
    push_opening(out, opened)?;
    push_bytes(out, b"local = ")?;
    push_bracketed(out, local)?;
    Ok(true)
}

/// Appends a body's options after others, and the end of them all.
fn push_rest(out: &mut Vec<u8>, opened: bool, body: &BodyTree) -> Result<(), NoMemory>
    ensures { OnOk result (out.new.items
        ≡ out.old.items ++ (opened_text opened (body_options (view.body_of body.now))
        ++ closing_text (opened || has_any (body_options (view.body_of body.now))))) }
{
    let before = push_shared(out, opened, &body.shared)?;
    let any = push_local(out, before, &body.local)?;
    push_closing(out, any)
}

/// Appends a body's options in parentheses, where it has any.
pub(crate) fn push_body_options(out: &mut Vec<u8>, body: &BodyTree) -> Result<(), NoMemory>
    ensures { OnOk result (out.new.items ≡ out.old.items ++ options_text (body_options (view.body_of body.now))) }
{
    push_rest(out, false, body)
}

/// Appends a task's options in parentheses, where it has any.
pub(crate) fn push_task_options(out: &mut Vec<u8>, task: &TaskTree) -> Result<(), NoMemory>
    ensures { OnOk result (out.new.items ≡ out.old.items ++ options_text (task_options (view.task_of task.now))) }
{
    let bound = push_binds(out, false, &task.binds)?;
    let before = push_priority(out, bound, &task.priority)?;
    let opened = push_capacity(out, before, task.capacity)?;
    push_rest(out, opened, &task.body)
}
