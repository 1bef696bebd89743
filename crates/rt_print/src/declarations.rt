// Prints the declarations before the bodies.

ghost use Rattle.std.specs.Prelude.{◌≡◌, ◌++◌, Some, OnOk};
ghost use Rattle.rt_ast.specs.View.{app_of};
ghost use Rattle.rt_ast.specs.Canonical.{dispatchers_text, fpu_text, head_text, irq_text, irqs_text};
ghost use Rattle.rt_ast.specs.Canonical.{mono_text};
ghost use Rattle.rt_ast.specs.Canonical.{resource_text, shared_text, local_text, locals_text};

use crate::list::{ListItem, push_bracketed, push_enclosed};
use crate::text::push_name;
use rt_ast::{AppTree, Ident, IrqTree, LocalTree, MonoTree, SharedTree};
use rt_ids::{NoMemory, push_bytes, push_number};

/// Appends the dispatchers, where there are any.
fn push_dispatchers(out: &mut Vec<u8>, names: &[Ident]) -> Result<(), NoMemory>
    ensures { OnOk result (out.new.items ≡ out.old.items ++ dispatchers_text names.now) }
{
    if names.is_empty() {
        return Ok(());
    }
    push_bytes(out, b", dispatchers = ")?;
    push_bracketed(out, names)
}

/// Appends that the core has the floating-point extension, where it has.
fn push_fpu(out: &mut Vec<u8>, fpu: bool) -> Result<(), NoMemory>
    ensures { OnOk result (out.new.items ≡ out.old.items ++ fpu_text fpu) }
{
    if fpu {
        push_bytes(out, b", fpu = on")
    } else {
        Ok(())
    }
}

/// Appends the line of the application's head.
pub(crate) fn push_head(out: &mut Vec<u8>, tree: &AppTree) -> Result<(), NoMemory>
    ensures { OnOk result (out.new.items ≡ out.old.items ++ head_text (app_of tree.now)) }
{
    push_bytes(out, b"app ")?;
    push_name(out, &tree.name)?;
    push_bytes(out, b"(bits = ")?;
    push_number(out, tree.bits)?;
    push_dispatchers(out, &tree.dispatchers)?;
    push_fpu(out, tree.fpu)?;
    push_bytes(out, b");\n")
}

impl ListItem for IrqTree {
    ghost text = { irq_text };

    fn push(&self, out: &mut Vec<u8>) -> Result<(), NoMemory> {
        push_name(out, &self.name)?;
        push_bytes(out, b" = ")?;
        push_number(out, self.number.value)
    }
}

/// Appends the line of the interrupts.
pub(crate) fn push_irqs(out: &mut Vec<u8>, irqs: &[IrqTree]) -> Result<(), NoMemory>
    ensures { OnOk result (out.new.items ≡ out.old.items ++ irqs_text irqs.now) }
{
    push_bytes(out, b"interrupts ")?;
    push_enclosed(out, irqs)?;
    push_bytes(out, b"\n")
}

/// Appends the line of a monotonic.
fn push_monotonic(out: &mut Vec<u8>, mono: &MonoTree) -> Result<(), NoMemory>
    ensures { OnOk result (out.new.items ≡ out.old.items ++ mono_text (Some mono.now)) }
{
    push_bytes(out, b"monotonic(binds = ")?;
    push_name(out, &mono.binds)?;
    push_bytes(out, b", priority = ")?;
    push_number(out, mono.priority.value)?;
    push_bytes(out, b");\n")
}

/// Appends the line of the monotonic, where there is one.
pub(crate) fn push_mono(out: &mut Vec<u8>, mono: &Option<MonoTree>) -> Result<(), NoMemory>
    ensures { OnOk result (out.new.items ≡ out.old.items ++ mono_text mono.now) }
{
    match mono {
        Some(mono) => push_monotonic(out, mono),
        None => Ok(()),
    }
}

impl ListItem for SharedTree {
    ghost text = { resource_text };

    fn push(&self, out: &mut Vec<u8>) -> Result<(), NoMemory> {
        let mark: &[u8] = if self.lock_free { b"lock_free " } else { b"" };
        push_bytes(out, mark)?;
        push_name(out, &self.name)?;
        push_bytes(out, b" = ")?;
        push_number(out, self.first)
    }
}

/// Appends the line of the shared resources, where there are any.
pub(crate) fn push_shared(out: &mut Vec<u8>, resources: &[SharedTree]) -> Result<(), NoMemory>
    ensures { OnOk result (out.new.items ≡ out.old.items ++ shared_text resources.now) }
{
    if resources.is_empty() {
        return Ok(());
    }
    push_bytes(out, b"shared ")?;
    push_enclosed(out, resources)?;
    push_bytes(out, b"\n")
}

impl ListItem for LocalTree {
    ghost text = { local_text };

    fn push(&self, out: &mut Vec<u8>) -> Result<(), NoMemory> {
        push_name(out, &self.name)?;
        push_bytes(out, b" = ")?;
        push_number(out, self.first)
    }
}

/// Appends the line of the local resources, where there are any.
pub(crate) fn push_locals(out: &mut Vec<u8>, locals: &[LocalTree]) -> Result<(), NoMemory>
    ensures { OnOk result (out.new.items ≡ out.old.items ++ locals_text locals.now) }
{
    if locals.is_empty() {
        return Ok(());
    }
    push_bytes(out, b"local ")?;
    push_enclosed(out, locals)?;
    push_bytes(out, b"\n")
}
