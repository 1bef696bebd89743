// The lines of `check` on frames, costs, waits and the stack.

ghost use Rattle.std.specs.Prelude.{◌≡◌, ◌++◌, flat_map, OnOk};
ghost use Rattle.rt_app.specs.View.{app_of};
ghost use Rattle.rt_report.specs.Report.{body_name, body_lines, wait_line, stack_line, bound_lines};

use crate::line::{push_line, push_numbered};
use rt_app::{App, BodyBound, Bounds, Wait};
use rt_ids::{BodyId, NoMemory, push_bytes, push_number};

/// Appends the bounds.
pub(crate) fn push_bounds(out: &mut Vec<u8>, app: &App, bounds: &Bounds) -> Result<(), NoMemory>
    ensures { OnOk result (out.new.items ≡ out.old.items ++ bound_lines (app_of app.now) bounds.now) }
{
    push_bodies(out, app, &bounds.bodies)?;
    push_waits(out, &bounds.waits)?;
    push_stack(out, bounds.stack_bytes)
}

/// The name of a body.
fn body_name<'a>(app: &'a App, body: BodyId) -> &'a [u8]
    ensures { result.now ≡ body_name (app_of app.now).tasks body }
{
    match body {
        BodyId::Init => b"init",
        BodyId::Idle => b"idle",
        BodyId::Task(number) => match app.task(number) {
            Some(task) => task.name.bytes(),
            None => b"",
        },
    }
}

/// Appends the frames and costs of bodies.
fn push_bodies(out: &mut Vec<u8>, app: &App, bodies: &[BodyBound]) -> Result<(), NoMemory>
    ensures { OnOk result (out.new.items ≡ out.old.items ++ flat_map (body_lines (app_of app.now).tasks) bodies.now) }
{
    for bound in bodies {
        let name = body_name(app, bound.body);
        push_line(out, b"frame", name, bound.frame)?;
        push_line(out, b"cost", name, bound.cost)?;
    }
    Ok(())
}

/// Appends the waiting bounds.
fn push_waits(out: &mut Vec<u8>, waits: &[Wait]) -> Result<(), NoMemory>
    ensures { OnOk result (out.new.items ≡ out.old.items ++ flat_map wait_line waits.now) }
{
    for wait in waits {
        push_numbered(out, b"wait", b"", wait.priority, wait.steps)?;
    }
    Ok(())
}

/// Appends the stack bound.
fn push_stack(out: &mut Vec<u8>, bytes: u32) -> Result<(), NoMemory>
    ensures { OnOk result (out.new.items ≡ out.old.items ++ stack_line bytes) }
{
    push_bytes(out, b"stack ")?;
    push_number(out, bytes)?;
    push_bytes(out, b"\n")
}
