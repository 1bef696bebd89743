// The call that makes an image.

ghost use Rattle.std.specs.Prelude.{◌≡◌, ℕ, ◌<◌, length, Some, IfOk};
ghost use Rattle.rt_app.specs.Accepted.{IsAccepted};
ghost use Rattle.rt_app.specs.View.{app_of};
ghost use Rattle.rt_build.specs.Built.{IsBuilt};
ghost use Rattle.rt_build.specs.Image.{IsImageOf};
ghost use Rattle.rt_code.specs.Cells.{resource_cell};
ghost use Rattle.rt_code.specs.Lines.{HasLines};
ghost use Rattle.rt_code.specs.Runnable.{IsRunnable};

use crate::code::{Code, generate};
use crate::tables::{ImageTables, tables_of};
use rt_app::{App, Layout, Plan};
use rt_code::Image;
use rt_ids::NoMemory;
use rt_layout::plan;
use std::alloc::Global;

/// An image of these parts.
fn assemble(plan: Plan<'_>, code: Code, tables: ImageTables) -> Image
    ensures { result ≡ record {
      bits = plan.entry.app.now.bits;
      fpu = plan.entry.app.now.fpu;
      stack_bytes = tables.stack.bytes;
      thread_words = tables.stack.thread_words;
      cells = plan.entry.lay.cells;
      irqs = tables.irqs.items;
      bodies = tables.bodies.items;
      code = code.lines.items;
      names = tables.names;
    } }
{
    let Plan { app, lay, .. } = plan;
    let Layout { cells, .. } = lay;
    let Code { lines, .. } = code;
    let ImageTables {
        stack,
        irqs,
        bodies,
        names,
    } = tables;
    Image {
        bits: app.bits,
        fpu: app.fpu,
        stack_bytes: stack.bytes,
        thread_words: stack.thread_words,
        cells,
        irqs,
        bodies,
        code: lines,
        names,
    }
}

/// The image of an application that is accepted: its tables, and code that stands at the entry of each body, of each
/// dispatcher and of the timer handler. The same application has the same image each time (the law
/// `one_image_is_built`). A core runs it; its listing can be written, and so can the lines of its traces.
/// The cell of a shared resource has the resource's own number.
pub fn build(alloc: Global, app: &App) -> Result<Image, NoMemory>
    requires { IsAccepted (app_of app.now) }
    ensures image { IfOk result (λ image. IsImageOf (app_of app.now) image) }
    ensures built { IfOk result (λ image. IsBuilt (app_of app.now) image) }
    ensures cells { IfOk result (λ image. (r : ℕ) → r < length (app_of app.now).shared
        → resource_cell image r ≡ Some r) }
    ensures runnable { IfOk result (λ image. IsRunnable image) }
    ensures lines { IfOk result (λ image. HasLines image) }
{
    let plan = plan(alloc, app)?;
    let code = generate(alloc, &plan)?;
    let tables = tables_of(alloc, &plan, &code)?;
    Ok(assemble(plan, code, tables))
}
