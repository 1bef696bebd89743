// What `check` prints of an application.
// Promises: the text of `check` is the definition's, byte for byte.
// Stands on: rt_ids, rt_app.
// Read next: specs/Report.antt.
#![tactic(auto)]

pub mod bounds;
pub mod ceilings;
pub mod line;

ghost use Rattle.std.specs.Prelude.{◌≡◌, IfOk};
ghost use Rattle.rt_app.specs.View.{app_of};
ghost use Rattle.rt_report.specs.Report.{report};

use crate::bounds::push_bounds;
use crate::ceilings::push_ceilings;
use rt_app::{App, Bounds, Ceilings};
use rt_ids::NoMemory;
use std::alloc::Global;

/// The report on an application with these ceilings and these bounds, a line each: `ceiling NAME PRIORITY` for what
/// sections guard, `frame BODY WORDS` and `cost BODY STEPS` for each body, `wait PRIORITY STEPS` for each priority that
/// has a handler, and `stack BYTES`.
pub fn report(
    alloc: Global,
    app: &App,
    ceilings: &Ceilings,
    bounds: &Bounds,
) -> Result<Vec<u8>, NoMemory>
    ensures { IfOk result (λ text. text.items ≡ report (app_of app.now) ceilings.now bounds.now) }
{
    let mut out = Vec::new(alloc);
    push_ceilings(&mut out, app, ceilings)?;
    push_bounds(&mut out, app, bounds)?;
    Ok(out)
}
