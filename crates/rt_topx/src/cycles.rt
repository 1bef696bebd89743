// The command `cycles`.

ghost use Rattle.std.specs.Prelude.{IfOk};
ghost use Rattle.rt_ids.specs.declared.status.Status.TheVariants as status;
ghost use Rattle.rt_app.specs.Accepted.{IsAccepted};
ghost use Rattle.rt_app.specs.View.{app_of};
ghost use Rattle.rt_top.specs.Inside.Decides.{Tells};
ghost use Rattle.rt_topx.specs.Inside.Counting.{IsCounted};

use rt_app::App;
use rt_build::build;
use rt_ceil::ceilings;
use rt_cycles::report;
use rt_frames::bounds;
use rt_ids::{NoMemory, Status};
use rt_top::reply::{Reply, reply_of_text};
use std::alloc::Global;

/// `cycles APP`: what the application's image costs on a Cortex-M4, in cycles, and what `check` counts in steps.
#[inline(never)]
pub(crate) fn cycles(alloc: Global, app: &App) -> Reply
    requires { IsAccepted (app_of app.now) }
    ensures { Tells status.Done (IsCounted (app_of app.now)) result }
{
    reply_of_text(Status::Done, cycles_text(alloc, app))
}

/// The report on the application's image.
fn cycles_text(alloc: Global, app: &App) -> Result<Vec<u8>, NoMemory>
    requires { IsAccepted (app_of app.now) }
    ensures { IfOk result (λ text. IsCounted (app_of app.now) text.items) }
{
    let ceilings = ceilings(alloc, app)?;
    let bounds = bounds(alloc, app, &ceilings)?;
    let image = build(alloc, app)?;
    report(alloc, app, &image, &bounds)
}
