// The command `check`.

ghost use Rattle.std.specs.Prelude.{◌≡◌, IfOk};
ghost use Rattle.rt_ids.specs.declared.status.Status.TheVariants as status;
ghost use Rattle.rt_app.specs.View.{app_of};
ghost use Rattle.rt_app.specs.Accepted.{IsAccepted};
ghost use Rattle.rt_top.specs.Outputs.{check_report};
ghost use Rattle.rt_top.specs.Inside.Decides.{Tells};

use crate::reply::{Reply, reply_of_text};
use rt_app::App;
use rt_ceil::ceilings;
use rt_frames::bounds;
use rt_ids::{NoMemory, Status};
use rt_report::report;
use std::alloc::Global;

/// `check APP`: the ceilings, frames, costs, waiting bounds and the stack bound of the application.
#[inline(never)]
pub(crate) fn check(alloc: Global, app: &App) -> Reply
    requires { IsAccepted (app_of app.now) }
    ensures { Tells status.Done (λ bytes. bytes ≡ check_report (app_of app.now)) result }
{
    reply_of_text(Status::Done, check_text(alloc, app))
}

/// The report on an application.
fn check_text(alloc: Global, app: &App) -> Result<Vec<u8>, NoMemory>
    requires { IsAccepted (app_of app.now) }
    ensures { IfOk result (λ text. text.items ≡ check_report (app_of app.now)) }
{
    let ceilings = ceilings(alloc, app)?;
    let bounds = bounds(alloc, app, &ceilings)?;
    report(alloc, app, &ceilings, &bounds)
}
