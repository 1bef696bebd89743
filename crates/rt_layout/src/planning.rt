// The one call for code generation: ceilings, cells and frames in a plan.

ghost use Rattle.std.specs.Prelude.{◌≡◌, IfOk};
ghost use Rattle.rt_app.specs.Accepted.{IsAccepted};
ghost use Rattle.rt_app.specs.Plan.{IsPlan};
ghost use Rattle.rt_app.specs.View.{app_of};

use crate::memory::layout;
use rt_app::{App, Plan};
use rt_ceil::ceilings;
use rt_frames::body_frames;
use rt_ids::NoMemory;
use std::alloc::Global;

/// The plan of an application: its ceilings, its cells in memory, and the frames of its bodies.
pub fn plan(alloc: Global, app: &App) -> Result<Plan<'_>, NoMemory>
    requires { IsAccepted (app_of app.now) }
    ensures planned { IfOk result (λ plan. IsPlan plan) }
    ensures of_app { IfOk result (λ plan. plan.app.now ≡ app.now) }
{
    let ceil = ceilings(alloc, app)?;
    let lay = layout(alloc, app)?;
    let frames = body_frames(alloc, app)?;
    Ok(Plan {
        app,
        ceil,
        lay,
        frames,
    })
}
