// Makes a core with the image of an application.

ghost use Rattle.std.specs.Prelude.{IfOk};
ghost use Rattle.rt_app.specs.Accepted.{IsAccepted};
ghost use Rattle.rt_app.specs.View.{app_of};
ghost use Rattle.rt_build.specs.Built.{IsBuilt};
ghost use Rattle.rt_build.specs.Image.{IsImageOf};
ghost use Rattle.rt_code.specs.Lines.{HasLines};
ghost use Rattle.rt_code.specs.Runnable.{IsRunnable};
ghost use Rattle.rt_core.specs.Machine.{IsFresh};
ghost use Rattle.rt_sim.specs.Good.{Good};

use rt_app::App;
use rt_build::build;
use rt_core::Core;
use rt_ids::NoMemory;
use std::alloc::Global;

/// A core after reset with the image that `build` makes of an accepted application, which is a good one. No event has
/// come, and the lines of its traces can be written.
pub fn prepare(alloc: Global, app: &App) -> Result<Core, NoMemory>
    requires accepted { IsAccepted (app_of app.now) }
    ensures image { IfOk result (λ core. IsImageOf (app_of app.now) core.image) }
    ensures built { IfOk result (λ core. IsBuilt (app_of app.now) core.image) }
    ensures good { IfOk result (λ core. Good (app_of app.now) core.image) }
    ensures runnable { IfOk result (λ core. IsRunnable core.image) }
    ensures lines { IfOk result (λ core. HasLines core.image) }
    ensures fresh { IfOk result (λ core. IsFresh core) }
{
    let image = build(alloc, app)?;
    Core::new(alloc, image)
}
