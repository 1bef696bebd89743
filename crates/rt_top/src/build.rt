// The command `build`.

ghost use Rattle.std.specs.Prelude.{IfOk};
ghost use Rattle.rt_ids.specs.declared.status.Status.TheVariants as status;
ghost use Rattle.rt_app.specs.View.{app_of};
ghost use Rattle.rt_app.specs.Accepted.{IsAccepted};
ghost use Rattle.rt_top.specs.Inside.Decides.{Lists, Tells};

use crate::reply::{Reply, reply_of_text};
use rt_app::App;
use rt_ids::{NoMemory, Status};
use rt_listing::listing;
use std::alloc::Global;

/// `build APP`: the listing of the application's image.
#[inline(never)]
pub(crate) fn build(alloc: Global, app: &App) -> Reply
    requires { IsAccepted (app_of app.now) }
    ensures { Tells status.Done (Lists (app_of app.now)) result }
{
    reply_of_text(Status::Done, build_text(alloc, app))
}

/// The listing of its image.
fn build_text(alloc: Global, app: &App) -> Result<Vec<u8>, NoMemory>
    requires { IsAccepted (app_of app.now) }
    ensures { IfOk result (λ text. Lists (app_of app.now) text.items) }
{
    let image = rt_build::build(alloc, app)?;
    listing(alloc, &image)
}
