// The command `deepest`.

ghost use Rattle.rt_app.specs.View.{app_of};
ghost use Rattle.rt_app.specs.Accepted.{IsAccepted};
ghost use Rattle.rt_top.specs.Outputs.{TellsDeepest};
ghost use Rattle.rt_top.specs.Inside.Replies.{Replies};

use crate::reply::{NOT_OF_FORM, Reply, line};
use rt_app::App;
use rt_ids::{NoMemory, Status};
use std::alloc::Global;

/// `deepest APP`: a script on which the stack reaches its bound, or that the application is not of its form.
#[inline(never)]
pub(crate) fn deepest(alloc: Global, app: &App) -> Reply
    requires { IsAccepted (app_of app.now) }
    ensures { Replies (TellsDeepest (app_of app.now)) result }
{
    match rt_reach::deepest(alloc, app) {
        Ok(Some(text)) => Reply::Write {
            status: Status::Done,
            text,
        },
        Ok(None) => line(alloc, Status::No, NOT_OF_FORM),
        Err(NoMemory) => Reply::Stop(Status::Memory),
    }
}
