// The command `soak`.

ghost use Rattle.std.specs.Prelude.{◌≤◌};
ghost use Rattle.rt_ids.specs.declared.status.Status.TheVariants as status;
ghost use Rattle.rt_app.specs.View.{app_of};
ghost use Rattle.rt_app.specs.Accepted.{IsAccepted};
ghost use Rattle.rt_top.specs.Outputs.{TellsSoak};
ghost use Rattle.rt_top.specs.Inside.Decides.{Tells};

use crate::reply::{Reply, reply_of_text};
use rt_app::App;
use rt_ids::{NoMemory, Status};
use std::alloc::Global;
use std::thread::Threads;

/// `soak APP NUMBER COUNT WORKERS`: what so many runs of the application add up to.
#[inline(never)]
pub(crate) fn soak<R: Threads + Sync>(
    rt: &R,
    alloc: Global,
    app: &App,
    number: u64,
    count: u32,
    workers: u8,
) -> Reply
    requires accepted { IsAccepted (app_of app.now) }
    requires some { 1 ≤ count }
    requires most { count ≤ 10000 }
    requires working { 1 ≤ workers }
    requires few { workers ≤ 64 }
    ensures { Tells status.Done (TellsSoak (app_of app.now) number count) result }
{
    match rt_soak::soak(rt, alloc, app, number, count, workers) {
        Ok(summary) => reply_of_text(Status::Done, summary.text(alloc)),
        Err(NoMemory) => Reply::Stop(Status::Memory),
    }
}
