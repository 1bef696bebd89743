// The command `demo`.

ghost use Rattle.std.specs.Prelude.{◌≡◌, ◌≤◌};
ghost use Rattle.rt_soak.specs.Demo as spec;
ghost use Rattle.rt_ids.specs.declared.status.Status.TheVariants as status;
ghost use Rattle.rt_top.specs.Inside.Decides.{Tells};

use crate::reply::{Reply, reply_of_text};
use rt_ids::Status;
use std::alloc::Global;

/// `demo N`: the text of the demonstration application of so many hardware tasks.
pub(crate) fn demo(alloc: Global, tasks: u8) -> Reply
    requires some { 1 ≤ tasks }
    requires most { tasks ≤ 48 }
    ensures { Tells status.Done (λ bytes. bytes ≡ spec.demo tasks) result }
{
    reply_of_text(Status::Done, rt_soak::demo(alloc, tasks))
}
