// The one public call: the ceilings of an application.

ghost use Rattle.std.specs.Prelude.{◌≡◌, IfOk};
ghost use Rattle.rt_app.specs.View.{app_of};
ghost use Rattle.rt_app.specs.Ceiling.{ceilings};

use crate::bodies::fill;
use crate::rows::{free_rows, ready_rows, served_levels, timer_row};
use rt_app::{App, Ceilings};
use rt_ids::NoMemory;
use std::alloc::Global;

/// The ceilings of all that critical sections guard.
pub fn ceilings(alloc: Global, app: &App) -> Result<Ceilings, NoMemory>
    ensures { IfOk result (λ c. c ≡ ceilings (app_of app.now)) }
{
    let tables = fill(alloc, app)?;
    let served = served_levels(alloc, &app.tasks)?;
    let free = free_rows(alloc, &app.tasks, &tables.free)?;
    let ready = ready_rows(alloc, &served, &tables.ready)?;
    Ok(Ceilings {
        shared: tables.shared,
        free,
        ready,
        timer: timer_row(app.mono, tables.timer),
    })
}
