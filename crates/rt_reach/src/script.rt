// The one public call: a script that reaches the stack bound.

ghost use Rattle.std.specs.Prelude.{◌≡◌, true, is_some, IfOk, IfSome};
ghost use Rattle.rt_app.specs.View.{app_of};
ghost use Rattle.rt_app.specs.Accepted.{IsAccepted};
ghost use Rattle.rt_build.specs.Built.{IsBuilt};
ghost use Rattle.rt_build.specs.Image.{IsImageOf};
ghost use Rattle.rt_core.specs.Machine.{IsFresh};
ghost use Rattle.rt_sim.specs.Good.{Good};
ghost use Rattle.rt_app.specs.Forms.{has_deepest_script};
ghost use Rattle.rt_reach.specs.Reached.{ReachesTheBound};

use crate::priorities::deepest_irqs;
use crate::take::steps_to_take;
use crate::text::push_script;
use rt_app::App;
use rt_core::Core;
use rt_frames::has_deepest_script;
use rt_ids::NoMemory;
use rt_sim::prepare;
use std::alloc::Global;

/// The script of an application on a core with a good image of it, to which no event has come.
fn script_text(alloc: Global, app: &App, mut core: Core) -> Result<Vec<u8>, NoMemory>
    requires accepted { IsAccepted (app_of app.now) }
    requires form { has_deepest_script (app_of app.now) ≡ true }
    requires image { IsImageOf (app_of app.now) core.image }
    requires built { IsBuilt (app_of app.now) core.image }
    requires good { Good (app_of app.now) core.image }
    requires fresh { IsFresh core }
    ensures { IfOk result (λ text. ReachesTheBound (app_of app.now) text.items) }
{
    let mut text = Vec::new(alloc);
    let irqs = deepest_irqs(alloc, app)?;
    if let [first, others @ ..] = irqs.as_slice() {
        let steps = steps_to_take(&mut core, *first);
        push_script(&mut text, &core.image().names, steps, *first, others)?;
    }
    Ok(text)
}

/// A script on which the stack of an accepted application reaches the bound that `check` prints, and None where the
/// application is not of the form that it is written for: hardware tasks alone, no monotonic, no `pend` in `init`, and
/// at most 900,000 core steps of `init`. For each priority that has a handler, rising, it has a line `pend I` and a
/// line `step N`: I is bound by the task of the priority with the greatest frame, the first declared of equal ones. The
/// first N is the number of core steps up to the first exception entry, that one included, and each other N is 1. Where
/// no priority has a handler the text is empty.
pub fn deepest(alloc: Global, app: &App) -> Result<Option<Vec<u8>>, NoMemory>
    requires accepted { IsAccepted (app_of app.now) }
    ensures form { IfOk result (λ answer. is_some answer ≡ has_deepest_script (app_of app.now)) }
    ensures reached { IfOk result (λ answer. IfSome answer (λ text. ReachesTheBound (app_of app.now) text.items)) }
{
    if !has_deepest_script(app) {
        return Ok(None);
    }
    let core = prepare(alloc, app)?;
    Ok(Some(script_text(alloc, app, core)?))
}
