// The command `run`.

ghost use Rattle.std.specs.Prelude.{◌≡◌, ◌⊎◌, ℕ, List, IfOk};
ghost use Rattle.rt_app.specs.Accepted.{IsAccepted};
ghost use Rattle.rt_app.specs.View.{app_of};
ghost use Rattle.rt_build.specs.Accepted.{IsApplication};
ghost use Rattle.rt_code.specs.Lines.{HasLines};
ghost use Rattle.rt_core.specs.Machine.{IsFresh};
ghost use Rattle.rt_script.specs.Script.{HasNames};
ghost use Rattle.rt_top.specs.Words as word;
ghost use Rattle.rt_top.specs.Kinds as kind;
ghost use Rattle.rt_top.specs.Program.{inputs};
ghost use Rattle.rt_top.specs.Rtic.{rtic_program};
ghost use Rattle.rt_top.specs.Reads.{given_by};
ghost use Rattle.rt_top.specs.Inside.Decides.{ConductsOne, EndsAs};
ghost use Rattle.rt_top.specs.Inside.Started.{IsHeading, ShowsRun};
ghost use Rattle.rt_top.specs.Inside.Using.{HasUse};

use crate::reply::finish;
use crate::start::start;
use rt_app::App;
use rt_code::Image;
use rt_core::Core;
use rt_ids::{NoMemory, Status, push_bytes};
use rt_listing::listing;
use rt_outside::{Sink, Source, put_all};
use rt_script::Script;
use std::alloc::Global;

/// `run APP SCRIPT`: the listing of the application's image, and that image's trace under the script.
#[inline(never)]
pub(crate) fn run<S: Source, K: Sink>(
    alloc: Global,
    app: &App,
    source: &mut S,
    out: &mut K,
) -> Status
    requires { IsAccepted (app_of app.now) }
    ensures ends { (first third : List ℕ) → IsApplication first (app_of app.now) →
        let gave = given_by S.past source.old source.new in
        ConductsOne rtic_program word.Run kind.Script (inputs first gave third) gave
        (HasUse S.past S.left S.faults source.old source.new)
        (K.taken out.old) (K.taken out.new) (K.faults out.old) (K.faults out.new) result }
    ensures heard { (K.faults out.new ≡ K.faults out.old) ⊎ (result ≡ Status.Write) }
{
    match start(alloc, app, source) {
        Ok((mut core, script)) => run_script(alloc, &mut core, &script, out),
        Err(reply) => finish(out, &reply),
    }
}

/// Runs a core under a script: writes the listing of its image, and its trace. It wants no memory after the first byte.
fn run_script<K: Sink>(alloc: Global, core: &mut Core, script: &Script, out: &mut K) -> Status
    requires fresh { IsFresh core.old }
    requires lines { HasLines core.old.image }
    requires names { HasNames core.old.image.names script.now }
    ensures ends { EndsAs (ShowsRun core.old.image script.now)
        (K.taken out.old) (K.taken out.new) (K.faults out.old) (K.faults out.new) result }
    ensures heard { (K.faults out.new ≡ K.faults out.old) ⊎ (result ≡ Status.Write) }
{
    let Ok(front) = heading(alloc, core.image()) else {
        return Status::Memory;
    };
    match put_all(out, &front) {
        Ok(()) => match rt_run::run_script(core, script, out) {
            Ok(()) => Status::Done,
            Err(_) => Status::Write,
        },
        Err(_) => Status::Write,
    }
}

/// The listing of an image, with the line that comes before a trace.
pub fn heading(alloc: Global, image: &Image) -> Result<Vec<u8>, NoMemory>
    ensures { IfOk result (λ text. IsHeading image.now text.items) }
{
    let mut text = listing(alloc, image)?;
    push_bytes(&mut text, b"trace\n")?;
    Ok(text)
}
