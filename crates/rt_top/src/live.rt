// The command `live`.

ghost use Rattle.std.specs.Prelude.{◌≡◌, ◌⊎◌, ℕ, List};
ghost use Rattle.rt_app.specs.Accepted.{IsAccepted};
ghost use Rattle.rt_app.specs.View.{app_of};
ghost use Rattle.rt_build.specs.Accepted.{IsApplication};
ghost use Rattle.rt_code.specs.Lines.{HasLines};
ghost use Rattle.rt_core.specs.Machine.{IsFresh};
ghost use Rattle.rt_script.specs.Script.{HasNames};
ghost use Rattle.rt_top.specs.Words as word;
ghost use Rattle.rt_top.specs.Kinds as kind;
ghost use Rattle.rt_top.specs.Program.{inputs};
ghost use Rattle.rt_top.specs.Rtic.{rtic_program};
ghost use Rattle.rt_top.specs.Reads.{given_by};
ghost use Rattle.rt_top.specs.Inside.Decides.{ConductsOne, EndsAs};
ghost use Rattle.rt_top.specs.Inside.Started.{ShowsLive};
ghost use Rattle.rt_top.specs.Inside.Using.{HasUse};

use crate::reply::finish;
use crate::run::heading;
use crate::start::start;
use rt_app::App;
use rt_core::Core;
use rt_devices::Gate;
use rt_ids::Status;
use rt_live::{Ready, run_beside};
use rt_outside::{Sink, Source, put_all};
use rt_script::Script;
use std::alloc::Global;
use std::thread::Threads;

/// `live APP SCRIPT`: the listing of the application's image, its trace beside the script's devices, and their account.
#[inline(never)]
pub(crate) fn live<R: Threads + Sync, S: Source, K: Sink + Send, G: Gate + Sync>(
    rt: &R,
    alloc: Global,
    app: &App,
    source: &mut S,
    out: &mut K,
    gate: &G,
) -> Status
    requires { IsAccepted (app_of app.now) }
    ensures ends { (first third : List ℕ) → IsApplication first (app_of app.now) →
        let gave = given_by S.past source.old source.new in
        ConductsOne rtic_program word.Live kind.Script (inputs first gave third) gave
        (HasUse S.past S.left S.faults source.old source.new)
        (K.taken out.old) (K.taken out.new) (K.faults out.old) (K.faults out.new) result }
    ensures heard { (K.faults out.new ≡ K.faults out.old) ⊎ (result ≡ Status.Write) }
{
    match start(alloc, app, source) {
        Ok((mut core, script)) => run_live(rt, alloc, &mut core, &script, out, gate),
        Err(reply) => finish(out, &reply),
    }
}

/// Runs a core under a script beside the script's devices: writes the listing of its image, its trace and the account.
/// It wants no memory after the first byte.
fn run_live<R: Threads + Sync, K: Sink + Send, G: Gate + Sync>(
    rt: &R,
    alloc: Global,
    core: &mut Core,
    script: &Script,
    out: &mut K,
    gate: &G,
) -> Status
    requires fresh { IsFresh core.old }
    requires lines { HasLines core.old.image }
    requires names { HasNames core.old.image.names script.now }
    ensures ends { EndsAs (ShowsLive core.old.image script.now)
        (K.taken out.old) (K.taken out.new) (K.faults out.old) (K.faults out.new) result }
    ensures heard { (K.faults out.new ≡ K.faults out.old) ⊎ (result ≡ Status.Write) }
{
    let Ok(front) = heading(alloc, core.image()) else {
        return Status::Memory;
    };
    let Ok(ready) = Ready::of(alloc, core, script) else {
        return Status::Memory;
    };
    match put_all(out, &front) {
        Ok(()) => match run_beside(ready, rt, core, out, gate) {
            Ok(()) => Status::Done,
            Err(_) => Status::Write,
        },
        Err(_) => Status::Write,
    }
}
