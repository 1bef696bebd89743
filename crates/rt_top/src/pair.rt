// The command `pair`.

ghost use Rattle.std.specs.Prelude.{◌≡◌, ◌⊎◌, ℕ, List, [], ◌∷◌};
ghost use Rattle.rt_app.specs.Accepted.{IsAccepted};
ghost use Rattle.rt_app.specs.View.{app_of};
ghost use Rattle.rt_build.specs.Accepted.{IsApplication};
ghost use Rattle.rt_code.specs.Lines.{HasLines};
ghost use Rattle.rt_core.specs.Machine.{IsFresh};
ghost use Rattle.rt_script.specs.Script.{HasNames};
ghost use Rattle.rt_top.specs.Words as word;
ghost use Rattle.rt_top.specs.Kinds as kind;
ghost use Rattle.rt_top.specs.Program.{inputs};
ghost use Rattle.rt_top.specs.Rtic.{rtic_program};
ghost use Rattle.rt_top.specs.Reads.{given_by};
ghost use Rattle.rt_top.specs.Inside.Decides.{Conducts, EndsAs};
ghost use Rattle.rt_top.specs.Inside.Started.{ShowsPair};
ghost use Rattle.rt_top.specs.Inside.Using.{HasUse, No, Then};

use crate::reading::read_other;
use crate::reply::finish;
use crate::start::start;
use rt_app::App;
use rt_core::Core;
use rt_devices::Gate;
use rt_dual::LiveFail;
use rt_ids::Status;
use rt_outside::{Sink, Source};
use rt_script::Script;
use rt_sim::prepare;
use std::alloc::Global;
use std::thread::Threads;

/// `pair APP1 APP2 SCRIPT`: two cores beside each other, each with the image of its application: of each the listing,
/// the trace, and an account of the other core's requests.
#[inline(never)]
pub(crate) fn pair<R: Threads + Sync, B: Source, C: Source, K: Sink, G: Gate + Sync>(
    rt: &R,
    alloc: Global,
    app: &App,
    second: &mut B,
    third: &mut C,
    out: &mut K,
    gate: &G,
) -> Status
    requires { IsAccepted (app_of app.now) }
    ensures { (first : List ℕ) → IsApplication first (app_of app.now) →
        let b = given_by B.past second.old second.new in
        let c = given_by C.past third.old third.new in
        Conducts rtic_program word.Pair (kind.OtherApplication ∷ kind.Script ∷ []) (inputs first b c)
        (Then b (HasUse B.past B.left B.faults second.old second.new)
        (Then c (HasUse C.past C.left C.faults third.old third.new) No))
        (K.taken out.old) (K.taken out.new) (K.faults out.old) (K.faults out.new) result }
{
    match read_other(alloc, second) {
        Ok(other) => match start(alloc, app, third) {
            Ok((mut core, script)) => run_pair(rt, alloc, &mut core, &other, &script, out, gate),
            Err(reply) => finish(out, &reply),
        },
        Err(reply) => finish(out, &reply),
    }
}

/// Runs a core under a script beside one of another application. It wants no memory after the first byte.
#[inline(never)]
fn run_pair<R: Threads + Sync, K: Sink, G: Gate + Sync>(
    rt: &R,
    alloc: Global,
    core: &mut Core,
    other: &App,
    script: &Script,
    out: &mut K,
    gate: &G,
) -> Status
    requires fresh { IsFresh core.old }
    requires lines { HasLines core.old.image }
    requires names { HasNames core.old.image.names script.now }
    requires accepted { IsAccepted (app_of other.now) }
    ensures ends { EndsAs (ShowsPair core.old.image (app_of other.now) script.now)
        (K.taken out.old) (K.taken out.new) (K.faults out.old) (K.faults out.new) result }
    ensures heard { (K.faults out.new ≡ K.faults out.old) ⊎ (result ≡ Status.Write) }
{
    let Ok(mut second) = prepare(alloc, other) else {
        return Status::Memory;
    };
    match rt_dual::pair(rt, alloc, core, &mut second, script, out, gate) {
        Ok(()) => Status::Done,
        Err(LiveFail::Fault) => Status::Write,
        Err(LiveFail::NoMemory) => Status::Memory,
    }
}
