// The command `live`.

ghost use Rattle.std.specs.Prelude.{◌≡◌, ◌⊎◌, ℕ, List};
ghost use Rattle.rt_app.specs.Accepted.{IsAccepted};
ghost use Rattle.rt_app.specs.View.{app_of};
ghost use Rattle.rt_build.specs.Accepted.{IsApplication};
ghost use Rattle.rt_build.specs.Image.{IsImageOf};
ghost use Rattle.rt_code.specs.Lines.{HasLines};
ghost use Rattle.rt_core.specs.Machine.{IsFresh};
ghost use Rattle.rt_script.specs.Script.{HasNames};
ghost use Rattle.rt_board.specs.Board.{AreInputs};
ghost use Rattle.rt_target.specs.Reading.{IsBoardOf};
ghost use Rattle.rt_given.specs.Given.{asked};
ghost use Rattle.rt_top.specs.Program.{inputs};
ghost use Rattle.rt_top.specs.Inside.Decides.{EndsAs, ConductsOne};
ghost use Rattle.rt_top.specs.Inside.Using.{HasUse};
ghost use Rattle.rt_top.specs.Reads.{given_by};
ghost use Rattle.rt_topx.specs.declared.command.Command.TheVariants as command;
ghost use Rattle.rt_topx.specs.Inside.Started.{ShowsLive};
ghost use Rattle.rt_topx.specs.Kinds as kind;
ghost use Rattle.rt_topx.specs.Rticx.{rticx_program};

use crate::start::start;
use rt_app::App;
use rt_board::Board;
use rt_core::Core;
use rt_devices::Gate;
use rt_given::GivenScript;
use rt_ids::Status;
use rt_live::LiveFail;
use rt_outside::{Sink, Source};
use rt_top::reply::finish;
use rt_top::run::heading;
use std::alloc::Global;
use std::thread::Threads;

/// `live APP BOARD SCRIPT`: the listing of the application's image, its trace beside the script's devices, with the
/// words that they give, and their account.
#[inline(never)]
pub(crate) fn live<R: Threads + Sync, S: Source, K: Sink + Send, G: Gate + Sync>(
    rt: &R,
    alloc: Global,
    app: &App,
    board: &Board,
    source: &mut S,
    out: &mut K,
    gate: &G,
) -> Status
    requires accepted { IsAccepted (app_of app.now) }
    requires inputs { AreInputs (app_of app.now) board.now.inputs }
    ensures ends { (first second : List ℕ) → IsApplication first (app_of app.now) →
        IsBoardOf (app_of app.now) second board.now →
        let gave = given_by S.past source.old source.new in
        ConductsOne rticx_program command.Live kind.Script (inputs first second gave) gave
        (HasUse S.past S.left S.faults source.old source.new)
        (K.taken out.old) (K.taken out.new) (K.faults out.old) (K.faults out.new) result }
    ensures heard { (K.faults out.new ≡ K.faults out.old) ⊎ (result ≡ Status.Write) }
{
    match start(alloc, app, board, source) {
        Ok((mut core, script)) => run_live(rt, alloc, app, board, &mut core, &script, out, gate),
        Err(reply) => finish(out, &reply),
    }
}

/// Runs a core under a script beside the script's devices: writes the listing of its image, its trace and the account.
/// It wants no memory after the first byte.
#[inline(never)]
fn run_live<R: Threads + Sync, K: Sink + Send, G: Gate + Sync>(
    rt: &R,
    alloc: Global,
    app: &App,
    board: &Board,
    core: &mut Core,
    script: &GivenScript,
    out: &mut K,
    gate: &G,
) -> Status
    requires accepted { IsAccepted (app_of app.now) }
    requires image { IsImageOf (app_of app.now) core.old.image }
    requires inputs { AreInputs (app_of app.now) board.now.inputs }
    requires fresh { IsFresh core.old }
    requires lines { HasLines core.old.image }
    requires names { HasNames core.old.image.names (asked script.now) }
    ensures ends { EndsAs (ShowsLive (app_of app.now) core.old.image board.now script.now)
        (K.taken out.old) (K.taken out.new) (K.faults out.old) (K.faults out.new) result }
    ensures heard { (K.faults out.new ≡ K.faults out.old) ⊎ (result ≡ Status.Write) }
{
    let Ok(front) = heading(alloc, core.image()) else {
        return Status::Memory;
    };
    match rt_live_inputs::live(rt, alloc, core, app, board, script, &front, out, gate) {
        Ok(()) => Status::Done,
        Err(LiveFail::Fault) => Status::Write,
        Err(LiveFail::NoMemory) => Status::Memory,
    }
}
