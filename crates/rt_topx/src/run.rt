// The command `run`.

ghost use Rattle.std.specs.Prelude.{◌≡◌, ◌⊎◌, ℕ, List};
ghost use Rattle.rt_app.specs.Accepted.{IsAccepted};
ghost use Rattle.rt_app.specs.View.{app_of};
ghost use Rattle.rt_build.specs.Accepted.{IsApplication};
ghost use Rattle.rt_build.specs.Image.{IsImageOf};
ghost use Rattle.rt_code.specs.Lines.{HasLines};
ghost use Rattle.rt_core.specs.Machine.{IsFresh};
ghost use Rattle.rt_script.specs.Script.{HasNames};
ghost use Rattle.rt_board.specs.Board.{AreInputs};
ghost use Rattle.rt_target.specs.Reading.{IsBoardOf};
ghost use Rattle.rt_given.specs.Given.{asked};
ghost use Rattle.rt_top.specs.Program.{inputs};
ghost use Rattle.rt_top.specs.Inside.Decides.{EndsAs, ConductsOne};
ghost use Rattle.rt_top.specs.Inside.Using.{HasUse};
ghost use Rattle.rt_top.specs.Reads.{given_by};
ghost use Rattle.rt_topx.specs.declared.command.Command.TheVariants as command;
ghost use Rattle.rt_topx.specs.Inside.Started.{ShowsRun};
ghost use Rattle.rt_topx.specs.Kinds as kind;
ghost use Rattle.rt_topx.specs.Rticx.{rticx_program};

use crate::start::start;
use rt_app::App;
use rt_board::Board;
use rt_core::Core;
use rt_given::GivenScript;
use rt_ids::Status;
use rt_inputs::run_with_inputs;
use rt_outside::{Sink, Source, put_all};
use rt_top::reply::finish;
use rt_top::run::heading;
use std::alloc::Global;

/// `run APP BOARD SCRIPT`: the listing of the application's image, and that image's trace under the script, with the
/// words that the devices of the board put.
#[inline(never)]
pub(crate) fn run<S: Source, K: Sink>(
    alloc: Global,
    app: &App,
    board: &Board,
    source: &mut S,
    out: &mut K,
) -> Status
    requires accepted { IsAccepted (app_of app.now) }
    requires inputs { AreInputs (app_of app.now) board.now.inputs }
    ensures ends { (first second : List ℕ) → IsApplication first (app_of app.now) →
        IsBoardOf (app_of app.now) second board.now →
        let gave = given_by S.past source.old source.new in
        ConductsOne rticx_program command.Run kind.Script (inputs first second gave) gave
        (HasUse S.past S.left S.faults source.old source.new)
        (K.taken out.old) (K.taken out.new) (K.faults out.old) (K.faults out.new) result }
    ensures heard { (K.faults out.new ≡ K.faults out.old) ⊎ (result ≡ Status.Write) }
{
    match start(alloc, app, board, source) {
        Ok((mut core, script)) => run_script(alloc, app, board, &mut core, &script, out),
        Err(reply) => finish(out, &reply),
    }
}

/// Runs a core under a script beside devices: writes the listing of its image, and its trace. It wants no memory after
/// the first byte.
#[inline(never)]
fn run_script<K: Sink>(
    alloc: Global,
    app: &App,
    board: &Board,
    core: &mut Core,
    script: &GivenScript,
    out: &mut K,
) -> Status
    requires accepted { IsAccepted (app_of app.now) }
    requires image { IsImageOf (app_of app.now) core.old.image }
    requires inputs { AreInputs (app_of app.now) board.now.inputs }
    requires fresh { IsFresh core.old }
    requires lines { HasLines core.old.image }
    requires names { HasNames core.old.image.names (asked script.now) }
    ensures ends { EndsAs (ShowsRun (app_of app.now) core.old.image board.now script.now)
        (K.taken out.old) (K.taken out.new) (K.faults out.old) (K.faults out.new) result }
    ensures heard { (K.faults out.new ≡ K.faults out.old) ⊎ (result ≡ Status.Write) }
{
    let Ok(front) = heading(alloc, core.image()) else {
        return Status::Memory;
    };
    match put_all(out, &front) {
        Ok(()) => match run_with_inputs(core, app, board, script, out) {
            Ok(()) => Status::Done,
            Err(_) => Status::Write,
        },
        Err(_) => Status::Write,
    }
}
