// What a run beside devices starts from: a core with an image, and a script.

ghost use Rattle.std.specs.Prelude.{◌≡◌, IfOk};
ghost use Rattle.rt_ids.specs.declared.status.Status.TheVariants as status;
ghost use Rattle.rt_app.specs.Accepted.{IsAccepted};
ghost use Rattle.rt_app.specs.Names.{names_of};
ghost use Rattle.rt_app.specs.View.{app_of};
ghost use Rattle.rt_build.specs.Accepted.{IsApplication};
ghost use Rattle.rt_code.specs.Lines.{HasLines};
ghost use Rattle.rt_core.specs.Machine.{IsFresh};
ghost use Rattle.rt_script.specs.Script.{HasNames};
ghost use Rattle.rt_target.specs.Reading.{IsBoardOf};
ghost use Rattle.rt_given.specs.Given.{asked, GiveInputs};
ghost use Rattle.rt_given.specs.Reading.{IsGivenText};
ghost use Rattle.rt_top.specs.Program.{Inputs};
ghost use Rattle.rt_top.specs.Inside.Decides.{Tells};
ghost use Rattle.rt_top.specs.Inside.Using.{HasUse, Reads};
ghost use Rattle.rt_top.specs.Outputs.{IsGoodOf};
ghost use Rattle.rt_top.specs.Reads.{given_by};
ghost use Rattle.rt_topx.specs.Kinds as kind;
ghost use Rattle.rt_topx.specs.Refusal.{SaysScript};
ghost use Rattle.rt_topx.specs.Rticx.{rticx_program};

use rt_app::App;
use rt_board::Board;
use rt_core::Core;
use rt_given::{Cause, GivenRefused, GivenScript, read_given, refusal_text};
use rt_ids::limits::SCRIPT_BYTES;
use rt_ids::{Names, Status};
use rt_outside::Source;
use rt_sim::prepare;
use rt_top::reading::read_within;
use rt_top::reply::{Reply, reply_of_text};
use std::alloc::Global;

/// A text that is too long is refused at its first line.
const TOO_LONG: GivenRefused = GivenRefused::Wrong {
    line: 1,
    cause: Cause::TooLong,
};

/// What a run under a script beside devices starts from: a core with the application's image, and the script of a
/// source.
pub(crate) fn start<S: Source>(
    alloc: Global,
    app: &App,
    board: &Board,
    source: &mut S,
) -> Result<(Core, GivenScript), Reply>
    requires accepted { IsAccepted (app_of app.now) }
    ensures reads { (t : Inputs) → IsApplication t.first (app_of app.now) →
        IsBoardOf (app_of app.now) t.second board.now →
        let gave = given_by S.past source.old source.new in
        Reads rticx_program kind.Script t gave (HasUse S.past S.left S.faults source.old source.new)
        (λ both. IsGivenText (names_of (app_of app.now)) (app_of app.now) board.now gave both.1) result }
    ensures good { IfOk result (λ both. IsGoodOf (app_of app.now) both.0.image) }
    ensures fresh { IfOk result (λ both. IsFresh both.0) }
    ensures lines { IfOk result (λ both. HasLines both.0.image) }
    ensures names { IfOk result (λ both. HasNames both.0.image.names (asked both.1)) }
    ensures inputs { IfOk result (λ both. GiveInputs board.now both.1) }
{
    let Ok(core) = prepare(alloc, app) else {
        return Err(Reply::Stop(Status::Memory));
    };
    let script = read_script_of(alloc, app, board, source, &core.image().names)?;
    Ok((core, script))
}

/// Reads a script over these names and the inputs of a board.
fn read_script_of<S: Source>(
    alloc: Global,
    app: &App,
    board: &Board,
    source: &mut S,
    names: &Names,
) -> Result<GivenScript, Reply>
    ensures reads { (t : Inputs) → IsApplication t.first (app_of app.now) →
        IsBoardOf (app_of app.now) t.second board.now → names.now ≡ names_of (app_of app.now) →
        let gave = given_by S.past source.old source.new in
        Reads rticx_program kind.Script t gave (HasUse S.past S.left S.faults source.old source.new)
        (λ script. IsGivenText names.now (app_of app.now) board.now gave script) result }
    ensures names { IfOk result (λ script. HasNames names.now (asked script)) }
    ensures inputs { IfOk result (λ script. GiveInputs board.now script) }
{
    let text = match read_within(alloc, source, SCRIPT_BYTES) {
        Ok(Some(text)) => text,
        Ok(None) => return Err(refuse_script(alloc, TOO_LONG)),
        Err(status) => return Err(Reply::Stop(status)),
    };
    match read_given(alloc, &text, names, app, board) {
        Ok(script) => Ok(script),
        Err(refusal) => Err(refuse_script(alloc, refusal)),
    }
}

/// The reply of a refusal of a script.
fn refuse_script(alloc: Global, refusal: GivenRefused) -> Reply
    ensures { Tells status.Text (SaysScript refusal) result }
{
    match refusal {
        GivenRefused::Wrong { line, cause } => {
            reply_of_text(Status::Text, refusal_text(alloc, line, cause))
        }
        GivenRefused::NoMemory => Reply::Stop(Status::Memory),
    }
}
