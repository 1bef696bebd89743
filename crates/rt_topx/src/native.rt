// The command `native`.

ghost use Rattle.std.specs.Prelude.{◌≡◌, ◌≤◌, ℕ, List, length, None, IfOk, IfErr};
ghost use Rattle.rt_ids.specs.declared.limits.TheConstants.{SCRIPT_BYTES};
ghost use Rattle.rt_app.specs.Accepted.{IsAccepted};
ghost use Rattle.rt_app.specs.View.{app_of};
ghost use Rattle.rt_board.specs.Board.{AreInputs};
ghost use Rattle.rt_build.specs.Accepted.{IsApplication};
ghost use Rattle.rt_target.specs.{Chip.AreFacts, Reading.wanting};
ghost use Rattle.rt_top.specs.Program.{inputs};
ghost use Rattle.rt_top.specs.Inside.Decides.{AnswersOne};
ghost use Rattle.rt_top.specs.Inside.Replies.{Replies};
ghost use Rattle.rt_top.specs.Inside.Using.{HasUse};
ghost use Rattle.rt_top.specs.Reads.{given_by};
ghost use Rattle.rt_topx.specs.declared.command.Command.TheVariants as command;
ghost use Rattle.rt_topx.specs.Inside.Making as making;
ghost use Rattle.rt_topx.specs.Kinds as kind;
ghost use Rattle.rt_topx.specs.Executable as spec;
ghost use Rattle.rt_topx.specs.Rticx.{rticx_program};

use crate::boards::{TOO_LONG, refuse_board};
use crate::target::target_of;
use rt_app::App;
use rt_build::build;
use rt_ids::limits::SCRIPT_BYTES;
use rt_ids::{NoMemory, Status};
use rt_native::Unfit;
use rt_outside::Source;
use rt_target::{Cause, Setup, line_number, read_target, refusal_text};
use rt_top::reading::read_within;
use rt_top::reply::{Reply, reply_of_text};
use std::alloc::Global;

/// `native APP BOARD`: the file of the application's image for the chip of the board, or why the image does not fit.
#[inline(never)]
pub(crate) fn native<S: Source>(alloc: Global, app: &App, source: &mut S) -> Reply
    requires { IsAccepted (app_of app.now) }
    ensures { (first third : List ℕ) → IsApplication first (app_of app.now) →
        let gave = given_by S.past source.old source.new in
        AnswersOne rticx_program command.Native kind.Target (inputs first gave third) gave
        (HasUse S.past S.left S.faults source.old source.new) result }
{
    let Ok(names) = app.names(alloc) else {
        return Reply::Stop(Status::Memory);
    };
    let text = match read_within(alloc, source, SCRIPT_BYTES) {
        Ok(Some(text)) => text,
        Ok(None) => return refuse_board(alloc, TOO_LONG),
        Err(status) => return Reply::Stop(status),
    };
    match read_target(alloc, &text, app, &names) {
        Ok(setup) => make(alloc, app, &text, &setup),
        Err(refusal) => refuse_board(alloc, refusal),
    }
}

/// The file of an application's image for the chip of a text, or the line of the text that the image does not
/// fit.
fn make(alloc: Global, app: &App, text: &[u8], setup: &Setup) -> Reply
    requires accepted { IsAccepted (app_of app.now) }
    requires facts { AreFacts (app_of app.now) setup.now.facts }
    requires inputs { AreInputs (app_of app.now) setup.now.board.inputs }
    requires whole { wanting setup.now.facts ≡ None }
    requires short { length text.now ≤ SCRIPT_BYTES }
    ensures { Replies (making.IsMade (app_of app.now) text.now setup.now) result }
{
    match program(alloc, app, setup) {
        Ok(Ok(bytes)) => Reply::Write {
            status: Status::Done,
            text: bytes,
        },
        Ok(Err(cause)) => {
            let line = line_number(text, first_word(cause));
            reply_of_text(Status::Text, refusal_text(alloc, line, cause))
        }
        Err(NoMemory) => Reply::Stop(Status::Memory),
    }
}

/// The file of an application's image for the chip of a board, or why the image does not fit.
fn program(alloc: Global, app: &App, setup: &Setup) -> Result<Result<Vec<u8>, Cause>, NoMemory>
    requires accepted { IsAccepted (app_of app.now) }
    requires facts { AreFacts (app_of app.now) setup.now.facts }
    requires inputs { AreInputs (app_of app.now) setup.now.board.inputs }
    requires whole { wanting setup.now.facts ≡ None }
    ensures bytes { IfOk result (λ made. IfOk made (λ bytes.
        making.IsProgram (app_of app.now) setup.now bytes.items)) }
    ensures unfit { IfOk result (λ made. IfErr made (making.IsMisfit (app_of app.now) setup.now)) }
{
    let image = build(alloc, app)?;
    let target = target_of(alloc, app, setup)?;
    match rt_native::native(alloc, &image, &target) {
        Ok(bytes) => Ok(Ok(bytes)),
        Err(unfit) => Ok(Err(cause_of(unfit)?)),
    }
}

/// Why an image does not fit, as it is told of a board.
fn cause_of(unfit: Unfit) -> Result<Cause, NoMemory>
    ensures { IfOk result (λ cause. making.Tells unfit cause) }
{
    match unfit {
        Unfit::Line => Ok(Cause::TooFewLines),
        Unfit::Ram => Ok(Cause::SmallRam),
        Unfit::Flash => Ok(Cause::SmallFlash),
        Unfit::Reach => Ok(Cause::FarBranch),
        Unfit::File => Ok(Cause::LongFile),
        Unfit::NoMemory => Err(NoMemory),
    }
}

/// The first word of the line that such a cause is told of.
fn first_word(cause: Cause) -> &'static [u8]
    ensures { result.now ≡ spec.first_word cause }
{
    match cause {
        Cause::TooFewLines => b"bits",
        Cause::SmallRam => b"ram",
        _ => b"flash",
    }
}
