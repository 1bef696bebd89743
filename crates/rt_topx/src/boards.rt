// Reads a board from a source.

ghost use Rattle.std.specs.Prelude.{IfOk};
ghost use Rattle.rt_ids.specs.declared.status.Status.TheVariants as status;
ghost use Rattle.rt_app.specs.Accepted.{IsAccepted};
ghost use Rattle.rt_app.specs.View.{app_of};
ghost use Rattle.rt_build.specs.Accepted.{IsApplication};
ghost use Rattle.rt_board.specs.Board.{AreInputs};
ghost use Rattle.rt_target.specs.Reading.{IsBoardOf};
ghost use Rattle.rt_top.specs.Program.{Inputs};
ghost use Rattle.rt_top.specs.Inside.Decides.{Tells};
ghost use Rattle.rt_top.specs.Inside.Using.{HasUse, Reads};
ghost use Rattle.rt_top.specs.Reads.{given_by};
ghost use Rattle.rt_topx.specs.Kinds as kind;
ghost use Rattle.rt_topx.specs.Refusal.{SaysBoard};
ghost use Rattle.rt_topx.specs.Rticx.{rticx_program};

use rt_app::App;
use rt_board::Board;
use rt_ids::Status;
use rt_ids::limits::SCRIPT_BYTES;
use rt_outside::Source;
use rt_target::{Cause, SetupRefused, read_setup, refusal_text};
use rt_top::reading::read_within;
use rt_top::reply::{Reply, reply_of_text};
use std::alloc::Global;

/// A text that is too long is refused at its first line.
pub(crate) const TOO_LONG: SetupRefused = SetupRefused::Wrong {
    line: 1,
    cause: Cause::TooLong,
};

/// Reads a board of an application.
pub(crate) fn read_board_of<S: Source>(
    alloc: Global,
    app: &App,
    source: &mut S,
) -> Result<Board, Reply>
    requires { IsAccepted (app_of app.now) }
    ensures reads { (t : Inputs) → IsApplication t.first (app_of app.now) →
        let gave = given_by S.past source.old source.new in
        Reads rticx_program kind.Board t gave (HasUse S.past S.left S.faults source.old source.new)
        (λ board. IsBoardOf (app_of app.now) gave board) result }
    ensures inputs { IfOk result (λ board. AreInputs (app_of app.now) board.inputs) }
{
    let Ok(names) = app.names(alloc) else {
        return Err(Reply::Stop(Status::Memory));
    };
    let text = match read_within(alloc, source, SCRIPT_BYTES) {
        Ok(Some(text)) => text,
        Ok(None) => return Err(refuse_board(alloc, TOO_LONG)),
        Err(status) => return Err(Reply::Stop(status)),
    };
    match read_setup(alloc, &text, app, &names) {
        Ok(setup) => Ok(setup.into_board()),
        Err(refusal) => Err(refuse_board(alloc, refusal)),
    }
}

/// The reply of a refusal of a board.
pub(crate) fn refuse_board(alloc: Global, refusal: SetupRefused) -> Reply
    ensures { Tells status.Text (SaysBoard refusal) result }
{
    match refusal {
        SetupRefused::Wrong { line, cause } => {
            reply_of_text(Status::Text, refusal_text(alloc, line, cause))
        }
        SetupRefused::NoMemory => Reply::Stop(Status::Memory),
    }
}
