// The command `audit`.

ghost use Rattle.std.specs.Prelude.{◌≡◌, ℕ, List, Some};
ghost use Rattle.rt_ids.specs.declared.status.Status.TheVariants as status;
ghost use Rattle.rt_app.specs.Accepted.{IsAccepted};
ghost use Rattle.rt_app.specs.Names.{names_of};
ghost use Rattle.rt_app.specs.View.{app_of};
ghost use Rattle.rt_baker_moves.specs.Machine.{IsMachine};
ghost use Rattle.rt_build.specs.Accepted.{IsApplication};
ghost use Rattle.rt_board.specs.Board.{AreInputs};
ghost use Rattle.rt_target.specs.Reading.{IsBoardOf};
ghost use Rattle.rt_inputs_audit.specs.Auditor.{IsJudgedText};
ghost use Rattle.rt_top.specs.Program.{Inputs, inputs};
ghost use Rattle.rt_top.specs.Inside.Decides.{Tells, AnswersOne};
ghost use Rattle.rt_top.specs.Inside.Using.{HasUse, Reads};
ghost use Rattle.rt_top.specs.Reads.{given_by};
ghost use Rattle.rt_topx.specs.declared.command.Command.TheVariants as command;
ghost use Rattle.rt_topx.specs.Kinds as kind;
ghost use Rattle.rt_topx.specs.Refusal.{SaysTrace};
ghost use Rattle.rt_topx.specs.Rticx.{rticx_program};

use rt_app::App;
use rt_baker::Verdict;
use rt_baker_moves::{Machine, Tables};
use rt_board::Board;
use rt_ids::limits::TRACE_BYTES;
use rt_ids::{Names, Status};
use rt_inputs_audit::{Cause, Chosen, InputsAuditor, InputsRefused, refusal_text};
use rt_outside::{ReadFail, Source, read_lines};
use rt_top::reply::{Reply, reply_number, reply_of_text};
use std::alloc::Global;
use std::marker::Brand;

/// A text that is too long is refused at its first line.
const TOO_LONG: InputsRefused = InputsRefused::Wrong {
    line: 1,
    cause: Cause::TooLong,
};

/// `audit APP BOARD TRACE`: whether the trace is a run of Baker's machine on the application beside the devices of the
/// board, else its first wrong line.
#[inline(never)]
pub(crate) fn audit<S: Source>(alloc: Global, app: &App, board: &Board, source: &mut S) -> Reply
    requires accepted { IsAccepted (app_of app.now) }
    requires inputs { AreInputs (app_of app.now) board.now.inputs }
    ensures { (first second : List ℕ) → IsApplication first (app_of app.now) →
        IsBoardOf (app_of app.now) second board.now →
        let gave = given_by S.past source.old source.new in
        AnswersOne rticx_program command.Audit kind.Trace (inputs first second gave) gave
        (HasUse S.past S.left S.faults source.old source.new) result }
{
    match judge_source(alloc, app, board, source) {
        Ok((Verdict::Yes, lines)) => reply_number(alloc, Status::Done, b"yes ", lines, b"\n"),
        Ok((Verdict::No(number), _)) => reply_number(alloc, Status::No, b"no ", number, b"\n"),
        Err(reply) => reply,
    }
}

/// The verdict on the trace that a source holds, and how many lines of items and words it has.
fn judge_source<S: Source>(
    alloc: Global,
    app: &App,
    board: &Board,
    source: &mut S,
) -> Result<(Verdict, u64), Reply>
    requires accepted { IsAccepted (app_of app.now) }
    requires inputs { AreInputs (app_of app.now) board.now.inputs }
    ensures { (t : Inputs) → IsApplication t.first (app_of app.now) →
        IsBoardOf (app_of app.now) t.second board.now →
        let gave = given_by S.past source.old source.new in
        Reads rticx_program kind.Trace t gave (HasUse S.past S.left S.faults source.old source.new)
        (λ told. IsJudgedText (app_of app.now) board.now gave told.0 told.1) result }
{
    let Ok(names) = app.names(alloc) else {
        return Err(Reply::Stop(Status::Memory));
    };
    let Ok(tables) = Tables::new(alloc, app) else {
        return Err(Reply::Stop(Status::Memory));
    };
    let code = tables.code(alloc, app);
    let machine = tables.machine(&code);
    judge_lines::<Brand, S>(alloc, &names, &machine, board, source)
}

/// The verdict on the lines of a source, by Baker's machine on an application of these names beside the devices of a
/// board, and how many lines of items and words there are.
fn judge_lines<C: Chosen, S: Source>(
    alloc: Global,
    names: &Names,
    machine: &Machine<'_>,
    board: &Board,
    source: &mut S,
) -> Result<(Verdict, u64), Reply>
    requires follows { IsMachine machine.now }
    requires chosen { C.app ≡ Some (app_of machine.now.code.now.app.now) }
    requires on { C.board ≡ Some board.now }
    requires inputs { AreInputs (app_of machine.now.code.now.app.now) board.now.inputs }
    requires names { names.now ≡ names_of (app_of machine.now.code.now.app.now) }
    ensures { (t : Inputs) → let app = app_of machine.now.code.now.app.now in
        IsApplication t.first app → IsBoardOf app t.second board.now →
        let gave = given_by S.past source.old source.new in
        Reads rticx_program kind.Trace t gave (HasUse S.past S.left S.faults source.old source.new)
        (λ told. IsJudgedText app board.now gave told.0 told.1) result }
{
    let Ok(mut auditor) = InputsAuditor::<C>::new(names, machine, board) else {
        return Err(Reply::Stop(Status::Memory));
    };
    let count = match read_lines(alloc, source, TRACE_BYTES, &mut auditor) {
        Ok(count) => count,
        Err(ReadFail::TooLong) => return Err(refuse_trace(alloc, TOO_LONG)),
        Err(ReadFail::Fault) => return Err(Reply::Stop(Status::Read)),
        Err(ReadFail::NoMemory) => return Err(Reply::Stop(Status::Memory)),
    };
    match auditor.end(count) {
        Ok(told) => Ok(told),
        Err(refusal) => Err(refuse_trace(alloc, refusal)),
    }
}

/// The reply of a refusal of a trace.
fn refuse_trace(alloc: Global, refusal: InputsRefused) -> Reply
    ensures { Tells status.Text (SaysTrace refusal) result }
{
    match refusal {
        InputsRefused::Wrong { line, cause } => {
            reply_of_text(Status::Text, refusal_text(alloc, line, cause))
        }
        InputsRefused::NoMemory => Reply::Stop(Status::Memory),
    }
}
