// The command `audit`.

ghost use Rattle.std.specs.Prelude.{◌≡◌, ℕ, List, Some};
ghost use Rattle.rt_app.specs.Accepted.{IsAccepted};
ghost use Rattle.rt_app.specs.Names.{names_of};
ghost use Rattle.rt_app.specs.View.{app_of};
ghost use Rattle.rt_baker_moves.specs.Machine.{IsMachine};
ghost use Rattle.rt_build.specs.Accepted.{IsApplication};
ghost use Rattle.rt_top.specs.Words as word;
ghost use Rattle.rt_top.specs.Kinds as kind;
ghost use Rattle.rt_top.specs.Program.{inputs};
ghost use Rattle.rt_top.specs.Rtic.{rtic_program};
ghost use Rattle.rt_top.specs.Reads.{given_by};
ghost use Rattle.rt_top.specs.Inside.Auditor.{IsJudgedText};
ghost use Rattle.rt_top.specs.Inside.Decides.{AnswersOne};
ghost use Rattle.rt_top.specs.Inside.Using.{HasUse, Reads};

use crate::auditor::{Auditor, Chosen};
use crate::reply::{Reply, refuse_trace, reply_number};
use rt_app::App;
use rt_baker::Verdict;
use rt_baker_moves::{Machine, Tables};
use rt_ids::limits::TRACE_BYTES;
use rt_ids::{Names, Status};
use rt_outside::{ReadFail, Source, read_lines};
use rt_trace::TraceRefused;
use std::alloc::Global;
use std::marker::Brand;

/// `audit APP TRACE`: whether the trace is a run of Baker's machine on the application, else its first wrong item.
#[inline(never)]
pub(crate) fn audit<S: Source>(alloc: Global, app: &App, source: &mut S) -> Reply
    requires { IsAccepted (app_of app.now) }
    ensures { (first third : List ℕ) → IsApplication first (app_of app.now) →
        let gave = given_by S.past source.old source.new in
        AnswersOne rtic_program word.Audit kind.Trace (inputs first gave third) gave
        (HasUse S.past S.left S.faults source.old source.new) result }
{
    match judge_source(alloc, app, source) {
        Ok((Verdict::Yes, items)) => reply_number(alloc, Status::Done, b"yes ", items, b"\n"),
        Ok((Verdict::No(number), _)) => reply_number(alloc, Status::No, b"no ", number, b"\n"),
        Err(reply) => reply,
    }
}

/// The verdict on the trace that a source holds, and how many items it has.
fn judge_source<S: Source>(
    alloc: Global,
    app: &App,
    source: &mut S,
) -> Result<(Verdict, u64), Reply>
    requires { IsAccepted (app_of app.now) }
    ensures { (first : List ℕ) → IsApplication first (app_of app.now) →
        let gave = given_by S.past source.old source.new in
        Reads rtic_program kind.Trace first gave (HasUse S.past S.left S.faults source.old source.new)
        (λ told. IsJudgedText (app_of app.now) gave told.0 told.1) result }
{
    let Ok(names) = app.names(alloc) else {
        return Err(Reply::Stop(Status::Memory));
    };
    let Ok(tables) = Tables::new(alloc, app) else {
        return Err(Reply::Stop(Status::Memory));
    };
    let code = tables.code(alloc, app);
    let machine = tables.machine(&code);
    judge_lines::<Brand, S>(alloc, &names, &machine, source)
}

/// The verdict on the lines of a source, by Baker's machine on an application of these names, and how many items they
/// have.
fn judge_lines<C: Chosen, S: Source>(
    alloc: Global,
    names: &Names,
    machine: &Machine<'_>,
    source: &mut S,
) -> Result<(Verdict, u64), Reply>
    requires follows { IsMachine machine.now }
    requires chosen { C.app ≡ Some (app_of machine.now.code.now.app.now) }
    requires names { names.now ≡ names_of (app_of machine.now.code.now.app.now) }
    ensures { (first : List ℕ) → let app = app_of machine.now.code.now.app.now in
        IsApplication first app → let gave = given_by S.past source.old source.new in
        Reads rtic_program kind.Trace first gave (HasUse S.past S.left S.faults source.old source.new)
        (λ told. IsJudgedText app gave told.0 told.1) result }
{
    let Ok(mut auditor) = Auditor::<C>::new(names, machine) else {
        return Err(Reply::Stop(Status::Memory));
    };
    let count = match read_lines(alloc, source, TRACE_BYTES, &mut auditor) {
        Ok(count) => count,
        Err(ReadFail::TooLong) => return Err(refuse_trace(alloc, TraceRefused::TooLong)),
        Err(ReadFail::Fault) => return Err(Reply::Stop(Status::Read)),
        Err(ReadFail::NoMemory) => return Err(Reply::Stop(Status::Memory)),
    };
    match auditor.end(count) {
        Ok(told) => Ok(told),
        Err(refusal) => Err(refuse_trace(alloc, refusal)),
    }
}
