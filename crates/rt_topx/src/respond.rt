// The command `respond`.

ghost use Rattle.std.specs.Prelude.{◌≡◌, ℕ, List, IfOk, if◌then◌else◌};
ghost use Rattle.rt_ids.specs.declared.status.Status.TheVariants as status;
ghost use Rattle.rt_app.specs.Accepted.{IsAccepted};
ghost use Rattle.rt_app.specs.View.{app_of};
ghost use Rattle.rt_build.specs.Accepted.{IsApplication};
ghost use Rattle.rt_respond.specs.Limits.{AreLimits};
ghost use Rattle.rt_respond.specs.Text.{IsLimitsText};
ghost use Rattle.rt_top.specs.Program.{Inputs, inputs};
ghost use Rattle.rt_top.specs.Inside.Decides.{AnswersOne, Tells};
ghost use Rattle.rt_top.specs.Inside.Replies.{Replies};
ghost use Rattle.rt_top.specs.Inside.Using.{HasUse, Reads};
ghost use Rattle.rt_top.specs.Reads.{given_by};
ghost use Rattle.rt_topx.specs.declared.command.Command.TheVariants as command;
ghost use Rattle.rt_topx.specs.Kinds as kind;
ghost use Rattle.rt_topx.specs.Refusal.{SaysLimits};
ghost use Rattle.rt_topx.specs.Responded.{TellsResponses};
ghost use Rattle.rt_topx.specs.Rticx.{rticx_program};

use rt_app::App;
use rt_ids::limits::SCRIPT_BYTES;
use rt_ids::{NoMemory, Status};
use rt_outside::Source;
use rt_respond::{Answer, Cause, Limits, LimitsRefused, answer_of, read_limits, refusal_text};
use rt_top::reading::read_within;
use rt_top::reply::{Reply, reply_of_text};
use std::alloc::Global;

/// A text that is too long is refused at its first line.
const TOO_LONG: LimitsRefused = LimitsRefused::Wrong {
    line: 1,
    cause: Cause::TooLong,
};

/// `respond APP LIMITS`: the response time of each task, what comes of requests, the load and the deadlines.
#[inline(never)]
pub(crate) fn respond<S: Source>(alloc: Global, app: &App, source: &mut S) -> Reply
    requires { IsAccepted (app_of app.now) }
    ensures { (first third : List ℕ) → IsApplication first (app_of app.now) →
        let gave = given_by S.past source.old source.new in
        AnswersOne rticx_program command.Respond kind.Limits (inputs first gave third) gave
        (HasUse S.past S.left S.faults source.old source.new) result }
{
    match read_limits_of(alloc, app, source) {
        Ok(limits) => respond_reply(alloc, app, &limits),
        Err(reply) => reply,
    }
}

/// Reads limits for an application.
fn read_limits_of<S: Source>(alloc: Global, app: &App, source: &mut S) -> Result<Limits, Reply>
    requires { IsAccepted (app_of app.now) }
    ensures reads { (t : Inputs) → IsApplication t.first (app_of app.now) →
        let gave = given_by S.past source.old source.new in
        Reads rticx_program kind.Limits t gave (HasUse S.past S.left S.faults source.old source.new)
        (λ limits. IsLimitsText (app_of app.now) gave limits) result }
    ensures limits { IfOk result (λ limits. AreLimits (app_of app.now) limits) }
{
    let text = match read_within(alloc, source, SCRIPT_BYTES) {
        Ok(Some(text)) => text,
        Ok(None) => return Err(refuse_limits(alloc, TOO_LONG)),
        Err(status) => return Err(Reply::Stop(status)),
    };
    match read_limits(alloc, &text, app) {
        Ok(limits) => Ok(limits),
        Err(refusal) => Err(refuse_limits(alloc, refusal)),
    }
}

/// The reply of a refusal of limits.
fn refuse_limits(alloc: Global, refusal: LimitsRefused) -> Reply
    ensures { Tells status.Text (SaysLimits refusal) result }
{
    match refusal {
        LimitsRefused::Wrong { line, cause } => {
            reply_of_text(Status::Text, refusal_text(alloc, line, cause))
        }
        LimitsRefused::NoMemory => Reply::Stop(Status::Memory),
    }
}

/// The reply to limits.
fn respond_reply(alloc: Global, app: &App, limits: &Limits) -> Reply
    requires accepted { IsAccepted (app_of app.now) }
    requires limits { AreLimits (app_of app.now) limits.now }
    ensures { Replies (TellsResponses (app_of app.now) limits.now) result }
{
    match answer_of(alloc, app, limits) {
        Ok(answer) => Reply::Write {
            status: status_of(&answer),
            text: answer.text,
        },
        Err(NoMemory) => Reply::Stop(Status::Memory),
    }
}

/// The status of an answer: whether a deadline is late.
fn status_of(answer: &Answer) -> Status
    ensures { result ≡ (if answer.now.is_late then Status.No else Status.Done) }
{
    if answer.is_late {
        Status::No
    } else {
        Status::Done
    }
}
