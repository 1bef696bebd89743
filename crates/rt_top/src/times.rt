// The command `times`.

ghost use Rattle.std.specs.Prelude.{◌≡◌, ℕ, List, true, IfOk};
ghost use Rattle.rt_app.specs.View.{app_of};
ghost use Rattle.rt_app.specs.Accepted.{IsAccepted};
ghost use Rattle.rt_app.specs.Forms.{has_response_times};
ghost use Rattle.rt_build.specs.Accepted.{IsApplication};
ghost use Rattle.rt_rta.specs.Limits.{AreLimits};
ghost use Rattle.rt_rta.specs.Report.{report};
ghost use Rattle.rt_rta.specs.Response.{AreResponseTimes};
ghost use Rattle.rt_rta.specs.Text.{IsLimitsText};
ghost use Rattle.rt_rta.specs.declared.response.ResponseTime.{ResponseTime};
ghost use Rattle.rt_top.specs.Words as word;
ghost use Rattle.rt_top.specs.Kinds as kind;
ghost use Rattle.rt_top.specs.Program.{inputs};
ghost use Rattle.rt_top.specs.Outputs.{TellsTimes};
ghost use Rattle.rt_top.specs.Rtic.{rtic_program};
ghost use Rattle.rt_top.specs.Reads.{given_by};
ghost use Rattle.rt_top.specs.Inside.Decides.{AnswersOne};
ghost use Rattle.rt_top.specs.Inside.Replies.{Replies};
ghost use Rattle.rt_top.specs.Inside.Using.{HasUse, Reads};

use crate::reading::read_within;
use crate::reply::{NOT_OF_FORM, Reply, line, refuse_limits, reply_of_text};
use rt_app::App;
use rt_frames::has_response_times;
use rt_ids::limits::SCRIPT_BYTES;
use rt_ids::{NoMemory, Status};
use rt_outside::Source;
use rt_rta::{Limits, LimitsRefused, read_limits};
use std::alloc::Global;

/// `times APP LIMITS`: the response time of each priority, or that the application is not of its form.
#[inline(never)]
pub(crate) fn times<S: Source>(alloc: Global, app: &App, source: &mut S) -> Reply
    requires { IsAccepted (app_of app.now) }
    ensures { (first third : List ℕ) → IsApplication first (app_of app.now) →
        let gave = given_by S.past source.old source.new in
        AnswersOne rtic_program word.Times kind.Limits (inputs first gave third) gave
        (HasUse S.past S.left S.faults source.old source.new) result }
{
    match read_limits_of(alloc, app, source) {
        Ok(limits) => times_reply(alloc, app, &limits),
        Err(reply) => reply,
    }
}

/// Reads limits on the interrupts of an application.
fn read_limits_of<S: Source>(alloc: Global, app: &App, source: &mut S) -> Result<Limits, Reply>
    requires { IsAccepted (app_of app.now) }
    ensures reads { (first : List ℕ) → IsApplication first (app_of app.now) →
        let gave = given_by S.past source.old source.new in
        Reads rtic_program kind.Limits first gave (HasUse S.past S.left S.faults source.old source.new)
        (λ limits. IsLimitsText (app_of app.now) gave limits) result }
    ensures limits { IfOk result (λ limits. AreLimits (app_of app.now) limits) }
{
    let text = match read_within(alloc, source, SCRIPT_BYTES) {
        Ok(Some(text)) => text,
        Ok(None) => return Err(refuse_limits(alloc, LimitsRefused::TooLong)),
        Err(status) => return Err(Reply::Stop(status)),
    };
    match read_limits(alloc, &text, app) {
        Ok(limits) => Ok(limits),
        Err(refusal) => Err(refuse_limits(alloc, refusal)),
    }
}

/// The reply to limits.
fn times_reply(alloc: Global, app: &App, limits: &Limits) -> Reply
    requires accepted { IsAccepted (app_of app.now) }
    requires limits { AreLimits (app_of app.now) limits.now }
    ensures { Replies (TellsTimes (app_of app.now) limits.now) result }
{
    if !has_response_times(app) {
        return line(alloc, Status::No, NOT_OF_FORM);
    }
    reply_of_text(Status::Done, response_lines(alloc, app, limits))
}

/// The lines of the response times.
fn response_lines(alloc: Global, app: &App, limits: &Limits) -> Result<Vec<u8>, NoMemory>
    requires accepted { IsAccepted (app_of app.now) }
    requires form { has_response_times (app_of app.now) ≡ true }
    requires limits { AreLimits (app_of app.now) limits.now }
    ensures { IfOk result (λ text. (rows : List ResponseTime) × AreResponseTimes (app_of app.now) limits.now rows
        × (text.items ≡ report rows)) }
{
    let rows = rt_rta::times(alloc, app, limits)?;
    rt_rta::report(alloc, &rows)
}
