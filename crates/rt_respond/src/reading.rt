// Reads a text of limits.

ghost use Rattle.std.specs.Prelude.{◌≡◌, ◌≤◌, length, IfOk, IfErr};
ghost use Rattle.rt_ids.specs.declared.limits.TheConstants.{TASKS};
ghost use Rattle.rt_lines.specs.Answers.{and_make};
ghost use Rattle.rt_app.specs.View.{app_of};
ghost use Rattle.rt_app.specs.Accepted.{IsAccepted};
ghost use Rattle.rt_respond.specs.Limits.{AreLimits};
ghost use Rattle.rt_respond.specs.Text as spec;

use crate::limits::Limits;
use crate::line::read_line;
use crate::refusal::{Cause, LimitsRefused};
use rt_app::App;
use rt_ids::NoMemory;
use rt_ids::limits::SCRIPT_BYTES;
use rt_script::first_line;
use std::alloc::Global;

/// Reads the limits of a text, over the names of an application. The first wrong line is refused; where it is of no
/// form, or says what was said before, and its name is unknown too, its form is told where its number or its name is of
/// no form, else that the name is unknown.
pub fn read_limits(alloc: Global, bytes: &[u8], app: &App) -> Result<Limits, LimitsRefused>
    requires { IsAccepted (app_of app.now) }
    ensures read { IfOk result (λ limits. spec.IsLimitsText (app_of app.now) bytes.now limits) }
    ensures fine { IfOk result (λ limits. AreLimits (app_of app.now) limits) }
    ensures refused { IfErr result (λ refusal. spec.IsRefused (app_of app.now) bytes.now refusal) }
{
    if bytes.len() > SCRIPT_BYTES as usize {
        return Err(LimitsRefused::Wrong {
            line: 1,
            cause: Cause::TooLong,
        });
    }
    let mut limits = Limits::new(alloc);
    let mut rest = bytes;
    let mut number = 0;
    while !rest.is_empty() {
        let (line, behind) = first_line(rest);
        number += 1;
        match take_line(&mut limits, app, line) {
            Ok(Ok(())) => rest = behind,
            Ok(Err(cause)) => {
                return Err(LimitsRefused::Wrong {
                    line: number,
                    cause,
                });
            }
            Err(NoMemory) => return Err(LimitsRefused::NoMemory),
        }
    }
    Ok(limits)
}

/// Adds what a line says, or tells what is wrong with the line.
fn take_line(limits: &mut Limits, app: &App, line: &[u8]) -> Result<Result<(), Cause>, NoMemory>
    requires { length (app_of app.now).tasks ≤ TASKS }
    ensures taken { IfOk result (λ taken.
        (spec.limits_reader (app_of app.now)).step limits.old line.now ≡ and_make taken (λ _. limits.new)) }
    ensures unchanged { IfOk result (λ taken. IfErr taken (λ _. limits.new ≡ limits.old)) }
{
    match read_line(app, limits, line) {
        Ok(None) => Ok(Ok(())),
        Ok(Some(said)) => Ok(Ok(limits.add(said)?)),
        Err(cause) => Ok(Err(cause)),
    }
}
