// Reads a script beside devices.

ghost use Rattle.std.specs.Prelude.{◌≡◌, IfOk, IfErr};
ghost use Rattle.rt_lines.specs.Answers.{and_make};
ghost use Rattle.rt_script.specs.Script.{HasNames};
ghost use Rattle.rt_app.specs.View.{app_of};
ghost use Rattle.rt_given.specs.Given.{asked, GiveInputs};
ghost use Rattle.rt_given.specs.Reading as spec;

use crate::refusal::{Cause, GivenRefused};
use crate::script::GivenScript;
use crate::words::read_given_line;
use rt_app::App;
use rt_board::Board;
use rt_ids::limits::SCRIPT_BYTES;
use rt_ids::{Names, NoMemory};
use rt_script::first_line;
use std::alloc::Global;

/// Reads the script beside devices of a text, over the names of an application and the inputs of a board. The first
/// wrong line is refused; where several things are wrong with a line, it is of no form, or else as a script's line is
/// refused.
pub fn read_given(
    alloc: Global,
    bytes: &[u8],
    names: &Names,
    app: &App,
    board: &Board,
) -> Result<GivenScript, GivenRefused>
    ensures read { IfOk result (λ script. spec.IsGivenText names.now (app_of app.now) board.now bytes.now script) }
    ensures names { IfOk result (λ script. HasNames names.now (asked script)) }
    ensures inputs { IfOk result (λ script. GiveInputs board.now script) }
    ensures refused { IfErr result (λ refusal.
        spec.IsRefused names.now (app_of app.now) board.now bytes.now refusal) }
{
    if bytes.len() > SCRIPT_BYTES as usize {
        return Err(GivenRefused::Wrong {
            line: 1,
            cause: Cause::TooLong,
        });
    }
    let mut script = GivenScript::new(alloc);
    let mut rest = bytes;
    let mut number = 0;
    while !rest.is_empty() {
        let (line, behind) = first_line(rest);
        number += 1;
        match take_line(&mut script, names, app, board, line) {
            Ok(Ok(())) => rest = behind,
            Ok(Err(cause)) => {
                return Err(GivenRefused::Wrong {
                    line: number,
                    cause,
                });
            }
            Err(NoMemory) => return Err(GivenRefused::NoMemory),
        }
    }
    Ok(script)
}

/// Adds what a line asks for, or tells what is wrong with the line.
fn take_line(
    script: &mut GivenScript,
    names: &Names,
    app: &App,
    board: &Board,
    line: &[u8],
) -> Result<Result<(), Cause>, NoMemory>
    ensures taken { IfOk result (λ taken.
        (spec.given_reader names.now (app_of app.now) board.now).step script.old line.now
        ≡ and_make taken (λ _. script.new)) }
    ensures unchanged { IfOk result (λ taken. IfErr taken (λ _. script.new ≡ script.old)) }
{
    match read_given_line(names, app, board, line) {
        Ok(None) => Ok(Ok(())),
        Ok(Some(said)) => Ok(script.push(said)?.then_some(()).ok_or(Cause::TooManyEvents)),
        Err(cause) => Ok(Err(cause)),
    }
}
