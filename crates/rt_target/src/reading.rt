// Reads the text of a board.

ghost use Rattle.std.specs.Prelude.{◌≡◌, suc, length, IfOk, IfErr};
ghost use Rattle.std.specs.List.{list_any};
ghost use Rattle.std.specs.Str.Lines.{lines};
ghost use Rattle.rt_app.specs.Names.{names_of};
ghost use Rattle.rt_app.specs.View.{app_of};
ghost use Rattle.rt_board.specs.Board.{AreInputs};
ghost use Rattle.rt_target.specs.Chip as chip;
ghost use Rattle.rt_target.specs.Chip.{AreFacts};
ghost use Rattle.rt_target.specs.Reading as spec;

use crate::adding::take_line;
use crate::fact::{Fact, is_bits, is_flash, is_port, is_ram};
use crate::refusal::{Cause, SetupRefused};
use crate::setup::Setup;
use rt_app::App;
use rt_ids::limits::SCRIPT_BYTES;
use rt_ids::{Names, NoMemory};
use rt_script::first_line;
use std::alloc::Global;

/// Reads what a text tells of a board, over an application and its names. The first wrong line is refused; of several
/// things that are wrong with a line, the first of `Cause` is told. Each right line says something new, so the work
/// grows with the text, and with the application some hundred times at most.
pub fn read_setup(
    alloc: Global,
    bytes: &[u8],
    app: &App,
    names: &Names,
) -> Result<Setup, SetupRefused>
    requires { names.now ≡ names_of (app_of app.now) }
    ensures read { IfOk result (λ setup. spec.IsSetupOf (app_of app.now) bytes.now setup) }
    ensures inputs { IfOk result (λ setup. AreInputs (app_of app.now) setup.board.inputs) }
    ensures refused { IfErr result (λ refusal. spec.IsRefused (app_of app.now) bytes.now refusal) }
{
    let (setup, _) = read_lines(alloc, bytes, app, names)?;
    Ok(setup)
}

/// Reads what a text tells of a board for which a program is to be made, likewise. Where something is missing that a
/// program takes, the line behind the last is refused.
pub fn read_target(
    alloc: Global,
    bytes: &[u8],
    app: &App,
    names: &Names,
) -> Result<Setup, SetupRefused>
    requires { names.now ≡ names_of (app_of app.now) }
    ensures read { IfOk result (λ setup. spec.IsTargetOf (app_of app.now) bytes.now setup) }
    ensures inputs { IfOk result (λ setup. AreInputs (app_of app.now) setup.board.inputs) }
    ensures facts { IfOk result (λ setup. AreFacts (app_of app.now) setup.facts) }
    ensures refused { IfErr result (λ refusal. spec.IsTargetRefused (app_of app.now) bytes.now refusal) }
{
    let (setup, line) = read_lines(alloc, bytes, app, names)?;
    match wanting(setup.facts()) {
        Some(cause) => Err(SetupRefused::Wrong { line, cause }),
        None => Ok(setup),
    }
}

/// The first thing that a program takes and facts do not say.
fn wanting(facts: &[Fact]) -> Option<Cause>
    ensures { result ≡ spec.wanting facts.now }
{
    if !has_flash(facts) {
        Some(Cause::NoFlash)
    } else if !has_ram(facts) {
        Some(Cause::NoRam)
    } else if !has_port(facts) {
        Some(Cause::NoPort)
    } else if !has_bits(facts) {
        Some(Cause::NoBits)
    } else {
        None
    }
}

/// Whether one of these says where flash lies.
fn has_flash(facts: &[Fact]) -> bool
    ensures { result ≡ list_any chip.is_flash facts.now }
{
    facts.iter().any(|fact| is_flash(fact))
}

/// Whether one of these says where RAM lies.
fn has_ram(facts: &[Fact]) -> bool
    ensures { result ≡ list_any chip.is_ram facts.now }
{
    facts.iter().any(|fact| is_ram(fact))
}

/// Whether one of these says which word `emit` writes.
fn has_port(facts: &[Fact]) -> bool
    ensures { result ≡ list_any chip.is_port facts.now }
{
    facts.iter().any(|fact| is_port(fact))
}

/// Whether one of these says how many priority bits there are.
fn has_bits(facts: &[Fact]) -> bool
    ensures { result ≡ list_any chip.is_bits facts.now }
{
    facts.iter().any(|fact| is_bits(fact))
}

/// What the lines of a text tell, and the number of the line behind the last.
fn read_lines(
    alloc: Global,
    bytes: &[u8],
    app: &App,
    names: &Names,
) -> Result<(Setup, u32), SetupRefused>
    requires { names.now ≡ names_of (app_of app.now) }
    ensures read { IfOk result (λ both. spec.IsSetupOf (app_of app.now) bytes.now both.0) }
    ensures count { IfOk result (λ both. both.1 ≡ suc (length (lines bytes.now))) }
    ensures inputs { IfOk result (λ both. AreInputs (app_of app.now) both.0.board.inputs) }
    ensures facts { IfOk result (λ both. AreFacts (app_of app.now) both.0.facts) }
    ensures refused { IfErr result (λ refusal. spec.IsRefused (app_of app.now) bytes.now refusal) }
{
    if bytes.len() > SCRIPT_BYTES as usize {
        return Err(SetupRefused::Wrong {
            line: 1,
            cause: Cause::TooLong,
        });
    }
    let mut setup = Setup::new(alloc);
    let mut rest = bytes;
    let mut number = 0;
    while !rest.is_empty() {
        let (line, behind) = first_line(rest);
        number += 1;
        match take_line(&mut setup, names, app, line) {
            Ok(Ok(())) => rest = behind,
            Ok(Err(cause)) => {
                return Err(SetupRefused::Wrong {
                    line: number,
                    cause,
                });
            }
            Err(NoMemory) => return Err(SetupRefused::NoMemory),
        }
    }
    Ok((setup, number + 1))
}
