// Reads a script.

ghost use Rattle.std.specs.Prelude.{◌≡◌, ◌<◌, ◌∷◌, length, IfOk, IfErr};
ghost use Rattle.std.specs.Str.Lines.{lines, strip_carriage_return};
ghost use Rattle.rt_lines.specs.Answers.{and_make};
ghost use Rattle.rt_script.specs.Script.{HasNames};
ghost use Rattle.rt_script.specs.Text as spec;

use crate::refusal::ScriptRefused;
use crate::script::Script;
use crate::words::{Wrong, read_line};
use rt_ids::limits::SCRIPT_BYTES;
use rt_ids::{Names, NoMemory};
use rt_lines::cut;
use std::alloc::Global;

/// Reads the script of a text, over the names of an application. The first wrong line is refused; where several
/// things are wrong with a line, what stands first here: it is of no form, its interrupt is unknown, its device's
/// number is out of range, the events up to it are too many.
pub fn read_script(alloc: Global, bytes: &[u8], names: &Names) -> Result<Script, ScriptRefused>
    ensures read { IfOk result (λ script. spec.IsScriptText names.now bytes.now script) }
    ensures names { IfOk result (λ script. HasNames names.now script) }
    ensures refused { IfErr result (λ refusal. spec.IsScriptRefused names.now bytes.now refusal) }
{
    if bytes.len() > SCRIPT_BYTES as usize {
        return Err(ScriptRefused::TooLong);
    }
    let mut script = Script::new(alloc);
    let mut rest = bytes;
    let mut number = 0;
    while !rest.is_empty() {
        let (line, behind) = first_line(rest);
        number += 1;
        match take_line(&mut script, names, line) {
            Ok(Ok(())) => rest = behind,
            Ok(Err(wrong)) => return Err(refusal(number, wrong)),
            Err(NoMemory) => return Err(ScriptRefused::NoMemory),
        }
    }
    Ok(script)
}

/// The first line of a text that is not empty, without its end, and the text behind it.
pub fn first_line(text: &[u8]) -> (&[u8], &[u8])
    requires { 0 < length text.now }
    ensures lines { lines text.now ≡ result.0.now ∷ lines result.1.now }
    ensures shorter { length result.1.now < length text.now }
{
    let (line, behind) = cut(text, b'\n');
    match behind {
        Some(rest) => (without_return(line), rest),
        None => (line, &[]),
    }
}

/// A line in front of a line feed, without a carriage return at its end.
fn without_return(line: &[u8]) -> &[u8]
    ensures { result.now ≡ strip_carriage_return line.now }
{
    match line {
        [front @ .., b'\r'] => front,
        _ => line,
    }
}

/// Adds what a line asks for, or says what is wrong with the line.
fn take_line(script: &mut Script, names: &Names, line: &[u8]) -> Result<Result<(), Wrong>, NoMemory>
    ensures taken { IfOk result (λ taken.
        (spec.script_reader names.now).step script.old line.now ≡ and_make taken (λ _. script.new)) }
    ensures unchanged { IfOk result (λ taken. IfErr taken (λ _. script.new ≡ script.old)) }
{
    match read_line(names, line) {
        Ok(None) => Ok(Ok(())),
        Ok(Some(asked)) => Ok(script.push(asked)?.then_some(()).ok_or(Wrong::Events)),
        Err(wrong) => Ok(Err(wrong)),
    }
}

/// The refusal of a text whose first wrong line has this number.
fn refusal(number: u32, wrong: Wrong) -> ScriptRefused
    ensures { result ≡ spec.refusal_of number wrong }
{
    match wrong {
        Wrong::Form => ScriptRefused::BadLine(number),
        Wrong::Interrupt => ScriptRefused::UnknownInterrupt(number),
        Wrong::Device => ScriptRefused::TooManyDevices(number),
        Wrong::Events => ScriptRefused::TooManyEvents(number),
    }
}
