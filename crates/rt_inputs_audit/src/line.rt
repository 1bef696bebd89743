// What a line of a trace with inputs shows, and how the line of an input is read.

ghost use Rattle.std.specs.Prelude.{◌≡◌, ◌^◌, Some, None};
ghost use Rattle.rt_lines.specs.Parts.{words, words_of};
ghost use Rattle.rt_app.specs.View.{app_of};
ghost use Rattle.rt_inputs_audit.specs.Reading as spec;

use crate::refusal::Cause;
use rt_app::App;
use rt_board::Board;
use rt_given::input_named;
use rt_ids::is_identifier;
use rt_lines::{next_word, number_below};
use rt_trace::Item;

/// What a line of a trace with inputs shows.
#[derive(Clone, Copy)]
pub enum TraceLine {
    /// An item.
    Shows(Item),
    /// A word that a device has put into a local resource before the core step that has so many steps before it: the
    /// number of steps, the resource by its index in the order of declaration, and the word.
    Input(u64, u8, u32),
}

/// What a line shows that is to be that of an input; None where it is not to be.
pub(crate) fn read_input(app: &App, board: &Board, line: &[u8]) -> Option<Result<TraceLine, Cause>>
    ensures { result ≡ spec.maybe_input (app_of app.now) board.now (words line.now) }
{
    let (step, rest) = next_word(Some(line))?;
    let (first, rest) = next_word(rest)?;
    if first == b"input".as_slice() {
        Some(read_words(app, board, step, rest))
    } else {
        None
    }
}

/// What a step number and the words behind `input` tell.
fn read_words(
    app: &App,
    board: &Board,
    step: &[u8],
    words: Option<&[u8]>,
) -> Result<TraceLine, Cause>
    ensures { result ≡ spec.input_words (app_of app.now) board.now step.now (words_of words.entry) }
{
    let (name, rest) = next_word(words).ok_or(Cause::BadLine)?;
    let (number, rest) = next_word(rest).ok_or(Cause::BadLine)?;
    if next_word(rest).is_none() {
        read_parts(app, board, step, name, number)
    } else {
        Err(Cause::BadLine)
    }
}

/// The word that a step number, the name of an input and a number tell.
fn read_parts(
    app: &App,
    board: &Board,
    step: &[u8],
    name: &[u8],
    number: &[u8],
) -> Result<TraceLine, Cause>
    ensures { result ≡ spec.input_of (app_of app.now) board.now step.now name.now number.now }
{
    let step = read_step(step)?;
    let word = read_word(number)?;
    let local = read_name(app, board, name)?;
    Ok(TraceLine::Input(step, local, word))
}

/// The number of a step.
fn read_step(step: &[u8]) -> Result<u64, Cause>
    ensures { result ≡ spec.number_at (2 ^ 31) step.now }
{
    number_below(step, 1 << 31).ok_or(Cause::BadLine)
}

/// A number of 32 bits.
fn read_word(number: &[u8]) -> Result<u32, Cause>
    ensures { result ≡ spec.number_at (2 ^ 32) number.now }
{
    match number_below(number, 1 << 32) {
        Some(word) => Ok(word as u32),
        None => Err(Cause::BadLine),
    }
}

/// The local resource of the input of a name.
fn read_name(app: &App, board: &Board, name: &[u8]) -> Result<u8, Cause>
    ensures { result ≡ spec.input_at (app_of app.now) board.now name.now }
{
    if is_identifier(name) {
        input_named(&app.locals, board, name).ok_or(Cause::UnknownInput)
    } else {
        Err(Cause::BadLine)
    }
}
