// What the words of a line of such a script say.

ghost use Rattle.std.specs.Prelude.{◌≡◌, slice_get};
ghost use Rattle.rt_ids.specs.Lists.{is_some_and};
ghost use Rattle.rt_lines.specs.Parts.{spaced_words};
ghost use Rattle.rt_app.specs.View.{app_of};
ghost use Rattle.rt_board.specs.Wording.{is_named};
ghost use Rattle.rt_given.specs.Wording as spec;

use crate::device::{device_words, read_given_device};
use crate::line::GivenLine;
use crate::refusal::Cause;
use rt_app::{App, Local};
use rt_board::Board;
use rt_ids::{Names, is_identifier};
use rt_lines::{next_spaced_word, number_below};
use rt_script::{Wrong, is_blank, is_comment, is_loose, read_line};

/// What a line asks for; None where it is blank or a comment.
pub(crate) fn read_given_line(
    names: &Names,
    app: &App,
    board: &Board,
    line: &[u8],
) -> Result<Option<GivenLine>, Cause>
    ensures { result ≡ spec.line_of names.now (app_of app.now) board.now line.now }
{
    if is_blank(line) || is_comment(line) {
        return Ok(None);
    }
    if is_loose(line) {
        return Err(Cause::BadLine);
    }
    read_words(names, app, board, line)
}

/// What the words of a line ask for: a word of a device where the first of them is `give`, requests with words where
/// it is `device` and the words say whence a device's words come, and else what a script's line asks for.
fn read_words(
    names: &Names,
    app: &App,
    board: &Board,
    line: &[u8],
) -> Result<Option<GivenLine>, Cause>
    ensures { result ≡ spec.words_ask names.now (app_of app.now) board.now line.now (spaced_words line.now) }
{
    let Some((first, words)) = next_spaced_word(line) else {
        return read_asked(names, line);
    };
    if first == b"give".as_slice() {
        read_give(app, board, words)
    } else if first == b"device".as_slice() {
        read_device_line(names, app, board, line, words)
    } else {
        read_asked(names, line)
    }
}

/// What a line asks for whose first word is `device`, with the words behind it.
fn read_device_line(
    names: &Names,
    app: &App,
    board: &Board,
    line: &[u8],
    words: &[u8],
) -> Result<Option<GivenLine>, Cause>
    ensures { let told = spec.device_words (spaced_words words.now) in
        result ≡ spec.device_line names.now (app_of app.now) board.now line.now told }
{
    match device_words(words) {
        Some(words) => read_given_device(names, app, board, &words),
        None => read_asked(names, line),
    }
}

/// What a script's line asks for.
fn read_asked(names: &Names, line: &[u8]) -> Result<Option<GivenLine>, Cause>
    ensures { result ≡ spec.asked_of names.now line.now }
{
    match read_line(names, line) {
        Ok(None) => Ok(None),
        Ok(Some(asked)) => Ok(Some(GivenLine::asking(asked))),
        Err(wrong) => Err(cause_of(wrong)),
    }
}

/// What is wrong, as it is told of a script beside devices.
pub(crate) fn cause_of(wrong: Wrong) -> Cause
    ensures { result ≡ spec.cause_of wrong }
{
    match wrong {
        Wrong::Form => Cause::BadLine,
        Wrong::Interrupt => Cause::UnknownInterrupt,
        Wrong::Device => Cause::TooManyDevices,
        Wrong::Events => Cause::TooManyEvents,
    }
}

/// The word that the words behind `give` tell, with its local resource.
fn read_give(app: &App, board: &Board, words: &[u8]) -> Result<Option<GivenLine>, Cause>
    ensures { result ≡ spec.give_of (app_of app.now) board.now (spaced_words words.now) }
{
    let (name, rest) = next_spaced_word(words).ok_or(Cause::BadLine)?;
    let (number, rest) = next_spaced_word(rest).ok_or(Cause::BadLine)?;
    if next_spaced_word(rest).is_none() {
        given(app, board, name, number)
    } else {
        Err(Cause::BadLine)
    }
}

/// The word that a number spells, for the input of a name.
fn given(app: &App, board: &Board, name: &[u8], number: &[u8]) -> Result<Option<GivenLine>, Cause>
    ensures { result ≡ spec.given (app_of app.now) board.now name.now number.now }
{
    let word = read_word(number)?;
    let local = read_input(app, board, name)?;
    Ok(Some(GivenLine::Gives(local, word)))
}

/// A number of 32 bits.
pub(crate) fn read_word(number: &[u8]) -> Result<u32, Cause>
    ensures { result ≡ spec.word_of number.now }
{
    match number_below(number, 1 << 32) {
        Some(word) => Ok(word as u32),
        None => Err(Cause::BadLine),
    }
}

/// The local resource of the input of a name.
fn read_input(app: &App, board: &Board, name: &[u8]) -> Result<u8, Cause>
    ensures { result ≡ spec.input_at (app_of app.now) board.now name.now }
{
    if is_identifier(name) {
        input_named(&app.locals, board, name).ok_or(Cause::UnknownInput)
    } else {
        Err(Cause::BadLine)
    }
}

/// The local resource of this name, where it is one that a device writes.
pub fn input_named(locals: &[Local], board: &Board, name: &[u8]) -> Option<u8>
    ensures { result ≡ spec.input_named locals.now board.now name.now }
{
    let input = board
        .inputs()
        .iter()
        .find(|input| has_name(locals, input.local, name));
    input.map(|input| input.local)
}

/// Whether the local resource of this index has the name.
fn has_name(locals: &[Local], local: u8, name: &[u8]) -> bool
    ensures { result ≡ is_some_and (is_named name.now) (slice_get locals.now local) }
{
    match locals.get(usize::from(local)) {
        Some(local) => local.name.bytes() == name,
        None => false,
    }
}
