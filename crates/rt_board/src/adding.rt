// Adds what a line of a board says.

ghost use Rattle.std.specs.Prelude.{◌≡◌, IfOk, IfErr, OnErr};
ghost use Rattle.rt_lines.specs.Answers.{and_make};
ghost use Rattle.rt_lines.specs.Parts.{spaced_words};
ghost use Rattle.rt_app.specs.View.{app_of};
ghost use Rattle.rt_board.specs.Wording as wording;

use crate::board::Board;
use crate::line::read_input;
use crate::refusal::Cause;
use rt_app::App;
use rt_ids::{Names, NoMemory};
use rt_lines::next_spaced_word;
use rt_script::{is_blank, is_comment, is_loose};

/// Adds what a line says to a board of an application of these names, or tells what is wrong with the line. Of several
/// things that are wrong the first of `Cause` is told. Each right line that is not skipped names another local
/// resource, so the work grows with the line, and with the application 64 times at most.
pub fn add_line(
    board: &mut Board,
    names: &Names,
    app: &App,
    line: &[u8],
) -> Result<Result<(), Cause>, NoMemory>
    ensures taken { IfOk result (λ taken.
        wording.with_line names.now (app_of app.now) board.old line.now ≡ and_make taken (λ _. board.new)) }
    ensures unchanged { IfOk result (λ taken. IfErr taken (λ _. board.new ≡ board.old)) }
    ensures kept { OnErr result (board.new ≡ board.old) }
{
    if is_blank(line) || is_comment(line) {
        return Ok(Ok(()));
    }
    if is_loose(line) {
        return Ok(Err(Cause::BadLine));
    }
    add_words(board, names, app, line)
}

/// Adds what the words of a line say, by the first of them.
fn add_words(
    board: &mut Board,
    names: &Names,
    app: &App,
    line: &[u8],
) -> Result<Result<(), Cause>, NoMemory>
    ensures taken { IfOk result (λ taken.
        wording.with_words names.now (app_of app.now) board.old (spaced_words line.now)
        ≡ and_make taken (λ _. board.new)) }
    ensures unchanged { IfOk result (λ taken. IfErr taken (λ _. board.new ≡ board.old)) }
    ensures kept { OnErr result (board.new ≡ board.old) }
{
    match next_spaced_word(line) {
        Some((b"input", words)) => add_input(board, names, app, words),
        _ => Ok(Err(Cause::BadLine)),
    }
}

/// Adds the input that the words behind `input` name.
fn add_input(
    board: &mut Board,
    names: &Names,
    app: &App,
    words: &[u8],
) -> Result<Result<(), Cause>, NoMemory>
    ensures taken { IfOk result (λ taken.
        wording.says_input names.now (app_of app.now) board.old (spaced_words words.now)
        ≡ and_make taken (λ _. board.new)) }
    ensures unchanged { IfOk result (λ taken. IfErr taken (λ _. board.new ≡ board.old)) }
    ensures kept { OnErr result (board.new ≡ board.old) }
{
    match read_input(names, app, board, words) {
        Ok(input) => Ok(Ok(board.push(input)?)),
        Err(cause) => Ok(Err(cause)),
    }
}
