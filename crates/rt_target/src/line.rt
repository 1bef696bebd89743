// What a line says of the chip.

ghost use Rattle.std.specs.Prelude.{◌≡◌};
ghost use Rattle.rt_lines.specs.Parts.{spaced_words};
ghost use Rattle.rt_app.specs.View.{app_of};
ghost use Rattle.rt_target.specs.Wording as spec;

use crate::fact::Fact;
use crate::number::read_number;
use crate::refusal::Cause;
use rt_app::App;
use rt_board::Board;
use rt_given::input_named;
use rt_ids::{Irq, Names, is_identifier};
use rt_lines::next_spaced_word;

/// The form of a line that says something of the chip.
#[derive(Clone, Copy, Debug, PartialEq, Eq)]
pub(crate) enum Form {
    /// `flash A S`
    Flash,
    /// `ram A S`
    Ram,
    /// `port A`
    Port,
    /// `tick N`
    Tick,
    /// `bits N`
    Bits,
    /// `word R A`
    Word,
    /// `call I`
    Call,
}

/// The form that the first word of a line names.
pub(crate) fn form_of(first: &[u8]) -> Option<Form>
    ensures { result ≡ spec.form_of first.now }
{
    match first {
        b"flash" => Some(Form::Flash),
        b"ram" => Some(Form::Ram),
        b"port" => Some(Form::Port),
        b"tick" => Some(Form::Tick),
        b"bits" => Some(Form::Bits),
        b"word" => Some(Form::Word),
        b"call" => Some(Form::Call),
        _ => None,
    }
}

/// What the words behind the first say, over the names of an application and behind the inputs of a board.
pub(crate) fn read_fact(
    names: &Names,
    app: &App,
    board: &Board,
    form: Form,
    words: &[u8],
) -> Result<Fact, Cause>
    ensures { result ≡ spec.fact_of names.now (app_of app.now) board.now form (spaced_words words.now) }
{
    match form {
        Form::Flash => {
            let (address, size) = read_two(words)?;
            Ok(Fact::Flash(address, size))
        }
        Form::Ram => {
            let (address, size) = read_two(words)?;
            Ok(Fact::Ram(address, size))
        }
        Form::Port => Ok(Fact::Port(read_one(words)?)),
        Form::Tick => Ok(Fact::Tick(read_one(words)?)),
        Form::Bits => Ok(Fact::Bits(read_one(words)?)),
        Form::Word => read_word(app, board, words),
        Form::Call => Ok(Fact::Call(read_irq(names, words)?)),
    }
}

/// The number of the only word.
fn read_one(words: &[u8]) -> Result<u32, Cause>
    ensures { result ≡ spec.one_number (spaced_words words.now) }
{
    let (word, rest) = next_spaced_word(words).ok_or(Cause::BadLine)?;
    if next_spaced_word(rest).is_none() {
        read_number(word)
    } else {
        Err(Cause::BadLine)
    }
}

/// The numbers of the only two words.
fn read_two(words: &[u8]) -> Result<(u32, u32), Cause>
    ensures { result ≡ spec.two_numbers (spaced_words words.now) }
{
    let (first, rest) = next_spaced_word(words).ok_or(Cause::BadLine)?;
    let (second, rest) = next_spaced_word(rest).ok_or(Cause::BadLine)?;
    if next_spaced_word(rest).is_none() {
        Ok((read_number(first)?, read_number(second)?))
    } else {
        Err(Cause::BadLine)
    }
}

/// The input that the first of the only two words names, and the address that the second spells.
fn read_word(app: &App, board: &Board, words: &[u8]) -> Result<Fact, Cause>
    ensures { result ≡ spec.input_word (app_of app.now) board.now (spaced_words words.now) }
{
    let (name, rest) = next_spaced_word(words).ok_or(Cause::BadLine)?;
    let (number, rest) = next_spaced_word(rest).ok_or(Cause::BadLine)?;
    if next_spaced_word(rest).is_none() {
        let address = read_number(number)?;
        Ok(Fact::Word(read_input(app, board, name)?, address))
    } else {
        Err(Cause::BadLine)
    }
}

/// The local resource of the input of a name.
fn read_input(app: &App, board: &Board, name: &[u8]) -> Result<u8, Cause>
    ensures { result ≡ spec.input_local (app_of app.now) board.now name.now }
{
    if is_identifier(name) {
        input_named(&app.locals, board, name).ok_or(Cause::UnknownInput)
    } else {
        Err(Cause::BadLine)
    }
}

/// The interrupt that the only word names.
fn read_irq(names: &Names, words: &[u8]) -> Result<Irq, Cause>
    ensures { result ≡ spec.one_irq names.now (spaced_words words.now) }
{
    let (word, rest) = next_spaced_word(words).ok_or(Cause::BadLine)?;
    if next_spaced_word(rest).is_none() && is_identifier(word) {
        names.irq_named(word).ok_or(Cause::UnknownInterrupt)
    } else {
        Err(Cause::BadLine)
    }
}
