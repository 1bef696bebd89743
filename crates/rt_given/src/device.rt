// The line of a device that gives words.
ghost use Rattle.std.specs.Prelude.{◌≡◌, ◌∷◌, [], option_map};
ghost use Rattle.std.specs.Option.{ok_or};
ghost use Rattle.rt_lines.specs.Numbers as lines;
ghost use Rattle.rt_lines.specs.Parts.{spaced_words};
ghost use Rattle.rt_app.specs.View.{app_of};
ghost use Rattle.rt_script.specs.Wording as scripts;
ghost use Rattle.rt_given.specs.Wording as spec;
ghost use Rattle.rt_given.specs.declared.refusal.Cause.{Cause};

use crate::input::only_input;
use crate::line::GivenLine;
use crate::refusal::Cause;
use crate::words::read_word;
use rt_app::App;
use rt_board::Board;
use rt_ids::limits::DEVICES;
use rt_ids::{Irq, Names, is_identifier};
use rt_lines::{next_spaced_word, short_number};
use rt_script::Line;

/// The words of such a line, behind the first.
#[derive(Clone, Copy)]
pub(crate) struct DeviceWords<'a> {
    device: &'a [u8],
    verb: &'a [u8],
    irq: &'a [u8],
    count: &'a [u8],
    how: &'a [u8],
    number: &'a [u8],
}

/// Whether a word tells whence the words of a device come.
fn is_source(how: &[u8]) -> bool
    ensures { result ≡ spec.is_source how.now }
{
    how == b"from".as_slice() || how == b"seed".as_slice()
}

/// These words, where they are six and tell whence the device's words come.
pub(crate) fn device_words(words: &[u8]) -> Option<DeviceWords<'_>>
    ensures { option_map (λ w. record {
      device = w.device.now;
      verb = w.verb.now;
      irq = w.irq.now;
      count = w.count.now;
      how = w.how.now;
      number = w.number.now;
    }) result ≡ spec.device_words (spaced_words words.now) }
{
    let (device, rest) = next_spaced_word(words)?;
    let (verb, rest) = next_spaced_word(rest)?;
    let (irq, rest) = next_spaced_word(rest)?;
    let (count, rest) = next_spaced_word(rest)?;
    let (how, rest) = next_spaced_word(rest)?;
    let (number, rest) = next_spaced_word(rest)?;
    if next_spaced_word(rest).is_some() || !is_source(how) {
        return None;
    }
    Some(DeviceWords {
        device,
        verb,
        irq,
        count,
        how,
        number,
    })
}

/// The declared interrupt of a name.
fn read_irq(names: &Names, word: &[u8]) -> Result<Irq, Cause>
    ensures { result ≡ spec.told_here (scripts.irq_at names.now word.now) }
{
    if is_identifier(word) {
        names.irq_named(word).ok_or(Cause::UnknownInterrupt)
    } else {
        Err(Cause::BadLine)
    }
}

/// A number of one to nine digits.
fn read_count(word: &[u8]) -> Result<u32, Cause>
    ensures { result ≡ ok_or (lines.short_number word.now) Cause.BadLine }
{
    short_number(word).ok_or(Cause::BadLine)
}

/// What the first four of these words ask for as a script's line of a device.
fn read_asked_device(names: &Names, words: &DeviceWords) -> Result<Line, Cause>
    ensures { result ≡ spec.told_here (scripts.device_of names.now
        (words.now.device.now ∷ words.now.verb.now ∷ words.now.irq.now ∷ words.now.count.now ∷ [])) }
{
    if words.verb != b"pend".as_slice() {
        return Err(Cause::BadLine);
    }
    let device = read_count(words.device)?;
    let count = read_count(words.count)?;
    let irq = read_irq(names, words.irq)?;
    if device < u32::from(DEVICES) {
        Ok(Line::Device(device as u8, irq, count))
    } else {
        Err(Cause::TooManyDevices)
    }
}

/// What the line of these words asks for.
pub(crate) fn read_given_device(
    names: &Names,
    app: &App,
    board: &Board,
    words: &DeviceWords,
) -> Result<Option<GivenLine>, Cause>
    ensures { result ≡ spec.given_device names.now (app_of app.now) board.now (record {
      device = words.now.device.now;
      verb = words.now.verb.now;
      irq = words.now.irq.now;
      count = words.now.count.now;
      how = words.now.how.now;
      number = words.now.number.now;
    }) }
{
    let number = read_word(words.number)?;
    let Line::Device(device, irq, count) = read_asked_device(names, words)? else {
        return Err(Cause::BadLine);
    };
    let local = only_input(app, board, irq)?;
    if words.how == b"from".as_slice() {
        Ok(Some(GivenLine::Counts(device, irq, count, local, number)))
    } else {
        Ok(Some(GivenLine::Draws(device, irq, count, local, number)))
    }
}
