// Reads the words of one line.

ghost use Rattle.std.specs.Prelude.{◌≡◌};
ghost use Rattle.rt_lines.specs.Parts.{spaced_words};
ghost use Rattle.rt_script.specs.Wording as spec;

use crate::line::Line;
use rt_ids::limits::DEVICES;
use rt_ids::{Irq, Names, is_identifier};
use rt_lines::{next_spaced_word, short_number};

/// What is wrong with a line.
#[derive(Clone, Copy, PartialEq, Eq)]
pub enum Wrong {
    /// It is of no form.
    Form,
    /// Its interrupt is not declared.
    Interrupt,
    /// Its device's number is not in range.
    Device,
    /// The events up to it are too many.
    Events,
}

/// What a line asks for; None where it is blank or a comment.
pub fn read_line(names: &Names, line: &[u8]) -> Result<Option<Line>, Wrong>
    ensures { result ≡ spec.line_of names.now line.now }
{
    if is_blank(line) || is_comment(line) {
        return Ok(None);
    }
    if is_loose(line) {
        return Err(Wrong::Form);
    }
    read_words(names, line).map(Some)
}

/// Whether a line has spaces and tabs alone.
pub fn is_blank(line: &[u8]) -> bool
    ensures { result ≡ spec.is_blank line.now }
{
    line.iter().all(|b| *b == b' ' || *b == b'\t')
}

/// Whether a line is a comment.
pub fn is_comment(line: &[u8]) -> bool
    ensures { result ≡ spec.is_comment line.now }
{
    match line {
        [first, ..] => *first == b'#',
        [] => false,
    }
}

/// Whether a space stands before the first word or behind the last.
pub fn is_loose(line: &[u8]) -> bool
    ensures { result ≡ spec.is_loose line.now }
{
    match line {
        [] => false,
        [first, ..] => *first == b' ' || line[line.len() - 1] == b' ',
    }
}

/// What the words of a line ask for.
fn read_words(names: &Names, line: &[u8]) -> Result<Line, Wrong>
    ensures { result ≡ spec.words_ask names.now (spaced_words line.now) }
{
    let Some((verb, rest)) = next_spaced_word(line) else {
        return Err(Wrong::Form);
    };
    if verb == b"step".as_slice() {
        read_count(rest).map(Line::Steps)
    } else if verb == b"tick".as_slice() {
        read_count(rest).map(Line::Ticks)
    } else if verb == b"pend".as_slice() {
        read_pends(names, rest).map(|(irq, count)| Line::Pends(irq, count))
    } else if verb == b"device".as_slice() {
        read_device(names, rest)
    } else {
        Err(Wrong::Form)
    }
}

/// The number that the only word spells.
fn read_count(words: &[u8]) -> Result<u32, Wrong>
    ensures { result ≡ spec.only_count (spaced_words words.now) }
{
    match next_spaced_word(words) {
        Some((word, rest)) if next_spaced_word(rest).is_none() => {
            short_number(word).ok_or(Wrong::Form)
        }
        _ => Err(Wrong::Form),
    }
}

/// The number that the only word spells, and 1 where there is no word.
fn read_count_or_one(words: &[u8]) -> Result<u32, Wrong>
    ensures { result ≡ spec.count_or_one (spaced_words words.now) }
{
    if next_spaced_word(words).is_none() {
        Ok(1)
    } else {
        read_count(words)
    }
}

/// The number of the declared interrupt of a name.
fn read_irq(names: &Names, word: &[u8]) -> Result<Irq, Wrong>
    ensures { result ≡ spec.irq_at names.now word.now }
{
    if is_identifier(word) {
        names.irq_named(word).ok_or(Wrong::Interrupt)
    } else {
        Err(Wrong::Form)
    }
}

/// An interrupt, and how often it is requested.
fn read_pends(names: &Names, words: &[u8]) -> Result<(Irq, u32), Wrong>
    ensures { result ≡ spec.pends_of names.now (spaced_words words.now) }
{
    let Some((word, rest)) = next_spaced_word(words) else {
        return Err(Wrong::Form);
    };
    let count = read_count_or_one(rest)?;
    Ok((read_irq(names, word)?, count))
}

/// What a device requests.
fn read_device(names: &Names, words: &[u8]) -> Result<Line, Wrong>
    ensures { result ≡ spec.device_of names.now (spaced_words words.now) }
{
    let Some((number, rest)) = next_spaced_word(words) else {
        return Err(Wrong::Form);
    };
    match next_spaced_word(rest) {
        Some((b"pend", pends)) => {
            let device = short_number(number).ok_or(Wrong::Form)?;
            let (irq, count) = read_pends(names, pends)?;
            in_range(device, irq, count)
        }
        _ => Err(Wrong::Form),
    }
}

/// The line of a device, where its number is in range.
fn in_range(device: u32, irq: Irq, count: u32) -> Result<Line, Wrong>
    ensures { result ≡ spec.in_range device (irq, count) }
{
    if device < u32::from(DEVICES) {
        Ok(Line::Device(device as u8, irq, count))
    } else {
        Err(Wrong::Device)
    }
}
