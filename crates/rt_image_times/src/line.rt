// Reads one line of limits for an image.

ghost use Rattle.std.specs.Prelude.{◌≡◌, bytes_eq, find, option_copied};
ghost use Rattle.rt_lines.specs.Parts.{spaced_words};
ghost use Rattle.rt_lines.specs.Numbers.{short_number as number_spelled};
ghost use Rattle.rt_rta.specs.Wording as rta;
ghost use Rattle.rt_image_times.specs.Wording as spec;

use rt_code::{Image, IrqRow};
use rt_ids::{Irq, is_identifier};
use rt_lines::{next_spaced_word, short_number};
use rt_rta::line::Wrong;
use rt_rta::{Limit, Limits};
use rt_script::{is_blank, is_comment, is_loose};

/// What a line tells behind these limits; None where it is blank or a comment.
pub(crate) fn read_line(image: &Image, so_far: &Limits, line: &[u8]) -> Result<Option<Limit>, Wrong>
    ensures { result ≡ spec.line_limit image.now so_far.now line.now }
{
    if is_blank(line) || is_comment(line) {
        return Ok(None);
    }
    if is_loose(line) {
        return Err(Wrong::Form);
    }
    read_words(image, so_far, line).map(Some)
}

/// What the words of a line tell.
fn read_words(image: &Image, so_far: &Limits, line: &[u8]) -> Result<Limit, Wrong>
    ensures { result ≡ spec.words_limit image.now so_far.now (spaced_words line.now) }
{
    let (verb, rest) = next_spaced_word(line).ok_or(Wrong::Form)?;
    let (name, rest) = next_spaced_word(rest).ok_or(Wrong::Form)?;
    let (count, rest) = next_spaced_word(rest).ok_or(Wrong::Form)?;
    if next_spaced_word(rest).is_none() && verb == b"every".as_slice() && is_identifier(name) {
        read_limit(image, so_far, name, count)
    } else {
        Err(Wrong::Form)
    }
}

/// The limit of an interrupt of a name.
fn read_limit(image: &Image, so_far: &Limits, name: &[u8], count: &[u8]) -> Result<Limit, Wrong>
    ensures { result ≡ spec.named_limit image.now so_far.now name.now count.now }
{
    let every = read_distance(count)?;
    limit_for(so_far, every, enabled_irq(image, name))
}

/// The distance that a word spells, at least 1.
fn read_distance(word: &[u8]) -> Result<u32, Wrong>
    ensures { result ≡ rta.distance_of (number_spelled word.now) }
{
    match short_number(word) {
        Some(every) if every >= 1 => Ok(every),
        _ => Err(Wrong::Form),
    }
}

/// The limit of an interrupt, where it has none yet.
fn limit_for(so_far: &Limits, every: u32, irq: Option<Irq>) -> Result<Limit, Wrong>
    ensures { result ≡ rta.limit_for so_far.now every irq }
{
    match irq {
        None => Err(Wrong::Interrupt),
        Some(irq) => {
            if so_far.every(irq).is_some() {
                Err(Wrong::Form)
            } else {
                Ok(Limit { irq, every })
            }
        }
    }
}

/// The number of the enabled interrupt of a name.
fn enabled_irq(image: &Image, name: &[u8]) -> Option<Irq>
    ensures { result ≡ spec.enabled_irq image.now name.now }
{
    enabled_of(&image.irqs, name)
}

/// The same, of these rows.
fn enabled_of(irqs: &[IrqRow], name: &[u8]) -> Option<Irq>
    ensures { result ≡ spec.enabled_of irqs.now name.now }
{
    match row_of(irqs, name) {
        Some(row) => enabled_number(row),
        None => None,
    }
}

/// The first row of a name.
fn row_of<'a>(irqs: &'a [IrqRow], name: &[u8]) -> Option<&'a IrqRow>
    ensures { option_copied result ≡ find (λ row. bytes_eq row.name name.now) irqs.now }
{
    irqs.iter().find(|row| row.name.bytes() == name)
}

/// The number of a row, where it is enabled.
fn enabled_number(row: &IrqRow) -> Option<Irq>
    ensures { result ≡ spec.enabled_number row.now }
{
    if row.handler.is_some() {
        Some(row.number)
    } else {
        None
    }
}
