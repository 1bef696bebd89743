// Reads the rows of cells, interrupts and bodies.

ghost use Rattle.std.specs.Prelude.{◌≡◌, ◌+◌};
ghost use Rattle.rt_ids.specs.declared.limits.TheConstants.{ARGUMENTS, IRQ_NUMBERS};
ghost use Rattle.rt_lines.specs.Parts.{words_of};
ghost use Rattle.rt_lines.specs.Answers.{and_make};
ghost use Rattle.rt_load.specs.Inside.Operand.{number_at};
ghost use Rattle.rt_load.specs.Inside.Rows as spec;

use crate::operand::{Wrong, read_byte, read_number};
use rt_code::{BodyRow, Handler};
use rt_ids::limits::{ARGUMENTS, IRQ_NUMBERS};
use rt_ids::{Irq, TaskId};
use rt_lines::{next_word, number_below};

/// The only word that is left.
fn only(words: Option<&[u8]>) -> Result<&[u8], Wrong>
    ensures { and_make result (λ word. word.now) ≡ spec.only (words_of words.entry) }
{
    match next_word(words) {
        Some((word, rest)) if next_word(rest).is_none() => Ok(word),
        _ => Err(Wrong::Form),
    }
}

/// The three words that are left.
fn three(words: Option<&[u8]>) -> Result<(&[u8], &[u8], &[u8]), Wrong>
    ensures { and_make result (λ w. (w.0.now, w.1.now, w.2.now)) ≡ spec.three (words_of words.entry) }
{
    let (first, words) = next_word(words).ok_or(Wrong::Form)?;
    let (second, words) = next_word(words).ok_or(Wrong::Form)?;
    Ok((first, second, only(words)?))
}

/// Numbers of 32 bits, of the three words that are left.
pub fn read_three(words: Option<&[u8]>) -> Result<(u32, u32, u32), Wrong>
    ensures { result ≡ spec.three_at (words_of words.entry) }
{
    let (first, second, third) = three(words)?;
    let first = read_number(first)?;
    let second = read_number(second)?;
    let third = read_number(third)?;
    Ok((first, second, third))
}

/// The name of a cell and its value after reset, of the words behind the first.
pub fn read_cell(words: Option<&[u8]>) -> Result<(&[u8], u32), Wrong>
    ensures { and_make result (λ cell. record { name = cell.0.now; first = cell.1 })
        ≡ spec.cell_at (words_of words.entry) }
{
    let (_, first, name) = three(words)?;
    Ok((name, read_number(first)?))
}

/// The number of an interrupt.
fn read_irq_number(word: &[u8]) -> Result<Irq, Wrong>
    ensures { result ≡ number_at IRQ_NUMBERS word.now }
{
    let number = number_below(word, u64::from(IRQ_NUMBERS)).ok_or(Wrong::Form)?;
    Irq::new(number as u16).ok_or(Wrong::Form)
}

/// How an interrupt is served: one word where it is not enabled, else three numbers.
fn read_handler(words: Option<&[u8]>) -> Result<Option<Handler>, Wrong>
    ensures { result ≡ spec.handler_at (words_of words.entry) }
{
    let (first, words) = next_word(words).ok_or(Wrong::Form)?;
    match next_word(words) {
        Some((entry, words)) => {
            let handler = read_service(first, entry, only(words)?)?;
            Ok(Some(handler))
        }
        None => Ok(None),
    }
}

/// How an enabled interrupt is served.
fn read_service(value: &[u8], entry: &[u8], frame: &[u8]) -> Result<Handler, Wrong>
    ensures { result ≡ spec.service_at value.now entry.now frame.now }
{
    let value = read_byte(value)?;
    let entry = read_number(entry)?;
    let frame = read_number(frame)?;
    Ok(Handler {
        value,
        entry,
        frame,
    })
}

/// The name and the number of an interrupt, and how it is served, of the words behind the first.
pub fn read_irq_row(words: Option<&[u8]>) -> Result<(&[u8], Irq, Option<Handler>), Wrong>
    ensures { and_make result (λ row. record { name = row.0.now; number = row.1; handler = row.2 })
        ≡ spec.irq_row_at (words_of words.entry) }
{
    let (name, words) = next_word(words).ok_or(Wrong::Form)?;
    let (number, words) = next_word(words).ok_or(Wrong::Form)?;
    let number = read_irq_number(number)?;
    let handler = read_handler(words)?;
    Ok((name, number, handler))
}

/// How many arguments a task has.
fn read_args(word: &[u8]) -> Result<u8, Wrong>
    ensures { result ≡ number_at (ARGUMENTS + 1) word.now }
{
    match number_below(word, ARGUMENTS as u64 + 1) {
        Some(args) => Ok(args as u8),
        None => Err(Wrong::Form),
    }
}

/// The name of a task of this number and its body, of the words behind the first.
pub fn read_body_row(task: TaskId, words: Option<&[u8]>) -> Result<(&[u8], BodyRow), Wrong>
    ensures { and_make result (λ body. (body.0.now, body.1)) ≡ spec.body_row_at task (words_of words.entry) }
{
    let (name, words) = next_word(words).ok_or(Wrong::Form)?;
    let (entry, frame, args) = three(words)?;
    let entry = read_number(entry)?;
    let frame = read_number(frame)?;
    let args = read_args(args)?;
    Ok((
        name,
        BodyRow {
            task,
            entry,
            frame,
            args,
        },
    ))
}
