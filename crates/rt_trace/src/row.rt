// What one line of a trace says.

ghost use Rattle.std.specs.Prelude.{◌≡◌, ◌∷◌, ◌^◌, Some, None};
ghost use Rattle.rt_lines.specs.Answers.{and_make};
ghost use Rattle.rt_lines.specs.Parts.{words_of};
ghost use Rattle.rt_lines.specs.Operand.{LockName, Number, QueueName, TaskName};
ghost use Rattle.rt_lines.specs.Table.{AndNumbers, OneOrTwo, numbers_at, said_at, shape_at};
ghost use Rattle.rt_trace.specs.Row as spec;
ghost use Rattle.rt_trace.specs.Words.{body_rows, rows};

use crate::args::Args;
use crate::item::{Item, What};
use rt_ids::limits::ARGUMENTS;
use rt_ids::{Names, Section, TaskId};
use rt_lines::{
    Operand, Wrong, both, next_word, none, number_below, one, read_lock, read_number, read_queue,
    three, two,
};

/// What a line of a trace says.
#[derive(Clone, Copy, PartialEq, Eq)]
pub enum TraceRow {
    /// An item.
    Shown(Item),
    /// The total of core steps.
    Total(u64),
}

/// What a line says.
pub fn read_row(names: &Names, line: &[u8]) -> Result<TraceRow, Wrong>
    ensures { result ≡ spec.row_of_line names.now line.now }
{
    let Some((word, words)) = next_word(Some(line)) else {
        return Err(Wrong::Form);
    };
    if word == b"total".as_slice() {
        let total: u32 = one(names, words)?;
        Ok(TraceRow::Total(u64::from(total)))
    } else {
        let item = read_item(names, word, words)?;
        Ok(TraceRow::Shown(item))
    }
}

/// The item of a step number and words.
fn read_item(names: &Names, step: &[u8], words: Option<&[u8]>) -> Result<Item, Wrong>
    ensures { and_make result TraceRow.Shown ≡ spec.item_at names.now (step.now ∷ words_of words.entry) }
{
    let step = number_below(step, 1 << 31).ok_or(Wrong::Form)?;
    let (first, words) = next_word(words).ok_or(Wrong::Form)?;
    let what = read_what(names, first, words)?;
    Ok(Item { step, what })
}

/// What is shown by a first word and the words behind it.
fn read_what(names: &Names, first: &[u8], words: Option<&[u8]>) -> Result<What, Wrong>
    ensures { result ≡ said_at rows names.now first.now (words_of words.entry) }
{
    if first == b"pend".as_slice() {
        one(names, words).map(What::Pend)
    } else if first == b"tick".as_slice() {
        none(What::Tick, words)
    } else if first == b"alarm".as_slice() {
        none(What::Alarm, words)
    } else if first == b"set".as_slice() {
        none(What::AlarmSet, words)
    } else if first == b"take".as_slice() {
        two(names, words).map(|(irq, depth)| What::Take(irq, depth))
    } else if first == b"ret".as_slice() {
        one(names, words).map(What::Ret)
    } else if first == b"post".as_slice() {
        one(names, words).map(What::Post)
    } else if first == b"clock".as_slice() {
        one(names, words).map(What::Clock)
    } else if first == b"trap".as_slice() {
        one(names, words).map(What::Trap)
    } else {
        read_of_body(names, first, words)
    }
}

/// What is shown of bodies and messages.
fn read_of_body(names: &Names, first: &[u8], words: Option<&[u8]>) -> Result<What, Wrong>
    ensures { result ≡ said_at body_rows names.now first.now (words_of words.entry) }
{
    if first == b"enter".as_slice() {
        one(names, words).map(What::Enter)
    } else if first == b"leave".as_slice() {
        read_leave(names, words)
    } else if first == b"emit".as_slice() {
        one(names, words).map(What::Emit)
    } else if first == b"ok".as_slice() {
        one(names, words).map(What::Placed)
    } else if first == b"full".as_slice() {
        one(names, words).map(What::Full)
    } else if first == b"ready".as_slice() {
        one(names, words).map(What::Ready)
    } else if first == b"start".as_slice() {
        read_start(names, words)
    } else if first == b"free".as_slice() {
        one(names, words).map(What::Free)
    } else if first == b"arm".as_slice() {
        two(names, words).map(|(task, instant)| What::Arm(task, instant))
    } else if first == b"fire".as_slice() {
        one(names, words).map(What::Fire)
    } else if first == b"cancel".as_slice() {
        two(names, words).map(|(task, handle)| What::Cancel(task, handle))
    } else if first == b"move".as_slice() {
        three(names, words).map(|(task, (handle, instant))| What::Move(task, handle, instant))
    } else if first == b"end".as_slice() {
        one(names, words).map(What::End)
    } else {
        Err(Wrong::Form)
    }
}

/// That a section is left: a queue alone, or a resource with its value.
fn read_leave(names: &Names, words: Option<&[u8]>) -> Result<What, Wrong>
    ensures { result ≡ shape_at
        (OneOrTwo QueueName (λ x. What.Leave x None) LockName (Number (2 ^ 32)) (λ x v. What.Leave x (Some v)))
        names.now (words_of words.entry) }
{
    let (section, rest) = next_word(words).ok_or(Wrong::Form)?;
    if next_word(rest).is_none() {
        Ok(What::Leave(read_queue(names, section)?, None))
    } else {
        let (section, value) = both(read_lock(names, section), one(names, rest))?;
        Ok(What::Leave(section, Some(value)))
    }
}

/// That a body starts, with at most four values.
fn read_start(names: &Names, words: Option<&[u8]>) -> Result<What, Wrong>
    ensures { result ≡ shape_at (AndNumbers TaskName 4 What.Start) names.now (words_of words.entry) }
{
    let (task, rest) = next_word(words).ok_or(Wrong::Form)?;
    let (task, args) = both(TaskId::read(names, task), read_values(rest))?;
    Ok(What::Start(task, args))
}

/// At most four values.
fn read_values(words: Option<&[u8]>) -> Result<Args, Wrong>
    ensures { result ≡ numbers_at 4 (words_of words.entry) }
{
    let mut values = [0; ARGUMENTS];
    let mut count = 0;
    let mut rest = words;
    while let Some((word, behind)) = next_word(rest) {
        if count == ARGUMENTS {
            return Err(Wrong::Form);
        }
        values[count] = read_number(word)?;
        count += 1;
        rest = behind;
    }
    Ok(Args::of(&values[..count]))
}
