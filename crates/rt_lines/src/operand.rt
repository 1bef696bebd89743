// Reads one word behind the first of a line: a number, a name, a section.

ghost use Rattle.std.specs.Prelude.{◌≡◌, ◌^◌};
ghost use Rattle.rt_lines.specs.Operand as spec;

use crate::number::number_below;
use rt_ids::{BodyId, Irq, Names, Prio, ResId, Section, TaskId, is_identifier};

/// What is wrong with a word, or with a line of words.
#[derive(Clone, Copy, PartialEq, Eq)]
pub enum Wrong {
    /// It is of no form.
    Form,
    /// It is of a form, and a name in it is in no table.
    Name,
}

/// What a word behind the first of a line says.
pub trait Operand: Sized {
    ghost use Rattle.std.specs.Prelude.{ℕ, List, Result};
    ghost use Rattle.rt_ids.specs.Names.{Names};
    ghost use Rattle.rt_lines.specs.declared.operand.Wrong.{Wrong};

    /// What each word is read as.
    ghost at: { Names → List ℕ → Result Self Wrong };

    /// What a word says, over the names of an application.
    fn read(names: &Names, word: &[u8]) -> Result<Self, Wrong>
        ensures { result ≡ at names.now word.now };
}

impl Operand for u32 {
    ghost use Rattle.rt_lines.specs.Operand.{number_at};

    ghost at = { λ names word. number_at (2 ^ 32) word };

    fn read(_names: &Names, word: &[u8]) -> Result<u32, Wrong> {
        read_number(word)
    }
}

impl Operand for u8 {
    ghost use Rattle.rt_lines.specs.Operand.{number_at};

    ghost at = { λ names word. number_at (2 ^ 8) word };

    fn read(_names: &Names, word: &[u8]) -> Result<u8, Wrong> {
        read_byte(word)
    }
}

impl Operand for Irq {
    ghost use Rattle.rt_lines.specs.Operand.{irq_at};

    ghost at = { irq_at };

    fn read(names: &Names, word: &[u8]) -> Result<Irq, Wrong> {
        if is_identifier(word) {
            names.irq_named(word).ok_or(Wrong::Name)
        } else {
            Err(Wrong::Form)
        }
    }
}

impl Operand for TaskId {
    ghost use Rattle.rt_lines.specs.Operand.{task_at};

    ghost at = { task_at };

    fn read(names: &Names, word: &[u8]) -> Result<TaskId, Wrong> {
        if is_identifier(word) {
            names.task_named(word).ok_or(Wrong::Name)
        } else {
            Err(Wrong::Form)
        }
    }
}

impl Operand for BodyId {
    ghost use Rattle.rt_lines.specs.Operand.{body_at};

    ghost at = { body_at };

    fn read(names: &Names, word: &[u8]) -> Result<BodyId, Wrong> {
        if word == b"init".as_slice() {
            Ok(BodyId::Init)
        } else if word == b"idle".as_slice() {
            Ok(BodyId::Idle)
        } else {
            TaskId::read(names, word).map(BodyId::Task)
        }
    }
}

impl Operand for Section {
    ghost use Rattle.rt_lines.specs.Operand.{section_at};

    ghost at = { section_at };

    fn read(names: &Names, word: &[u8]) -> Result<Section, Wrong> {
        if is_identifier(word) {
            read_lock(names, word)
        } else {
            read_queue(names, word)
        }
    }
}

/// A number of 32 bits.
pub fn read_number(word: &[u8]) -> Result<u32, Wrong>
    ensures { result ≡ spec.number_at (2 ^ 32) word.now }
{
    match number_below(word, 1 << 32) {
        Some(number) => Ok(number as u32),
        None => Err(Wrong::Form),
    }
}

/// A number of 8 bits.
pub fn read_byte(word: &[u8]) -> Result<u8, Wrong>
    ensures { result ≡ spec.number_at (2 ^ 8) word.now }
{
    match number_below(word, 1 << 8) {
        Some(number) => Ok(number as u8),
        None => Err(Wrong::Form),
    }
}

/// The interrupt whose number is written by a name: the first one of its number.
pub fn read_first_irq(names: &Names, word: &[u8]) -> Result<Irq, Wrong>
    ensures { result ≡ spec.first_irq_at names.now word.now }
{
    let irq = Irq::read(names, word)?;
    if names.irq_name(irq).unwrap_or(b"") == word {
        Ok(irq)
    } else {
        Err(Wrong::Form)
    }
}

/// The section of the shared resource of a name.
pub fn read_lock(names: &Names, word: &[u8]) -> Result<Section, Wrong>
    ensures { result ≡ spec.lock_at names.now word.now }
{
    if is_identifier(word) {
        names
            .resource_named(word)
            .ok_or(Wrong::Name)
            .map(Section::Res)
    } else {
        Err(Wrong::Form)
    }
}

/// The section of the ready queue of a name.
fn read_ready(word: &[u8]) -> Result<Section, Wrong>
    ensures { result ≡ spec.ready_named word.now }
{
    if word.starts_with(b"ready.") {
        let level = read_byte(&word[6..])?;
        Ok(Section::Ready(Prio(level)))
    } else {
        Err(Wrong::Form)
    }
}

/// The section of the queue of a name.
pub fn read_queue(names: &Names, word: &[u8]) -> Result<Section, Wrong>
    ensures { result ≡ spec.queue_at names.now word.now }
{
    if word == b"timer.0".as_slice() {
        Ok(Section::Timer)
    } else if word.starts_with(b"free.") {
        TaskId::read(names, &word[5..]).map(Section::Free)
    } else {
        read_ready(word)
    }
}
