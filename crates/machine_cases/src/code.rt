// Reads the code of a case.

use crate::instr::{instr, note};
use crate::part::{push, words_of};
use anyhow::{Result, bail};
use rt_code::{Instr, Line, Note};
use rt_ids::Names;
use std::alloc::Global;

/// The instruction of words.
fn instr_of(names: &Names, words: &[&str]) -> Option<Instr> {
    match words {
        [word, operands @ ..] => instr(names, word, operands),
        [] => None,
    }
}

/// The note of words.
fn note_of(names: &Names, words: &[&str]) -> Option<Note> {
    match words {
        [word, operands @ ..] => note(names, word, operands),
        [] => None,
    }
}

/// The instruction of a line.
pub fn read_instr(alloc: Global, names: &Names, line: &str) -> Result<Instr> {
    let words = words_of(alloc, line)?;
    match instr_of(names, words.as_slice()) {
        Some(instr) => Ok(instr),
        None => bail!("no such instruction"),
    }
}

/// The note of a line.
fn read_note(alloc: Global, names: &Names, line: &str) -> Result<Note> {
    let words = words_of(alloc, line)?;
    match note_of(names, words.as_slice()) {
        Some(note) => Ok(note),
        None => bail!("no such note"),
    }
}

/// Appends the instruction of a line behind its address, with the note that stands behind a semicolon, if one does.
pub fn take_code(alloc: Global, code: &mut Vec<Line>, names: &Names, line: &str) -> Result<()> {
    match line.split_once(" ; ") {
        Some((line, words)) => {
            let note = read_note(alloc, names, words)?;
            push(code, (read_instr(alloc, names, line)?, Some(note)))?;
        }
        None => push(code, (read_instr(alloc, names, line)?, None))?,
    }
    Ok(())
}
