// The cases of a file.

use crate::line::{Piece, push_piece, read_piece};
use crate::unread::Unread;
use std::alloc::Global;

/// A case of a table: its name, and texts by the names of its parts.
#[derive(Drop)]
pub struct Case {
    name: String,
    parts: Vec<CasePart>,
}

#[derive(Drop)]
struct CasePart {
    name: String,
    text: Vec<u8>,
}

impl Case {
    /// Its name: what it tests.
    pub fn name(&self) -> &str {
        self.name.as_str()
    }

    /// The bytes of the part of a name, and none where there is no such part.
    pub fn bytes(&self, name: &str) -> &[u8] {
        for part in &self.parts {
            if part.name.as_str() == name {
                return part.text.as_slice();
            }
        }
        &[]
    }

    /// The part of a name as a text, and None where it is not one.
    pub fn text(&self, name: &str) -> Option<&str> {
        std::str::from_utf8(self.bytes(name)).ok()
    }

    /// The number that the part of a name is.
    pub fn number(&self, name: &str) -> Option<u32> {
        self.text(name)?.trim().parse::<u32>().ok()
    }
}

/// The index of the part of a name, which is made where there is none.
fn index_of(alloc: Global, parts: &mut Vec<CasePart>, name: &str) -> Result<usize, Unread> {
    for (index, part) in parts.iter().enumerate() {
        if part.name.as_str() == name {
            return Ok(index);
        }
    }
    let index = parts.len();
    parts.push(CasePart {
        name: String::from_str(alloc, name)?,
        text: Vec::new(alloc),
    })?;
    Ok(index)
}

/// Appends a piece to the part of a name.
fn extend(
    alloc: Global,
    parts: &mut Vec<CasePart>,
    name: &str,
    piece: Piece<'_>,
) -> Result<(), Unread> {
    let index = index_of(alloc, parts, name)?;
    if let Some(part) = parts.get_mut(index) {
        push_piece(alloc, &mut part.text, piece)?;
    }
    Ok(())
}

/// Begins a case, or adds a line to the last.
fn take_line(
    alloc: Global,
    found: &mut Vec<Case>,
    line: &str,
    number: usize,
) -> Result<(), Unread> {
    if let Some(name) = line.strip_prefix("= ") {
        found.push(Case {
            name: String::from_str(alloc, name)?,
            parts: Vec::new(alloc),
        })?;
        return Ok(());
    }
    let (name, rest) = line.split_once(' ').ok_or(Unread::Line(number))?;
    let piece = read_piece(rest).ok_or(Unread::Line(number))?;
    let case = found.last_mut().ok_or(Unread::Line(number))?;
    extend(alloc, &mut case.parts, name, piece)
}

/// The cases of a file. A case begins with a line `= NAME`; behind it stand lines `PART | LINE`, which adds a line to a
/// part, and `PART "TEXT"` or `PART COUNT "TEXT"`, which adds so many copies of a text. In a text `\n`, `\t`, `\r`,
/// `\xHH` and `\"` are as in Rust, `\#` is the number of the copy from 0 and `\+` the one from 1. Lines that are empty
/// or begin with a `;` are not read.
pub fn cases(alloc: Global, file: &str) -> Result<Vec<Case>, Unread> {
    let mut found = Vec::new(alloc);
    for (number, line) in file.lines().enumerate() {
        if !line.is_empty() && !line.starts_with(';') {
            take_line(alloc, &mut found, line, number.saturating_add(1))?;
        }
    }
    Ok(found)
}
