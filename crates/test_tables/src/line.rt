// Reads a line of a file of cases.

use crate::escape::push_text;
use std::alloc::{AllocError, Global};

/// What a line adds to a part.
#[derive(Clone, Copy, PartialEq, Eq)]
pub(crate) enum Piece<'a> {
    /// A line as it stands.
    Line(&'a str),
    /// So many copies of a text with escapes.
    Copies(u32, &'a str),
}

/// The number of copies before a quoted text: 1 where none is written.
fn copies(word: &str) -> Option<u32> {
    match word.trim() {
        "" => Some(1),
        digits => digits.parse::<u32>().ok(),
    }
}

/// What stands behind the name of a part: `| LINE`, `"TEXT"` or `COUNT "TEXT"`.
pub(crate) fn read_piece(rest: &str) -> Option<Piece<'_>> {
    if rest == "|" {
        return Some(Piece::Line(""));
    }
    if let Some(line) = rest.strip_prefix("| ") {
        return Some(Piece::Line(line));
    }
    let (count, quoted) = rest.split_once('"')?;
    let text = quoted.strip_suffix('"')?;
    Some(Piece::Copies(copies(count)?, text))
}

/// Appends what a piece says.
pub(crate) fn push_piece(
    alloc: Global,
    out: &mut Vec<u8>,
    piece: Piece<'_>,
) -> Result<(), AllocError> {
    match piece {
        Piece::Line(line) => {
            out.extend_from_slice(line.as_bytes())?;
            out.push(b'\n')?;
        }
        Piece::Copies(count, text) => {
            for copy in 0..count {
                push_text(alloc, out, text, copy)?;
            }
        }
    }
    Ok(())
}
