// Rows of halfwords and texts.

use crate::text::text;
use rt_thumb::{Halfwords, decode, encode, is_encodable, size};
use std::alloc::{AllocError, Global};

/// What the highest five bits of the first halfword of 32 bits are at least.
const WIDE: u16 = 29;

/// The halfwords of a row and the text behind them.
fn read_row(row: &str) -> Option<(Halfwords, &str)> {
    let (first, rest) = row.split_once(' ')?;
    let first = u16::from_str_radix(first, 16).ok()?;
    if first >> 11 < WIDE {
        return Some((Halfwords::Short(first), rest));
    }
    let (second, text) = rest.split_once(' ')?;
    let second = u16::from_str_radix(second, 16).ok()?;
    Some((Halfwords::Wide(first, second), text))
}

/// How many bytes halfwords take.
fn bytes(halfwords: Halfwords) -> u32 {
    match halfwords {
        Halfwords::Short(_) => 2,
        Halfwords::Wide(_, _) => 4,
    }
}

/// Whether the halfwords of a row are decoded to an instruction that has the row's text, and that is encoded in them.
pub fn is_row(alloc: Global, row: &str) -> Result<bool, AllocError> {
    let Some((halfwords, told)) = read_row(row) else {
        return Ok(false);
    };
    let Some(instruction) = decode(halfwords) else {
        return Ok(false);
    };
    if !is_encodable(instruction) {
        return Ok(false);
    }
    let same = encode(instruction) == halfwords && size(instruction) == bytes(halfwords);
    let text = text(alloc, instruction)?;
    Ok(same && text.as_str() == told)
}

/// Whether the halfwords of a row are no instruction of ours.
pub fn is_none(row: &str) -> bool {
    match read_row(row) {
        Some((halfwords, _)) => decode(halfwords).is_none(),
        None => false,
    }
}
