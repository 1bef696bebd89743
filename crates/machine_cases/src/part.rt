// Reads the parts of a case.

use anyhow::{Context, Result};
use rt_ids::NoMemory;
use std::alloc::{AllocError, Global};
use test_tables::Case;

/// The text of a part of a case.
pub fn text<'a>(case: &'a Case, part: &str) -> Result<&'a str> {
    case.text(part).context("a part is no text")
}

/// The words of a line.
pub fn words_of<'a>(alloc: Global, line: &'a str) -> Result<Vec<&'a str>, AllocError> {
    line.split_whitespace().collect(alloc)
}

/// Appends a row.
pub fn push<T: Drop>(rows: &mut Vec<T>, row: T) -> Result<(), NoMemory> {
    Ok(rows.push(row)?)
}
