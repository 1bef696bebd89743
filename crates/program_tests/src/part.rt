// Parts of cases, and lines.

use anyhow::{Context, Result};
use std::alloc::{AllocError, Global};
use std::fmt::Debug;
use std::io;
use test_tables::Case;

/// The text of a part of a case.
pub fn text<'a>(case: &'a Case, part: &str) -> Result<&'a str> {
    case.text(part).context("a part is no text")
}

/// Appends the numbers of a text.
fn add_numbers(found: &mut Vec<u32>, text: &str) -> Result<()> {
    for word in text.split_whitespace() {
        found.push(word.parse::<u32>()?)?;
    }
    Ok(())
}

/// The numbers of a part of a case.
pub fn numbers(alloc: Global, case: &Case, part: &str) -> Result<Vec<u32>> {
    let text = text(case, part)?;
    let mut found = Vec::new(alloc);
    add_numbers(&mut found, text)?;
    Ok(found)
}

/// Appends a line.
pub fn push_line(told: &mut Vec<u8>, line: &[u8]) -> Result<(), AllocError> {
    told.extend_from_slice(line)?;
    told.extend_from_slice(b"\n")
}

/// Prints a line of what a value is, and the value.
pub fn print_line<T: Debug>(rt: &impl Print, what: &str, value: &T) -> io::Result<()> {
    println!(rt; "{what}: {value:?}")
}
