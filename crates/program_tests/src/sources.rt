// Sources: what is read, and each call that fails.

use crate::part::{numbers, push_line, text};
use anyhow::{Result, bail};
use rt_outside::{FileSource, MemSource, NeverFails, ReadFail, Source, read_text};
use std::alloc::{AllocError, Global};
use std::rt::Files;
use test_tables::Case;

/// Bytes of the buffer of a read, at most.
const BUFFER: usize = 8;

/// A call of a source.
#[derive(Clone, Copy)]
enum SourceCall {
    /// A read into a buffer of so many bytes.
    Read(usize),
    /// A read of the whole text, up to so many bytes.
    Text(u16),
}

/// The call of a line, `read` with a number or `text` with one.
fn call_of(line: &str) -> Option<SourceCall> {
    let (call, number) = line.split_once(' ')?;
    match call {
        "read" => Some(SourceCall::Read(number.parse::<usize>().ok()?)),
        "text" => Some(SourceCall::Text(number.parse::<u16>().ok()?)),
        _ => None,
    }
}

/// Appends what a read of a source moves into a buffer of so many bytes.
fn tell_read<S: Source>(source: &mut S, size: usize, told: &mut Vec<u8>) -> Result<(), AllocError> {
    let mut buffer = [0u8; BUFFER];
    let size = size.min(BUFFER);
    match source.read(&mut buffer[..size]) {
        Ok(count) => push_line(told, &buffer[..count]),
        Err(_failed) => push_line(told, b"! the read failed"),
    }
}

/// Why a text was not read.
fn words_of(fail: ReadFail) -> &'static [u8] {
    match fail {
        ReadFail::TooLong => b"! the text is too long",
        ReadFail::Fault => b"! the source failed",
        ReadFail::NoMemory => b"! no memory",
    }
}

/// Appends the text that is read of a source up to a limit.
fn tell_text<S: Source>(
    alloc: Global,
    source: &mut S,
    limit: u16,
    told: &mut Vec<u8>,
) -> Result<(), AllocError> {
    match read_text(alloc, source, u32::from(limit)) {
        Ok(text) => push_line(told, text.as_slice()),
        Err(fail) => push_line(told, words_of(fail)),
    }
}

/// Appends what the call of a line gives.
fn tell_line<S: Source>(
    alloc: Global,
    source: &mut S,
    line: &str,
    told: &mut Vec<u8>,
) -> Result<()> {
    match call_of(line) {
        Some(SourceCall::Read(size)) => Ok(tell_read(source, size, told)?),
        Some(SourceCall::Text(limit)) => Ok(tell_text(alloc, source, limit, told)?),
        None => bail!("no such call"),
    }
}

/// Appends what the calls of some lines give.
fn tell_lines<S: Source>(
    alloc: Global,
    source: &mut S,
    lines: &str,
    told: &mut Vec<u8>,
) -> Result<()> {
    for line in lines.lines() {
        tell_line(alloc, source, line, told)?;
    }
    Ok(())
}

/// Whether the calls of a case give what it says.
fn gives<S: Source>(alloc: Global, source: &mut S, case: &Case) -> Result<bool> {
    let lines = text(case, "calls")?;
    let mut told = Vec::new(alloc);
    tell_lines(alloc, source, lines, &mut told)?;
    Ok(told.as_slice() == case.bytes("gives"))
}

/// A source of the text of a case, which fails at the reads that it says.
fn source(alloc: Global, case: &Case) -> Result<MemSource> {
    let fails = numbers(alloc, case, "fails")?;
    Ok(MemSource::new(alloc, case.bytes("text"), &fails)?)
}

/// Whether a source in memory gives what its case says.
pub fn in_memory(alloc: Global, case: &Case) -> Result<bool> {
    let mut source = source(alloc, case)?;
    gives(alloc, &mut source, case)
}

/// Whether a source that never fails does.
pub fn never_fails(alloc: Global, case: &Case) -> Result<bool> {
    gives(alloc, &mut NeverFails::of(case.bytes("text")), case)
}

/// Whether a file does.
pub fn file<R: Files>(rt: &R, alloc: Global, case: &Case) -> Result<bool> {
    let path = text(case, "path")?.trim();
    gives(alloc, &mut FileSource::of(rt, path), case)
}
