// Sinks: what is written, and each call that fails.

use crate::part::{numbers, text};
use anyhow::{Result, bail};
use rt_outside::{MemSink, Sink, put_all};
use std::alloc::{AllocError, Global};
use test_tables::Case;

/// Writes what a write of a piece gives.
fn tell_write(sink: &mut MemSink, piece: &[u8], told: &mut String) -> Result<(), AllocError> {
    match sink.write(piece) {
        Ok(count) => writeln!(told, "{count}"),
        Err(_failed) => told.push_str("failed\n"),
    }
}

/// Writes whether a piece was written whole.
fn tell_put(sink: &mut MemSink, piece: &[u8], told: &mut String) -> Result<(), AllocError> {
    match put_all(sink, piece) {
        Ok(()) => told.push_str("whole\n"),
        Err(_failed) => told.push_str("failed\n"),
    }
}

/// Writes what the call of a line gives: `write` or `put`, with a piece between quotes.
fn tell_line(sink: &mut MemSink, line: &str, told: &mut String) -> Result<()> {
    match line.split_once(' ') {
        Some(("write", piece)) => Ok(tell_write(sink, piece.trim_matches('"').as_bytes(), told)?),
        Some(("put", piece)) => Ok(tell_put(sink, piece.trim_matches('"').as_bytes(), told)?),
        _ => bail!("no such call"),
    }
}

/// Writes what the calls of some lines give.
fn tell_lines(sink: &mut MemSink, lines: &str, told: &mut String) -> Result<()> {
    for line in lines.lines() {
        tell_line(sink, line, told)?;
    }
    Ok(())
}

/// Whether the calls of a case give what it says, and the sink takes what it says.
fn gives(alloc: Global, sink: &mut MemSink, case: &Case) -> Result<bool> {
    let lines = text(case, "calls")?;
    let mut told = String::new(alloc);
    tell_lines(sink, lines, &mut told)?;
    Ok(told.as_bytes() == case.bytes("gives") && sink.bytes() == case.bytes("taken"))
}

/// A sink with the room of a case, which fails at the writes that it says.
fn sink(alloc: Global, case: &Case) -> Result<MemSink> {
    let fails = numbers(alloc, case, "fails")?;
    Ok(MemSink::new(alloc, case.number("room").unwrap_or(0), &fails)?)
}

/// Whether a sink in memory gives what its case says.
pub fn in_memory(alloc: Global, case: &Case) -> Result<bool> {
    let mut sink = sink(alloc, case)?;
    gives(alloc, &mut sink, case)
}
