// The demonstration applications: each is accepted and its own canonical text.
use crate::ran::{Outside, run_on};
use anyhow::{Context, Result};
use rt_top::NoGate;
use std::alloc::Global;
use std::thread::Threads;
use test_tables::Case;

/// Whether a text is accepted, and `check` ends with these bytes.
fn is_accepted<R: Threads + Sync>(rt: &R, alloc: Global, text: &[u8], end: &[u8]) -> Result<bool> {
    let outside = Outside::of(alloc, text, b"")?;
    let checked = run_on(rt, alloc, &["check", "app"], outside, &NoGate);
    Ok(checked.is_done() && checked.output().strip_suffix(end).is_some())
}

/// Whether a text is its own canonical text.
fn is_canonical<R: Threads + Sync>(rt: &R, alloc: Global, text: &[u8]) -> Result<bool> {
    let outside = Outside::of(alloc, text, b"")?;
    let printed = run_on(rt, alloc, &["fmt", "app"], outside, &NoGate);
    Ok(printed.is_done() && printed.output() == text)
}

/// Whether the application of so many tasks is as it is to be.
fn is_right<R: Threads + Sync>(rt: &R, alloc: Global, tasks: u32, end: &[u8]) -> Result<bool> {
    let word = format!(in alloc; "{tasks}")?;
    let outside = Outside::of(alloc, b"", b"")?;
    let made = run_on(rt, alloc, &["demo", word.as_str()], outside, &NoGate);
    let text = made.output();
    Ok(made.is_done() && is_canonical(rt, alloc, text)? && is_accepted(rt, alloc, text, end)?)
}

/// The first number of tasks whose application is not as it is to be. The parts of a case are the `first` number and
/// the `last`, and the `end` of what `check` writes.
pub fn wrong<R: Threads + Sync>(rt: &R, alloc: Global, case: &Case) -> Result<Option<u32>> {
    let first = case.number("first").context("no first number")?;
    let last = case.number("last").context("no last number")?;
    for tasks in first..=last {
        if !is_right(rt, alloc, tasks, case.bytes("end"))? {
            return Ok(Some(tasks));
        }
    }
    Ok(None)
}
