// Compares how a command ended with what a case wants.

use crate::ran::{Outside, Ran, run_on};
use anyhow::{Context, Result};
use rt_outside::{MemSink, MemSource, read_text};
use rt_top::NoGate;
use std::alloc::Global;
use std::thread::Threads;
use test_tables::Case;

/// Bytes that a sink has room for, where the case does not say.
const ROOM: u32 = 1 << 20;

/// What is told of a case that comes out as it says.
const OK: &str = "ok";

/// The numbers of a part.
fn numbers(alloc: Global, line: &str) -> Result<Vec<u32>> {
    let mut found = Vec::new(alloc);
    for word in line.split_whitespace() {
        found.push(word.parse::<u32>()?)?;
    }
    Ok(found)
}

/// The words of a line.
fn words<'a>(alloc: Global, line: &'a str) -> Result<Vec<&'a str>> {
    let mut found = Vec::new(alloc);
    for word in line.split_whitespace() {
        found.push(word)?;
    }
    Ok(found)
}

/// A source of the text of a part, which fails at the reads of another.
fn source(alloc: Global, case: &Case, text: &str, fails: &str) -> Result<MemSource> {
    let fails = numbers(alloc, case.text(fails).context("no numbers of reads")?)?;
    Ok(MemSource::new(alloc, case.bytes(text), &fails)?)
}

/// The sink of a case.
fn sink(alloc: Global, case: &Case) -> Result<MemSink> {
    let fails = numbers(
        alloc,
        case.text("out_fails").context("no numbers of writes")?,
    )?;
    Ok(MemSink::new(alloc, case.number("room").unwrap_or(ROOM), &fails)?)
}

/// The third source, which fails at its first read where the case has no text for it.
fn third(alloc: Global, case: &Case) -> Result<MemSource> {
    if case.bytes("third").is_empty() {
        return Ok(MemSource::new(alloc, b"third", &[0])?);
    }
    source(alloc, case, "third", "third_fails")
}

/// The sources and the sink of a case.
fn outside(alloc: Global, case: &Case) -> Result<Outside> {
    Ok(Outside {
        app: source(alloc, case, "app", "app_fails")?,
        second: source(alloc, case, "second", "second_fails")?,
        third: third(alloc, case)?,
        out: sink(alloc, case)?,
    })
}

/// Whether what the second source still has is what the case says, where it says that.
fn is_second_left(alloc: Global, second: &mut MemSource, case: &Case) -> Result<bool> {
    let wanted = case.bytes("second_left");
    if wanted.is_empty() {
        return Ok(true);
    }
    let left = read_text(alloc, second, ROOM)?;
    Ok(left.as_slice() == wanted)
}

/// Whether the third source has had no call. Its first read fails, and the next one gives all that it has.
fn is_third_left(alloc: Global, third: &mut MemSource) -> Result<bool> {
    let is_first_call = read_text(alloc, third, ROOM).is_err();
    let left = read_text(alloc, third, ROOM)?;
    Ok(is_first_call && left.as_slice() == b"third".as_slice())
}

/// What differs of the status and of the output from what the case wants.
fn output_difference(ran: &Ran, case: &Case) -> &'static str {
    if case.number("exit") != Some(u32::from(ran.status.number())) {
        return "the exit status differs";
    }
    if ran.outside.out.bytes() != case.bytes("output") {
        return "the output differs";
    }
    OK
}

/// What differs from what the case wants: the status, the output, or what is left unread.
fn rest_difference(alloc: Global, ran: &mut Ran, case: &Case) -> Result<&'static str> {
    if !is_second_left(alloc, &mut ran.outside.second, case)? {
        return Ok("something else is left of the second source");
    }
    if case.bytes("third").is_empty() && !is_third_left(alloc, &mut ran.outside.third)? {
        return Ok("the third source was read");
    }
    Ok(output_difference(ran, case))
}

/// What is told of a case: `ok`, or what differs. The parts of a case are `words`, where they are not these; the texts
/// `app`, `second` and `third`, where without the last the third source may not be read; the numbers of calls that
/// fail, `app_fails`, `second_fails`, `third_fails` and `out_fails`; the `room` of the sink; and what is wanted,
/// `exit`, `output` and `second_left`, what the second source still has, where the case says that.
pub fn verdict<R: Threads + Sync>(
    rt: &R,
    alloc: Global,
    usual: &str,
    case: &Case,
) -> Result<&'static str> {
    let line = match case.text("words").context("no words")? {
        "" => usual,
        line => line,
    };
    let words = words(alloc, line)?;
    let mut ran = run_on(rt, alloc, &words, outside(alloc, case)?, &NoGate);
    rest_difference(alloc, &mut ran, case)
}
