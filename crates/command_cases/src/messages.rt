// Cases of applications with messages, as items.

use crate::live::is_audited;
use crate::ran::{Outside, Ran, run_on};
use anyhow::{Context, Result};
use rt_top::NoGate;
use std::alloc::Global;
use std::thread::Threads;
use test_tables::Case;

/// Whether an item begins with one of some words.
fn begins_with(item: &str, words: &str) -> bool {
    let first = match item.split_once(' ') {
        Some((first, _rest)) => first,
        None => item,
    };
    for word in words.split_whitespace() {
        if word == first {
            return true;
        }
    }
    false
}

/// The items of a trace behind a listing, a line each without its step number. The total is left out, and so are the
/// items that begin with one of some words.
fn items(alloc: Global, output: &str, words: &str) -> Result<Vec<u8>> {
    let (_listing, trace) = output.split_once("\ntrace\n").context("no trace")?;
    let mut found = Vec::new(alloc);
    for line in trace.lines() {
        let (step, item) = line.split_once(' ').context("no step number")?;
        if step != "total" && !begins_with(item, words) {
            found.extend_from_slice(item.as_bytes())?;
            found.push(b'\n')?;
        }
    }
    Ok(found)
}

/// Whether the items of a run are those of its case.
fn has_its_items(alloc: Global, ran: &Ran, case: &Case) -> Result<bool> {
    let output = std::str::from_utf8(ran.output()).ok().context("no text")?;
    let words = case.text("without").context("no words")?;
    let found = items(alloc, output, words)?;
    Ok(found.as_slice() == case.bytes("items"))
}

/// Whether `build` writes the listing that stands in front of the trace of a run.
fn has_its_listing<R: Threads + Sync>(
    rt: &R,
    alloc: Global,
    app: &[u8],
    ran: &Ran,
) -> Result<bool> {
    let outside = Outside::of(alloc, app, b"")?;
    let built = run_on(rt, alloc, &["build", "app"], outside, &NoGate);
    Ok(ran.output().starts_with(built.output()))
}

/// What is told of a case: `ok`, or what differs. Its parts are the texts `app` and `second`, a script, and what is
/// wanted of the trace: `items`, but for those that begin with a word of `without`. The whole output is audited too.
pub fn verdict<R: Threads + Sync>(rt: &R, alloc: Global, case: &Case) -> Result<&'static str> {
    let app = case.bytes("app");
    let outside = Outside::of(alloc, app, case.bytes("second"))?;
    let ran = run_on(rt, alloc, &["run", "app", "script"], outside, &NoGate);
    if !ran.is_done() {
        return Ok("the exit status differs");
    }
    if !has_its_items(alloc, &ran, case)? {
        return Ok("the items differ");
    }
    if !has_its_listing(rt, alloc, app, &ran)? {
        return Ok("the listing differs");
    }
    Ok(if is_audited(rt, alloc, app, ran.output())? {
        "ok"
    } else {
        "the audit says no"
    })
}
