// Many runs of an application whose code is the compiler's choice: what they show differs from compiler to compiler,
// and is the same for every number of workers.
use crate::ran::{Outside, Ran, run_on};
use anyhow::{Context, Result};
use rt_top::NoGate;
use std::alloc::Global;
use std::thread::Threads;
use test_tables::Case;

/// How a command ends whose words stand in a line.
fn run_words_of<R: Threads + Sync>(rt: &R, alloc: Global, app: &[u8], line: &str) -> Result<Ran> {
    let mut words = Vec::new(alloc);
    for word in line.split_whitespace() {
        words.push(word)?;
    }
    let outside = Outside::of(alloc, app, b"")?;
    Ok(run_on(rt, alloc, &words, outside, &NoGate))
}

/// What is told of a case: `ok`, or what differs. Its parts are the text `app`; `words`, those of a command in each
/// line; and the `front` of what each of them is to write. All of them write the same.
pub fn verdict<R: Threads + Sync>(rt: &R, alloc: Global, case: &Case) -> Result<&'static str> {
    let lines = case.text("words").context("no words")?;
    let app = case.bytes("app");
    let first = run_words_of(rt, alloc, app, lines.lines().next().context("no words")?)?;
    if !first.output().starts_with(case.bytes("front")) {
        return Ok("the output begins in another way");
    }
    for line in lines.lines() {
        let ran = run_words_of(rt, alloc, app, line)?;
        if !ran.is_done() {
            return Ok("the exit status differs");
        }
        if ran.output() != first.output() {
            return Ok("the output differs");
        }
    }
    Ok("ok")
}
