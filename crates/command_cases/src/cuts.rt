// A text cut behind each of its bytes, and a text without one of its lines.
use crate::ran::{Outside, Ran, run_on};
use anyhow::{Context, Result};
use rt_top::NoGate;
use std::alloc::Global;
use std::thread::Threads;
use test_tables::Case;

/// Whether a command answered with a line: its first one, or `accepted` where it wrote more than that.
fn has_answer(ran: &Ran, line: &str) -> bool {
    let output = ran.output();
    if line == "accepted" {
        return ran.is_done();
    }
    match output.strip_suffix(b"\n".as_slice()) {
        Some(answer) => !ran.is_done() && answer == line.as_bytes(),
        None => false,
    }
}

/// The first number of bytes, from 0, at which `check` answers something else about so many first bytes of a text. The
/// parts of a case are the text `app` and the `answers`, a line for each cut.
pub fn wrong_cut<R: Threads + Sync>(rt: &R, alloc: Global, case: &Case) -> Result<Option<u32>> {
    let app = case.bytes("app");
    let mut answers = case.text("answers").context("no answers")?.lines();
    for cut in 0..=app.len() {
        let outside = Outside::of(alloc, &app[..cut], b"")?;
        let ran = run_on(rt, alloc, &["check", "app"], outside, &NoGate);
        if !has_answer(&ran, answers.next().context("an answer is missing")?) {
            return Ok(u32::try_from(cut).ok());
        }
    }
    Ok(None)
}

/// The lines of a text but one, which is counted from 0.
fn without(alloc: Global, text: &str, left_out: usize) -> Result<Vec<u8>> {
    let mut kept = Vec::new(alloc);
    for (number, line) in text.lines().enumerate() {
        if number != left_out {
            kept.extend_from_slice(line.as_bytes())?;
            kept.push(b'\n')?;
        }
    }
    Ok(kept)
}

/// The first line, from 0, without which `audit` answers something else about a trace. The parts of a case are the
/// text `app`, the trace `second`, and the `answers`, a line for each that is left out.
pub fn wrong_line<R: Threads + Sync>(rt: &R, alloc: Global, case: &Case) -> Result<Option<u32>> {
    let trace = case.text("second").context("no trace")?;
    let answers = case.text("answers").context("no answers")?;
    for (number, answer) in answers.lines().enumerate() {
        let rest = without(alloc, trace, number)?;
        let outside = Outside::of(alloc, case.bytes("app"), &rest)?;
        let ran = run_on(rt, alloc, &["audit", "app", "trace"], outside, &NoGate);
        if ran.output().strip_suffix(b"\n".as_slice()) != Some(answer.as_bytes()) {
            return Ok(u32::try_from(number).ok());
        }
    }
    Ok(None)
}
