// Runs beside device threads. When a pend arrives is free, and so is the code of most applications: of the output the
// total and the account are compared, and the whole of it is audited.
use crate::account::{end_of, is_account};
use crate::ran::{Outside, run_on};
use anyhow::{Context, Result};
use rt_ids::Status;
use rt_top::NoGate;
use std::alloc::Global;
use std::thread::Threads;
use test_tables::Case;

/// Whether `audit` says yes to an output.
pub(crate) fn is_audited<R: Threads + Sync>(
    rt: &R,
    alloc: Global,
    app: &[u8],
    output: &[u8],
) -> Result<bool> {
    let outside = Outside::of(alloc, app, output)?;
    let audited = run_on(rt, alloc, &["audit", "app", "trace"], outside, &NoGate);
    Ok(audited.is_done())
}

/// What is told of the end of an output: `ok`, or what differs.
fn told_of_end(output: &str, case: &Case) -> Option<&'static str> {
    let (total, account) = end_of(output)?;
    if total.parse::<u32>().ok() != case.number("total") {
        return Some("the total differs");
    }
    Some(if is_account(account, case.text("pends")?, 0)? {
        "ok"
    } else {
        "the account differs"
    })
}

/// What is told of a run under a case's script: `ok`, or what differs.
pub(crate) fn live_difference<R: Threads + Sync>(
    rt: &R,
    alloc: Global,
    case: &Case,
    status: Status,
    output: &[u8],
) -> Result<&'static str> {
    if status != Status::Done {
        return Ok("the exit status differs");
    }
    if !is_audited(rt, alloc, case.bytes("app"), output)? {
        return Ok("the audit says no");
    }
    let text = std::str::from_utf8(output).ok().context("no text")?;
    Ok(told_of_end(text, case).unwrap_or("there is no account"))
}

/// What is told of a case: `ok`, or what differs. Its parts are `words`, the texts `app` and `second`, a script, and
/// what is wanted: the `total`, and `pends`, a line for each declared interrupt in order with the number of pends
/// that devices make of it.
pub fn verdict<R: Threads + Sync>(rt: &R, alloc: Global, case: &Case) -> Result<&'static str> {
    let outside = Outside::of(alloc, case.bytes("app"), case.bytes("second"))?;
    let command = match case.text("words").context("no words")? {
        "" => "live",
        word => word.trim(),
    };
    let ran = run_on(rt, alloc, &[command, "app", "script"], outside, &NoGate);
    live_difference(rt, alloc, case, ran.status, ran.output())
}
