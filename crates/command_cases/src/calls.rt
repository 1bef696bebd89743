// Calls of the crates below the program that the program does not make: it comes to their answers in parts, because it
// reads a trace line by line, and wants no memory once it has written. Each is made on the texts of a table of
// commands, and answers what that table says.
ghost use Rattle.rt_app.specs.Accepted.{IsAccepted};
ghost use Rattle.rt_app.specs.View.{app_of};
ghost use Rattle.rt_code.specs.Lines.{HasLines};
ghost use Rattle.rt_core.specs.Machine.{IsFresh};
ghost use Rattle.rt_script.specs.Script.{HasNames};

use crate::live::live_difference;
use anyhow::{Context, Result, bail};
use rt_app::App;
use rt_baker::{Verdict, audit};
use rt_build::accept;
use rt_ceil::ceilings;
use rt_core::Core;
use rt_frames::bounds;
use rt_ids::{Fault, NoMemory, Place, Refusal, Refused, Status};
use rt_live::account::put_account;
use rt_live::{LiveFail, live};
use rt_outside::MemSink;
use rt_report::report;
use rt_script::{Script, read_script};
use rt_sim::prepare;
use rt_top::NoGate;
use rt_trace::{Trace, read_trace};
use std::alloc::Global;
use std::fs;
use std::rt::Files;
use std::thread::Threads;
use test_tables::{Case, cases};

/// Bytes that a sink has room for.
const ROOM: u32 = 1 << 23;

/// More items than the trace of a case has.
const ITEMS: usize = 1 << 20;

/// A call that answers whether the texts of a case come out as the case says.
#[derive(Clone, Copy)]
enum TextCall {
    /// The application of a text, of which the report is compared, or its refusal.
    Accept,
    /// The verdict on a trace that is in memory.
    Audit,
    /// A run beside devices, of which the account is the answer.
    Live,
}

/// The call of a name.
fn call_of(name: &str) -> Option<TextCall> {
    match name {
        "accept" => Some(TextCall::Accept),
        "audit" => Some(TextCall::Audit),
        "live" => Some(TextCall::Live),
        _ => None,
    }
}

/// The number of a refusal.
fn number_of(refusal: Refusal) -> u8 {
    match refusal {
        Refusal::TooLong => 1,
        Refusal::Foreign => 2,
        Refusal::Syntax => 3,
        Refusal::Limit(_) => 4,
        Refusal::Rule(rule) => 5u8.saturating_add(rule as u8),
    }
}

/// Whether a line tells a fault: its place and its number.
fn tells_fault(alloc: Global, line: &[u8], fault: Fault) -> Result<bool> {
    let Place { line: row, col } = fault.place;
    let number = number_of(fault.refusal);
    let front = format!(in alloc; "{row}:{col} E{number:02} ")?;
    Ok(line.starts_with(front.as_bytes()))
}

/// Whether a text is the report on an application.
fn is_report(alloc: Global, text: &[u8], app: &App) -> Result<bool>
    requires { IsAccepted (app_of app.now) }
{
    let ceilings = ceilings(alloc, app)?;
    let bounds = bounds(alloc, app, &ceilings)?;
    let wanted = report(alloc, app, &ceilings, &bounds)?;
    Ok(wanted.as_slice() == text)
}

/// Whether a line is the verdict on a trace.
fn is_verdict(alloc: Global, line: &[u8], app: &App, trace: &Trace) -> Result<bool>
    requires { IsAccepted (app_of app.now) }
{
    let count = trace.items().len();
    if count > ITEMS {
        bail!("too many items");
    }
    let told = match audit(alloc, app, trace) {
        Ok(Verdict::Yes) => format!(in alloc; "yes {count}\n")?,
        Ok(Verdict::No(number)) => format!(in alloc; "no {number}\n")?,
        Err(NoMemory) => return Ok(false),
    };
    Ok(told.as_bytes() == line)
}

/// Whether the trace of a case is judged as the case says. One that is refused comes to no verdict.
fn is_audited(alloc: Global, app: &App, case: &Case) -> Result<bool>
    requires { IsAccepted (app_of app.now) }
{
    let names = app.names(alloc)?;
    let line = case.bytes("output");
    match read_trace(alloc, case.bytes("second"), &names) {
        Ok(trace) => is_verdict(alloc, line, app, &trace),
        Err(_refused) => Ok(line.starts_with(b"trace:".as_slice())),
    }
}

/// Writes the trace of a core beside the devices of a script, and then the account that is answered. Answers whether
/// it came to that.
fn writes_account<R: Threads + Sync>(
    rt: &R,
    alloc: Global,
    core: &mut Core,
    script: &Script,
    out: &mut MemSink,
) -> bool
    requires fresh { IsFresh core.old }
    requires lines { HasLines core.old.image }
    requires names { HasNames core.old.image.names script.now }
{
    match live(rt, alloc, core, script, out, &NoGate) {
        Ok(account) => put_account(&account, &core.image().names, out).is_ok(),
        Err(LiveFail::Fault) => false,
        Err(LiveFail::NoMemory) => false,
    }
}

/// Whether the application of a case runs beside the devices of its script as the case says.
fn has_lived<R: Threads + Sync>(rt: &R, alloc: Global, app: &App, case: &Case) -> Result<bool>
    requires { IsAccepted (app_of app.now) }
{
    let mut core = prepare(alloc, app)?;
    let Ok(script) = read_script(alloc, case.bytes("second"), &core.image().names) else {
        return Ok(false);
    };
    let mut out = MemSink::new(alloc, ROOM, &[])?;
    if !writes_account(rt, alloc, &mut core, &script, &mut out) {
        return Ok(false);
    }
    Ok(live_difference(rt, alloc, case, Status::Done, out.bytes())? == "ok")
}

/// Whether a call answers what a case says. The cases of runs beside devices that have words of their own are those of
/// another command.
fn is_as_said<R: Threads + Sync>(
    rt: &R,
    alloc: Global,
    call: TextCall,
    case: &Case,
) -> Result<bool> {
    let app = match accept(alloc, case.bytes("app")) {
        Ok(app) => app,
        Err(Refused::At(fault)) => return tells_fault(alloc, case.bytes("output"), fault),
        Err(Refused::NoMemory) => return Ok(false),
    };
    match call {
        TextCall::Accept => is_report(alloc, case.bytes("output"), &app),
        TextCall::Audit => is_audited(alloc, &app, case),
        TextCall::Live if case.bytes("words").is_empty() => has_lived(rt, alloc, &app, case),
        TextCall::Live => Ok(true),
    }
}

/// The first case of a table, from 0, of which a call answers something else. The parts of a case are the names of the
/// `call` and of the `table`.
pub fn wrong<R: Threads + Sync + Files + AllocGlobal>(
    rt: &R,
    alloc: Global,
    case: &Case,
) -> Result<Option<u32>> {
    let name = case.text("call").context("no call")?;
    let call = call_of(name.trim()).context("no such call")?;
    let text = fs::read_to_string(rt, case.text("table").context("no table")?.trim())?;
    for (number, told) in cases(alloc, text.as_str())?.iter().enumerate() {
        if !is_as_said(rt, alloc, call, told)? {
            return Ok(u32::try_from(number).ok());
        }
    }
    Ok(None)
}
