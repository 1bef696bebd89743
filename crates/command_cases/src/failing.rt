// Runs whose sink fails at its first write, at its second, and so on, until a run makes no such write; and likewise
// the reads of each source.
use crate::live::is_audited;
use crate::ran::{Outside, Ran, run_on};
use anyhow::{Context, Result};
use rt_outside::{MemSink, MemSource};
use rt_top::NoGate;
use std::alloc::Global;
use std::thread::Threads;
use test_tables::Case;

/// Bytes that a sink has room for.
const ROOM: u32 = 1 << 20;

/// More writes than a run makes, and more reads.
const CALLS: u32 = 10_000;

/// The trace in front of one failing write of so many is audited.
const PERIOD: u32 = 32;

/// No call fails.
const NONE: &[u32] = &[];

/// The numbers of calls that fail, of each source and of the sink.
#[derive(Clone, Copy)]
struct Fails<'a> {
    app: &'a [u32],
    second: &'a [u32],
    out: &'a [u32],
}

impl<'a> Fails<'a> {
    /// These reads of the application fail, or of the second text.
    fn of_read(reads: &'a [u32], is_app: bool) -> Fails<'a> {
        if is_app {
            Fails {
                app: reads,
                second: NONE,
                out: NONE,
            }
        } else {
            Fails {
                app: NONE,
                second: reads,
                out: NONE,
            }
        }
    }
}

/// What of an output is the same in each run.
#[derive(Clone, Copy)]
enum Fixed<'a> {
    /// All of it.
    Whole(&'a [u8]),
    /// What stands in front of the items of the trace.
    Front(&'a [u8]),
}

/// How a command ends on the texts of a case.
fn run_failing<R: Threads + Sync>(
    rt: &R,
    alloc: Global,
    command: &str,
    case: &Case,
    fails: Fails<'_>,
) -> Result<Ran> {
    let outside = Outside {
        app: MemSource::new(alloc, case.bytes("app"), fails.app)?,
        second: MemSource::new(alloc, case.bytes("second"), fails.second)?,
        third: MemSource::new(alloc, b"third", &[0])?,
        out: MemSink::new(alloc, ROOM, fails.out)?,
    };
    Ok(run_on(rt, alloc, &[command, "app", "script"], outside, &NoGate))
}

/// Whether what was taken is a beginning of an output. Of one whose trace may differ, the trace is audited at some of
/// the writes that fail.
fn is_beginning<R: Threads + Sync>(
    rt: &R,
    alloc: Global,
    app: &[u8],
    taken: &[u8],
    fixed: Fixed<'_>,
    write: u32,
) -> Result<bool> {
    match fixed {
        Fixed::Whole(text) => Ok(taken.len() < text.len() && text.starts_with(taken)),
        Fixed::Front(text) if taken.len() < text.len() => Ok(text.starts_with(taken)),
        Fixed::Front(text) if write % PERIOD != 0 => Ok(taken.starts_with(text)),
        Fixed::Front(text) => Ok(taken.starts_with(text) && is_audited(rt, alloc, app, taken)?),
    }
}

/// What is told of failing writes, where so many have to fail at least before a run ends without one.
fn told_of_writes<R: Threads + Sync>(
    rt: &R,
    alloc: Global,
    command: &str,
    case: &Case,
    fixed: Fixed<'_>,
) -> Result<&'static str> {
    let least = case.number("writes").context("no number of writes")?;
    for write in 0..CALLS {
        let only = [write];
        let fails = Fails {
            app: NONE,
            second: NONE,
            out: &only,
        };
        let ran = run_failing(rt, alloc, command, case, fails)?;
        if ran.is_done() {
            return Ok(if write < least {
                "there are fewer writes"
            } else {
                "ok"
            });
        }
        let app = case.bytes("app");
        if ran.status.number() != 6 || !is_beginning(rt, alloc, app, ran.output(), fixed, write)? {
            return Ok("a write that fails leaves something else");
        }
    }
    Ok("each run fails")
}

/// What is told of failing reads of the application, or of the second text: `ok`, or what differs.
fn told_of_reads<R: Threads + Sync>(
    rt: &R,
    alloc: Global,
    command: &str,
    case: &Case,
    is_app: bool,
) -> Result<&'static str> {
    let least = case.number("reads").context("no number of reads")?;
    for read in 0..CALLS {
        let only = [read];
        let fails = Fails::of_read(&only, is_app);
        let ran = run_failing(rt, alloc, command, case, fails)?;
        if ran.is_done() {
            return Ok(if read < least {
                "there are fewer reads"
            } else {
                "ok"
            });
        }
        if ran.status.number() != 5 || !ran.output().is_empty() {
            return Ok("a read that fails leaves something else");
        }
    }
    Ok("each run fails")
}

/// What is told of the writes of a case's command. The whole output of `run` is the same each time, and of `live` what
/// stands in front of the trace.
fn told_of_output<R: Threads + Sync>(
    rt: &R,
    alloc: Global,
    command: &str,
    case: &Case,
) -> Result<&'static str> {
    let least = case.number("bytes").context("no number of bytes")? as usize;
    let none = Fails {
        app: NONE,
        second: NONE,
        out: NONE,
    };
    let whole = run_failing(rt, alloc, command, case, none)?;
    let output = std::str::from_utf8(whole.output()).ok().context("no text")?;
    if !whole.is_done() || output.len() < least {
        return Ok("the output is shorter");
    }
    if command == "run" {
        return told_of_writes(rt, alloc, command, case, Fixed::Whole(whole.output()));
    }
    let (_listing, trace) = output.split_once("\ntrace\n").context("no trace")?;
    let front = output.strip_suffix(trace).context("no trace")?;
    let front = Fixed::Front(front.as_bytes());
    told_of_writes(rt, alloc, command, case, front)
}

/// What is told of a case: `ok`, or what differs. Its parts are the `command`, the texts `app` and `second`, a
/// script; the least number of `bytes` of its output, the least number of `writes`, and the least number of `reads`
/// of each text.
pub fn verdict<R: Threads + Sync>(rt: &R, alloc: Global, case: &Case) -> Result<&'static str> {
    let command = case.text("command").context("no command")?.trim();
    for is_app in [true, false] {
        let told = told_of_reads(rt, alloc, command, case, is_app)?;
        if told != "ok" {
            return Ok(told);
        }
    }
    told_of_output(rt, alloc, command, case)
}
