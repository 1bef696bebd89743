// Runs the tables of commands that stand in data/, and prints a line for each case: its name, and `ok` or what
// differs. What tokens, canonical texts, reports, refusals, listings, traces and verdicts are to be comes from an
// independent implementation.
// Promises: nothing: it is a program of tests.
// Stands on: test_tables, rt_ids, rt_lex, rt_outside, rt_top, rt_app, rt_build, rt_ceil, rt_frames, rt_report, rt_code,
// rt_core, rt_sim, rt_script, rt_trace, rt_baker, rt_live.
// Read next: data/commands.
#![tactic(auto)]

mod account;
mod calls;
mod cuts;
mod demos;
mod failing;
mod held;
mod live;
mod meeting;
mod messages;
mod pairs;
mod ran;
mod sides;
mod slow;
mod soaks;
mod tokens;
mod wanted;

use anyhow::Result;
use std::alloc::Global;
use std::fs;
use std::rt::Files;
use std::thread::Threads;
use std::time::Clock;
use test_tables::{Case, cases};
use wanted::verdict;

/// How the cases of a table are run.
#[derive(Clone, Copy)]
enum Table {
    /// The tokens of texts.
    Tokens,
    /// One command, with these words where the case has none.
    Command(&'static str),
    /// Runs whose code is the compiler's choice: of the trace the items are compared, and the whole output is audited.
    Messages,
    /// Runs whose reads and writes fail in turn.
    Failing,
    /// Runs beside device threads.
    Live,
    /// Such runs into a sink that is slow at times.
    Slow,
    /// Such runs with a gate that holds the core and a device.
    Held,
    /// Such runs with a gate that holds each device until all of them run.
    Meeting,
    /// Runs of two cores beside each other.
    Pairs,
    /// Many runs as one.
    Soaks,
}

/// What is told of a case: `ok`, or what differs.
fn case_difference<R: Threads + Clock + Sync>(
    rt: &R,
    alloc: Global,
    table: Table,
    case: &Case,
) -> Result<&'static str> {
    match table {
        Table::Tokens => tokens::verdict(alloc, case),
        Table::Command(words) => verdict(rt, alloc, words, case),
        Table::Messages => messages::verdict(rt, alloc, case),
        Table::Failing => failing::verdict(rt, alloc, case),
        Table::Live => live::verdict(rt, alloc, case),
        Table::Slow => slow::verdict(rt, alloc, case),
        Table::Held => held::verdict(rt, alloc, case),
        Table::Meeting => meeting::verdict(rt, alloc, case),
        Table::Pairs => pairs::verdict(rt, alloc, case),
        Table::Soaks => soaks::verdict(rt, alloc, case),
    }
}

/// Prints the line of a case.
fn print_case<R: Threads + Clock + Sync + Print + AllocGlobal>(
    rt: &R,
    table: Table,
    case: &Case,
) -> Result<()> {
    let told = case_difference(rt, rt.alloc(), table, case)?;
    println!(rt; "{}: {told}", case.name())?;
    Ok(())
}

/// Prints a line for each case of a file.
fn run<R: Threads + Clock + Sync + Files + Print + AllocGlobal>(
    rt: &R,
    file: &str,
    table: Table,
) -> Result<()> {
    let text = fs::read_to_string(rt, file)?;
    for case in &cases(rt.alloc(), text.as_str())? {
        print_case(rt, table, case)?;
    }
    Ok(())
}

/// How the cases of a table are run that stand for many texts each.
#[derive(Clone, Copy)]
enum Sweep {
    /// A text that is cut behind each byte.
    Cuts,
    /// A trace without each of its lines.
    Lines,
    /// Demonstration applications.
    Demos,
    /// The cases of another table, by a call that the program does not make.
    Calls,
}

/// The first of a case's texts that is not as it is to be, by its number.
fn wrong<R: Threads + Sync + Files + AllocGlobal>(
    rt: &R,
    alloc: Global,
    sweep: Sweep,
    case: &Case,
) -> Result<Option<u32>> {
    match sweep {
        Sweep::Cuts => cuts::wrong_cut(rt, alloc, case),
        Sweep::Lines => cuts::wrong_line(rt, alloc, case),
        Sweep::Demos => demos::wrong(rt, alloc, case),
        Sweep::Calls => calls::wrong(rt, alloc, case),
    }
}

/// Prints the line of a case that stands for many texts.
fn print_sweep<R: Threads + Sync + Files + Print + AllocGlobal>(
    rt: &R,
    sweep: Sweep,
    case: &Case,
) -> Result<()> {
    match wrong(rt, rt.alloc(), sweep, case)? {
        None => println!(rt; "{}: ok", case.name())?,
        Some(number) => println!(rt; "{}: {number} differs", case.name())?,
    }
    Ok(())
}

/// Prints a line for each case of a file whose cases stand for many texts each.
fn run_sweep<R: Threads + Sync + Files + Print + AllocGlobal>(
    rt: &R,
    file: &str,
    sweep: Sweep,
) -> Result<()> {
    let text = fs::read_to_string(rt, file)?;
    for case in &cases(rt.alloc(), text.as_str())? {
        print_sweep(rt, sweep, case)?;
    }
    Ok(())
}

/// Runs the tables of single commands, and of applications with messages.
fn run_commands<R: Threads + Clock + Sync + Files + Print + AllocGlobal>(rt: &R) -> Result<()> {
    run(rt, "tokens", Table::Tokens)?;
    run(rt, "canonical", Table::Command("fmt app"))?;
    run(rt, "syntax", Table::Command("fmt app"))?;
    run(rt, "limits", Table::Command("fmt app"))?;
    run(rt, "reports", Table::Command("check app"))?;
    run(rt, "refusals", Table::Command("check app"))?;
    run(rt, "runs", Table::Command("run app script"))?;
    run(rt, "builds", Table::Command("build app"))?;
    run(rt, "messages", Table::Messages)
}

/// Runs the tables of device threads, of worker threads, and of large input.
fn run_threads<R: Threads + Clock + Sync + Files + Print + AllocGlobal>(rt: &R) -> Result<()> {
    run(rt, "alone", Table::Command("live app script"))?;
    run(rt, "live", Table::Live)?;
    run(rt, "slow", Table::Slow)?;
    run(rt, "held", Table::Held)?;
    run(rt, "meetings", Table::Meeting)?;
    run(rt, "pairs", Table::Pairs)?;
    run(rt, "soaks", Table::Soaks)?;
    run_sweep(rt, "demos", Sweep::Demos)
}

fn main(rt: HostRuntime) -> Result<()> {
    run_commands(&rt)?;
    run_threads(&rt)?;
    run(&rt, "failing", Table::Failing)?;
    run(&rt, "scripts", Table::Command("run app script"))?;
    run(&rt, "audits", Table::Command("audit app trace"))?;
    run(&rt, "listings", Table::Command("verify image"))?;
    run_sweep(&rt, "cuts", Sweep::Cuts)?;
    run_sweep(&rt, "lines", Sweep::Lines)?;
    run_sweep(&rt, "calls", Sweep::Calls)?;
    run(&rt, "commands", Table::Command(""))
}
