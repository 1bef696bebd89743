// Tests of what commands do not show: sources and sinks with each call that fails, the bounds of types, and pending
// words and mailboxes in threads. Cases stand in data/, and each has a line: its name, and `ok` or what differs. What
// the bounds are, and what became of pends and of words, is printed itself.
// Promises: nothing: it is a program of tests.
// Stands on: test_tables, rt_ids, rt_outside, rt_words, rt_values.
// Read next: data.
#![tactic(auto)]

mod bounds;
mod part;
mod sinks;
mod sources;
mod values;
mod words;

use anyhow::{Result, bail};
use rt_outside::{OutSink, put_all};
use std::fs;
use std::rt::Files;
use test_tables::{Case, cases};

/// A table of cases.
#[derive(Clone, Copy)]
enum Table {
    /// Sources in memory, with calls of them.
    Sources,
    /// Sources that never fail.
    NeverFails,
    /// Files as sources.
    Files,
    /// Sinks, with calls of them.
    Sinks,
}

impl Table {
    /// The file that has its cases.
    fn file(self) -> &'static str {
        match self {
            Table::Sources => "sources",
            Table::NeverFails => "never_fails",
            Table::Files => "files",
            Table::Sinks => "sinks",
        }
    }
}

/// Whether a case of a table comes out as it says.
fn is_as_said<R: Files + AllocGlobal>(rt: &R, table: Table, case: &Case) -> Result<bool> {
    match table {
        Table::Sources => sources::in_memory(rt.alloc(), case),
        Table::NeverFails => sources::never_fails(rt.alloc(), case),
        Table::Files => sources::file(rt, rt.alloc(), case),
        Table::Sinks => sinks::in_memory(rt.alloc(), case),
    }
}

/// Prints the line of a case of a table.
fn print_case<R: Files + Print + AllocGlobal>(rt: &R, table: Table, case: &Case) -> Result<()> {
    let told = if is_as_said(rt, table, case)? {
        "ok"
    } else {
        "it gives something else"
    };
    println!(rt; "{}: {told}", case.name())?;
    Ok(())
}

/// Prints a line for each case of a table.
fn print_all<R: Files + Print + AllocGlobal>(rt: &R, table: Table, cases: &[Case]) -> Result<()> {
    for case in cases {
        print_case(rt, table, case)?;
    }
    Ok(())
}

/// Prints a line for each case of the text of a table.
fn run<R: Files + Print + AllocGlobal>(rt: &R, table: Table, text: &str) -> Result<()> {
    let found = cases(rt.alloc(), text)?;
    print_all(rt, table, &found)
}

/// Prints a line for each case of the file of a table.
fn run_file<R: Files + Print + AllocGlobal>(rt: &R, table: Table) -> Result<()> {
    let text = fs::read_to_string(rt, table.file())?;
    run(rt, table, text.as_str())
}

/// Prints a line through a sink.
fn print_through_sink(rt: &impl Print) -> Result<()> {
    match put_all(&mut OutSink::of(rt), b"0 came 3\n") {
        Ok(()) => Ok(()),
        Err(_failed) => bail!("the sink failed"),
    }
}

fn main(rt: HostRuntime) -> Result<()> {
    run_file(&rt, Table::Sources)?;
    run_file(&rt, Table::NeverFails)?;
    run_file(&rt, Table::Files)?;
    run_file(&rt, Table::Sinks)?;
    print_through_sink(&rt)?;
    bounds::print_bounds(&rt)?;
    words::print_pends(&rt)?;
    values::print_words(&rt)
}
