// Runs the tables of cases of the machine that stand in data/, and of the texts of traces and scripts, and cases of the
// machine's parts by their calls. It prints a line for each case: its name, and `ok` or what differs. What cores are to
// show, and what texts are to be read as, comes from an independent implementation; what parts are to do, by hand.
// Promises: nothing: it is a program of tests.
// Stands on: test_tables, rt_ids, rt_code, rt_nvic, rt_stack, rt_context, rt_image_tables, rt_core, rt_trace,
// rt_listing, rt_script.
// Read next: src/checks.rt, then data.
#![tactic(auto)]

mod answers;
mod checks;
mod code;
mod execution;
mod frames;
mod held;
mod image;
mod instr;
mod interrupts;
mod names;
mod part;
mod play;
mod region;
mod texts;
mod values;

use anyhow::Result;
use checks::{Table, verdict};
use std::fs;
use std::rt::Files;
use test_tables::{Case, cases};

/// Prints the line of a case of a table.
fn print_case<R: Print + AllocGlobal>(rt: &R, table: Table, case: &Case) -> Result<()> {
    let told = verdict(rt.alloc(), table, case)?;
    println!(rt; "{}: {told}", case.name())?;
    Ok(())
}

/// Prints a line for each case of a table.
fn print_all<R: Print + AllocGlobal>(rt: &R, table: Table, cases: &[Case]) -> Result<()> {
    for case in cases {
        print_case(rt, table, case)?;
    }
    Ok(())
}

/// Prints a line for each case of the text of a table.
fn run<R: Print + AllocGlobal>(rt: &R, table: Table, text: &str) -> Result<()> {
    let found = cases(rt.alloc(), text)?;
    print_all(rt, table, &found)
}

/// Prints a line for each case of the file of a table.
fn run_file<R: Files + Print + AllocGlobal>(rt: &R, table: Table) -> Result<()> {
    let text = fs::read_to_string(rt, table.file())?;
    run(rt, table, text.as_str())
}

/// Prints a line for a case of a part: its name, and what is told of it.
fn print_told(rt: &impl Print, name: &str, told: &str) -> Result<()> {
    println!(rt; "{name}: {told}")?;
    Ok(())
}

/// Prints a line for each case of a part of the machine.
fn print_parts<R: Print + AllocGlobal>(rt: &R) -> Result<()> {
    print_told(
        rt,
        "the highest interrupt, then the lowest number",
        interrupts::order_difference()?,
    )?;
    print_told(
        rt,
        "a pend of an active interrupt",
        interrupts::active_difference()?,
    )?;
    print_told(
        rt,
        "frames of a region",
        region::region_difference(rt.alloc())?,
    )?;
    print_told(
        rt,
        "frames on each other",
        frames::frames_difference(rt.alloc())?,
    )?;
    print_told(
        rt,
        "up to four values of a message",
        values::values_difference(),
    )
}

fn main(rt: HostRuntime) -> Result<()> {
    run_file(&rt, Table::Cores)?;
    run_file(&rt, Table::Instructions)?;
    run_file(&rt, Table::Conditions)?;
    run_file(&rt, Table::Listings)?;
    run_file(&rt, Table::Programs)?;
    run_file(&rt, Table::Traces)?;
    run_file(&rt, Table::Scripts)?;
    print_parts(&rt)
}
