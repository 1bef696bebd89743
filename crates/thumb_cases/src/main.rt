// Holds the encodings of instructions to those of GNU's assembler and disassembler, which bench/thumb.py writes into
// data/instructions: each row's halfwords are decoded, the instruction is printed and encoded again. Prints a line for
// each form of instruction: its name, and `ok` or the first row that differs.
// Promises: nothing: it is a program of tests.
// Stands on: test_tables, rt_thumb.
// Read next: src/row.rt, then data.
#![tactic(auto)]

mod row;
mod text;

use anyhow::Result;
use row::{is_none, is_row};
use std::alloc::{AllocError, Global};
use std::fs;
use std::rt::Files;
use test_tables::{Case, cases};

/// The first line of a case's rows that does not come out as it says.
fn wrong_row<'a>(alloc: Global, case: &'a Case) -> Result<Option<&'a str>, AllocError> {
    for line in case.text("row").unwrap_or("").lines() {
        if !is_row(alloc, line)? {
            return Ok(Some(line));
        }
    }
    Ok(None)
}

/// The first line of a case's other instructions that is decoded.
fn wrong_none(case: &Case) -> Option<&str> {
    case.text("none")
        .unwrap_or("")
        .lines()
        .find(|line| !is_none(line))
}

/// What is told of a case.
fn told<'a>(alloc: Global, case: &'a Case) -> Result<&'a str, AllocError> {
    let wrong = wrong_row(alloc, case)?;
    Ok(wrong.or_else(|| wrong_none(case)).unwrap_or("ok"))
}

fn main(rt: HostRuntime) -> Result<()> {
    let file = fs::read_to_string(&rt, "instructions")?;
    let found = cases(rt.alloc(), file.as_str())?;
    for case in &found {
        let told = told(rt.alloc(), case)?;
        println!(rt; "{}: {told}", case.name())?;
    }
    Ok(())
}
