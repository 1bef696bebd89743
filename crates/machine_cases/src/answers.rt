// Compares the tables of a program with what a case says.

use crate::names::irq_of;
use crate::part::text;
use anyhow::{Context, Result};
use rt_ids::{ResId, TaskId};
use rt_image_tables::Program;
use std::alloc::{AllocError, Global};
use std::fmt::Debug;
use test_tables::Case;

/// Writes an answer.
fn tell_one<T: Debug>(told: &mut String, answer: &T) -> Result<(), AllocError> {
    writeln!(told, "{answer:?}")
}

/// Writes what a program answers to a question of a word and a number. None where it is none.
fn tell_answer(
    program: &Program,
    question: &str,
    number: &str,
    told: &mut String,
) -> Option<Result<(), AllocError>> {
    Some(match question {
        "handler" => tell_one(told, &program.handler(irq_of(number)?)),
        "resource" => tell_one(
            told,
            &program.resource_cell(ResId(number.parse::<u8>().ok()?)),
        ),
        "arguments" => tell_one(
            told,
            &program.argument_count(TaskId(number.parse::<u8>().ok()?)),
        ),
        "line" => tell_one(told, &program.line(number.parse::<u32>().ok()?)),
        "body" => tell_one(told, &program.body(number.parse::<u32>().ok()?)),
        _ => return None,
    })
}

/// Writes the question of a line, and what a program answers to it.
fn tell(program: &Program, line: &str, told: &mut String) -> Result<()> {
    let (question, rest) = line.split_once(' ').context("no question")?;
    let (number, _answer) = rest.split_once(' ').context("no number")?;
    write!(told, "{question} {number} ")?;
    tell_answer(program, question, number, told).context("no such question")??;
    Ok(())
}

/// Writes the questions of some lines, each with what a program answers to it.
fn tell_all(program: &Program, lines: &str, told: &mut String) -> Result<()> {
    for line in lines.lines() {
        tell(program, line, told)?;
    }
    Ok(())
}

/// Whether a program answers the questions of a case as the case says.
pub fn answers_as_said(alloc: Global, program: &Program, case: &Case) -> Result<bool> {
    let lines = text(case, "answers")?;
    let mut told = String::new(alloc);
    tell_all(program, lines, &mut told)?;
    Ok(told.as_str() == lines)
}
