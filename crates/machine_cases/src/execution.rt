// Executes the one instruction of a case.

use crate::code::read_instr;
use crate::held::Held;
use crate::names::add_irq;
use crate::part::text;
use anyhow::{Context, Result};
use rt_code::{Instr, Registers, execute};
use rt_ids::{Irq, Names};
use std::alloc::{AllocError, Global};
use test_tables::Case;

/// The time at which instructions are executed.
const TIME: u32 = 1_234;

/// What an instruction does at the address 5, with BASEPRI 32, on three slots and two cells.
fn run(alloc: Global, instr: Instr, primask: bool) -> Result<String, AllocError> {
    let mut registers = Registers {
        address: 5,
        basepri: 32,
        primask,
    };
    let mut slots = [2, 0, 1];
    let mut cells = [40, 41];
    let answer = execute(instr, TIME, &mut registers, &mut slots, &mut cells);
    let trap = answer.err().map_or(0, |trap| trap.number());
    format!(in alloc;
        "{answer:?} trap {trap} address {} basepri {} primask {} slots {slots:?} cells {cells:?}\n",
        registers.address, registers.basepri, registers.primask
    )
}

/// The instruction of a case, over names that are yet to be declared: that of an interrupt.
fn instr_over(alloc: Global, names: &mut Names, case: &Case) -> Result<Instr> {
    let irq = Irq::new(7).context("no interrupt 7")?;
    add_irq(alloc, names, b"A", irq)?;
    read_instr(alloc, names, text(case, "instruction")?)
}

/// The instruction of a case.
fn case_instr(alloc: Global, case: &Case) -> Result<Instr> {
    let mut names = Held {
        value: Names::new(alloc),
    };
    instr_over(alloc, &mut names.value, case)
}

/// What the instruction of a case does, from the PRIMASK that the case says.
pub fn execution_text(alloc: Global, case: &Case) -> Result<String> {
    let instr = case_instr(alloc, case)?;
    let primask = case.bytes("primask") == b"1\n".as_slice();
    Ok(run(alloc, instr, primask)?)
}
