// Makes the tables of a program.

ghost use Rattle.std.specs.Prelude.{◌≡◌, ◌==◌, IfOk, find, map};
ghost use Rattle.std.specs.Option.{option_copied};
ghost use Rattle.rt_ids.specs.declared.limits.TheConstants.{IRQ_NUMBERS};
ghost use Rattle.rt_image_tables.specs.declared.tables.TheConstants.{TASK_NUMBERS};
ghost use Rattle.rt_code.specs.Cells.{cell_named};
ghost use Rattle.rt_code.specs.Tables.{handler_in, arguments_in};
ghost use Rattle.rt_image_tables.specs.Inside.Found.{IsTable};

use rt_code::{BodyRow, Handler, IrqRow};
use rt_ids::limits::IRQ_NUMBERS;
use rt_ids::{CellRow, Names, NoMemory, ResId};
use std::alloc::Global;

/// Task numbers that there are: all those of 8 bits.
const TASK_NUMBERS: u16 = 256;

/// The first row of an interrupt's number.
fn irq_row(irqs: &[IrqRow], number: u16) -> Option<&IrqRow>
    ensures { option_copied result ≡ find (λ row. row.number == number) irqs.now }
{
    irqs.iter().find(|row| row.number.get() == number)
}

/// How the interrupt of a number is served, and None where it is not enabled.
fn handler(irqs: &[IrqRow], number: u16) -> Option<Handler>
    ensures { result ≡ handler_in irqs.now number }
{
    match irq_row(irqs, number) {
        Some(row) => row.handler,
        None => None,
    }
}

/// How each interrupt is served, by its number.
pub(crate) fn handlers(alloc: Global, irqs: &[IrqRow]) -> Result<Vec<Option<Handler>>, NoMemory>
    ensures { IfOk result (λ table. IsTable (handler_in irqs.now) IRQ_NUMBERS table.items) }
{
    let mut table = Vec::new(alloc);
    for number in 0..IRQ_NUMBERS {
        table.push(handler(irqs, number))?;
    }
    Ok(table)
}

/// The number of the first cell of a name.
fn named_cell(cells: &[CellRow], name: &[u8]) -> Option<usize>
    ensures { result ≡ cell_named cells.now name.now }
{
    cells.iter().position(|cell| cell.name.bytes() == name)
}

/// The number of the first cell of the name of each shared resource.
pub(crate) fn named_cells(
    alloc: Global,
    cells: &[CellRow],
    names: &Names,
) -> Result<Vec<Option<usize>>, NoMemory>
    ensures { IfOk result (λ table. table.items ≡ map (cell_named cells.now) names.now.shared) }
{
    let mut table = Vec::new(alloc);
    for index in 0..names.resource_count() as u8 {
        let Some(name) = names.resource_at(ResId(index)) else {
            unreachable!()
        };
        table.push(named_cell(cells, name))?;
    }
    Ok(table)
}

/// How many arguments the body of the task of a number takes, and 0 where it has none.
fn argument_count(bodies: &[BodyRow], task: u16) -> u8
    ensures { result ≡ arguments_in bodies.now task }
{
    bodies
        .iter()
        .find(|row| u16::from(row.task.0) == task)
        .map_or(0, |row| row.args)
}

/// How many arguments the body of each task takes, by the task's number.
pub(crate) fn argument_counts(alloc: Global, bodies: &[BodyRow]) -> Result<Vec<u8>, NoMemory>
    ensures { IfOk result (λ table. IsTable (arguments_in bodies.now) TASK_NUMBERS table.items) }
{
    let mut table = Vec::new(alloc);
    for task in 0..TASK_NUMBERS {
        table.push(argument_count(bodies, task))?;
    }
    Ok(table)
}
