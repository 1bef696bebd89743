// Copies an image.

ghost use Rattle.std.specs.Prelude.{◌≡◌, IfOk};

use rt_code::{Image, IrqRow};
use rt_ids::{CellRow, Name, NoMemory};
use std::alloc::Global;

/// These cells.
fn cells(alloc: Global, from: &[CellRow]) -> Result<Vec<CellRow>, NoMemory>
    ensures { IfOk result (λ copies. copies.items ≡ from.now) }
{
    let mut copies = Vec::new(alloc);
    for cell in from {
        copies.push(CellRow {
            name: Name::of(alloc, cell.name.bytes())?,
            first: cell.first,
        })?;
    }
    Ok(copies)
}

/// These rows of interrupts.
fn irq_rows(alloc: Global, from: &[IrqRow]) -> Result<Vec<IrqRow>, NoMemory>
    ensures { IfOk result (λ copies. copies.items ≡ from.now) }
{
    let mut copies = Vec::new(alloc);
    for row in from {
        copies.push(IrqRow {
            name: Name::of(alloc, row.name.bytes())?,
            number: row.number,
            handler: row.handler,
        })?;
    }
    Ok(copies)
}

/// An image that is the same.
pub(crate) fn image(alloc: Global, from: &Image) -> Result<Image, NoMemory>
    ensures { IfOk result (λ copy. copy ≡ from.now) }
{
    let cells = cells(alloc, &from.cells)?;
    let irqs = irq_rows(alloc, &from.irqs)?;
    let bodies = Vec::from_slice(alloc, &from.bodies)?;
    let code = Vec::from_slice(alloc, &from.code)?;
    let names = from.names.copy(alloc)?;
    Ok(Image {
        bits: from.bits,
        fpu: from.fpu,
        stack_bytes: from.stack_bytes,
        thread_words: from.thread_words,
        cells,
        irqs,
        bodies,
        code,
        names,
    })
}
