// Prints a row again, and compares it with the line.

ghost use Rattle.std.specs.Prelude.{◌≡◌, IfOk, bytes_eq};
ghost use Rattle.rt_lines.specs.Parts.{line_with_feed};
ghost use Rattle.rt_listing.specs.Listing as text;

use rt_code::{BodyRow, Image, IrqRow};
use rt_ids::{CellRow, Names, NoMemory};
use rt_listing::{push_body, push_cell, push_first_line, push_irq};
use std::alloc::Global;

/// Whether printed bytes are a line with its line feed.
fn is_line(printed: &[u8], line: &[u8]) -> bool
    ensures { result ≡ bytes_eq printed.now (line_with_feed line.now) }
{
    match printed.split_last() {
        Some((last, text)) => *last == b'\n' && text == line,
        None => false,
    }
}

/// Whether it is the first line of an image that will have so many instructions and cells.
pub fn is_first_line(
    alloc: Global,
    image: &Image,
    code: u32,
    cells: u32,
    line: &[u8],
) -> Result<bool, NoMemory>
    ensures { IfOk result (λ is. is ≡ bytes_eq (text.first_line image.now code cells) (line_with_feed line.now)) }
{
    let mut printed = Vec::new(alloc);
    push_first_line(&mut printed, image, code as usize, cells as usize)?;
    Ok(is_line(&printed, line))
}

/// Whether it is the line of the cell of a number.
pub fn is_cell_line(
    alloc: Global,
    number: usize,
    cell: &CellRow,
    line: &[u8],
) -> Result<bool, NoMemory>
    ensures { IfOk result (λ is. is ≡ bytes_eq (text.cell_line number cell.now) (line_with_feed line.now)) }
{
    let mut printed = Vec::new(alloc);
    push_cell(&mut printed, number, cell)?;
    Ok(is_line(&printed, line))
}

/// Whether it is the line of an interrupt.
pub fn is_irq_line(alloc: Global, row: &IrqRow, line: &[u8]) -> Result<bool, NoMemory>
    ensures { IfOk result (λ is. is ≡ bytes_eq (text.irq_line row.now) (line_with_feed line.now)) }
{
    let mut printed = Vec::new(alloc);
    push_irq(&mut printed, row)?;
    Ok(is_line(&printed, line))
}

/// Whether it is the line of a body.
pub fn is_body_line(
    alloc: Global,
    names: &Names,
    row: &BodyRow,
    line: &[u8],
) -> Result<bool, NoMemory>
    ensures { IfOk result (λ is. is ≡ bytes_eq (text.body_line names.now row.now) (line_with_feed line.now)) }
{
    let mut printed = Vec::new(alloc);
    push_body(&mut printed, *row, names)?;
    Ok(is_line(&printed, line))
}
