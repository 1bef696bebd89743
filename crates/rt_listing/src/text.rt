// The one public call: the listing of an image.

ghost use Rattle.std.specs.Prelude.{◌≡◌, [], ◌∷◌, ◌++◌, codes, flat_map, All, IfOk, OnOk};
ghost use Rattle.rt_listing.specs.Listing.{form_word, first_line, sizes_line, lines_with_numbers, cell_line, irq_line};
ghost use Rattle.rt_listing.specs.Listing.{body_line};
ghost use Rattle.rt_listing.specs.Listing.{code_line};
ghost use Rattle.rt_listing.specs.Listing as spec;
ghost use Rattle.rt_listing.specs.Numbers.{AreShort, HasTypedNumbers};
ghost use Rattle.rt_listing.specs.Short.{IsShortCell, IsShortIrq, IsShortBody, HasShortInstr, HasShortNote};
ghost use Rattle.rt_listing.specs.Short.{IsWordCell, HasWordInstr, HasLevelNote};

use crate::line::{push_count, push_instr, push_note, push_spaced};
use crate::names::task_name;
use rt_code::{BodyRow, Image, IrqRow, Line};
use rt_ids::{CellRow, Names, NoMemory, push_bytes};
use std::alloc::Global;

/// The text of an image.
pub fn listing(alloc: Global, image: &Image) -> Result<Vec<u8>, NoMemory>
    ensures text { IfOk result (λ text. text.items ≡ spec.listing image.now) }
    ensures numbers { IfOk result (λ _. HasTypedNumbers image.now) }
{
    let mut out = Vec::new(alloc);
    push_sizes(&mut out, image)?;
    push_cells(&mut out, &image.cells)?;
    push_irqs(&mut out, &image.irqs)?;
    push_bodies(&mut out, &image.bodies, &image.names)?;
    push_code(&mut out, &image.code, &image.names)?;
    Ok(out)
}

/// The form of a listing, which says whether the core has the floating-point extension.
fn form(fpu: bool) -> &'static [u8]
    ensures { result.now ≡ codes "image" ++ 32 ∷ form_word fpu }
{
    if fpu { b"image 2" } else { b"image 1" }
}

/// Appends the line of an image's sizes.
fn push_sizes(out: &mut Vec<u8>, image: &Image) -> Result<(), NoMemory>
    ensures text { OnOk result (out.new.items ≡ out.old.items ++ sizes_line image.now) }
    ensures short { OnOk result (AreShort (image.now.bits ∷ image.now.stack_bytes ∷ image.now.thread_words ∷ [])) }
{
    push_first_line(out, image, image.code.len(), image.cells.len())
}

/// Appends the first line of the listing of an image that will have so many instructions and cells.
pub fn push_first_line(
    out: &mut Vec<u8>,
    image: &Image,
    code: usize,
    cells: usize,
) -> Result<(), NoMemory>
    ensures text { OnOk result (out.new.items ≡ out.old.items ++ first_line image.now code cells) }
    ensures short { OnOk result (AreShort (image.now.bits ∷ image.now.stack_bytes ∷ image.now.thread_words ∷ [])) }
{
    push_bytes(out, form(image.fpu))?;
    push_spaced(out, u32::from(image.bits))?;
    push_spaced(out, image.stack_bytes)?;
    push_spaced(out, image.thread_words)?;
    push_count(out, code)?;
    push_count(out, cells)?;
    push_bytes(out, b"\n")
}

/// Appends a line for each cell, by number.
fn push_cells(out: &mut Vec<u8>, cells: &[CellRow]) -> Result<(), NoMemory>
    ensures text { OnOk result (out.new.items ≡ out.old.items ++ lines_with_numbers cell_line 0 cells.now) }
    ensures short { OnOk result (All IsShortCell cells.now) }
    ensures words { OnOk result (All IsWordCell cells.now) }
{
    for (number, cell) in cells.iter().enumerate() {
        push_cell(out, number, cell)?;
    }
    Ok(())
}

/// Appends the line of the cell of a number.
pub fn push_cell(out: &mut Vec<u8>, number: usize, cell: &CellRow) -> Result<(), NoMemory>
    ensures text { OnOk result (out.new.items ≡ out.old.items ++ cell_line number cell.now) }
    ensures short { OnOk result (IsShortCell cell.now) }
    ensures word { OnOk result (IsWordCell cell.now) }
{
    push_bytes(out, b"cell")?;
    push_count(out, number)?;
    push_spaced(out, cell.first)?;
    push_bytes(out, b" ")?;
    push_bytes(out, cell.name.bytes())?;
    push_bytes(out, b"\n")
}

/// Appends a line for each declared interrupt.
fn push_irqs(out: &mut Vec<u8>, irqs: &[IrqRow]) -> Result<(), NoMemory>
    ensures text { OnOk result (out.new.items ≡ out.old.items ++ flat_map irq_line irqs.now) }
    ensures short { OnOk result (All IsShortIrq irqs.now) }
{
    for row in irqs {
        push_irq(out, row)?;
    }
    Ok(())
}

/// Appends the line of a declared interrupt.
pub fn push_irq(out: &mut Vec<u8>, row: &IrqRow) -> Result<(), NoMemory>
    ensures text { OnOk result (out.new.items ≡ out.old.items ++ irq_line row.now) }
    ensures short { OnOk result (IsShortIrq row.now) }
{
    push_bytes(out, b"irq ")?;
    push_bytes(out, row.name.bytes())?;
    push_spaced(out, u32::from(row.number.get()))?;
    match row.handler {
        Some(handler) => {
            push_spaced(out, u32::from(handler.value))?;
            push_spaced(out, handler.entry)?;
            push_spaced(out, handler.frame)?;
        }
        None => push_bytes(out, b" -")?,
    }
    push_bytes(out, b"\n")
}

/// Appends a line for each body of a software task.
fn push_bodies(out: &mut Vec<u8>, bodies: &[BodyRow], names: &Names) -> Result<(), NoMemory>
    ensures text { OnOk result (out.new.items ≡ out.old.items ++ flat_map (body_line names.now) bodies.now) }
    ensures short { OnOk result (All IsShortBody bodies.now) }
{
    for row in bodies {
        push_body(out, *row, names)?;
    }
    Ok(())
}

/// Appends the line of a body of a software task.
pub fn push_body(out: &mut Vec<u8>, row: BodyRow, names: &Names) -> Result<(), NoMemory>
    ensures text { OnOk result (out.new.items ≡ out.old.items ++ body_line names.now row) }
    ensures short { IsShortBody row }
{
    push_bytes(out, b"body ")?;
    push_bytes(out, task_name(names, row.task))?;
    push_spaced(out, row.entry)?;
    push_spaced(out, row.frame)?;
    push_spaced(out, u32::from(row.args))?;
    push_bytes(out, b"\n")
}

/// Appends a line for each instruction with its note, by address.
fn push_code(out: &mut Vec<u8>, code: &[Line], names: &Names) -> Result<(), NoMemory>
    ensures text { OnOk result (out.new.items ≡ out.old.items ++ lines_with_numbers (code_line names.now) 0 code.now) }
    ensures instrs_short { OnOk result (All HasShortInstr code.now) }
    ensures notes_short { OnOk result (All HasShortNote code.now) }
    ensures instrs_words { OnOk result (All HasWordInstr code.now) }
    ensures notes_levels { OnOk result (All HasLevelNote code.now) }
{
    for (address, line) in code.iter().enumerate() {
        push_line(out, address, *line, names)?;
    }
    Ok(())
}

/// Appends the line of the instruction at an address, with its note.
fn push_line(out: &mut Vec<u8>, address: usize, line: Line, names: &Names) -> Result<(), NoMemory>
    ensures text { OnOk result (out.new.items ≡ out.old.items ++ code_line names.now address line) }
    ensures instr_short { HasShortInstr line }
    ensures note_short { HasShortNote line }
    ensures instr_words { HasWordInstr line }
    ensures note_level { HasLevelNote line }
{
    push_bytes(out, b"code")?;
    push_count(out, address)?;
    push_instr(out, line.0, names)?;
    push_note(out, line.1, names)?;
    push_bytes(out, b"\n")
}
