// Appends one named cell, or a numbered one.

ghost use Rattle.std.specs.Prelude.{◌≡◌, ◌∷◌, ◌++◌, [], decimal, OnOk};
ghost use Rattle.rt_layout.specs.Inside.Rows.{row};

use rt_ids::{CellRow, Name, NoMemory, push_number};
use std::alloc::Global;

/// Appends a cell of this name.
pub(crate) fn push_cell(
    alloc: Global,
    cells: &mut Vec<CellRow>,
    name: &[u8],
    first: u32,
) -> Result<(), NoMemory>
    ensures { OnOk result (cells.new.items ≡ cells.old.items ++ row name.now first ∷ []) }
{
    let name = Name::of(alloc, name)?;
    cells.push(CellRow { name, first })?;
    Ok(())
}

/// Appends a cell whose name ends in a number.
pub(crate) fn push_numbered(
    alloc: Global,
    cells: &mut Vec<CellRow>,
    front: &[u8],
    number: u32,
    first: u32,
) -> Result<(), NoMemory>
    ensures { OnOk result (cells.new.items ≡ cells.old.items ++ row (front.now ++ decimal number) first ∷ []) }
{
    let mut name = Vec::from_slice(alloc, front)?;
    push_number(&mut name, number)?;
    push_cell(alloc, cells, &name, first)
}
