// The cells of resources.

ghost use Rattle.std.specs.Prelude.{◌≡◌, ◌∷◌, ◌++◌, [], map, OnOk};
ghost use Rattle.rt_layout.specs.Inside.Rows.{resource_row, local_row};

use crate::row::push_cell;
use rt_app::{Local, Shared};
use rt_ids::{CellRow, NoMemory, push_bytes};
use std::alloc::Global;

/// Appends the cells of resources.
pub(crate) fn push_resources(
    alloc: Global,
    cells: &mut Vec<CellRow>,
    shared: &[Shared],
) -> Result<(), NoMemory>
    ensures { OnOk result (cells.new.items ≡ cells.old.items ++ map resource_row shared.now) }
{
    for resource in shared {
        push_cell(alloc, cells, resource.name.bytes(), resource.first)?;
    }
    Ok(())
}

/// Appends the cell of a local resource.
fn push_local(alloc: Global, cells: &mut Vec<CellRow>, local: &Local) -> Result<(), NoMemory>
    ensures { OnOk result (cells.new.items ≡ cells.old.items ++ local_row local.now ∷ []) }
{
    let mut name = Vec::from_slice(alloc, b"local.")?;
    push_bytes(&mut name, local.name.bytes())?;
    push_cell(alloc, cells, &name, local.first)
}

/// Appends the cells of local resources.
pub(crate) fn push_locals(
    alloc: Global,
    cells: &mut Vec<CellRow>,
    locals: &[Local],
) -> Result<(), NoMemory>
    ensures { OnOk result (cells.new.items ≡ cells.old.items ++ map local_row locals.now) }
{
    for local in locals {
        push_local(alloc, cells, local)?;
    }
    Ok(())
}
