// A row of an image: the name of a cell of memory, and its first value.

use crate::name::Name;

/// A cell of the memory that code reads and writes by `load` and `store`: its name, and its value after reset.
#[derive(Drop)]
pub struct CellRow {
    pub name: Name,
    pub first: u32,
}
