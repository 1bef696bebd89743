// The symbols of a program.

ghost use Rattle.std.specs.Prelude.{◌≡◌, [], ◌∷◌, ◌++◌, map, IfOk, OnOk};
ghost use Rattle.rt_ids.specs.Naming.{task_name as name_of};
ghost use Rattle.rt_native.specs.Inside.Laid.{laid_out};
ghost use Rattle.rt_native.specs.Symbols as spec;

use crate::layout::Layout;
use crate::sequence::place_of;
use crate::target::Target;
use rt_code::{BodyRow, Handler, Image, IrqRow};
use rt_elf::{Kind, Part, Symbol};
use rt_ids::{CellRow, Name, Names, NoMemory, TaskId, push_bytes};
use std::alloc::Global;

/// A byte of a name, as a symbol has it.
fn symbol_byte(byte: u8) -> u8
    ensures { result ≡ spec.symbol_byte byte }
{
    if byte == b'.' { b'_' } else { byte }
}

/// Appends the bytes of a name, as a symbol has them.
pub(crate) fn push_name(out: &mut Vec<u8>, name: &[u8]) -> Result<(), NoMemory>
    ensures { OnOk result (out.new.items ≡ out.old.items ++ map spec.symbol_byte name.now) }
{
    for byte in name {
        push_bytes(out, &[symbol_byte(*byte)])?;
    }
    Ok(())
}

/// The name of a symbol.
fn symbol_name(alloc: Global, front: &[u8], name: &[u8]) -> Result<Name, NoMemory>
    ensures { IfOk result (λ made. made ≡ front.now ++ map spec.symbol_byte name.now) }
{
    let mut bytes = Vec::new(alloc);
    push_bytes(&mut bytes, front)?;
    push_name(&mut bytes, name)?;
    Name::of(alloc, &bytes)
}

/// The part of an executable that what a symbol names lies in, and its bytes.
fn part_of(kind: Kind) -> (Part, u32)
    ensures part { result.0 ≡ spec.part_of kind }
    ensures size { result.1 ≡ spec.size_of kind }
{
    match kind {
        Kind::Object => (Part::Data, 4),
        Kind::Function | Kind::Mark => (Part::Text, 0),
    }
}

/// A symbol of a name.
fn symbol(
    alloc: Global,
    front: &[u8],
    name: &[u8],
    value: u32,
    kind: Kind,
) -> Result<Symbol, NoMemory>
    ensures { IfOk result (λ made. made ≡ spec.symbol front.now name.now value kind) }
{
    let (part, size) = part_of(kind);
    Ok(Symbol {
        name: symbol_name(alloc, front, name)?,
        value,
        size,
        kind,
        part,
    })
}

/// Appends a symbol of a name.
fn push_symbol(
    alloc: Global,
    out: &mut Vec<Symbol>,
    front: &[u8],
    name: &[u8],
    value: u32,
    kind: Kind,
) -> Result<(), NoMemory>
    ensures { OnOk result (out.new.items ≡ out.old.items ++ spec.symbol front.now name.now value kind ∷ []) }
{
    out.push(symbol(alloc, front, name, value, kind)?)?;
    Ok(())
}

/// Appends the symbol of code at a place.
fn push_function(
    alloc: Global,
    out: &mut Vec<Symbol>,
    front: &[u8],
    name: &[u8],
    place: u32,
) -> Result<(), NoMemory>
    ensures { OnOk result (out.new.items ≡ out.old.items ++ spec.function front.now name.now place ∷ []) }
{
    push_symbol(
        alloc,
        out,
        front,
        name,
        place.wrapping_add(1),
        Kind::Function,
    )
}

/// The marks of where data and where instructions begin.
pub(crate) fn marks(
    alloc: Global,
    image: &Image,
    target: &Target,
    layout: &Layout,
) -> Result<Vec<Symbol>, NoMemory>
    requires { layout.now ≡ laid_out image.now target.now }
    ensures { IfOk result (λ marks. marks.items ≡ spec.marks image.now target.now) }
{
    let mut out = Vec::new(alloc);
    push_symbol(
        alloc,
        &mut out,
        b"$d",
        b"",
        target.flash.address,
        Kind::Mark,
    )?;
    push_symbol(alloc, &mut out, b"$t", b"", layout.fault, Kind::Mark)?;
    Ok(out)
}

/// The symbols of a program.
pub(crate) fn symbols(
    alloc: Global,
    image: &Image,
    target: &Target,
    layout: &Layout,
) -> Result<Vec<Symbol>, NoMemory>
    requires { layout.now ≡ laid_out image.now target.now }
    ensures { IfOk result (λ symbols. symbols.items ≡ spec.symbols image.now target.now) }
{
    let mut out = Vec::new(alloc);
    push_function(alloc, &mut out, b"fault", b"", layout.fault)?;
    push_function(alloc, &mut out, b"tick", b"", layout.tick)?;
    push_function(alloc, &mut out, b"reset", b"", layout.reset)?;
    push_function(alloc, &mut out, b"init", b"", place_of(&layout.places, 0))?;
    push_handlers(alloc, &mut out, &image.irqs, &layout.stubs)?;
    push_bodies(alloc, &mut out, &image.bodies, &image.names, &layout.places)?;
    push_cells(alloc, &mut out, &image.cells, layout.outside.cells)?;
    let time = layout.outside.time;
    push_symbol(alloc, &mut out, b"time", b"", time, Kind::Object)?;
    push_symbol(
        alloc,
        &mut out,
        b"alarm",
        b"",
        time.wrapping_add(4),
        Kind::Object,
    )?;
    Ok(out)
}

/// Appends the symbol of an interrupt, where it is enabled.
fn push_handler(
    alloc: Global,
    out: &mut Vec<Symbol>,
    name: &[u8],
    place: u32,
    handler: Option<Handler>,
) -> Result<(), NoMemory>
    ensures { OnOk result (out.new.items ≡ out.old.items ++ spec.handler_symbol name.now place handler) }
{
    match handler {
        Some(_) => push_function(alloc, out, b"handler_", name, place),
        None => Ok(()),
    }
}

/// Appends the symbols of enabled interrupts.
fn push_handlers(
    alloc: Global,
    out: &mut Vec<Symbol>,
    rows: &[IrqRow],
    stubs: &[u32],
) -> Result<(), NoMemory>
    ensures { OnOk result (out.new.items ≡ out.old.items ++ spec.handler_symbols stubs.now 0 rows.now) }
{
    for (index, row) in rows.iter().enumerate() {
        let place = place_of(stubs, index);
        push_handler(alloc, out, row.name.bytes(), place, row.handler)?;
    }
    Ok(())
}

/// The name of a task.
fn task_name(names: &Names, task: TaskId) -> &[u8]
    ensures { result.now ≡ name_of names.now task }
{
    names.task_at(task).unwrap_or(b"")
}

/// Appends the symbols of the bodies of software tasks.
fn push_bodies(
    alloc: Global,
    out: &mut Vec<Symbol>,
    rows: &[BodyRow],
    names: &Names,
    places: &[u32],
) -> Result<(), NoMemory>
    ensures { OnOk result (out.new.items ≡ out.old.items ++ map (spec.body_symbol names.now places.now) rows.now) }
{
    for row in rows {
        let place = place_of(places, row.entry as usize);
        push_function(alloc, out, b"body_", task_name(names, row.task), place)?;
    }
    Ok(())
}

/// Appends the symbols of cells, the first of which has an address.
fn push_cells(
    alloc: Global,
    out: &mut Vec<Symbol>,
    cells: &[CellRow],
    address: u32,
) -> Result<(), NoMemory>
    ensures { OnOk result (out.new.items ≡ out.old.items ++ spec.cell_symbols address cells.now) }
{
    let mut address = address;
    for cell in cells {
        push_symbol(
            alloc,
            out,
            b"cell_",
            cell.name.bytes(),
            address,
            Kind::Object,
        )?;
        address = address.wrapping_add(4);
    }
    Ok(())
}
