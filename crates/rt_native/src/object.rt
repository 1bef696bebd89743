// The object of an image, for a linker.

ghost use Rattle.std.specs.Prelude.{◌≡◌, ◌≢◌, ◌++◌, flat_map, map, IfOk, IfErr, OnOk};
ghost use Rattle.rt_native.specs.Fitting.{Reaches};
ghost use Rattle.rt_native.specs.Inside.Laid.{laid_out};
ghost use Rattle.rt_native.specs.Object as spec;
ghost use Rattle.rt_native.specs.Program.{text as text_of, values as values_of};

use crate::layout::Layout;
use crate::opening::calls_first;
use crate::pieces::leap;
use crate::program::{text, values};
use crate::sequence::place_of;
use crate::symbols::{marks, push_name, symbols};
use crate::target::{Target, Unfit};
use rt_code::{Image, IrqRow};
use rt_elf::{Kind, Object, Part, Symbol};
use rt_ids::{Irq, Name, NoMemory, push_bytes};
use std::alloc::Global;

/// What stands before the call of a function, in bytes.
const CALL_OFFSET: u32 = 6;

/// The value of a symbol of a part.
fn section_value(flash: u32, part: Part, value: u32) -> u32
    ensures { result ≡ spec.section_value flash part value }
{
    match part {
        Part::Text => leap(flash, value),
        _ => value,
    }
}

/// The part that a symbol lies in.
fn section_part(part: Part) -> Part
    ensures { result ≡ spec.section_part part }
{
    match part {
        Part::Data => Part::Absolute,
        other => other,
    }
}

/// A symbol becomes one of the object.
fn enter(flash: u32, symbol: &mut Symbol)
    ensures { symbol.new ≡ spec.in_section flash symbol.old }
{
    symbol.value = section_value(flash, symbol.part, symbol.value);
    symbol.part = section_part(symbol.part);
}

/// Symbols become those of the object.
fn enter_all(flash: u32, symbols: &mut [Symbol])
    ensures { symbols.new ≡ map (spec.in_section flash) symbols.old }
{
    for symbol in symbols.iter_mut() {
        enter(flash, symbol);
    }
}

/// The symbol of the function of an interrupt.
fn wanted(alloc: Global, name: &[u8]) -> Result<Symbol, NoMemory>
    ensures { IfOk result (λ made. made ≡ spec.wanted name.now) }
{
    let mut bytes = Vec::new(alloc);
    push_name(&mut bytes, name)?;
    push_bytes(&mut bytes, b"_in")?;
    Ok(Symbol {
        name: Name::of(alloc, &bytes)?,
        value: 0,
        size: 0,
        kind: Kind::Function,
        part: Part::Elsewhere,
    })
}

/// Appends the symbol of the function of a row, where one is called.
fn push_wanted(
    alloc: Global,
    out: &mut Vec<Symbol>,
    calls: &[Irq],
    row: &IrqRow,
) -> Result<(), NoMemory>
    ensures { OnOk result (out.new.items ≡ out.old.items ++ spec.row_wanted calls.now row.now) }
{
    if calls_first(calls, row.number, row.handler) {
        out.push(wanted(alloc, row.name.bytes())?)?;
    }
    Ok(())
}

/// The symbols of the functions of rows.
fn all_wanted(alloc: Global, calls: &[Irq], rows: &[IrqRow]) -> Result<Vec<Symbol>, NoMemory>
    ensures { IfOk result (λ symbols. symbols.items ≡ flat_map (spec.row_wanted calls.now) rows.now) }
{
    let mut out = Vec::new(alloc);
    for row in rows {
        push_wanted(alloc, &mut out, calls, row)?;
    }
    Ok(out)
}

/// Appends where the function of a row is called, whose code begins at a place.
#[tactic(auto, using(crate::proofs::Sizes::kept_bytes))]
fn push_call(out: &mut Vec<u32>, target: &Target, place: u32, row: &IrqRow) -> Result<(), NoMemory>
    ensures { OnOk result (out.new.items ≡ out.old.items ++ spec.row_call target.now place row.now) }
{
    if calls_first(&target.calls, row.number, row.handler) {
        let call = place.wrapping_add(CALL_OFFSET);
        out.push(leap(target.flash.address, call))?;
    }
    Ok(())
}

/// Where the functions of rows are called.
fn all_calls(
    alloc: Global,
    target: &Target,
    stubs: &[u32],
    rows: &[IrqRow],
) -> Result<Vec<u32>, NoMemory>
    ensures { IfOk result (λ calls. calls.items ≡ spec.row_calls target.now stubs.now 0 rows.now) }
{
    let mut out = Vec::new(alloc);
    for (index, row) in rows.iter().enumerate() {
        push_call(&mut out, target, place_of(stubs, index), row)?;
    }
    Ok(out)
}

/// The bytes of the section: those of code, and first values behind them.
fn section(alloc: Global, image: &Image, target: &Target, layout: &Layout) -> Result<Vec<u8>, Unfit>
    requires { layout.now ≡ laid_out image.now target.now }
    ensures ok { IfOk result (λ bytes. bytes.items ≡ text_of image.now target.now ++ values_of image.now) }
    ensures reaches { OnOk result (Reaches image.now target.now) }
    ensures unfit { IfErr result (λ why. why ≢ Unfit.NoMemory →
        (why ≡ Unfit.Reach) × (¬ Reaches image.now target.now)) }
{
    let mut bytes = text(alloc, image, target, layout)?;
    let first_values = values(alloc, image)?;
    push_bytes(&mut bytes, &first_values)?;
    Ok(bytes)
}

/// The symbols of the object that are local to it, and those that other files may name.
fn own_symbols(
    alloc: Global,
    image: &Image,
    target: &Target,
    layout: &Layout,
) -> Result<(Vec<Symbol>, Vec<Symbol>), NoMemory>
    requires { layout.now ≡ laid_out image.now target.now }
    ensures marks { IfOk result (λ both. both.0.items ≡ (spec.object image.now target.now).marks) }
    ensures symbols { IfOk result (λ both. both.1.items ≡ (spec.object image.now target.now).symbols) }
{
    let flash = target.flash.address;
    let mut local = marks(alloc, image, target, layout)?;
    enter_all(flash, &mut local);
    let mut global = symbols(alloc, image, target, layout)?;
    enter_all(flash, &mut global);
    Ok((local, global))
}

/// The object of an image that lies so.
pub(crate) fn object(
    alloc: Global,
    image: &Image,
    target: &Target,
    layout: &Layout,
) -> Result<Object, Unfit>
    requires { layout.now ≡ laid_out image.now target.now }
    ensures ok { IfOk result (λ made. made ≡ spec.object image.now target.now) }
    ensures reaches { OnOk result (Reaches image.now target.now) }
    ensures unfit { IfErr result (λ why. why ≢ Unfit.NoMemory →
        (why ≡ Unfit.Reach) × (¬ Reaches image.now target.now)) }
{
    let bytes = section(alloc, image, target, layout)?;
    let (marks, symbols) = own_symbols(alloc, image, target, layout)?;
    Ok(Object {
        bytes,
        marks,
        symbols,
        wanted: all_wanted(alloc, &target.calls, &image.irqs)?,
        calls: all_calls(alloc, target, &layout.stubs, &image.irqs)?,
    })
}
