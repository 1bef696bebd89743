// The program of an image: its vector table, its instructions and its first values, as bytes.

ghost use Rattle.std.specs.Prelude.{◌≡◌, ◌≢◌, ◌++◌, flat_map, position, replicate, All, IfOk, IfErr};
ghost use Rattle.std.specs.Prelude.{OnOk};
ghost use Rattle.rt_thumb.specs.Encoding.{encode as encoded};
ghost use Rattle.rt_thumb.specs.Instruction.{IsEncodable};
ghost use Rattle.rt_native.specs.Fitting.{Reaches};
ghost use Rattle.rt_native.specs.Inside.Laid.{laid_out};
ghost use Rattle.rt_native.specs.Program as spec;
ghost use Rattle.rt_native.specs.Service.{entrances_from};

use crate::layout::Layout;
use crate::opening::push_entrance;
use crate::outside::Outside;
use crate::sequence::{place_of, push_sequence};
use crate::service::{push_fault, push_reset, push_tick, timer_irq};
use crate::target::{Target, Unfit};
use rt_code::{Handler, Image, IrqRow};
use rt_elf::push_words;
use rt_ids::{Irq, NoMemory, push_bytes};
use rt_thumb::{Halfwords, Instruction, encode, is_encodable};
use std::alloc::Global;

/// Whether a row enables the interrupt of a number.
fn is_line(line: u32, irq: Irq, handler: Option<Handler>) -> bool
    ensures { result ≡ spec.is_line line irq handler }
{
    match handler {
        Some(_) => u32::from(irq.get()) == line,
        None => false,
    }
}

/// The index of the first row that enables the interrupt of a number.
fn row_of(rows: &[IrqRow], line: u32) -> Option<usize>
    ensures { result ≡ position (λ row. spec.is_line line row.number row.handler) rows.now }
{
    rows.iter()
        .position(|row| is_line(line, row.number, row.handler))
}

/// Where an external interrupt is served.
fn served_at(image: &Image, target: &Target, layout: &Layout, line: u32) -> u32
    requires { layout.now ≡ laid_out image.now target.now }
    ensures { result ≡ spec.served_at image.now target.now line }
{
    match row_of(&image.irqs, line) {
        Some(index) => place_of(&layout.stubs, index),
        None => layout.fault,
    }
}

/// Appends the vectors of exceptions 2 to 14.
fn push_faults(out: &mut Vec<u32>, vector: u32) -> Result<(), NoMemory>
    ensures { OnOk result (out.new.items ≡ out.old.items ++ replicate 13 vector) }
{
    for number in 0..13u32 {
        out.push(vector)?;
    }
    Ok(())
}

/// Appends the vectors of external interrupts.
fn push_lines(
    out: &mut Vec<u32>,
    image: &Image,
    target: &Target,
    layout: &Layout,
) -> Result<(), NoMemory>
    requires { layout.now ≡ laid_out image.now target.now }
    ensures { OnOk result (out.new.items ≡ out.old.items ++ spec.line_vectors image.now target.now) }
{
    for line in 0..layout.lines {
        out.push(served_at(image, target, layout, line).wrapping_add(1))?;
    }
    Ok(())
}

/// The vector table.
fn vectors(
    alloc: Global,
    image: &Image,
    target: &Target,
    layout: &Layout,
) -> Result<Vec<u32>, NoMemory>
    requires { layout.now ≡ laid_out image.now target.now }
    ensures { IfOk result (λ all. all.items ≡ spec.vectors image.now target.now) }
{
    let mut out = Vec::new(alloc);
    out.push(layout.outside.cells)?;
    out.push(layout.reset.wrapping_add(1))?;
    push_faults(&mut out, layout.fault.wrapping_add(1))?;
    out.push(layout.tick.wrapping_add(1))?;
    push_lines(&mut out, image, target, layout)?;
    Ok(out)
}

/// Appends what runs first as the interrupts of all rows are taken.
fn push_stubs(
    out: &mut Vec<Instruction>,
    at: Outside,
    image: &Image,
    target: &Target,
    stubs: &[u32],
    places: &[u32],
) -> Result<(), NoMemory>
    ensures { OnOk result (out.new.items
        ≡ out.old.items ++ entrances_from at target.now places.now stubs.now 0 image.now.irqs) }
{
    for (index, row) in image.irqs.iter().enumerate() {
        let behind = place_of(stubs, index + 1);
        push_entrance(out, at, target, places, behind, row)?;
    }
    Ok(())
}

/// Appends the code of the image's instructions.
fn push_sequences(
    out: &mut Vec<Instruction>,
    image: &Image,
    target: &Target,
    layout: &Layout,
) -> Result<(), NoMemory>
    requires { layout.now ≡ laid_out image.now target.now }
    ensures { OnOk result (out.new.items
        ≡ out.old.items ++ spec.sequences_from image.now target.now 0 image.now.code) }
{
    let (at, places) = (layout.outside, layout.places.as_slice());
    for (address, line) in image.code.iter().enumerate() {
        push_sequence(out, at, image, places, address, line.0)?;
    }
    Ok(())
}

/// All instructions of a program.
fn instructions(
    alloc: Global,
    image: &Image,
    target: &Target,
    layout: &Layout,
) -> Result<Vec<Instruction>, NoMemory>
    requires { layout.now ≡ laid_out image.now target.now }
    ensures { IfOk result (λ all. all.items ≡ spec.instructions image.now target.now) }
{
    let at = layout.outside;
    let mut out = Vec::new(alloc);
    push_fault(&mut out)?;
    push_tick(&mut out, at, timer_irq(&image.code))?;
    push_stubs(&mut out, at, image, target, &layout.stubs, &layout.places)?;
    push_reset(&mut out, at, target.tick, image, layout.load)?;
    push_sequences(&mut out, image, target, layout)?;
    Ok(out)
}

/// Appends the bytes of an encoding.
fn push_halfwords(out: &mut Vec<u8>, halfwords: Halfwords) -> Result<(), NoMemory>
    ensures { OnOk result (out.new.items ≡ out.old.items ++ spec.bytes_of_halfwords halfwords) }
{
    match halfwords {
        Halfwords::Short(only) => push_bytes(out, &only.to_le_bytes()),
        Halfwords::Wide(first, second) => {
            push_bytes(out, &first.to_le_bytes())?;
            push_bytes(out, &second.to_le_bytes())
        }
    }
}

/// Appends the bytes of an instruction, where it can be encoded.
fn push_instruction(out: &mut Vec<u8>, instruction: Instruction) -> Result<(), Unfit>
    ensures bytes { OnOk result (out.new.items ≡ out.old.items ++ spec.bytes_of_halfwords (encoded instruction)) }
    ensures reaches { OnOk result (IsEncodable instruction) }
    ensures unfit { IfErr result (λ why. why ≢ Unfit.NoMemory →
        (why ≡ Unfit.Reach) × (¬ IsEncodable instruction)) }
{
    if !is_encodable(instruction) {
        return Err(Unfit::Reach);
    }
    push_halfwords(out, encode(instruction))?;
    Ok(())
}

/// Appends the bytes of instructions, where each can be encoded.
fn push_instructions(out: &mut Vec<u8>, instructions: &[Instruction]) -> Result<(), Unfit>
    ensures bytes { OnOk result (out.new.items
        ≡ out.old.items ++ flat_map (λ i. spec.bytes_of_halfwords (encoded i)) instructions.now) }
    ensures reaches { OnOk result (All IsEncodable instructions.now) }
    ensures unfit { IfErr result (λ why. why ≢ Unfit.NoMemory →
        (why ≡ Unfit.Reach) × (¬ All IsEncodable instructions.now)) }
{
    for instruction in instructions {
        push_instruction(out, *instruction)?;
    }
    Ok(())
}

/// Appends bytes of 0.
fn push_padding(out: &mut Vec<u8>, count: u32) -> Result<(), NoMemory>
    ensures { OnOk result (out.new.items ≡ out.old.items ++ replicate count 0) }
{
    for place in 0..count {
        push_bytes(out, &[0])?;
    }
    Ok(())
}

/// The bytes of code in flash: the vector table, the instructions, and bytes of 0 up to where first values lie.
pub(crate) fn text(
    alloc: Global,
    image: &Image,
    target: &Target,
    layout: &Layout,
) -> Result<Vec<u8>, Unfit>
    requires { layout.now ≡ laid_out image.now target.now }
    ensures ok { IfOk result (λ bytes. bytes.items ≡ spec.text image.now target.now) }
    ensures reaches { OnOk result (Reaches image.now target.now) }
    ensures unfit { IfErr result (λ why. why ≢ Unfit.NoMemory →
        (why ≡ Unfit.Reach) × (¬ Reaches image.now target.now)) }
{
    let vectors = vectors(alloc, image, target, layout)?;
    let instructions = instructions(alloc, image, target, layout)?;
    let mut out = Vec::new(alloc);
    push_words(&mut out, &vectors)?;
    push_instructions(&mut out, &instructions)?;
    let count = layout.load - layout.end;
    push_padding(&mut out, count)?;
    Ok(out)
}

/// First values: of cells, of the time, and that there is no alarm.
fn first_values(alloc: Global, image: &Image) -> Result<Vec<u32>, NoMemory>
    ensures { IfOk result (λ all. all.items ≡ spec.first_values image.now) }
{
    let mut out = Vec::new(alloc);
    for cell in &image.cells {
        out.push(cell.first)?;
    }
    out.push(0)?;
    out.push(u32::MAX)?;
    Ok(out)
}

/// The bytes of data.
pub(crate) fn values(alloc: Global, image: &Image) -> Result<Vec<u8>, NoMemory>
    ensures { IfOk result (λ bytes. bytes.items ≡ spec.values image.now) }
{
    let first = first_values(alloc, image)?;
    let mut out = Vec::new(alloc);
    push_words(&mut out, &first)?;
    Ok(out)
}
